//! Composite types, read and written (part 1, section 1.4).
use crate::{
    Deserializer, Error, IsArrayElement, Serializer, SliceReader, read_record, serialize_record,
};
use std::alloc::Global;

/// A composite type with the descriptor 17.
#[derive(Drop)]
struct Numbers {
    first: Option<u16>,
    second: u32,
    third: Option<bool>,
}

fn record(alloc: Global, numbers: &Numbers) -> Result<Vec<u8>, Error> {
    let mut s = Serializer::new(Vec::new(alloc));
    serialize_record(
        &mut s,
        17,
        &(&numbers.first, (&numbers.second, (&numbers.third, ()))),
    )?;
    Ok(s.into_inner())
}

#[test]
fn written(rt: HostRuntime) -> Result<(), Error> {
    let alloc = rt.alloc();
    let cut = Numbers {
        first: None,
        second: 7,
        third: None,
    };
    assert_eq!(rt;
        record(alloc, &cut)?.as_slice(),
        [0, 0x53, 17, 0xc0, 4, 2, 0x40, 0x52, 7].as_slice()
    );
    let whole = Numbers {
        first: Some(1),
        second: 0,
        third: Some(false),
    };
    assert_eq!(rt;
        record(alloc, &whole)?.as_slice(),
        [0, 0x53, 17, 0xc0, 6, 3, 0x60, 0, 1, 0x43, 0x42].as_slice()
    );
    let mut s = Serializer::new(Vec::new(alloc));
    serialize_record(&mut s, 36, &(None::<bool>, ()))?;
    assert_eq!(rt; s.into_inner().as_slice(), [0, 0x53, 36, 0x45].as_slice());
    let mut s = Serializer::at(Vec::new(alloc), IsArrayElement::FirstElement);
    assert_eq!(rt; serialize_record(&mut s, 36, &()), Err(Error::InvalidValue));
    Ok(())
}

#[test]
fn read(rt: HostRuntime) {
    let alloc = rt.alloc();
    let name = "a:b".as_bytes();
    let cases: [(&[u8], Result<(u32, Option<bool>), Error>); 9] = [
        (
            &[0x00, 0x53, 0x11, 0xc0, 0x04, 0x02, 0x52, 0x07, 0x41],
            Ok((7, Some(true))),
        ),
        (
            &[
                0x00, 0x80, 0, 0, 0, 0, 0, 0, 0, 0x11, 0xc0, 0x03, 0x01, 0x52, 0x07,
            ],
            Ok((7, None)),
        ),
        (
            &[
                0x00, 0xa3, 3, 0x61, 0x3a, 0x62, 0xc0, 0x03, 0x02, 0x43, 0x40,
            ],
            Ok((0, None)),
        ),
        (
            &[0x00, 0x53, 0x12, 0xc0, 0x02, 0x01, 0x43],
            Err(Error::InvalidValue),
        ),
        (
            &[0x00, 0xa3, 3, 0x61, 0x3a, 0x63, 0xc0, 0x02, 0x01, 0x43],
            Err(Error::InvalidValue),
        ),
        (
            &[0x00, 0x53, 0x11, 0x45],
            Err(Error::SequenceLengthMismatch),
        ),
        (
            &[0x00, 0x53, 0x11, 0xc0, 0x04, 0x03, 0x43, 0x40, 0x40],
            Err(Error::SequenceLengthMismatch),
        ),
        (
            &[0x00, 0x53, 0x11, 0xc0, 0x03, 0x01, 0x43, 0x40],
            Err(Error::InvalidLength),
        ),
        (
            &[0x53, 0x11, 0xc0, 0x02, 0x01, 0x43],
            Err(Error::InvalidFormatCode),
        ),
    ];
    for (bytes, fields) in cases {
        let mut de = Deserializer::new(SliceReader::new(bytes));
        let found = read_record::<(u32, (Option<bool>, ())), SliceReader>(
            alloc, &mut de, 0x11, name,
        );
        let found = match found {
            Ok((number, (flag, ()))) => Ok((number, flag)),
            Err(e) => Err(e),
        };
        assert_eq!(rt; found, fields, "at {bytes:?}");
    }
}
