//! Calls that take memory: each is right, or refused for want of memory alone, and then all is as before.
//! Run with one allocation refused, `rt try --test --fail-alloc N`, each of these tests passes for every N.
use crate::{
    Array, ByteBuf, Deserialize, Deserializer, Error, IoReader, OrderedMap, SliceReader, Symbol,
    append_to_vec, from_reader, from_slice, serialized_size, to_vec,
};
use std::alloc::Global;
use std::fmt::Debug;
use std::process::Abort;

/// A call answered right, or for want of memory. Whether it was right.
fn is_right<T: PartialEq + Debug + Drop>(
    rt: &impl Abort,
    found: Result<T, Error>,
    right: &T,
) -> bool {
    match found {
        Ok(value) => {
            assert!(rt; value == *right, "{value:?}");
            true
        }
        Err(e) => {
            assert_eq!(rt; e, Error::Memory);
            false
        }
    }
}

/// Bytes are read as this value, or not for want of memory. Of two calls one at least is right, since one
/// allocation at most is refused.
fn is_read_or_refused<T: Deserialize + PartialEq + Debug + Drop>(
    rt: &impl Abort,
    alloc: Global,
    bytes: &[u8],
    right: &T,
) {
    if !is_right(rt, from_slice::<T>(alloc, bytes), right) {
        assert!(rt; is_right(rt, from_slice::<T>(alloc, bytes), right));
    }
    match from_reader::<T, IoReader<&[u8]>>(alloc, IoReader::new(alloc, bytes)) {
        Ok((read, _)) => assert!(rt; read == *right, "{read:?}"),
        Err(e) => assert_eq!(rt; e, Error::Memory),
    }
}

/// A list of so many texts "amqp".
fn texts(alloc: Global, count: usize) -> Result<Vec<String>, Error> {
    let mut texts = Vec::new(alloc);
    for _ in 0..count {
        texts.push(String::from_str(alloc, "amqp")?)?;
    }
    Ok(texts)
}

/// A list of 1,000 texts "amqp", of which a head of 9 bytes and 6 bytes each are written.
fn many_texts(alloc: Global) -> Result<(Vec<&'static str>, Vec<u8>), Error> {
    let mut bytes = Vec::from_slice(alloc, &[0xd0, 0, 0, 0x17, 0x74, 0, 0, 3, 0xe8])?;
    let mut texts = Vec::new(alloc);
    for _ in 0..1000 {
        texts.push("amqp")?;
        bytes.extend_from_slice(b"\xa1\x04amqp")?;
    }
    Ok((texts, bytes))
}

/// The size is counted without memory.
#[test]
fn written_to_a_new_vec(rt: HostRuntime) {
    let alloc = rt.alloc();
    if let Ok((list, bytes)) = many_texts(alloc) {
        assert_eq!(rt; serialized_size(&list), Ok(6009));
        if !is_right(&rt, to_vec(alloc, &list), &bytes) {
            assert!(rt; is_right(&rt, to_vec(alloc, &list), &bytes));
        }
    }
}

#[test]
fn written_behind_others(rt: HostRuntime) {
    let alloc = rt.alloc();
    let (Ok(list), Ok(mut bytes)) = (texts(alloc, 2), Vec::from_slice(alloc, &[7])) else {
        return;
    };
    match append_to_vec(alloc, &list, &mut bytes) {
        Ok(()) => assert_eq!(rt;
            bytes.as_slice(),
            b"\x07\xc0\x0d\x02\xa1\x04amqp\xa1\x04amqp".as_slice()
        ),
        Err(e) => {
            assert_eq!(rt; e, Error::Memory);
            assert_eq!(rt; bytes.as_slice(), [7].as_slice());
        }
    }
}

#[test]
fn read_texts_and_binaries(rt: HostRuntime) {
    let alloc = rt.alloc();
    if let Ok(text) = String::from_str(alloc, "amqp") {
        is_read_or_refused(&rt, alloc, b"\xa1\x04amqp", &text);
    }
    if let Ok(symbol) = Symbol::from_str(alloc, "amqp") {
        is_read_or_refused(&rt, alloc, b"\xa3\x04amqp", &symbol);
    }
    if let Ok(binary) = ByteBuf::from_slice(alloc, b"amqp") {
        is_read_or_refused(&rt, alloc, b"\xa0\x04amqp", &binary);
    }
}

/// The map of one pair.
fn one_pair(alloc: Global) -> Result<OrderedMap<String, u32>, Error> {
    let mut map = OrderedMap::new(alloc);
    let _ = map.insert(String::from_str(alloc, "amqp")?, 7)?;
    Ok(map)
}

#[test]
fn read_compounds(rt: HostRuntime) {
    let alloc = rt.alloc();
    if let Ok(list) = texts(alloc, 2) {
        is_read_or_refused(&rt, alloc, b"\xc0\x0d\x02\xa1\x04amqp\xa1\x04amqp", &list);
        let array = Array::from(list);
        is_read_or_refused(&rt, alloc, b"\xe0\x0c\x02\xa1\x04amqp\x04amqp", &array);
    }
    if let Ok(map) = one_pair(alloc) {
        is_read_or_refused(&rt, alloc, b"\xc1\x09\x02\xa1\x04amqp\x52\x07", &map);
    }
}

/// A reader whose call was refused has failed.
#[test]
fn read_on(rt: HostRuntime) {
    let alloc = rt.alloc();
    let mut de = Deserializer::new(SliceReader::new(b"\xa1\x04amqp\x43"));
    match String::deserialize(alloc, &mut de) {
        Ok(text) => {
            assert_eq!(rt; text.as_str(), "amqp");
            assert_eq!(rt; u32::deserialize(alloc, &mut de), Ok(0));
        }
        Err(e) => {
            assert_eq!(rt; e, Error::Memory);
            assert!(rt; u32::deserialize(alloc, &mut de).is_err());
        }
    }
}
