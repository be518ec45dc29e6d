//! Compound serializers, which write a value part by part (part 1, sections 1.2, 1.4, 1.6.22 and 1.6.23).
use crate::{Array, Counter, Error, Serializer, Sink};
use std::alloc::Global;
use std::process::Abort;

/// A serializer over bytes in memory.
fn writer(alloc: Global) -> Serializer<Vec<u8>> {
    Serializer::new(Vec::new(alloc))
}

/// These bytes were written.
fn wrote(rt: &impl Abort, s: Serializer<Vec<u8>>, bytes: &[u8]) {
    assert_eq!(rt; s.into_inner().as_slice(), bytes);
}

#[test]
fn lists(rt: HostRuntime) -> Result<(), Error> {
    let mut s = writer(rt.alloc());
    s.serialize_seq().end()?;
    let mut list = s.serialize_seq();
    list.serialize_element(&1u32)?;
    list.serialize_element(&"a")?;
    list.end()?;
    let mut tuple = s.serialize_tuple();
    tuple.serialize_element(&true)?;
    tuple.end()?;
    let mut fields = s.serialize_tuple_struct();
    fields.serialize_field(&None::<u8>)?;
    fields.end()?;
    wrote(
        &rt,
        s,
        b"\x45\xc0\x06\x02\x52\x01\xa1\x01a\xc0\x02\x01\x41\xc0\x02\x01\x40",
    );
    Ok(())
}

/// A variant is a map of one pair: its index, and the list of its fields.
#[test]
fn maps_and_variants(rt: HostRuntime) -> Result<(), Error> {
    let mut s = writer(rt.alloc());
    let mut map = s.serialize_map();
    map.serialize_key(&"a")?;
    map.serialize_value(&1u32)?;
    map.serialize_entry(&"b", &false)?;
    map.end()?;
    let mut fields = s.serialize_variant(1)?;
    fields.serialize_field(&7u32)?;
    fields.end()?;
    wrote(
        &rt,
        s,
        b"\xc1\x0a\x04\xa1\x01a\x52\x01\xa1\x01b\x42\xc1\x08\x02\x52\x01\xc0\x03\x01\x52\x07",
    );
    Ok(())
}

/// A list with the descriptor 17 of two fields.
fn described_list<W: Sink>(s: &mut Serializer<W>) -> Result<(), Error> {
    let mut fields = s.described_list(17)?;
    fields.serialize_field("number", &7u32)?;
    fields.serialize_field("flag", &true)?;
    fields.end()
}

/// A map with the descriptor 256 of two fields.
fn described_map<W: Sink>(s: &mut Serializer<W>) -> Result<(), Error> {
    let mut fields = s.described_map(256)?;
    fields.serialize_field("a", &7u32)?;
    fields.serialize_field("bc", &true)?;
    fields.end()
}

#[test]
fn described_structs(rt: HostRuntime) -> Result<(), Error> {
    let alloc = rt.alloc();
    let list = b"\0\x53\x11\xc0\x04\x02\x52\x07\x41";
    let mut s = writer(alloc);
    described_list(&mut s)?;
    wrote(&rt, s, list);
    let map = b"\0\x80\0\0\0\0\0\0\x01\0\xc1\x0b\x04\xa3\x01a\x52\x07\xa3\x02bc\x41";
    let mut s = writer(alloc);
    described_map(&mut s)?;
    wrote(&rt, s, map);
    let mut s = Serializer::new(Counter::new());
    described_list(&mut s)?;
    described_map(&mut s)?;
    assert_eq!(rt; s.into_inner().count(), 9 + 23);
    let mut s = writer(alloc);
    s.described_list(0)?.end()?;
    s.described_map(255)?.end()?;
    wrote(&rt, s, b"\0\x44\x45\0\x53\xff\xc1\x01\0");
    Ok(())
}

/// A serializer over bytes that refuses a value has the bytes that it had, and writes the next one behind them.
#[test]
fn a_serializer_that_refuses(rt: HostRuntime) -> Result<(), Error> {
    let alloc = rt.alloc();
    let array = Array::from(vec![in alloc; Some(1u32), None]?);
    let list = vec![in alloc; array]?;
    let mut s = Serializer::new(Vec::from_slice(alloc, &[7, 8])?);
    assert_eq!(rt; s.write_value(&list), Err(Error::InvalidValue));
    assert_eq!(rt; s.writer().as_slice(), [7, 8].as_slice());
    s.write_value(&256u32)?;
    assert_eq!(rt; s.writer().as_slice(), [7, 8, 0x70, 0, 0, 1, 0].as_slice());
    Ok(())
}

/// An array whose second element is refused leaves what stood before it, and so does the `end` of a map whose last
/// key has no value; an element that is refused leaves its list.
#[test]
fn what_is_refused_is_taken_back(rt: HostRuntime) -> Result<(), Error> {
    let alloc = rt.alloc();
    let mut s = Serializer::new(Vec::from_slice(alloc, &[7])?);
    assert_eq!(rt;
        s.serialize_array(&[Some(1u32), None]),
        Err(Error::InvalidValue)
    );
    let mut map = s.serialize_map();
    map.serialize_key(&1u32)?;
    assert_eq!(rt; map.end(), Err(Error::SequenceLengthMismatch));
    wrote(&rt, s, b"\x07");
    let array = Array::from(vec![in alloc; Some(1u32), None]?);
    let mut s = writer(alloc);
    let mut list = s.serialize_seq();
    list.serialize_element(&true)?;
    assert_eq!(rt; list.serialize_element(&array), Err(Error::InvalidValue));
    list.end()?;
    wrote(&rt, s, b"\xc0\x02\x01\x41");
    Ok(())
}
