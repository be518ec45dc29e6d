//! Values that are kept as their bytes.
use crate::{Error, RawValue, from_slice, to_vec};
use std::alloc::Global;

#[test]
fn kept_bytes(rt: HostRuntime) -> Result<(), Error> {
    let alloc = rt.alloc();
    let form = &[0x00, 0x53, 0x75, 0xa0, 1, 7];
    let value = RawValue::from_bytes(alloc, form)?;
    assert_eq!(rt; value.as_bytes(), form.as_slice());
    assert!(rt; !value.is_null());
    assert_eq!(rt; value.into_bytes().as_slice(), form.as_slice());
    let behind = RawValue::from_bytes(alloc, &[0x40, 0x40]).err();
    assert_eq!(rt; behind, Some(Error::InvalidLength));
    Ok(())
}

#[test]
fn kept_values(rt: HostRuntime) -> Result<(), Error> {
    let seven = RawValue::of(rt.alloc(), &7u32)?;
    assert_eq!(rt; seven.as_bytes(), [0x52, 7].as_slice());
    assert_eq!(rt; seven.read::<u32>(rt.alloc()), Ok(7));
    assert_eq!(rt;
        seven.read::<u64>(rt.alloc()),
        Err(Error::InvalidFormatCode)
    );
    Ok(())
}

/// 100,000 lists of one item in each other, round an empty list: each of nine bytes and what it holds.
fn lists(alloc: Global) -> Result<Vec<u8>, Error> {
    let mut bytes = Vec::new(alloc);
    let mut size: u32 = 899996;
    for _ in 0..100000 {
        bytes.push(0xd0)?;
        bytes.extend_from_slice(&size.to_be_bytes())?;
        bytes.extend_from_slice(&[0, 0, 0, 1])?;
        size = size.saturating_sub(9);
    }
    bytes.push(0x45)?;
    Ok(bytes)
}

#[test]
fn lists_in_each_other(rt: HostRuntime) -> Result<(), Error> {
    let alloc = rt.alloc();
    let bytes = lists(alloc)?;
    let value: RawValue = from_slice(alloc, &bytes)?;
    assert_eq!(rt; value.as_bytes().len(), 900001);
    assert!(rt; value.as_bytes() == bytes.as_slice());
    assert!(rt; to_vec(alloc, &value)? == bytes);
    Ok(())
}
