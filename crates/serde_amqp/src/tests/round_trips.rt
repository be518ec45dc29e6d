//! Values that are written and read back: what was written is what is read.
use crate::{Described, Descriptor, Error, OrderedMap, RoundTrip, from_slice, to_vec};
use std::alloc::Global;
use std::fmt::Debug;
use std::process::Abort;

/// The value comes back, with other bytes behind its own.
fn comes_back<T: RoundTrip + PartialEq + Debug + Drop>(
    rt: &impl Abort,
    alloc: Global,
    value: &T,
) -> Result<(), Error> {
    let mut bytes = to_vec(alloc, value)?;
    bytes.extend_from_slice(&[0x40, 0, 0xff])?;
    let read: T = from_slice(alloc, &bytes)?;
    assert!(rt; read == *value, "{value:?} comes back as {read:?}");
    Ok(())
}

#[test]
fn values_in_others(rt: HostRuntime) -> Result<(), Error> {
    let alloc = rt.alloc();
    comes_back(&rt, alloc, &(1u8, (true, -1i64)))?;
    let mut map = OrderedMap::new(alloc);
    let _ = map.insert(2u32, Some(true))?;
    let described = Described {
        descriptor: Descriptor::Code(0x75),
        value: map,
    };
    comes_back(&rt, alloc, &described)
}
