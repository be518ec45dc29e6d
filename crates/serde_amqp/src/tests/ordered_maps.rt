//! The calls of a map in the order of its pairs.
use crate::OrderedMap;
use std::test::Fail;

#[test]
fn walked(rt: HostRuntime) -> Result<(), Fail> {
    let alloc = rt.alloc();
    let mut map: OrderedMap<u32, u32> = OrderedMap::from_pairs(
        alloc,
        vec![in alloc; (3, 30), (1, 10), (3, 31)]?,
    )?;
    let mut walk = map.iter();
    assert_eq!(rt; walk.next().map(|pair| *pair.1), Some(31));
    if let Some(value) = map.get_mut(&1) {
        *value = 11;
    }
    assert_eq!(rt; map.get(&1).copied(), Some(11));
    let mut gone = map.drain(..);
    assert_eq!(rt; gone.next(), Some((3, 31)));
    assert_eq!(rt; gone.next(), Some((1, 11)));
    drop(gone);
    assert!(rt; map.is_empty());
    Ok(())
}
