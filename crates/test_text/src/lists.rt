//! `Listed` as its list.

use plain_lists::Listed;
use std::alloc::{AllocError, Global};
use std::test::Fail;

/// A list of these numbers.
fn listed(alloc: Global, items: &[u32]) -> Result<Listed<u32>, AllocError> {
    Ok(Listed::from_vec(items.to_vec(alloc)?))
}

#[test]
fn a_listed_is_its_list(rt: HostRuntime) -> Result<(), Fail> {
    let mut seen = Listed::from_vec(vec![in rt.alloc(); 3u32, 1, 2]?);
    assert!(rt; seen.items() == [3, 1, 2].as_slice());
    let old = seen.replace(1, 7);
    assert!(rt; old == 1);
    assert!(rt; seen.into_vec().as_slice() == [3, 7, 2].as_slice());
    Ok(())
}

/// A list of the number 3 in room for eight.
fn roomy(alloc: Global) -> Result<Listed<u32>, AllocError> {
    let mut items = Vec::with_capacity(alloc, 8)?;
    items.push(3)?;
    Ok(Listed::from_vec(items))
}

/// Lists, and whether they are that of the number 3.
const LISTS: &[(&[u32], bool)] = &[(&[3], true), (&[3, 3], false), (&[], false)];

#[test]
fn lists_are_equal_whatever_their_room(rt: HostRuntime) -> Result<(), Fail> {
    for (items, want) in LISTS {
        let same = roomy(rt.alloc())? == listed(rt.alloc(), items)?;
        assert!(rt; same == *want);
    }
    Ok(())
}
