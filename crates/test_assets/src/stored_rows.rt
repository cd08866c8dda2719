//! Locations, ids and lists as tables keep them.
use crate::path_rows::place;
use asset_lists::{AssetId, StoredId};
use locations::{Junction, Location, StoredLocation};
use plain_lists::SharedList;
use std::alloc::{AllocError, Global};
use std::test::Fail;

/// Parents and junctions, and another location with its own.
const PLACES: &[(u8, &[Junction], u8, &[Junction], bool)] = &[
    (0, &[], 0, &[], true),
    (0, &[], 1, &[], false),
    (1, ASSETS, 1, ASSETS, true),
    (1, ASSETS, 1, OTHER, false),
    (1, ASSETS, 1, PALLET, false),
];

const ASSETS: &[Junction] = &[Junction::PalletInstance(50), Junction::GeneralIndex(1984)];

const OTHER: &[Junction] = &[Junction::PalletInstance(50), Junction::GeneralIndex(1985)];

const PALLET: &[Junction] = &[Junction::PalletInstance(50)];

/// Whether the location is kept as it is, and is the other or not.
fn is_kept(
    alloc: Global,
    own: &Location,
    other: &Location,
    same: bool,
) -> Result<bool, AllocError> {
    let stored = StoredLocation::of(alloc, own)?;
    let second = StoredLocation::of(alloc, other)?;
    Ok(stored.to_location() == *own && stored.is(other) == same && (stored == second) == same)
}

/// Whether the id is kept as it is, and is the other or not.
fn is_kept_as_id(
    alloc: Global,
    own: &AssetId,
    other: &AssetId,
    same: bool,
) -> Result<bool, AllocError> {
    let stored = StoredId::of(alloc, own)?;
    Ok(stored.to_id() == *own && stored.is(other) == same)
}

#[test]
fn locations_and_ids_are_kept_as_they_are(rt: HostRuntime) -> Result<(), Fail> {
    let alloc = rt.alloc();
    for (parents, own, other_parents, other, same) in PLACES {
        let (own, other) = (place(*parents, own)?, place(*other_parents, other)?);
        assert!(rt; is_kept(alloc, &own, &other, *same)?);
        let (own, other) = (AssetId::Concrete(own), AssetId::Concrete(other));
        assert!(rt; is_kept_as_id(alloc, &own, &other, *same)?);
        assert!(rt; is_kept_as_id(alloc, &own, &AssetId::Abstract([7; 32]), false)?);
    }
    let (own, other) = (AssetId::Abstract([7; 32]), AssetId::Abstract([8; 32]));
    assert!(rt; is_kept_as_id(alloc, &own, &own, true)?);
    assert!(rt; is_kept_as_id(alloc, &own, &other, false)?);
    Ok(())
}

#[test]
fn a_list_is_shared(rt: HostRuntime) -> Result<(), Fail> {
    let list = SharedList::from_vec(rt.alloc(), Vec::from_array(rt.alloc(), [1u8, 2, 3])?)?;
    let second = list.share()?;
    drop(list);
    assert!(rt; second.items() == [1u8, 2, 3].as_slice());
    Ok(())
}
