//! Traps and claims.
ghost use Rattle.std.specs.Prelude.{◌≤◌, length};

use asset_bundles::{AssetBundle, Total, TrapStore, Unknown, law_of_traps};
use asset_lists::{Asset, AssetId, Assets, Fun, Instance, Kind};
use locations::{Junction, Junctions, Location};
use std::alloc::{AllocError, Global};
use std::test::Fail;

fn place(items: &[Junction]) -> Location
    requires { length items.now ≤ 8 }
{
    let interior = Junctions::from_few(items);
    Location {
        parents: 0,
        interior,
    }
}

fn coin() -> AssetId {
    AssetId::Concrete(place(&[]))
}

fn class() -> AssetId {
    AssetId::Concrete(place(&[Junction::GeneralIndex(1)]))
}

fn coins(amount: u128) -> Asset {
    Asset {
        id: coin(),
        fun: Fun::Fungible(amount),
    }
}

fn piece(number: u128) -> Asset {
    Asset {
        id: class(),
        fun: Fun::NonFungible(Instance::Index(number)),
    }
}

/// Traps the listed assets: the number of the first trap, and how many there are; None where nothing is listed or memory is refused.
fn trapped(
    alloc: Global,
    store: &mut TrapStore,
    list: &Assets,
    origin: &Location,
) -> Result<Option<(u64, usize)>, AllocError> {
    let goods = AssetBundle::mint(alloc, list.items())?;
    if goods.kinds() == 0 {
        goods.melt();
        return Ok(None);
    }
    let pieces = TrapStore::pieces(&goods);
    match store.trap(goods, origin) {
        Ok(number) => Ok(Some((number, pieces))),
        Err(back) => {
            back.melt();
            Ok(None)
        }
    }
}

/// How many kinds a claim gives.
fn claimed(store: &mut TrapStore, list: &Assets, origin: &Location) -> Result<usize, Unknown> {
    let goods = store.claim(list, origin)?;
    let kinds = goods.kinds();
    goods.melt();
    Ok(kinds)
}

/// Whether so much of the coin is trapped, and so many pieces of the class.
fn has(store: &TrapStore, coins: u128, pieces: u128) -> bool {
    let some = |low| Total { low, high: 0 };
    store.total(&coin(), Kind::Fungible) == some(coins)
        && store.total(&class(), Kind::Class) == some(pieces)
}

/// Whether a claim gives so many kinds, or none where no trap fits, and leaves so much.
fn gives(
    store: &mut TrapStore,
    list: &Assets,
    origin: &Location,
    (kinds, coins, pieces): (usize, u128, u128),
) -> bool {
    claimed(store, list, origin).unwrap_or(0) == kinds && has(store, coins, pieces)
}

/// A coin and two pieces.
fn listed(alloc: Global) -> Result<Assets, Fail> {
    Ok(Assets::from_sorted(vec![in alloc; coins(7), piece(1), piece(2)]?)?)
}

/// Traps a list twice: whether the traps have their numbers.
fn traps_two(
    alloc: Global,
    store: &mut TrapStore,
    list: &Assets,
    origin: &Location,
) -> Result<bool, AllocError> {
    let first = trapped(alloc, store, list, origin)?;
    let second = trapped(alloc, store, list, origin)?;
    Ok(first == Some((1, 1)) && second == Some((2, 1)))
}

/// Whether the two are claimed by their origin alone, one after the other.
fn are_claimed(store: &mut TrapStore, list: &Assets, origin: &Location) -> bool {
    let other = place(&[Junction::GeneralIndex(1)]);
    gives(store, list, &other, (0, 14, 4))
        && gives(store, list, origin, (3, 7, 2))
        && gives(store, list, origin, (3, 0, 0))
        && gives(store, list, origin, (0, 0, 0))
        && store.traps().next().is_none()
}

/// Whether a list is trapped twice and claimed twice.
fn goes(alloc: Global) -> Result<bool, Fail> {
    let list = listed(alloc)?;
    let origin = place(&[]);
    let mut store = TrapStore::new(alloc);
    Ok(traps_two(alloc, &mut store, &list, &origin)? && are_claimed(&mut store, &list, &origin))
}

#[test]
fn the_oldest_trap_of_a_list_is_claimed(rt: HostRuntime) -> Result<(), Fail> {
    law_of_traps();
    assert!(rt; goes(rt.alloc())?);
    Ok(())
}
