//! Bundles, shipments and the book of burns.
ghost use Rattle.std.specs.Prelude.{◌≡◌, [], IfOk};
ghost use Rattle.asset_lists.specs.declared.units.AssetId.TheVariants.{Concrete};
ghost use Rattle.asset_bundles.specs.Bundles.{bundle_of};

use asset_bundles::{
    AssetBundle, BurnBook, Cause, Shipment, TakeFault, Total, Units, Way, law_of_bundles,
    law_of_conserved_bundles, law_of_filters, law_of_joins, law_of_landing, law_of_listed_assets,
    law_of_saturating_burn_totals,
};
use asset_lists::{Asset, AssetId, Assets, Filter, Fun, Instance, Kind, Wild, WildFun};
use locations::{Junction, Junctions, Location, NetworkId};
use plain_lists::Boxed;
use std::alloc::{AllocError, Global};
use std::test::Fail;

fn coin() -> AssetId
    ensures { result ≡ Concrete (record { parents = 0; interior = [] }) }
{
    AssetId::Concrete(Location {
        parents: 0,
        interior: Junctions::empty(),
    })
}

fn class() -> AssetId {
    AssetId::Concrete(Location {
        parents: 0,
        interior: Junctions::from_few(&[Junction::GeneralIndex(1)]),
    })
}

fn coins(number: u128) -> Asset {
    Asset {
        id: coin(),
        fun: Fun::Fungible(number),
    }
}

fn piece(number: u128) -> Asset {
    Asset {
        id: class(),
        fun: Fun::NonFungible(Instance::Index(number)),
    }
}

/// So much of the fungible asset, if any, and the instances from `from` to before `to`.
fn listed(alloc: Global, number: u128, from: u128, to: u128) -> Result<Assets, Fail> {
    let mut items = Vec::new(alloc);
    if number > 0 {
        items.push(coins(number))?;
    }
    for index in from..to {
        items.push(piece(index))?;
    }
    Ok(Assets::from_sorted(items)?)
}

fn minted(alloc: Global, list: &Assets) -> Result<AssetBundle, AllocError>
    ensures { IfOk result (λ goods. goods ≡ bundle_of list.now) }
{
    AssetBundle::mint(alloc, list.items())
}

/// The filter of this number: four wildcards, and two lists that ask for more than is held.
fn filter(alloc: Global, number: u8) -> Result<Filter, Fail> {
    Ok(match number {
        0 => Filter::Wild(Wild::AllCounted(2)),
        1 => Filter::Wild(Wild::AllOfCounted {
            id: Boxed::new(alloc, coin())?,
            fun: WildFun::Fungible,
            count: 0,
        }),
        2 => Filter::Wild(Wild::AllOf {
            id: Boxed::new(alloc, class())?,
            fun: WildFun::NonFungible,
        }),
        3 => Filter::Wild(Wild::All),
        4 => Filter::Definite(listed(alloc, 9, 1, 2)?),
        _ => Filter::Definite(listed(alloc, 9, 1, 1)?),
    })
}

/// Filters by their number, and what each takes of 7 of the fungible asset and the instances 1 and 2, and what it leaves: an amount, and
/// the instances from one to before another.
const FILTERS: &[(u8, [u128; 3], [u128; 3])] = &[
    (0, [7, 1, 2], [0, 2, 3]),
    (1, [0, 1, 1], [7, 1, 3]),
    (2, [0, 1, 3], [7, 3, 3]),
    (3, [7, 1, 3], [0, 3, 3]),
    (4, [7, 1, 2], [0, 2, 3]),
    (5, [7, 1, 1], [0, 1, 3]),
];

/// Whether the items are so much of the fungible asset and these instances.
fn is_listed(alloc: Global, items: Vec<Asset>, want: [u128; 3]) -> Result<bool, Fail> {
    let list = Assets::from_sorted(items)?;
    Ok(list == listed(alloc, want[0], want[1], want[2])?)
}

/// Takes by the filter and puts back: what was told, what was taken and what was left; nothing where the goods weren't put back.
fn parted(
    holding: &mut AssetBundle,
    filter: &Filter,
) -> Result<Option<(Vec<Asset>, Vec<Asset>, Vec<Asset>)>, AllocError> {
    let told = holding.min(filter)?;
    let goods = holding.take(filter)?;
    let left = holding.list();
    let taken = goods.list();
    match holding.put_back(goods) {
        Ok(()) => Ok(Some((told, taken?, left?))),
        Err(goods) => {
            goods.melt();
            Ok(None)
        }
    }
}

/// Whether the filter is told to take and takes so much, and leaves so much.
fn parts(
    alloc: Global,
    holding: &mut AssetBundle,
    filter: &Filter,
    want: ([u128; 3], [u128; 3]),
) -> Result<bool, Fail> {
    let Some((told, taken, left)) = parted(holding, filter)? else {
        return Ok(false);
    };
    Ok(
        is_listed(alloc, told, want.0)?
            && is_listed(alloc, taken, want.0)?
            && is_listed(alloc, left, want.1)?,
    )
}

/// Whether 7 of the fungible asset and the two listed instances are held.
fn has_all(holding: &AssetBundle, all: &Assets) -> bool {
    holding.contains(all)
        && holding.kinds() == 3
        && holding.amount(&coin()) == 7
        && holding.total(&class(), Kind::Class) == 2
}

/// Whether the filter of this number takes and leaves so much of all that is held, and all is held again after it.
fn takes(alloc: Global, number: u8, taken: [u128; 3], left: [u128; 3]) -> Result<bool, Fail> {
    let all = listed(alloc, 7, 1, 3)?;
    let filter = filter(alloc, number)?;
    let mut holding = minted(alloc, &all)?;
    let right = parts(alloc, &mut holding, &filter, (taken, left));
    let whole = has_all(&holding, &all);
    holding.melt();
    Ok(right? && whole)
}

/// Whether the listed assets are taken of 7 of the fungible asset and the instances 1 and 2, and how many kinds are left then.
fn tried(alloc: Global, asked: &Assets) -> Result<(bool, usize), Fail> {
    let all = listed(alloc, 7, 1, 3)?;
    let mut holding = minted(alloc, &all)?;
    let held = match holding.try_take(asked) {
        Ok(goods) => {
            goods.melt();
            true
        }
        Err(fault) => fault == TakeFault::Memory,
    };
    let kinds = holding.kinds();
    holding.melt();
    Ok((held, kinds))
}

/// What is asked for, an amount and the instances from 1 to before another; whether it is taken, and how many kinds are left.
const TRIES: &[(u128, u128, bool, usize)] = &[
    (7, 3, true, 0),
    (8, 3, false, 3),
    (7, 4, false, 3),
    (9, 1, false, 3),
];

/// Whether an amount and these instances are taken or not, and so many kinds are left.
fn is_tried(alloc: Global, number: u128, to: u128, held: bool, kinds: usize) -> Result<bool, Fail> {
    let asked = listed(alloc, number, 1, to)?;
    Ok(tried(alloc, &asked)? == (held, kinds))
}

/// What a join of the two lists, as bundles, would give up.
fn excess(alloc: Global, first: &Assets, second: &Assets) -> Result<Vec<Asset>, AllocError> {
    let holding = minted(alloc, first)?;
    let other = match minted(alloc, second) {
        Ok(other) => other,
        Err(fault) => {
            holding.melt();
            return Err(fault);
        }
    };
    let excess = holding.excess(&other);
    holding.melt();
    other.melt();
    excess
}

const MOST: u128 = u128::MAX;

/// Two bundles, each an amount and instances, and what a join would give up.
const JOINS: &[([u128; 3], [u128; 3], [u128; 3])] = &[
    ([MOST, 1, 1], [1, 1, 1], [1, 1, 1]),
    ([5, 1, 3], [2, 3, 5], [0, 1, 1]),
    ([MOST, 1, 3], [MOST, 2, 4], [MOST, 2, 3]),
];

/// Whether a join of the two would give up so much.
fn exceeds(
    alloc: Global,
    first: [u128; 3],
    second: [u128; 3],
    above: [u128; 3],
) -> Result<bool, Fail> {
    let first = listed(alloc, first[0], first[1], first[2])?;
    let second = listed(alloc, second[0], second[1], second[2])?;
    is_listed(alloc, excess(alloc, &first, &second)?, above)
}

/// Joins 1 of the fungible asset to the most that there can be of it: what is kept, and what the book then has as saturated.
fn saturated(alloc: Global) -> Result<(u128, Total), AllocError> {
    let mut book = BurnBook::new(alloc, &[(coin(), Kind::Fungible)])?;
    let most = Asset {
        id: coin(),
        fun: Fun::Fungible(MOST),
    };
    let one = Asset {
        id: coin(),
        fun: Fun::Fungible(1),
    };
    let goods = AssetBundle::mint(alloc, &[one])?;
    // Units at rest may be dropped, should memory be refused.
    let resting = goods.set_down();
    let mut holding = AssetBundle::mint(alloc, &[most])?;
    let other = AssetBundle::take_up(resting);
    if let Err(other) = holding.join(other, &mut book) {
        other.melt();
    }
    let kept = holding.amount(&coin());
    holding.melt();
    let booked = book.total(&coin(), Kind::Fungible, Cause::Saturated);
    Ok((kept, booked))
}

/// Burns, loses and joins empty bundles: whether the join was out of memory.
fn give_up_nothing(alloc: Global, book: &mut BurnBook) -> bool {
    AssetBundle::empty(alloc).burn(book, Cause::BurnAsset);
    let shipment = AssetBundle::empty(alloc).ship(Way::Teleport);
    shipment.lose(book);
    let other = AssetBundle::empty(alloc);
    let mut holding = AssetBundle::empty(alloc);
    let lost = match holding.join(other, book) {
        Ok(()) => false,
        Err(other) => {
            other.melt();
            true
        }
    };
    holding.melt();
    lost
}

/// 2^128.
const ABOVE: Total = Total { high: 1, low: 0 };

const GREATEST: Total = Total {
    high: u32::MAX,
    low: u128::MAX,
};

/// Whether totals are added and saturate.
fn are_added() -> bool {
    Total::ZERO.plus(u128::MAX).plus(1) == ABOVE
        && ABOVE.sum(ABOVE) == Total { high: 2, low: 0 }
        && GREATEST.sum(ABOVE) == GREATEST
        && GREATEST.sum(GREATEST) == GREATEST
        && GREATEST.plus(1) == GREATEST
        && Total::ZERO.plus(u128::MAX) < ABOVE
        && ABOVE < GREATEST
}

/// Whether nothing is booked of what is given up of nothing.
fn is_booked(alloc: Global, book: &mut BurnBook) -> bool {
    !give_up_nothing(alloc, book)
        && book.total(&coin(), Kind::Fungible, Cause::BurnAsset) == Total::ZERO
        && book.total(&coin(), Kind::Class, Cause::LostTeleport) == Total::ZERO
}

/// Whether burns are added up in a new book.
fn are_booked(alloc: Global) -> Result<bool, AllocError> {
    let assets = [(coin(), Kind::Fungible), (class(), Kind::Class)];
    let mut book = BurnBook::new(alloc, &assets)?;
    Ok(is_booked(alloc, &mut book))
}

/// Whether what is burned of an asset for two causes is summed.
fn are_summed(alloc: Global) -> Result<bool, AllocError> {
    let mut book = BurnBook::new(alloc, &[(coin(), Kind::Fungible)])?;
    book.add(&coin(), Kind::Fungible, Cause::BurnAsset, 5);
    book.add(&coin(), Kind::Fungible, Cause::LostTeleport, 7);
    let twelve = Total { high: 0, low: 12 };
    Ok(
        book.burned(&coin(), Kind::Fungible) == twelve
            && book.burned(&class(), Kind::Class) == Total::ZERO,
    )
}

/// Whether the units are those of the list, 7 of the fungible asset among them, in so many kinds.
fn rests(units: &Units, list: &Assets, kinds: usize) -> Result<bool, AllocError> {
    let items = units.list()?;
    Ok(units.is_list(list) && units.total(&coin(), Kind::Fungible) == 7 && items.len() == kinds)
}

/// Whether a withdrawal of two instances is under way, in so many kinds.
fn is_under_way(shipment: &Shipment, kinds: usize) -> Result<bool, AllocError> {
    let items = shipment.list()?;
    Ok(
        shipment.way() == Way::Withdrawal
            && shipment.total(&class(), Kind::Class) == 2
            && items.len() == kinds,
    )
}

/// Whether units rest, and are shipped.
fn are_shipped(alloc: Global) -> Result<bool, Fail> {
    let list = listed(alloc, 7, 1, 3)?;
    let units = minted(alloc, &list)?.set_down();
    let rest = rests(&units, &list, 3)?;
    let shipment = AssetBundle::take_up(units).ship(Way::Withdrawal);
    Ok(rest && is_under_way(&shipment, 3)?)
}

#[test]
fn the_laws_of_bundles_can_be_called() {
    law_of_bundles();
    law_of_filters();
    law_of_joins();
    law_of_listed_assets();
    law_of_landing();
    law_of_saturating_burn_totals();
    law_of_conserved_bundles();
}

/// Ships the listed assets, and lands them as the target names them: what has arrived, in holding order.
fn landed(
    alloc: Global,
    list: &Assets,
    target: &Location,
    context: &Junctions,
) -> Result<Vec<Asset>, Fail> {
    let seen = list.reanchored(target, context)?;
    let shipment = minted(alloc, list)?.ship(Way::Teleport);
    // For the prover alone: the units of what is shipped stay apart.
    law_of_landing();
    let goods = shipment.land(target, context);
    let arrived = goods.list();
    let is_seen = goods.contains(&seen);
    goods.melt();
    if is_seen {
        Ok(arrived?)
    } else {
        Ok(Vec::new(alloc))
    }
}

/// So much of what the junctions name at the location so many levels up.
fn coins_of(number: u128, parents: u8, interior: Junctions) -> Asset {
    Asset {
        id: AssetId::Concrete(Location { parents, interior }),
        fun: Fun::Fungible(number),
    }
}

/// What is sent from a parachain to the relay chain: an asset of the sender, one of the relay chain, and an instance.
fn sent(alloc: Global) -> Result<Assets, Fail> {
    let pallet = Junction::PalletInstance(50);
    let sent = vec![in alloc;
        coins_of(7, 0, Junctions::from_few(&[pallet])),
        coins_of(5, 1, Junctions::empty()),
        piece(3),
    ]?;
    Ok(Assets::from_sorted(sent)?)
}

/// Whether this is what arrives, as the relay chain names it.
fn is_arrived(arrived: &[Asset]) -> bool {
    let para = Junction::Parachain(2000);
    let pallet = Junction::PalletInstance(50);
    let third = Asset {
        id: AssetId::Concrete(Location {
            parents: 0,
            interior: Junctions::from_few(&[para, Junction::GeneralIndex(1)]),
        }),
        fun: Fun::NonFungible(Instance::Index(3)),
    };
    match arrived {
        [first, second, last] => *first == coins_of(5, 0, Junctions::empty())
            && *second == coins_of(7, 0, Junctions::from_few(&[para, pallet]))
            && *last == third,
        _ => false,
    }
}

/// Whether shipments land under the names of the target.
fn land(alloc: Global) -> Result<bool, Fail> {
    let polkadot = Junction::GlobalConsensus(NetworkId::Polkadot);
    let context = Junctions::from_few(&[polkadot, Junction::Parachain(2000)]);
    let relay = Location {
        parents: 1,
        interior: Junctions::empty(),
    };
    let sent = sent(alloc)?;
    let arrived = landed(alloc, &sent, &relay, &context)?;
    Ok(is_arrived(arrived.as_slice()))
}

#[test]
fn bundles_are_taken_apart_and_joined(rt: HostRuntime) -> Result<(), Fail> {
    let alloc = rt.alloc();
    for (number, taken, left) in FILTERS {
        assert!(rt; takes(alloc, *number, *taken, *left)?, "filter {number}");
    }
    for (number, to, held, kinds) in TRIES {
        assert!(rt; is_tried(alloc, *number, *to, *held, *kinds)?);
    }
    for (first, second, above) in JOINS {
        assert!(rt; exceeds(alloc, *first, *second, *above)?);
    }
    assert!(rt; saturated(alloc)? == (MOST, Total { high: 0, low: 1 }));
    assert!(rt; are_added());
    assert!(rt; are_booked(alloc)? && are_summed(alloc)?);
    assert!(rt; are_shipped(alloc)? && land(alloc)?);
    Ok(())
}
