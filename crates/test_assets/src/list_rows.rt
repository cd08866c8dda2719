//! Asset lists, their order and their reanchoring.
ghost use Rattle.std.specs.Prelude.{◌≤◌, length};

use asset_lists::{
    Asset, AssetId, Assets, Filter, Fun, Instance, Kind, ListFault, ReanchorFault, Wild, WildFun,
    copied, is_rising, law_of_exact_asset_orders, law_of_exact_list_test, law_of_insertion,
    law_of_reanchored_lists, law_of_rising, push_place, push_reanchored,
};
use locations::{Junction, Junctions, Location, NetworkId};
use plain_lists::Boxed;
use std::alloc::{AllocError, Global};
use std::cmp::Ordering;
use std::test::Fail;

fn place(parents: u8, items: &[Junction]) -> Location
    requires { length items.now ≤ 8 }
{
    let interior = Junctions::from_few(items);
    Location { parents, interior }
}

fn amount(amount: u128, id: Location) -> Asset {
    Asset {
        id: AssetId::Concrete(id),
        fun: Fun::Fungible(amount),
    }
}

fn instance(instance: Instance, id: Location) -> Asset {
    Asset {
        id: AssetId::Concrete(id),
        fun: Fun::NonFungible(instance),
    }
}

/// So much of the chain's own asset.
fn own(number: u128) -> Asset {
    amount(number, place(0, &[]))
}

/// So much of the asset of the chain above.
fn above(number: u128) -> Asset {
    amount(number, place(1, &[]))
}

/// An instance of the chain's own class.
fn piece(name: Instance) -> Asset {
    instance(name, place(0, &[]))
}

/// Amounts of this many assets, each of another pallet.
fn many(alloc: Global, count: u8) -> Result<Vec<Asset>, AllocError> {
    let mut items = Vec::new(alloc);
    for index in 0..count {
        items.push(amount(1, place(0, &[Junction::PalletInstance(index)])))?;
    }
    Ok(items)
}

/// Amounts of two assets and three instances, in order.
fn five(alloc: Global) -> Result<Vec<Asset>, AllocError> {
    let mut items = many(alloc, 2)?;
    items.push(piece(Instance::Undefined))?;
    items.push(piece(Instance::Index(7)))?;
    items.push(piece(Instance::Array4([9; 4])))?;
    Ok(items)
}

/// Whether a sorted list is taken, and copies of it are the same.
fn is_taken(alloc: Global) -> Result<bool, Fail> {
    let list = Assets::from_sorted(five(alloc)?)?;
    let same = list.copy()?;
    let again = Assets::from_sorted(copied(alloc, list.items())?)?;
    let full = Assets::from_sorted(many(alloc, 20)?)?;
    Ok(
        list.items().len() == 5
            && is_rising(list.items())
            && same == list
            && again == list
            && full.items().len() == 20,
    )
}

/// Whether lists of one and of none are so.
fn are_short(alloc: Global) -> Result<bool, Fail> {
    let asset = Asset {
        id: AssetId::Concrete(place(1, &[])),
        fun: Fun::Fungible(3),
    };
    let copy = Assets::of_one(alloc, &asset)?;
    let one = Assets::one(alloc, asset)?;
    let same = Assets::from_sorted(vec![in alloc; above(3)]?)?;
    Ok(one == same && copy == same && Assets::empty(alloc).items().is_empty())
}

/// Two items, in this order.
fn pair(alloc: Global, first: Asset, second: Asset) -> Result<Vec<Asset>, AllocError> {
    let mut items = Vec::new(alloc);
    items.push(first)?;
    items.push(second)?;
    Ok(items)
}

/// Why these two items, in this order, are no list.
fn fault_of_two(
    alloc: Global,
    first: Asset,
    second: Asset,
) -> Result<Option<ListFault>, AllocError> {
    Ok(Assets::from_sorted(pair(alloc, first, second)?).err())
}

/// Why these items are no list.
fn fault_of(items: Vec<Asset>) -> Option<ListFault> {
    Assets::from_sorted(items).err()
}

/// Whether other items are no list.
fn are_refused(alloc: Global) -> Result<bool, AllocError> {
    let swapped = Some(ListFault::OutOfOrder);
    Ok(
        fault_of(many(alloc, 21)?) == Some(ListFault::TooMany)
            && fault_of(vec![in alloc; own(0)]?) == Some(ListFault::Zero)
            && fault_of_two(alloc, own(1), own(2))? == swapped
            && fault_of_two(alloc, piece(Instance::Undefined), own(2))? == swapped,
    )
}

/// Inserts assets in order: whether each is answered as it should be.
fn takes_in(list: &mut Assets) -> bool {
    list.insert(piece(Instance::Index(1))) == Ok(())
        && list.insert(own(5)) == Ok(())
        && list.insert(above(0)) == Err(ListFault::Zero)
        && list.insert(own(9)) == Err(ListFault::OutOfOrder)
}

/// Whether just these are in the list: 5 of the chain's own asset, two assets more, and an instance.
fn are_in_place(items: &[Asset]) -> bool {
    match items {
        [first, _, _, last] => *first == own(5) && *last == piece(Instance::Index(1)),
        _ => false,
    }
}

/// Whether an asset is inserted in order, and none into a full list.
fn go_to_their_places(alloc: Global) -> Result<bool, Fail> {
    let mut list = Assets::from_sorted(many(alloc, 2)?)?;
    let mut full = Assets::from_sorted(many(alloc, 20)?)?;
    let is_full = full.insert(above(1)) == Err(ListFault::TooMany);
    Ok(takes_in(&mut list) && are_in_place(list.items()) && is_full)
}

/// Parachain 2000 of Polkadot.
fn context() -> Junctions {
    let polkadot = Junction::GlobalConsensus(NetworkId::Polkadot);
    Junctions::from_few(&[polkadot, Junction::Parachain(2000)])
}

/// Two items as a list.
fn two(alloc: Global, first: Asset, second: Asset) -> Result<Assets, Fail> {
    Ok(Assets::from_sorted(pair(alloc, first, second)?)?)
}

/// Whether the relay chain above names the list so.
fn is_seen(alloc: Global) -> Result<bool, Fail> {
    let list = two(alloc, own(3), above(4))?;
    let child = amount(3, place(0, &[Junction::Parachain(2000)]));
    let seen = list.reanchored(&place(1, &[]), &context())?;
    Ok(seen == two(alloc, own(4), child)?)
}

/// Whether an asset is put at the end of a list by its location, and one as the relay chain above names it.
fn are_appended(alloc: Global) -> Result<bool, AllocError> {
    let mut list = Vec::with_capacity(alloc, 2)?;
    push_place(&mut list, &place(1, &[]), Fun::Fungible(4));
    let is_named = push_reanchored(&mut list, &own(3), &place(1, &[]), &context());
    let child = amount(3, place(0, &[Junction::Parachain(2000)]));
    Ok(is_named && list.as_slice() == [above(4), child].as_slice())
}

/// Why the relay chain above doesn't name the list.
fn unseen(list: &Assets) -> Option<ReanchorFault> {
    list.reanchored(&place(1, &[]), &context()).err()
}

/// Whether a list of what is named alike isn't reanchored, and one of an id by bytes.
fn are_unseen(alloc: Global) -> Result<bool, Fail> {
    let sibling = amount(1, place(1, &[Junction::Parachain(2000)]));
    let bytes = Asset {
        id: AssetId::Abstract([1; 32]),
        fun: Fun::Fungible(1),
    };
    let alike = two(alloc, own(1), sibling)?;
    let unnamed = Assets::from_sorted(vec![in alloc; bytes]?)?;
    Ok(
        unseen(&alike) == Some(ReanchorFault::Same)
            && unseen(&unnamed) == Some(ReanchorFault::NotReanchored),
    )
}

/// The network of Kusama.
fn kusama() -> Junctions {
    Junctions::from_few(&[Junction::GlobalConsensus(NetworkId::Kusama)])
}

/// Whether ids are compared, copied, and not reanchored where they are by bytes.
fn are_ids() -> bool {
    let concrete = AssetId::Concrete(place(0, &[]));
    let bytes = AssetId::Abstract([0; 32]);
    concrete.cmp(&bytes) == Ordering::Less
        && concrete.copy() == concrete
        && bytes.reanchored(&place(0, &[]), &kusama()).is_none()
}

/// Whether units are compared, copied and reanchored.
fn are_units() -> bool {
    let few = own(1);
    let more = own(2);
    few.unit_cmp(&more) == Ordering::Equal
        && few.cmp(&more) == Ordering::Less
        && few.copy() == few
        && !few.is_zero()
        && few.reanchored(&place(0, &[]), &kusama()) == Some(few)
}

/// Whether this is the kind of the asset, and its amount.
fn is_amount(asset: &Asset, kind: Kind, amount: u128) -> bool {
    asset.kind() == kind && asset.amount() == amount
}

/// Whether assets have a kind and an amount.
fn have_amounts() -> bool {
    is_amount(&own(1), Kind::Fungible, 1)
        && is_amount(&own(2), Kind::Fungible, 2)
        && is_amount(&piece(Instance::Index(1)), Kind::Class, 1)
        && Kind::Fungible < Kind::Class
}

/// Whether filters differ.
fn differ(alloc: Global) -> Result<bool, AllocError> {
    let of = Wild::AllOf {
        id: Boxed::new(alloc, AssetId::Concrete(place(0, &[])))?,
        fun: WildFun::Fungible,
    };
    let none = Filter::Definite(Assets::empty(alloc));
    Ok(none != Filter::Wild(Wild::All) && of != Wild::AllCounted(1))
}

/// Whether this is the text.
fn is_text(text: Result<String, AllocError>, want: &str) -> Result<bool, AllocError> {
    Ok(text?.as_str() == want)
}

/// Whether the refusals have their texts.
fn say_why(alloc: Global) -> Result<bool, AllocError> {
    let alike = "two assets that the target names alike";
    Ok(
        is_text(ListFault::Zero.to_string(alloc), "an amount of 0")?
            && is_text(ReanchorFault::Same.to_string(alloc), alike)?,
    )
}

#[test]
fn lists_and_their_assets(rt: HostRuntime) -> Result<(), Fail> {
    let alloc = rt.alloc();
    assert!(rt; is_taken(alloc)? && are_short(alloc)?);
    assert!(rt; are_refused(alloc)?);
    assert!(rt; go_to_their_places(alloc)?);
    assert!(rt; is_seen(alloc)? && are_unseen(alloc)? && are_appended(alloc)?);
    assert!(rt; are_ids() && are_units() && have_amounts());
    assert!(rt; differ(alloc)? && say_why(alloc)?);
    Ok(())
}

#[test]
fn the_laws_of_lists_can_be_called() {
    law_of_exact_asset_orders();
    law_of_exact_list_test();
    law_of_rising();
    law_of_insertion();
    law_of_reanchored_lists();
}
