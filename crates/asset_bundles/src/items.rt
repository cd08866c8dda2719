//! Lists of assets in holding order.
ghost use Rattle.std.specs.Prelude.{◌≡◌, nat_le, None};
ghost use Rattle.std.specs.List.{list_all};
ghost use Rattle.std.specs.Ordering.{eq_by_cmp};
ghost use Rattle.amounts.specs.Rows.{sum_where};
ghost use Rattle.amounts.specs.Amounts.{total};
ghost use Rattle.asset_lists.specs.declared.units.Kind.{Kind};
ghost use Rattle.asset_lists.specs.Units.{asset_id_cmp, unit_of, amount_of, unit_cmp, assets_cmp};
ghost use Rattle.asset_bundles.specs.Bundles.{rows_of, found, is_asset, bundle_of, IsHolding};
ghost use Rattle.asset_bundles.specs.Portions.{AreWithinMost};

use asset_lists::{Asset, AssetId, Fun, Kind, StoredId};

/// For the prover alone: no amount is above the most of its type. Nothing is done.
pub(crate) fn amounts_fit(items: &[Asset])
    ensures { AreWithinMost items.now }
{
    for item in items {
        let _amount = item.amount();
    }
}

/// Whether both are of one unit.
pub(crate) fn is_same_unit(asset: &Asset, other: &Asset) -> bool
    ensures { result ≡ eq_by_cmp unit_cmp (unit_of asset.now) (unit_of other.now) }
{
    asset.unit_cmp(other).is_eq()
}

/// What there is of the unit of this asset.
pub(crate) fn held(items: &[Asset], asset: &Asset) -> u128
    ensures { result ≡ found (unit_of asset.now) items.now }
{
    for item in items {
        if is_same_unit(asset, item) {
            return item.amount();
        }
    }
    0
}

/// Whether it is an amount of the fungible asset of this id.
#[tactic(auto, using(crate::proofs::Finding::same_test))]
pub(crate) fn is_amount_of(id: &AssetId, item: &Asset) -> bool
    ensures { result ≡ eq_by_cmp unit_cmp (id.now, None) (unit_of item.now) }
{
    matches!(item.fun, Fun::Fungible(_)) && *id == item.id
}

/// The amount of the fungible asset of this id.
pub(crate) fn amount_held(items: &[Asset], id: &AssetId) -> u128
    ensures { result ≡ found (id.now, None) items.now }
{
    for item in items {
        if is_amount_of(id, item) {
            return item.amount();
        }
    }
    0
}

/// Whether a stored id is this one.
fn is_stored_as(id: &StoredId, other: &AssetId) -> bool
    ensures { result ≡ eq_by_cmp asset_id_cmp id.now other.now }
{
    id.is(other)
}

/// Whether it is an amount of the fungible asset of this stored id.
#[tactic(auto, using(crate::proofs::Finding::same_test))]
fn is_amount_by(id: &StoredId, item: &Asset) -> bool
    ensures { result ≡ eq_by_cmp unit_cmp (id.now, None) (unit_of item.now) }
{
    matches!(item.fun, Fun::Fungible(_)) && is_stored_as(id, &item.id)
}

/// The amount of the fungible asset of this stored id.
pub(crate) fn amount_by(items: &[Asset], id: &StoredId) -> u128
    ensures { result ≡ found (id.now, None) items.now }
{
    for item in items {
        if is_amount_by(id, item) {
            return item.amount();
        }
    }
    0
}

/// Whether all listed assets are there in full.
pub(crate) fn holds(items: &[Asset], list: &[Asset]) -> bool
    ensures { result ≡ list_all (λ a. nat_le (amount_of a) (found (unit_of a) items.now)) list.now }
{
    list.iter()
        .all(|asset| asset.amount() <= held(items, asset))
}

/// Whether it is an instance of the class.
fn is_instance_of(item: &Asset, class: &AssetId) -> bool
    ensures { result ≡ is_asset class.now Kind.Class (unit_of item.now) }
{
    match item.fun {
        Fun::Fungible(_) => false,
        Fun::NonFungible(_) => *class == item.id,
    }
}

/// How many instances of the class there are.
fn count(items: &[Asset], class: &AssetId) -> usize
    ensures { result ≡ sum_where (is_asset class.now Kind.Class) (rows_of items.now) }
{
    let mut number = 0;
    for item in items {
        if is_instance_of(item, class) {
            number += 1;
        }
    }
    number
}

/// The amount of a fungible asset, or the number of instances of a class.
pub(crate) fn total(items: &[Asset], id: &AssetId, kind: Kind) -> u128
    requires { IsHolding items.now }
    ensures { result ≡ total (is_asset id.now kind) (bundle_of items.now) }
{
    match kind {
        Kind::Fungible => amount_held(items, id),
        Kind::Class => count(items, id) as u128,
    }
}

/// Whether both are the same list.
pub(crate) fn are_same(items: &[Asset], list: &[Asset]) -> bool
    ensures { result ≡ eq_by_cmp assets_cmp items.now list.now }
{
    items.cmp(list).is_eq()
}
