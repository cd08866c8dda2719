//! One asset given up from a list in holding order, in place.
ghost use Rattle.std.specs.Prelude.{◌≡◌, ◌≤◌, length, None};
ghost use Rattle.std.specs.List.{prefix_len};
ghost use Rattle.asset_lists.specs.Units.{unit_of, amount_of};
ghost use Rattle.asset_bundles.specs.Portions.{spent, is_other};

use crate::items::{is_amount_of, is_same_unit};
use crate::portions::set_amount;
use asset_lists::{Asset, AssetId};

/// Where the unit of this asset is: how many others come before it.
fn place_of(items: &[Asset], asset: &Asset) -> usize
    ensures place { result ≡ prefix_len (is_other (unit_of asset.now)) items.now }
    ensures within { result ≤ length items.now }
{
    for (i, item) in items.iter().enumerate() {
        if is_same_unit(asset, item) {
            return i;
        }
    }
    items.len()
}

/// Where the fungible asset of this id is: how many others come before it.
fn place_of_amount(items: &[Asset], id: &AssetId) -> usize
    ensures place { result ≡ prefix_len (is_other (id.now, None)) items.now }
    ensures within { result ≤ length items.now }
{
    for (i, item) in items.iter().enumerate() {
        if is_amount_of(id, item) {
            return i;
        }
    }
    items.len()
}

/// Gives up so much of the fungible asset of this id, as far as it is there.
pub(crate) fn give_up_amount(items: &mut Vec<Asset>, id: &AssetId, less: u128)
    ensures { items.new.items ≡ spent (id.now, None) less items.old.items }
{
    let place = place_of_amount(items.as_slice(), id);
    if place >= items.len() {
        return;
    }
    let item = &items[place];
    let left = item.amount().saturating_sub(less);
    if left == 0 {
        items.remove(place);
        return;
    }
    set_amount(&mut items[place], left);
}

/// Gives up the asset, as far as it is there.
pub(crate) fn give_up(items: &mut Vec<Asset>, asset: &Asset)
    ensures { items.new.items ≡ spent (unit_of asset.now) (amount_of asset.now) items.old.items }
{
    let place = place_of(items.as_slice(), asset);
    if place >= items.len() {
        return;
    }
    let item = &items[place];
    let left = item.amount().saturating_sub(asset.amount());
    if left == 0 {
        items.remove(place);
        return;
    }
    set_amount(&mut items[place], left);
}
