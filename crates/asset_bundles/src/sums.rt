//! How much of each asset lies in all traps together, kept as traps come and go.
ghost use Rattle.std.specs.Prelude.{◌≡◌, ◌+◌, ◌-◌, ◌^◌, ◌<◌, ◌≤◌, min, map, OnOk, IsTrue};
ghost use Rattle.std.specs.List.{position, list_all};
ghost use Rattle.asset_lists.specs.Units.{unit_of};
ghost use Rattle.asset_lists.specs.Listed.{Listed, listed_of, lists};
ghost use Rattle.asset_bundles.specs.Totals.{total_value};
ghost use Rattle.asset_bundles.specs.Books.{most_burned};
ghost use Rattle.asset_bundles.specs.Traps.{trapped_amount};
ghost use Rattle.asset_bundles.specs.Sums.{is_row, sum_at, keys_in, raised_sum_row, settled_sum_row};

use crate::rows::TrapRows;
use crate::{Total, Units};
use asset_lists::{Asset, AssetId, Kind};
use std::alloc::AllocError;
use std::marker::Model;

/// How much of one asset lies in all traps. It saturates at 2^160-1.
#[derive(Drop)]
pub(crate) struct AssetSum {
    id: AssetId,
    kind: Kind,
    sum: Total,
}

impl Model for AssetSum {
    ghost use Rattle.std.specs.Prelude.{ℕ};
    ghost use Rattle.asset_lists.specs.Listed.{Listed};
    ghost use Rattle.asset_bundles.specs.Totals.{total_value};

    ghost Value = { Listed × ℕ };

    ghost view = { λ row. ((row.id, row.kind), total_value row.sum) };
}

/// The greatest sum.
const MOST: Total = Total {
    high: u32::MAX,
    low: u128::MAX,
};

/// So much less, or nothing where there is not so much.
fn less(sum: Total, amount: u128) -> Total
    ensures { total_value result ≡ total_value sum - amount }
{
    if amount <= sum.low {
        return Total {
            high: sum.high,
            low: sum.low - amount,
        };
    }
    if sum.high == 0 {
        return Total::ZERO;
    }
    Total {
        high: sum.high - 1,
        low: u128::MAX - (amount - sum.low - 1),
    }
}

/// The amount of a fungible asset in these traps, or the number of instances of a class.
pub(crate) fn counted(traps: &TrapRows, id: &AssetId, kind: Kind) -> Total
    ensures { total_value result ≡ min (trapped_amount id.now kind traps.now) most_burned }
{
    let mut sum = Total::ZERO;
    for trap in traps.iter() {
        sum = sum.plus(trap.goods.total(id, kind));
    }
    sum
}

impl AssetSum {
    /// Nothing of the asset.
    fn none_of(asset: &Asset) -> AssetSum
        ensures { result ≡ (listed_of (unit_of asset.now), 0) }
    {
        AssetSum {
            id: asset.id.copy(),
            kind: asset.kind(),
            sum: Total::ZERO,
        }
    }

    /// Whether it is of this asset.
    fn is_of(&self, id: &AssetId, kind: Kind) -> bool
        ensures { result ≡ is_row (id.now, kind) self.now }
    {
        *id == self.id && kind == self.kind
    }

    /// What the row says.
    fn sum(&self) -> Total
        ensures { total_value result ≡ self.now.1 }
    {
        self.sum
    }

    /// These units are trapped.
    fn raise(&mut self, goods: &Units)
        ensures { self.new ≡ raised_sum_row goods.now self.old }
    {
        self.sum = self.sum.plus(goods.total(&self.id, self.kind));
    }

    /// These units were taken out, and these traps are left. A sum that saturated is counted anew.
    fn settle(&mut self, goods: &Units, traps: &TrapRows)
        ensures { self.new ≡ settled_sum_row goods.now traps.now self.old }
    {
        self.sum = if self.sum < MOST {
            less(self.sum, goods.total(&self.id, self.kind))
        } else {
            counted(traps, &self.id, self.kind)
        };
    }
}

/// Where the first row of the asset is.
fn place_of(rows: &[AssetSum], id: &AssetId, kind: Kind) -> Option<usize>
    ensures { result ≡ position (is_row (id.now, kind)) rows.now }
{
    rows.iter().position(|row| row.is_of(id, kind))
}

/// How much of the asset lies in all traps; 0 where it has no row.
pub(crate) fn sum_of(rows: &[AssetSum], id: &AssetId, kind: Kind) -> Total
    ensures { total_value result ≡ sum_at (id.now, kind) rows.now }
{
    match place_of(rows, id, kind) {
        Some(place) => rows[place].sum(),
        None => Total::ZERO,
    }
}

/// Makes a row for each asset that has none. The sums stay, also where memory is refused.
pub(crate) fn make_rows(rows: &mut Vec<AssetSum>, assets: &[Asset]) -> Result<(), AllocError>
    ensures same { (k : Listed) → sum_at k rows.new.items ≡ sum_at k rows.old.items }
    ensures listed { OnOk result (IsTrue (list_all
        (λ a. lists (keys_in rows.new.items) (listed_of (unit_of a))) assets.now)) }
{
    for asset in assets {
        make_row(rows, asset)?;
    }
    Ok(())
}

/// Makes a row for the asset where it has none.
fn make_row(rows: &mut Vec<AssetSum>, asset: &Asset) -> Result<(), AllocError>
    ensures same { (k : Listed) → sum_at k rows.new.items ≡ sum_at k rows.old.items }
    ensures kept { (k : Listed)
        → IsTrue (lists (keys_in rows.old.items) k) → IsTrue (lists (keys_in rows.new.items) k) }
    ensures listed { OnOk result
        (IsTrue (lists (keys_in rows.new.items) (listed_of (unit_of asset.now)))) }
{
    match place_of(rows.as_slice(), &asset.id, asset.kind()) {
        Some(_) => Ok(()),
        None => {
            rows.push(AssetSum::none_of(asset))?;
            Ok(())
        }
    }
}

/// These units are trapped.
pub(crate) fn raise_all(rows: &mut [AssetSum], goods: &Units)
    ensures { rows.new ≡ map (raised_sum_row goods.now) rows.old }
{
    for row in rows.iter_mut() {
        row.raise(goods);
    }
}

/// These units were taken out, and these traps are left.
pub(crate) fn settle_all(rows: &mut [AssetSum], goods: &Units, traps: &TrapRows)
    ensures { rows.new ≡ map (settled_sum_row goods.now traps.now) rows.old }
{
    for row in rows.iter_mut() {
        row.settle(goods, traps);
    }
}
