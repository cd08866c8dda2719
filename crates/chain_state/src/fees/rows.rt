//! What is kept of the fees in all assets.
ghost use Rattle.std.specs.Prelude.{◌≡◌, None, IsTrue, IfOk, map};
ghost use Rattle.std.specs.List.Sorted.{IsStrictlySortedBy};
ghost use Rattle.std.specs.Map.{keys_of};
ghost use Rattle.amounts.specs.Amounts.{amount, empty};
ghost use Rattle.asset_lists.specs.Units.{Unit, unit_cmp};
ghost use Rattle.asset_bundles.specs.Totals.{total_value};
ghost use Rattle.chain_state.specs.Fees.{kept_goods, has_row, HaveRows, HaveRowsFor, saturated_fees, no_fee, raised_fee, cleared};

use crate::fees::row::FeeRow;
use crate::ids::fungible_ids;
use asset_bundles::{AssetBundle, Total};
use asset_lists::{AssetId, Kind};
use std::alloc::{AllocError, Global};
use std::marker::Model;

/// What is kept of the fees: a row for each fungible asset of a chain, by its id. Contracts see it as the list of its rows.
#[derive(Drop)]
pub struct FeeRows {
    rows: Vec<FeeRow>,
    // Whether it is known that nothing is kept.
    is_clear: bool,
}

impl Model for FeeRows {
    ghost use Rattle.std.specs.Prelude.{ℕ, List};
    ghost use Rattle.asset_lists.specs.Units.{Unit};

    ghost Value = { List (Unit × ℕ) };

    ghost view = { λ f. f.rows.items };

    ghost use Rattle.std.specs.List.Sorted.{IsStrictlySortedBy};
    ghost use Rattle.std.specs.Map.{keys_of};
    ghost use Rattle.asset_lists.specs.Units.{unit_cmp};
    ghost use Rattle.std.specs.Prelude.{IsTrue, ◌≡◌};
    ghost use Rattle.amounts.specs.Amounts.{empty};
    ghost use Rattle.chain_state.specs.Fees.{kept_goods};

    ghost invariant = { λ f. IsStrictlySortedBy unit_cmp (keys_of f.rows.items)
        × (IsTrue f.is_clear → kept_goods f.rows.items ≡ empty) };
}

/// A row for each id, with nothing in it.
fn new_rows(alloc: Global, ids: &[&AssetId]) -> Result<Vec<FeeRow>, AllocError>
    ensures { IfOk result (λ rows. rows.items ≡ map no_fee (map (λ id. id.now) ids.now)) }
{
    let mut rows = Vec::with_capacity(alloc, ids.len())?;
    for id in ids {
        let row = FeeRow::none_of(alloc, *id)?;
        rows.push(row)?;
    }
    Ok(rows)
}

/// Adds to each row what the goods have of its asset.
fn raise_all(rows: &mut [FeeRow], goods: &AssetBundle)
    ensures { rows.new ≡ map (raised_fee goods.now) rows.old }
{
    for row in rows.iter_mut() {
        row.raise(goods);
    }
}

/// Clears each row.
fn clear_all(rows: &mut [FeeRow])
    ensures { rows.new ≡ map cleared rows.old }
{
    for row in rows.iter_mut() {
        row.clear();
    }
}

impl FeeRows {
    /// A row for each fungible one of these assets, with nothing in it. An `Err` is out of memory.
    pub fn open(alloc: Global, listed: &[(AssetId, Kind)]) -> Result<FeeRows, AllocError>
        ensures rows { IfOk result (λ fees. HaveRows listed.now fees) }
        ensures none { IfOk result (λ fees. kept_goods fees ≡ empty) }
    {
        // Lent, so that sorting moves no large value.
        let mut ids = fungible_ids(alloc, listed)?;
        ids.sort_unstable();
        ids.dedup();
        let rows = new_rows(alloc, ids.as_slice())?;
        Ok(FeeRows {
            rows,
            is_clear: true,
        })
    }

    /// The rows, by the ids of their assets.
    pub fn rows(&self) -> &[FeeRow]
        ensures rows { result.now ≡ self.now }
        ensures rising { IsStrictlySortedBy unit_cmp (keys_of self.now) }
    {
        self.rows.as_slice()
    }

    /// Whether it is known, without a look at the rows, that nothing is kept.
    pub fn is_clear(&self) -> bool
        ensures { IsTrue result → kept_goods self.now ≡ empty }
    {
        self.is_clear
    }

    /// What is kept of a fungible asset, in its smallest unit; 0 where it has no row. It takes no time in proportion to the rows where
    /// nothing is kept.
    pub fn total(&self, id: &AssetId) -> Total
        ensures total { total_value result ≡ amount (kept_goods self.now) (id.now, None) }
    {
        if self.is_clear {
            return Total::ZERO;
        }
        for row in self.rows.as_slice() {
            if row.is_of(id) {
                return row.sum();
            }
        }
        Total::ZERO
    }

    /// Adds goods to the rows of their assets; each asset of them has one. A sum saturates at 2^160-1. No memory is taken.
    pub fn keep(&mut self, goods: AssetBundle)
        requires rows { HaveRowsFor self.old goods }
        ensures kept { kept_goods self.new ≡ saturated_fees (kept_goods self.old) goods }
        ensures rows { (unit : Unit) → has_row self.new unit ≡ has_row self.old unit }
    {
        self.is_clear = false;
        raise_all(self.rows.as_mut_slice(), &goods);
        goods.melt();
    }

    /// Nothing is kept any longer, and each asset keeps its row. No memory is taken.
    pub fn clear(&mut self)
        ensures none { kept_goods self.new ≡ empty }
        ensures rows { (unit : Unit) → has_row self.new unit ≡ has_row self.old unit }
    {
        if self.is_clear {
            return;
        }
        clear_all(self.rows.as_mut_slice());
        self.is_clear = true;
    }
}
