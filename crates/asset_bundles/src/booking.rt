//! Burns written into the book, and read.
ghost use Rattle.std.specs.Prelude.{◌≡◌, ◌≤◌, min, length, IsTrue, IfOk};
ghost use Rattle.std.specs.List.{prefix_len};
ghost use Rattle.std.specs.Ordering.{eq_by_cmp};
ghost use Rattle.amounts.specs.Amounts.{amount, single, empty};
ghost use Rattle.asset_bundles.specs.Totals.{total_value};
ghost use Rattle.asset_bundles.specs.declared.book.Cause.{Cause};
ghost use Rattle.asset_bundles.specs.Books.{Booked, burned_by_any_cause, most_burned};
ghost use Rattle.asset_lists.specs.Listed.{Listed, listed_cmp, lists};
ghost use Rattle.asset_bundles.specs.BookRows.{unburned_row, row_key, row_causes, book_keys_in, causes_at, total_for, total_at, is_other_row, IsBurned, IsBooked};

use crate::book::BookRow;
use crate::{BurnBook, Cause, Total};
use asset_lists::{AssetId, Kind, StoredId};
use std::alloc::{AllocError, Global};

impl BookRow {
    /// The row of an asset of which nothing was burned. An `Err` is out of memory.
    fn unburned(alloc: Global, id: &AssetId, kind: Kind) -> Result<BookRow, AllocError>
        ensures { IfOk result (λ row. row ≡ unburned_row (id.now, kind)) }
    {
        let id = StoredId::of(alloc, id)?;
        Ok(BookRow {
            id,
            kind,
            burned: Total::ZERO,
            lost: Total::ZERO,
            merged: Total::ZERO,
            saturated: Total::ZERO,
        })
    }

    /// Whether it is the row of this asset.
    fn is_of(&self, id: &AssetId, kind: Kind) -> bool
        ensures { result ≡ eq_by_cmp listed_cmp (id.now, kind) (row_key self.now) }
    {
        self.id.is(id) && kind == self.kind
    }

    /// What was burned for a cause.
    fn total(&self, cause: Cause) -> Total
        ensures { result ≡ total_for cause self.now }
    {
        match cause {
            Cause::BurnAsset => self.burned,
            Cause::LostTeleport => self.lost,
            Cause::Merged => self.merged,
            Cause::Saturated => self.saturated,
        }
    }

    /// What was burned for all causes together. It saturates at 2^160-1.
    fn sum(&self) -> Total
        ensures { total_value result ≡ min (row_causes self.now) most_burned }
    {
        self.burned
            .sum(self.lost)
            .sum(self.merged)
            .sum(self.saturated)
    }

    /// Adds to what was burned for a cause.
    fn add(&mut self, cause: Cause, amount: u128)
        ensures { IsBurned cause amount self.old self.new }
    {
        match cause {
            Cause::BurnAsset => self.burned = self.burned.plus(amount),
            Cause::LostTeleport => self.lost = self.lost.plus(amount),
            Cause::Merged => self.merged = self.merged.plus(amount),
            Cause::Saturated => self.saturated = self.saturated.plus(amount),
        }
    }
}

/// Where the row of an asset is: how many others come before it.
fn place_of(rows: &[BookRow], id: &AssetId, kind: Kind) -> usize
    ensures place { result ≡ prefix_len (is_other_row (id.now, kind)) rows.now }
    ensures within { result ≤ length rows.now }
{
    for (i, row) in rows.iter().enumerate() {
        if row.is_of(id, kind) {
            return i;
        }
    }
    rows.len()
}

/// Adds to the row of an asset, if there is one.
fn book_into(rows: &mut Vec<BookRow>, id: &AssetId, kind: Kind, cause: Cause, amount: u128)
    ensures { IsBooked (id.now, kind) cause amount rows.old.items rows.new.items }
{
    let place = place_of(rows.as_slice(), id, kind);
    if place >= rows.len() {
        return;
    }
    rows[place].add(cause, amount);
}

/// What was burned of an asset, by its row.
fn total_in(rows: &[BookRow], id: &AssetId, kind: Kind, cause: Cause) -> Total
    ensures { total_value result ≡ total_at (id.now, kind) cause rows.now }
{
    for row in rows {
        if row.is_of(id, kind) {
            return row.total(cause);
        }
    }
    Total::ZERO
}

/// What was burned of an asset for all causes together, by its row. It saturates at 2^160-1.
fn sum_in(rows: &[BookRow], id: &AssetId, kind: Kind) -> Total
    ensures { total_value result ≡ min (causes_at (id.now, kind) rows.now) most_burned }
{
    for row in rows {
        if row.is_of(id, kind) {
            return row.sum();
        }
    }
    Total::ZERO
}

/// A row for each asset, of which nothing was burned.
fn new_rows(alloc: Global, assets: &[(AssetId, Kind)]) -> Result<Vec<BookRow>, AllocError>
    ensures keys { IfOk result (λ rows. book_keys_in rows.items ≡ assets.now) }
    ensures none { IfOk result (λ rows. (k : Listed) (c : Cause) → total_at k c rows.items ≡ 0) }
{
    let mut rows = Vec::with_capacity(alloc, assets.len())?;
    for asset in assets {
        let row = BookRow::unburned(alloc, &asset.0, asset.1)?;
        rows.push(row)?;
    }
    Ok(rows)
}

impl BurnBook {
    /// A book of these assets, with nothing burned.
    pub fn new(alloc: Global, rows: &[(AssetId, Kind)]) -> Result<BurnBook, AllocError>
        ensures { IfOk result (λ book. book ≡ record { listed = rows.now; burns = empty }) }
    {
        let rows = new_rows(alloc, rows)?;
        Ok(BurnBook { rows })
    }

    /// What was burned of an asset for a cause; 0 where the book doesn't list it.
    pub fn total(&self, id: &AssetId, kind: Kind, cause: Cause) -> Total
        ensures { total_value result ≡ amount self.now.burns ((id.now, kind), cause) }
    {
        total_in(self.rows.as_slice(), id, kind, cause)
    }

    /// What was burned of an asset for all causes together; 0 where the book doesn't list it. It saturates at 2^160-1.
    pub fn burned(&self, id: &AssetId, kind: Kind) -> Total
        ensures { total_value result ≡ min (burned_by_any_cause self.now.burns id.now kind)
            most_burned }
    {
        sum_in(self.rows.as_slice(), id, kind)
    }

    /// Books so much of a listed asset, in its smallest unit. No memory is taken.
    pub fn add(&mut self, id: &AssetId, kind: Kind, cause: Cause, amount: u128)
        requires { IsTrue (lists self.old.listed (id.now, kind)) }
        ensures { self.new ≡ Booked self.old (single ((id.now, kind), cause) amount) }
    {
        book_into(&mut self.rows, id, kind, cause, amount);
    }
}
