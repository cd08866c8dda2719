//! One asset moved between accounts.
ghost use Rattle.std.specs.Prelude.{◌≡◌, ◌^◌, ◌<◌, None, OnOk};
ghost use Rattle.std.specs.List.{IsDistinct};
ghost use Rattle.std.specs.Ordering.{eq_by_cmp};
ghost use Rattle.amounts.specs.Amounts.{amount};
ghost use Rattle.asset_lists.specs.Listed.{listed_cmp};
ghost use Rattle.asset_lists.specs.declared.units.AssetId.TheVariants.{Concrete};
ghost use Rattle.trust_tables.specs.Trust.{listing};
ghost use Rattle.call_dispatch.specs.Shifts.{shift_fault, shifted, Shifts, IsNumberAt};
ghost use Rattle.row_ledger.specs.RowAccounts.{fungible_rows, row_amounts, held_aside, no_floors};
ghost use Rattle.row_ledger.specs.Moves.{unit_fault, moved_unit, MovesUnit};

use asset_lists::{Asset, AssetId, Assets, Fun, Kind};
use call_dispatch::ShiftFault;
use ledgers::Ledger;
use locations::Location;
use std::alloc::Global;
use trust_tables::AssetRow;

/// Why an amount of an asset isn't moved from one account to another; None where only memory can refuse it.
#[tactic(auto, unfolding(crate::specs::Moves::unit_fault))]
fn fault(
    ledger: &Ledger,
    unit: &AssetId,
    from: &[u8; 32],
    to: &[u8; 32],
    n: u128,
) -> Option<ShiftFault>
    ensures { result ≡ unit_fault ledger.now.held (unit.now, None) from.now to.now n }
{
    let have = ledger.amount(from, unit);
    if have < n {
        return Some(ShiftFault::NotEnough { have });
    }
    if from.cmp(to).is_eq() {
        return None;
    }
    let have = ledger.amount(to, unit);
    if have > u128::MAX - n {
        return Some(ShiftFault::Overflow { have });
    }
    None
}

/// Moves an amount of an asset from one account to another, or refuses it and changes nothing.
fn move_amount(
    alloc: Global,
    ledger: &mut Ledger,
    id: &Location,
    from: &[u8; 32],
    to: &[u8; 32],
    n: u128,
) -> Result<(), ShiftFault>
    ensures step { MovesUnit (unit_fault ledger.old.held (Concrete id.now, None) from.now to.now n)
        (moved_unit ledger.old (Concrete id.now, None) from.now to.now n) ledger.old result
        ledger.new }
    ensures had { OnOk result
        (amount ledger.old.held (from.now, (Concrete id.now, None)) < 2 ^ 128) }
{
    let unit = AssetId::Concrete(id.copy());
    if let Some(fault) = fault(ledger, &unit, from, to, n) {
        return Err(fault);
    }
    let _had = ledger.amount(from, &unit); // For the prover alone: it is below 2^128.
    if n == 0 {
        return Ok(());
    }
    let list = Assets::one(
        alloc,
        Asset {
            id: unit,
            fun: Fun::Fungible(n),
        },
    )?;
    ledger.transfer_checked(from, to, &list)?;
    Ok(())
}

/// Moves an amount of a row, by its number, from one account of the ledger to another, or refuses it and changes nothing. No asset is in
/// two of the rows.
pub fn shift_row(
    alloc: Global,
    ledger: &mut Ledger,
    rows: &[AssetRow],
    row: u32,
    from: &[u8; 32],
    to: &[u8; 32],
    amount: u128,
) -> Result<(), ShiftFault>
    requires apart { IsDistinct (eq_by_cmp listed_cmp) (listing rows.now) }
    ensures step { Shifts
        (shift_fault (row_amounts rows.now ledger.old.held) no_floors (fungible_rows rows.now) row
        from.now to.now amount)
        (shifted (row_amounts rows.now ledger.old.held) row from.now to.now amount)
        (row_amounts rows.now ledger.old.held) result (row_amounts rows.now ledger.new.held) }
    ensures had { OnOk result (IsNumberAt (row_amounts rows.now ledger.old.held) (from.now, row)) }
    ensures listed { ledger.new.listed ≡ ledger.old.listed }
    ensures aside { held_aside rows.now ledger.new.held ≡ held_aside rows.now ledger.old.held }
{
    let Some(found) = rows.get(row as usize) else {
        return Err(ShiftFault::NoRow);
    };
    let Kind::Fungible = found.kind else {
        return Err(ShiftFault::NoRow);
    };
    move_amount(alloc, ledger, &found.id, from, to, amount)
}
