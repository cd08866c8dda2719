//! Moves in a book.
ghost use Rattle.std.specs.Prelude.{◌≡◌, ◌<◌, ◌≤◌, OnOk, OnErr};
ghost use Rattle.amounts.specs.Amounts.{amount, with_amount};
ghost use Rattle.call_dispatch.specs.Shifts.{shifted};
ghost use Rattle.call_dispatch.specs.Laws.ShiftLaws.{HasShiftRoom};
ghost use Rattle.test_codec.specs.Books.{amounts_in};

use crate::Book;
use crate::book::AmountRows;
use call_dispatch::{Mover, ShiftFault};
use std::alloc::{AllocError, Global};
use std::collections::BTreeMap;

/// What an account has of a row.
fn amount_in(rows: &AmountRows, who: &[u8; 32], row: u32) -> u128
    ensures { result ≡ amount (amounts_in rows.now.entries) (who.now, row) }
{
    rows.get(&(*who, row)).copied().unwrap_or(0)
}

/// Writes what an account has of a row.
fn write_amount(
    rows: &mut AmountRows,
    who: &[u8; 32],
    row: u32,
    amount: u128,
) -> Result<(), AllocError>
    ensures ok { OnOk result (amounts_in rows.new.entries
        ≡ with_amount (amounts_in rows.old.entries) (who.now, row) amount) }
    ensures err { OnErr result (amounts_in rows.new.entries ≡ amounts_in rows.old.entries) }
{
    rows.insert((*who, row), amount)?;
    Ok(())
}

/// Writes what an account has of a row of which it has something.
fn change_amount(rows: &mut AmountRows, who: &[u8; 32], row: u32, new: u128)
    requires { 0 < amount (amounts_in rows.old.entries) (who.now, row) }
    ensures { amounts_in rows.new.entries
        ≡ with_amount (amounts_in rows.old.entries) (who.now, row) new }
{
    match rows.insert((*who, row), new) {
        Ok(_) => {}
        Err(_) => unreachable!(),
    }
}

/// One move less; `None` where there is none left.
fn count_down(moves_left: &mut Option<u32>) -> bool {
    match *moves_left {
        None => true,
        Some(0) => false,
        Some(left) => {
            *moves_left = Some(left - 1);
            true
        }
    }
}

/// Moves an amount, which the one account has and the other can take.
fn move_amount(
    rows: &mut AmountRows,
    row: u32,
    from: &[u8; 32],
    to: &[u8; 32],
    n: u128,
) -> Result<(), AllocError>
    requires enough { n ≤ amount (amounts_in rows.old.entries) (from.now, row) }
    requires room { HasShiftRoom (amounts_in rows.old.entries) row from.now to.now n }
    ensures ok { OnOk result (amounts_in rows.new.entries
        ≡ shifted (amounts_in rows.old.entries) row from.now to.now n) }
    ensures err { OnErr result (amounts_in rows.new.entries ≡ amounts_in rows.old.entries) }
{
    if n == 0 {
        return Ok(());
    }
    if from.cmp(to).is_eq() {
        return Ok(());
    }
    let given = amount_in(rows, from, row) - n;
    let got = amount_in(rows, to, row) + n;
    write_amount(rows, to, row, got)?;
    change_amount(rows, from, row, given);
    Ok(())
}

impl Book {
    ghost use Rattle.std.specs.Prelude.{◌-◌};
    ghost use Rattle.call_dispatch.specs.Shifts.{is_listed_row, shift_fault};
    ghost use Rattle.test_codec.specs.Books.{one_floor};

    /// A book of these rows, in which the accounts have this. Of what the keeper has of a row so much must stay, or all of it where it
    /// has less. So many moves are made before one is refused memory.
    pub fn open(
        alloc: Global,
        rows: Vec<u32>,
        accounts: &[([u8; 32], u32, u128)],
        keeper: ([u8; 32], u32),
        floor: u128,
        moves_left: Option<u32>,
    ) -> Result<Book, AllocError> {
        let mut amounts = BTreeMap::new(alloc);
        for (who, row, amount) in accounts {
            write_amount(&mut amounts, who, *row, *amount)?;
        }
        let has = amount_in(&amounts, &keeper.0, keeper.1);
        let floor = floor.min(has);
        Ok(Book {
            rows,
            amounts,
            keeper,
            floor,
            moves_left,
        })
    }

    /// What an account has of a row.
    pub fn amount(&self, who: &[u8; 32], row: u32) -> u128
        ensures { result ≡ amount (amounts_in self.now.amounts.entries) (who.now, row) }
    {
        amount_in(&self.amounts, who, row)
    }

    /// What an account must keep of a row.
    fn floor_of(&self, who: &[u8; 32], row: u32) -> u128
        ensures { result ≡ one_floor self.now.keeper self.now.floor (who.now, row) }
    {
        let (keeper, kept) = &self.keeper;
        if who.cmp(keeper).is_eq() && row == *kept {
            self.floor
        } else {
            0
        }
    }

    /// What an account may give of a row.
    fn spare(&self, who: &[u8; 32], row: u32) -> u128
        ensures { result ≡ amount (amounts_in self.now.amounts.entries)
            (who.now, row) - one_floor self.now.keeper self.now.floor (who.now, row) }
    {
        self.amount(who, row) - self.floor_of(who, row)
    }

    /// Whether the row is there.
    fn has(&self, row: u32) -> bool
        ensures { result ≡ is_listed_row self.now.rows.items row }
    {
        self.rows.iter().any(|r| *r == row)
    }

    /// Why a move is refused.
    #[tactic(auto, unfolding(call_dispatch::specs::Shifts::shift_fault))]
    fn fault(&self, row: u32, from: &[u8; 32], to: &[u8; 32], amount: u128) -> Option<ShiftFault>
        ensures { result ≡ shift_fault (amounts_in self.now.amounts.entries)
            (one_floor self.now.keeper self.now.floor) self.now.rows.items row from.now to.now
            amount }
    {
        if !self.has(row) {
            return Some(ShiftFault::NoRow);
        }
        let have = self.spare(from, row);
        if have < amount {
            return Some(ShiftFault::NotEnough { have });
        }
        if from.cmp(to).is_eq() {
            return None;
        }
        let have = self.amount(to, row);
        if have > u128::MAX - amount {
            return Some(ShiftFault::Overflow { have });
        }
        None
    }
}

impl Mover for Book {
    ghost use Rattle.std.specs.Prelude.{Option, ℕ};
    ghost use Rattle.call_dispatch.specs.Shifts.{AccountRow};
    ghost use Rattle.test_codec.specs.Books.{one_floor};
    ghost use Rattle.test_codec.specs.Laws.{floors_low};

    ghost amounts = { λ b. amounts_in b.amounts.entries };

    ghost floors = { λ b. one_floor b.keeper b.floor };

    ghost rows = { λ b. b.rows.items };

    ghost Other = { AccountRow × ℕ };

    ghost other = { λ b. (b.keeper, b.floor) };

    ghost kept = { λ b. floors_low b.amounts.entries b.keeper b.floor b.kept };

    fn shift(
        &mut self,
        row: u32,
        from: &[u8; 32],
        to: &[u8; 32],
        amount: u128,
    ) -> Result<(), ShiftFault> {
        if let Some(fault) = self.fault(row, from, to, amount) {
            return Err(fault);
        }
        // For the prover alone: the amount is below 2^128.
        let _had = self.amount(from, row);
        if !count_down(&mut self.moves_left) {
            return Err(ShiftFault::Memory);
        }
        match move_amount(&mut self.amounts, row, from, to, amount) {
            Ok(()) => Ok(()),
            Err(_) => Err(ShiftFault::Memory),
        }
    }
}
