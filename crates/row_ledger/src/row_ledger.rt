//! A ledger with the table of its rows.
ghost use Rattle.std.specs.List.{IsDistinct};
ghost use Rattle.std.specs.List.{IsDistinct-prop};
ghost use Rattle.std.specs.Ordering.{eq_by_cmp};
ghost use Rattle.asset_lists.specs.Listed.{listed_cmp};
ghost use Rattle.trust_tables.specs.Trust.{listing};

use crate::shift_row;
use call_dispatch::{Call, CallEnd, Mover, ShiftFault, dispatch};
use ledgers::Ledger;
use std::alloc::AllocError;
use trust_tables::AssetRow;

/// A ledger, and the rows by whose numbers calls name what they move. No asset is in two rows.
#[derive(Drop)]
pub struct RowLedger {
    rows: Vec<AssetRow>,
    ledger: Ledger,
    ghost apart: { IsDistinct (eq_by_cmp listed_cmp)
        (listing rows.items) } by { IsDistinct-prop (eq_by_cmp listed_cmp) (listing rows.items) },
}

impl RowLedger {
    ghost use Rattle.std.specs.Prelude.{◌≡◌};

    /// The ledger with these rows.
    pub fn new(rows: Vec<AssetRow>, ledger: Ledger) -> RowLedger
        requires apart { IsDistinct (eq_by_cmp listed_cmp) (listing rows.items) }
        ensures rows { result.rows ≡ rows }
        ensures ledger { result.ledger ≡ ledger }
    {
        RowLedger { rows, ledger }
    }

    /// The ledger as it is now.
    pub fn ledger(&self) -> &Ledger
        ensures { result.now ≡ self.now.ledger }
    {
        &self.ledger
    }
}

impl Mover for RowLedger {
    ghost use Rattle.std.specs.Prelude.{List};
    ghost use Rattle.trust_tables.specs.declared.rows.AssetRow.{AssetRow};
    ghost use Rattle.asset_lists.specs.Listed.{Listed};
    ghost use Rattle.ledgers.specs.Ledgers.{Held};
    ghost use Rattle.row_ledger.specs.RowAccounts.{fungible_rows, row_amounts, held_aside, no_floors};
    ghost use Rattle.row_ledger.specs.Laws.{nothing_kept};

    ghost amounts = { λ l. row_amounts l.rows.items l.ledger.held };

    ghost floors = { λ l. no_floors };

    ghost rows = { λ l. fungible_rows l.rows.items };

    ghost Other = { List AssetRow × List Listed × Held };

    ghost other = { λ l. (l.rows.items, l.ledger.listed, held_aside l.rows.items l.ledger.held) };

    ghost kept = { λ l. nothing_kept (row_amounts l.rows.items l.ledger.held) };

    fn shift(
        &mut self,
        row: u32,
        from: &[u8; 32],
        to: &[u8; 32],
        amount: u128,
    ) -> Result<(), ShiftFault> {
        let alloc = *self.rows.allocator();
        shift_row(
            alloc,
            &mut self.ledger,
            self.rows.as_slice(),
            row,
            from,
            to,
            amount,
        )
    }
}

impl RowLedger {
    ghost use Rattle.std.specs.Prelude.{◌≡◌, IfOk, OnOk, OnErr};
    ghost use Rattle.row_ledger.specs.RowAccounts.{no_floors};
    ghost use Rattle.row_ledger.specs.Calls.{call_end, held_called, IsHeldInPart};

    /// Does a call for an account. Where memory is refused a prefix of a batch may have been done.
    pub fn call(&mut self, who: &[u8; 32], call: &Call) -> Result<CallEnd, AllocError>
        ensures rows { self.new.rows.items ≡ self.old.rows.items }
        ensures listed { self.new.ledger.listed ≡ self.old.ledger.listed }
        ensures end { IfOk result (λ end. end
            ≡ call_end self.old.rows.items self.old.ledger.held no_floors who.now call.now) }
        ensures held { OnOk result (self.new.ledger.held
            ≡ held_called self.old.rows.items self.old.ledger.held no_floors who.now call.now) }
        ensures err { OnErr result
            (IsHeldInPart self.old.rows.items self.old.ledger.held no_floors who.now call.now
            self.new.ledger.held) }
    {
        dispatch(self, who, call)
    }
}
