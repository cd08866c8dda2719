//! Fees that would pass 2^128-1 in the fee account.
ghost use Rattle.std.specs.Prelude.{◌≡◌, None, IsTrue};
ghost use Rattle.amounts.specs.Amounts.{single, from_rows};
ghost use Rattle.amounts.specs.Rows.{rows_at};
ghost use Rattle.asset_lists.specs.Listed.{listed_of, lists};
ghost use Rattle.asset_bundles.specs.declared.book.Cause.{Cause};
ghost use Rattle.asset_bundles.specs.Books.{Booked};
ghost use Rattle.asset_bundles.specs.Totals.{wide_value};
ghost use Rattle.exec_base.specs.Host.{total_of};
ghost use Rattle.chain_state.specs.Settling.{are_units_listed};

use crate::fees::wide::{book_wide, line_total};
use asset_bundles::{BurnBook, Total, WideSum};
use asset_lists::AssetId;
use std::marker::Model;

/// So much of a fungible asset. Contracts see it as the unit and the amount.
#[derive(Drop)]
pub(crate) struct FeeExcess {
    id: AssetId,
    amount: WideSum,
}

impl Model for FeeExcess {
    ghost use Rattle.std.specs.Prelude.{ℕ, None};
    ghost use Rattle.asset_lists.specs.Units.{Unit};
    ghost use Rattle.asset_bundles.specs.Totals.{wide_value};

    ghost Value = { Unit × ℕ };

    ghost view = { λ a. ((a.id, None), wide_value a.amount) };
}

impl FeeExcess {
    /// So much of the asset.
    pub(crate) fn new(id: &AssetId, amount: WideSum) -> FeeExcess
        ensures { result ≡ ((id.now, None), wide_value amount) }
    {
        FeeExcess {
            id: id.copy(),
            amount,
        }
    }

    /// The asset.
    pub(crate) fn id(&self) -> &AssetId
        ensures { self.now.0 ≡ (result.now, None) }
    {
        &self.id
    }

    /// The amount, as a line tells it.
    pub(crate) fn total(&self) -> Total
        ensures { result ≡ total_of self.now.1 }
    {
        line_total(self.amount)
    }

    /// Books it as saturated. No memory is taken.
    fn book(&self, book: &mut BurnBook)
        requires listed { IsTrue (lists book.old.listed (listed_of self.now.0)) }
        ensures { book.new ≡ Booked book.old (single (listed_of self.now.0, Cause.Saturated)
            self.now.1) }
    {
        book_wide(book, &self.id, self.amount);
    }
}

/// Books all of them as saturated. No memory is taken.
pub(crate) fn book_all(book: &mut BurnBook, above: &[FeeExcess])
    requires listed { IsTrue (are_units_listed book.old.listed above.now) }
    ensures { book.new ≡ Booked book.old
        (from_rows (rows_at (λ unit. (listed_of unit, Cause.Saturated)) above.now)) }
{
    for one in above {
        one.book(book);
    }
}
