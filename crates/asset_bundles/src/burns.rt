//! Bundles that are burned.
ghost use Rattle.std.specs.Prelude.{◌≡◌, IsTrue};
ghost use Rattle.std.specs.List.{list_all};
ghost use Rattle.amounts.specs.Amounts.{from_rows};
ghost use Rattle.amounts.specs.Rows.{rows_at};
ghost use Rattle.asset_lists.specs.Units.{unit_of, instance_in};
ghost use Rattle.asset_bundles.specs.Bundles.{rows_of};
ghost use Rattle.asset_bundles.specs.Books.{Booked, AreListed, burned_for, excess_cause};
ghost use Rattle.asset_lists.specs.Listed.{listed_of, lists};

use crate::{AssetBundle, BurnBook, Cause};
use asset_lists::{Asset, Fun};

/// Books all these assets for one cause.
fn book_all(book: &mut BurnBook, items: &[Asset], cause: Cause)
    requires { IsTrue (list_all (λ a. lists book.old.listed (listed_of (unit_of a))) items.now) }
    ensures { book.new ≡ Booked book.old
        (from_rows (rows_at (λ unit. (listed_of unit, cause)) (rows_of items.now))) }
{
    // For the prover alone: the totals of the rows are in range.
    let _ = &book.rows;
    for item in items {
        book.add(&item.id, item.kind(), cause, item.amount());
    }
}

/// Why what is above the most of this asset is given up.
fn excess_cause(item: &Asset) -> Cause
    ensures { result ≡ excess_cause (instance_in item.now.fun) }
{
    match item.fun {
        Fun::Fungible(_) => Cause::Saturated,
        Fun::NonFungible(_) => Cause::Merged,
    }
}

/// Books all these assets as what a join gives up.
pub(crate) fn book_excess(book: &mut BurnBook, items: &[Asset])
    requires { IsTrue (list_all (λ a. lists book.old.listed (listed_of (unit_of a))) items.now) }
    ensures { book.new ≡ Booked book.old
        (from_rows (rows_at (λ unit. (listed_of unit, excess_cause unit.1)) (rows_of items.now))) }
{
    // For the prover alone: the totals of the rows are in range.
    let _ = &book.rows;
    for item in items {
        book.add(&item.id, item.kind(), excess_cause(item), item.amount());
    }
}

impl AssetBundle {
    /// Burns all of it, and books it for this cause. The book lists each asset of it.
    pub fn burn(self, book: &mut BurnBook, cause: Cause)
        requires { AreListed book.old.listed self }
        ensures { book.new ≡ Booked book.old (burned_for cause self) }
    {
        let AssetBundle { items } = self;
        book_all(book, items.as_slice(), cause);
    }
}
