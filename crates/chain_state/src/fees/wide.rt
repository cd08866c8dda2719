//! Amounts that may pass 2^128-1.
ghost use Rattle.std.specs.Prelude.{◌≡◌, ◌<◌, ◌≤◌, ◌+◌, ◌-◌, ◌*◌, ◌^◌, IsTrue};
ghost use Rattle.amounts.specs.Amounts.{single};
ghost use Rattle.asset_lists.specs.declared.units.Kind.{Kind};
ghost use Rattle.asset_lists.specs.Listed.{lists};
ghost use Rattle.asset_bundles.specs.declared.book.Cause.{Cause};
ghost use Rattle.asset_bundles.specs.Books.{Booked};
ghost use Rattle.asset_bundles.specs.Totals.{total_value, wide_value};
ghost use Rattle.exec_base.specs.Host.{total_of};

use asset_bundles::{BurnBook, Cause, Total, WideSum};
use asset_lists::{AssetId, Kind};

/// The amount as a line tells it: its high part saturates at 2^32-1.
#[tactic(auto, using(crate::proofs::Widths::wide_total))]
pub(crate) fn line_total(amount: WideSum) -> Total
    ensures { result ≡ total_of (wide_value amount) }
{
    let high = match u32::try_from(amount.high) {
        Ok(high) => high,
        Err(_) => u32::MAX,
    };
    Total {
        high,
        low: amount.low,
    }
}

/// What of two sums fits into an account that holds so much, and what would pass 2^128-1 there.
pub(crate) fn parted(held: u128, paid: u128, kept: Total) -> (u128, WideSum)
    ensures above { wide_value result.1 ≡ (held + (paid + total_value kept)) - (2 ^ 128 - 1) }
    ensures fits { result.0 + wide_value result.1 ≡ paid + total_value kept }
{
    let kept = WideSum {
        high: u64::from(kept.high),
        low: kept.low,
    };
    let all = kept.plus(paid).plus(held);
    if all.high == 0 {
        return (kept.low + paid, WideSum::ZERO);
    }
    let above = WideSum {
        high: all.high - 1,
        low: all.low,
    };
    (u128::MAX - held, above.plus(1))
}

/// Books 2^128-1 of a listed fungible asset as saturated.
fn book_most(book: &mut BurnBook, id: &AssetId)
    requires listed { IsTrue (lists book.old.listed (id.now, Kind.Fungible)) }
    ensures { book.new ≡ Booked book.old (single ((id.now, Kind.Fungible), Cause.Saturated)
        (2 ^ 128 - 1)) }
{
    book.add(id, Kind::Fungible, Cause::Saturated, u128::MAX);
}

/// Books 2^128 of a listed fungible asset as saturated, so many times.
fn book_high(book: &mut BurnBook, id: &AssetId, high: u64)
    requires listed { IsTrue (lists book.old.listed (id.now, Kind.Fungible)) }
    ensures { book.new ≡ Booked book.old (single ((id.now, Kind.Fungible), Cause.Saturated)
        (high * 2 ^ 128)) }
{
    for _ in 0..high {
        book_most(book, id);
        book.add(id, Kind::Fungible, Cause::Saturated, 1);
    }
}

/// Books so much of a listed fungible asset as saturated. No memory is taken.
pub(crate) fn book_wide(book: &mut BurnBook, id: &AssetId, amount: WideSum)
    requires listed { IsTrue (lists book.old.listed (id.now, Kind.Fungible)) }
    ensures { book.new ≡ Booked book.old (single ((id.now, Kind.Fungible), Cause.Saturated)
        (wide_value amount)) }
{
    book_high(book, id, amount.high);
    book.add(id, Kind::Fungible, Cause::Saturated, amount.low);
}
