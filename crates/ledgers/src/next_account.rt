//! The accounts of a ledger in order.
ghost use Rattle.std.specs.Prelude.{◌≡◌, None, Some, MatchOption, option_copied};
ghost use Rattle.ledgers.specs.Ledgers.{IsAfter};
ghost use Rattle.ledgers.specs.LedgerRows.{AmountKey, amount_in_row, IsNextRow};

use crate::account_key::AccountKey;
use crate::row_writes::AmountRows;

/// The least account after another of which a row says more than 0.
pub(crate) fn next_holder(rows: &AmountRows, after: Option<&[u8; 32]>) -> Option<[u8; 32]>
    ensures { MatchOption result
        ((k : AmountKey) → IsAfter (option_copied after.entry) k.0
        → amount_in_row rows.now.entries k ≡ 0)
        (IsNextRow (option_copied after.entry) rows.now.entries) }
{
    match after {
        Some(after) => holder_after(rows, after),
        None => first_holder(rows),
    }
}

/// The least account of which a row says more than 0.
fn first_holder(rows: &AmountRows) -> Option<[u8; 32]>
    ensures { MatchOption result
        ((k : AmountKey) → IsAfter None k.0 → amount_in_row rows.now.entries k ≡ 0)
        (IsNextRow None rows.now.entries) }
{
    for (key, amount) in rows.iter() {
        if *amount > 0 {
            return Some(key.0.account());
        }
    }
    None
}

/// The least account after another of which a row says more than 0.
fn holder_after(rows: &AmountRows, after: &[u8; 32]) -> Option<[u8; 32]>
    ensures { MatchOption result
        ((k : AmountKey) → IsAfter (Some after.now) k.0 → amount_in_row rows.now.entries k ≡ 0)
        (IsNextRow (Some after.now) rows.now.entries) }
{
    // Of the account's own rows only one of the last number can be among these.
    for (key, amount) in rows.range((AccountKey::of(after), u32::MAX)..) {
        if *amount > 0 && key.0.is_after(after) {
            return Some(key.0.account());
        }
    }
    None
}
