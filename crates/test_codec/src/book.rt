//! Amounts of accounts, kept in memory.
ghost use Rattle.std.specs.Prelude.{◌≤◌};
ghost use Rattle.amounts.specs.Amounts.{amount};
ghost use Rattle.test_codec.specs.Books.{amounts_in};

use std::collections::BTreeMap;

/// What each account has of each row.
pub(crate) type AmountRows = BTreeMap<([u8; 32], u32), u128>;

/// Amounts of accounts. One account must keep something of one row. Memory is refused at one of the moves, if so asked.
#[derive(Drop)]
pub struct Book {
    pub(crate) rows: Vec<u32>,
    pub(crate) amounts: AmountRows,
    pub(crate) keeper: ([u8; 32], u32),
    pub(crate) floor: u128,
    /// How many moves there are before the one that is refused memory.
    pub(crate) moves_left: Option<u32>,
    ghost kept: { floor ≤ amount (amounts_in amounts.entries) keeper },
}
