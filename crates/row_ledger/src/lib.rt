//! What a call moves, as what the accounts of a chain hold; and a ledger with the table of its rows, in which calls move amounts. It shows
//! that a chain's ledger can do what calls ask for.
#![tactic(auto)]

mod laws;
mod moving;
mod row_ledger;

pub use laws::{law_of_calls_of_accounts, law_of_moved_rows, law_of_rows_held};
pub use moving::shift_row;
pub use row_ledger::RowLedger;
