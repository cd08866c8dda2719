//! What the accounts of a chain hold.
#![tactic(auto)]

mod account_key;
mod account_sums;
mod asset_table;
mod faults;
mod laws;
mod ledger;
mod list_moves;
mod listed_asset;
mod listing;
mod next_account;
mod row_moves;
mod row_writes;
mod rows;
mod sums;
mod supplies;

pub use account_key::AccountKey;
pub use asset_bundles::{Trap, TrapStore, Unknown, law_of_traps};
pub use asset_table::AssetTable;
pub use faults::{DepositFault, LedgerFault, TransferFault};
pub use laws::law_of_ledgers;
pub use ledger::Ledger;
pub use listing::all_holdings;
pub use supplies::{Backing, Supply};
