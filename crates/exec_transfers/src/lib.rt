//! The instructions that send a message to another chain: with assets, with a report, or about a lock. A delivery fee is charged before, and goes back
//! where the rest is refused.
#![tactic(auto)]

mod leaving;
mod locks;
mod naming;
mod pallets;
mod reports;

pub use leaving::{
    deposit_reserve_asset, initiate_reserve_withdraw, initiate_teleport, transfer_reserve_asset,
};
pub use locks::{lock_asset, request_unlock};
pub use reports::{query_pallet, report_error, report_holding, report_transact_status};
