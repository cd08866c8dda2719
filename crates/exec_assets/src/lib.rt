//! The instructions that move assets into the holding and out of it on one chain, or ask what is held.
#![tactic(auto)]

mod arriving;
mod buying;
mod exchanges;
mod holding;
mod taking;

pub use arriving::{
    claim_asset, receive_teleported_asset, reserve_asset_deposited, withdraw_asset,
};
pub use buying::{buy_execution, refund_surplus};
pub use exchanges::exchange_asset;
pub use holding::expect_asset;
pub use taking::{burn_asset, deposit_asset, transfer_asset};
