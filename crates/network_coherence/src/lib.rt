//! Whether the chains of a network agree about their assets, and keep what they owe.
#![tactic(auto)]

mod accounts;
mod balances;
mod faults;
mod holdings;
mod listings;
mod network;
mod paths;

pub use accounts::sovereign_account;
pub use faults::{Incoherent, IncoherentCause};
pub use network::coherent;
pub use paths::same_path;
