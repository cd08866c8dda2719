//! What a network is: its chains, and the channels between them.
#![tactic(auto)]

mod chain;
mod network;

pub use asset_pools::Pool;
pub use chain::{Balance, ChainSpec};
pub use network::{ChannelSpec, NetworkSpec};
