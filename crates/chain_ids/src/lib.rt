//! The names of the chains of a network.
#![tactic(auto)]

mod chain;
mod laws;

pub use chain::ChainId;
pub use laws::law_of_one_chain;
