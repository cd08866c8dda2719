//! The state of one chain of the network, as a host of programs.
#![tactic(auto)]

mod assets;
mod fees;
mod hosting;
mod ids;
mod laws;
mod opening;
mod reading;
mod report;
mod send;
mod state;
mod steps;

pub use laws::law_of_transactors;
pub use state::ChainState;
