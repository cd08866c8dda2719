//! Calls of transactors, of the state of a chain, and of a chain without channels where programs are executed (`FakeHost`), with
//! expected values worked out by hand.
#![tactic(auto)]

#[cfg(test)]
mod chains;
#[cfg(test)]
mod courses;
mod fake;
#[cfg(test)]
mod fake_chain;
#[cfg(test)]
mod fake_host_rows;
mod fake_hosting;
#[cfg(test)]
mod host_rows;
#[cfg(test)]
mod program_courses;
#[cfg(test)]
mod program_rows;
#[cfg(test)]
mod sending_rows;
#[cfg(test)]
mod texts;
#[cfg(test)]
mod transactor_rows;

use chain_state::ChainState;

/// Drops a chain, as the rows do at their ends: for the prover, which shows here that its invariant holds until then.
pub fn let_go(chain: ChainState) {
    drop(chain);
}

pub use fake::FakeHost;
