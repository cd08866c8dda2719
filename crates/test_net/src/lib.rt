//! Steps in networks: what each tells, and what is there after it; and a course of messages through channels.
#![tactic(auto)]

#[cfg(test)]
mod admission;
#[cfg(test)]
mod documents;
#[cfg(test)]
mod fees;
#[cfg(test)]
mod programs;
#[cfg(test)]
mod queries;
#[cfg(test)]
mod queue_rows;
#[cfg(test)]
mod refusals;
#[cfg(test)]
mod stepping;
#[cfg(test)]
mod teleports;
#[cfg(test)]
mod together;
#[cfg(test)]
mod transfers;
#[cfg(test)]
mod traps;

use chain_net::Net;

/// Drops a network, as the rows do at their ends: for the prover, which shows here that its invariant holds until then.
pub fn let_go(net: Net) {
    drop(net);
}
