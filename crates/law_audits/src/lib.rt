//! In a coherent network the sums that a report prints are the sums that are conserved.
//! Checking accounts stay below their maximum: a law of every network, coherent or not.
#![tactic(auto)]

mod checking;
mod laws;

pub use checking::law_of_checking_accounts;
pub use laws::law_of_printed_networks;
