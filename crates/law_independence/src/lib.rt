//! Steps of a network that act at different chains may be swapped: laws of every network, coherent or not.
#![tactic(auto)]

mod laws;

pub use laws::{law_of_independence, law_of_local_acts, law_of_runs_beside_deliveries};
