//! Every run is made of safe changes of its chain.
#![tactic(auto)]

mod laws;

pub use laws::law_of_safe_runs;
