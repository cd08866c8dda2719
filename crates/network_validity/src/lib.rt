//! Whether a network is one that a document may describe; one that is valid can open.
#![tactic(auto)]

mod chains;
mod laws;
mod valid;

pub use laws::{law_of_read_networks, law_of_valid_networks};
pub use valid::is_valid;
