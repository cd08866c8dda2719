//! A list of steps that is drawn from a number, run in a fixed network, and what came of it.
#![tactic(auto)]

mod counts;
mod document;
mod draws;
mod generating;
mod laws;
mod messages;
mod network_laws;
mod running;
mod turns;

pub use generating::generate;
pub use laws::law_of_counts;
pub use network_laws::law_of_document;
