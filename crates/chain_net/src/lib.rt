//! A network of chains that is stepped: local executions, deliveries, claims and drains.
#![tactic(auto)]

mod claiming;
mod delivering;
mod draining;
mod executing;
mod finding;
mod laws;
mod links;
mod losing;
mod net;
mod opening;
mod reading;
mod running;

pub use laws::{law_of_reached_nets, law_of_swapped_calls};
pub use net::Net;
pub use network_steps::StepResult;
