//! The steps of a network of chains, as definitions: local executions, deliveries, claims and drains; its first world, and what a network
//! must be to open.
#![tactic(auto)]

mod laws;
mod step_result;

pub use laws::{law_of_constant_settings, law_of_decoded_programs, law_of_no_change_elsewhere};
pub use step_result::StepResult;
