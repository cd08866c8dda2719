//! The execution of programs on a chain: admission, the run with its handlers and appendices, and its end.
#![tactic(auto)]

mod ending;
mod executing;
mod performing;
mod running;
mod taking;
mod weights;

pub use exec_rules::{Barriers, ChainRules};
pub use executing::execute;
