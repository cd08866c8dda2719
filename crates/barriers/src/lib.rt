//! The barriers of a chain: which programs are let in.
#![tactic(auto)]

mod barrier;
mod laws;
mod paid;

pub use barrier::{Barrier, Origins, allow};
pub use laws::law_of_barriers;
pub use operands::{OpenQuery, Weight};
pub use xcm_program::Program;
