//! Calls that a chain can be asked to make: how they are spelled, and what they move.
#![tactic(auto)]

mod amount;
mod call;
mod dispatching;
mod end;
mod faults;
mod laws;
mod mover;
mod parts;
mod reading;
mod units;
mod writing;

pub use amount::PositiveAmount;
pub use call::{Batch, Call, NoBatch};
pub use dispatching::dispatch;
pub use end::CallEnd;
pub use faults::{CallFault, ShiftFault};
pub use laws::{law_of_dispatches, law_of_interruptions, law_of_moving_back, law_of_spelled_calls};
pub use mover::Mover;
pub use reading::read_call;
pub use units::call_units;
pub use writing::write_call;
