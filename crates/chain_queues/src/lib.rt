//! The channels that lead from a chain, and the messages that wait in them.
#![tactic(auto)]

mod channels;
mod faults;
mod queue;
mod queues;

pub use channel_parts::{Cargo, Channel};
pub use faults::PushFault;
pub use queues::{Queue, Queued, Queues};
