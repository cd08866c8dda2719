//! What the instructions ask of a chain, and the registers that they work on.
#![tactic(auto)]

mod event;
mod faults;
mod host;
mod registers;
mod settings;

pub use event::{Event, Part};
pub use faults::HostFault;
pub use host::Host;
pub use registers::Registers;
pub use settings::Settings;
