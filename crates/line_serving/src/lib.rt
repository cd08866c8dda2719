//! Inputs that are served a line at a time: each line is answered before more is read.
#![tactic(auto)]

mod feeder;
mod limits;
mod lines;
mod machine;
mod page;
mod serving;
mod status;
mod writing;

pub use limits::{fits_limits, passes_limits};
pub use machine::LineMachine;
pub use serving::serve;
pub use status::Status;
pub use writing::{write_reply, write_text};
