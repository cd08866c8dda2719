//! The run of the program over a source and a sink: the network, the step lines, the report.
#![tactic(auto)]

mod chains;
mod laws;
mod limits;
mod long_blocks;
mod phase;
mod queues;
mod session;
mod texts;
mod top;
mod words;

pub use line_serving::Status;
pub use top::run;
