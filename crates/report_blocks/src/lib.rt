//! The blocks of a report: what is written when a network opens, and for each step as it is run.
#![tactic(auto)]

mod audited;
mod draining;
mod line_outcome;
mod marked_steps;
mod marking;
mod opening;
mod reads;
mod serving;
mod steps;

pub use audited::AuditedNet;
pub use line_outcome::LineOutcome;
pub use opening::{open_audited, open_network, opening_text};
pub use serving::serve;
