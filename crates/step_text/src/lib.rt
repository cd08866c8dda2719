//! The texts of steps and blocks in a report.
#![tactic(auto)]

mod assets;
mod blocks;
mod headings;
mod laws;
mod lines;
mod opening;
mod steps;
mod words;

pub use blocks::{accounts_text, checking_text, locked_text, queue_text, trapped_text};
pub use headings::heading;
pub use laws::{law_of_names_by_number, law_of_queue_lines, law_of_queued};
pub use ledgers::{Backing, Supply};
pub use lines::{backing_line, checking_line, locked_line, queue_line, supply_line, trap_line};
pub use opening::{line_refused_line, network_refused_line, opening_line};
pub use steps::{drained_line, step_text};
