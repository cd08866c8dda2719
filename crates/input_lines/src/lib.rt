//! The lines of an input, and what the ones after the network ask for.
#![tactic(auto)]

mod laws;
mod line;
mod lines;
mod number;
mod step;
mod words;

pub use laws::{law_of_step_lines, law_of_unique_lines};
pub use line::{Line, read_line};
pub use lines::{ends_network, line_len, text_of, without_feed};
pub use step::Step;
pub use words::message_word;
