//! Messages from trees: each tree of an input, as `xcm_explain` writes them, is answered with its message in hex.
#![tactic(auto)]

mod answer;
mod composer;
mod lines;
mod running;
mod top;

pub use line_serving::Status;
pub use top::compose;
