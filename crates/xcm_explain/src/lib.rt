//! What messages say: each line of an input, a message in hex, is answered with its tree.
#![tactic(auto)]

mod block;
mod explainer;
mod laws;
mod line;
mod stop;
mod top;

pub use laws::law_of_walks;
pub use line_serving::Status;
pub use top::explain;
