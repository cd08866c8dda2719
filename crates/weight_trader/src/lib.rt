//! What programs weigh, and what weight costs.
#![tactic(auto)]

mod laws;
mod purchases;
mod rate;
mod trader;
mod weighing;

pub use laws::law_of_conserved_payments;
pub use rate::{Rate, price};
pub use trader::{TooExpensive, Trader};
pub use weighing::{NotComputable, weigh, weigh_rest};
