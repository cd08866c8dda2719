//! What a network of chains keeps, whatever steps it has run: laws, as the contracts of functions that do nothing. In a coherent one nothing
//! overflows, every withdrawal that its reserve admits is paid, and every teleport that its receiver admits is received.
#![tactic(auto)]

mod laws;
mod overflow;
mod payment;

pub use laws::{
    law_of_networks_with_pasts, law_of_pasts_through_steps, law_of_stopped_messages,
    law_of_stopped_nets,
};
pub use overflow::{law_of_unbarred_deposits, law_of_unsaturated_runs, law_of_unsaturated_worlds};
pub use payment::{law_of_lowered_accounts, law_of_paid_deliveries, law_of_paid_messages};
