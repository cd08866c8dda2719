//! Moves of assets into the accounts of locations, and out of them.
#![tactic(auto)]

mod faults;
mod floored;
mod laws;
mod moves;
mod refusals;
mod transactor;
mod transactors;

pub use faults::MoveFault;
pub use floored::Floored;
pub use laws::{law_of_floors_of_moves, law_of_kinds_covering_rows};
pub use moves::{
    deposit_all, deposit_checked, transfer_all, transfer_checked, withdraw_all, withdraw_checked,
};
pub use refusals::{deposit_fault, transfer_fault, withdraw_fault};
pub use transactor::Transactor;
pub use transactors::{FirstThat, Fungibles, Instances};
