//! What the functions of several instructions share: what goes into the holding and out of it, and the delivery fee around those that send.
#![tactic(auto)]

mod fees;
mod holding;

pub use fees::{begin_sending, charge, end_sending, give_back};
pub use holding::{answer_of, has_room, hold, put_back, take_asset};
