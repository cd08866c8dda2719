//! Channels between chains, as the network document says them, and what their messages carry.
#![tactic(auto)]

mod cargo;
mod channel;

pub use cargo::Cargo;
pub use channel::Channel;
