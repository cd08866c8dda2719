//! Writes of instructions, without the programs inside.
#![tactic(auto)]

mod group0;
mod group1;
mod group2;
mod group3;
mod group4;
mod group5;
mod heads;
mod several;

pub use heads::put_head;
