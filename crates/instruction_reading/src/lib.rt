//! Reads of instructions, without the programs inside.
#![tactic(auto)]

mod channels;
mod expectations;
mod group0;
mod group1;
mod group2;
mod group3;
mod group4;
mod group5;
mod heads;
mod holding;
mod inside;
mod locks;
mod origin;
mod programs;
mod queries;
mod transfers;

pub use heads::fill_head;
