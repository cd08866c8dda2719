//! The program and the tree of a message for callers in C: bytes in memory in, bytes in memory out.
#![tactic(auto)]

mod buffer;
mod kept;
mod running;
mod source;
mod tree;

/// The number for out of memory.
const NO_MEMORY: u8 = 8;

/// The number for a text that doesn't fit.
const NO_ROOM: u8 = 6;
