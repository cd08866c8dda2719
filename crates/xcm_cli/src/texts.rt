//! The text that says how the program is called.

pub(crate) const USAGE: &str = "usage: run | run --audit | gen NUMBER STEPS\n";
