//! Bundles on their way to another chain.
use crate::Units;

/// How assets leave a chain.
#[derive(Clone, Copy, Debug, PartialEq, Eq)]
pub enum Way {
    /// They go back to the chain that issued them.
    Withdrawal,
    /// They are given up here, to be made at the receiver.
    Teleport,
}

/// Units on their way, at rest: they aren't copied, but may be dropped with what keeps them.
#[derive(Drop)]
pub struct Shipment {
    pub(crate) way: Way,
    pub(crate) units: Units,
}
