//! What was trapped.
use crate::Units;
use locations::Location;

/// What a run left in its holding, at most 20 assets of it, until it is claimed.
#[derive(Drop)]
pub struct Trap {
    /// Counts from 1 on each chain. It saturates at 2^64-1.
    pub number: u64,
    /// Who may claim it.
    pub origin: Location,
    /// What was left, at rest.
    pub goods: Units,
}
