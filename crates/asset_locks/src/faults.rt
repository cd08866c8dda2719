//! Why a lock or a note doesn't fall.
use thiserror::Error;

/// The lock is below the amount that it should fall by.
#[derive(Clone, Copy, Debug, PartialEq, Eq, Error)]
#[error("not locked: only {have}")]
pub struct NotLocked {
    /// The lock, 0 where there is none.
    pub have: u128,
}

/// The note is below the amount that it should fall by.
#[derive(Clone, Copy, Debug, PartialEq, Eq, Error)]
#[error("not noted: only {have}")]
pub struct NotNoted {
    /// The note, 0 where there is none.
    pub have: u128,
}
