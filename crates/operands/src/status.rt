//! How a dispatched call ended.
ghost use Rattle.std.specs.Prelude.{◌≡◌, IfOk};

use crate::BoundedVec;
use std::alloc::AllocError;

/// The bytes of a call's error, at most 128.
pub type ErrorBytes = BoundedVec<u8, 128>;

/// How a call that a Transact dispatched ended (XCM format: `MaybeErrorCode`).
#[derive(Debug, Drop, PartialEq, Eq)]
pub enum MaybeError {
    /// It ended well.
    Success,
    /// It failed, and these bytes are its error.
    Error(ErrorBytes),
    /// It failed, and these are the first bytes of its error.
    TruncatedError(ErrorBytes),
}

impl MaybeError {
    /// The same value.
    pub fn copy(&self) -> Result<MaybeError, AllocError>
        ensures { IfOk result (λ status. status ≡ self.now) }
    {
        match self {
            MaybeError::Success => Ok(MaybeError::Success),
            MaybeError::Error(bytes) => Ok(MaybeError::Error(bytes.copy()?)),
            MaybeError::TruncatedError(bytes) => Ok(MaybeError::TruncatedError(bytes.copy()?)),
        }
    }
}
