//! How a call ended.

/// How a call ended.
#[derive(Clone, Copy, Debug, PartialEq, Eq)]
pub enum CallEnd {
    /// It did all that it is to do.
    Success,
    /// It failed, and changed nothing: 1, 2 and 3 say why an amount wasn't moved, in the order of `ShiftFault`; a call that is to fail gives its own code.
    Error(u8),
}
