//! Why no exchange is made.
use thiserror::Error;

/// Why no exchange is made.
#[derive(Clone, Copy, Debug, PartialEq, Eq, Error)]
pub enum ExchangeFault {
    /// No pool makes one of what is offered and wanted.
    #[error("no deal")]
    NoDeal,
    /// Out of memory.
    #[error("out of memory")]
    Memory,
}
