//! Why a value isn't read.
ghost use Rattle.std.specs.Prelude.{◌≡◌};
ghost use Rattle.scale_codec.specs.declared.faults.WireFault.TheVariants.{NoSpelling as Unspelled, Memory};

use std::alloc::{AllocError, AllocFailed};
use thiserror::Error;

/// No prefix of what is left spells a value of the type that was asked for. The cursor is where it was.
#[derive(Clone, Copy, Debug, PartialEq, Eq, Error)]
#[error("no prefix of the bytes spells such a value")]
pub struct NoSpelling;

/// Why a value that takes memory isn't read. The cursor is where it was.
#[derive(Clone, Copy, Debug, PartialEq, Eq, Error)]
pub enum WireFault {
    /// No prefix of what is left spells a value of the type that was asked for.
    #[error("no prefix of the bytes spells such a value")]
    NoSpelling,
    /// There is no memory for the value.
    #[error("out of memory")]
    Memory,
}

impl From<NoSpelling> for WireFault {
    ghost from_gives = { λ _ e. e ≡ Unspelled };

    fn from(_e: NoSpelling) -> WireFault {
        WireFault::NoSpelling
    }
}

impl From<AllocError> for WireFault {
    ghost from_gives = { λ _ e. e ≡ Memory };

    fn from(_e: AllocError) -> WireFault {
        WireFault::Memory
    }
}

impl<T: Drop> From<AllocFailed<T>> for WireFault {
    ghost from_gives = { λ _ e. e ≡ Memory };

    fn from(_e: AllocFailed<T>) -> WireFault {
        WireFault::Memory
    }
}
