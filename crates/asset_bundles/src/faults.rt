//! Why assets aren't taken.
use std::alloc::AllocError;
use thiserror::Error;

/// Why a list isn't taken from a bundle.
#[derive(Clone, Copy, Debug, PartialEq, Eq, Error)]
pub enum TakeFault {
    /// A listed asset isn't held in full.
    #[error("an asset that is not held in full")]
    NotHeld,
    /// Out of memory.
    #[error("out of memory")]
    Memory,
}

impl From<AllocError> for TakeFault {
    ghost use Rattle.std.specs.Prelude.{◌≡◌};
    ghost use Rattle.asset_bundles.specs.declared.faults.TakeFault.TheVariants.{Memory};

    ghost from_gives = { λ _ fault. fault ≡ Memory };

    fn from(_: AllocError) -> TakeFault {
        TakeFault::Memory
    }
}
