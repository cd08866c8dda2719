//! Why bytes are no call, and why an amount isn't moved.

use std::alloc::AllocError;
use thiserror::Error;

/// Why bytes aren't read as a call.
#[derive(Clone, Copy, Debug, PartialEq, Eq, Error)]
pub enum CallFault {
    /// The bytes aren't one call with nothing after it.
    #[error("not a call")]
    NotACall,
    /// Out of memory.
    #[error("out of memory")]
    Memory,
}

/// Why an amount isn't moved, the first cause that holds in this order. Amounts are in the asset's smallest unit.
#[derive(Clone, Copy, Debug, PartialEq, Eq, Error)]
pub enum ShiftFault {
    /// The row isn't there, or it isn't fungible.
    #[error("no such row")]
    NoRow,
    /// What the giver has less its floor is below the amount.
    #[error("not enough: only {have}")]
    NotEnough {
        /// What it has less its floor.
        have: u128,
    },
    /// The receiver would have more than 2^128-1.
    #[error("too much to add to {have}")]
    Overflow {
        /// What it has.
        have: u128,
    },
    /// Out of memory.
    #[error("out of memory")]
    Memory,
}

impl From<AllocError> for CallFault {
    ghost use Rattle.std.specs.Prelude.{◌≡◌};
    ghost use Rattle.call_dispatch.specs.declared.faults.CallFault.TheVariants.{Memory};

    ghost from_gives = { λ _ fault. fault ≡ Memory };

    fn from(_: AllocError) -> CallFault {
        CallFault::Memory
    }
}

impl From<AllocError> for ShiftFault {
    ghost use Rattle.std.specs.Prelude.{◌≡◌};
    ghost use Rattle.call_dispatch.specs.declared.faults.ShiftFault.TheVariants.{Memory};

    ghost from_gives = { λ _ fault. fault ≡ Memory };

    fn from(_: AllocError) -> ShiftFault {
        ShiftFault::Memory
    }
}
