//! Why a list of assets is refused.
use std::alloc::AllocError;
use thiserror::Error;

/// Why items are no list of assets, or a list can't take one in.
#[derive(Clone, Copy, Debug, PartialEq, Eq, Error)]
pub enum ListFault {
    /// There would be more than 20.
    #[error("more than 20 assets")]
    TooMany,
    /// An amount is 0.
    #[error("an amount of 0")]
    Zero,
    /// The items don't rise strictly, or the unit is there already.
    #[error("assets out of order")]
    OutOfOrder,
    /// Out of memory.
    #[error("out of memory")]
    Memory,
}

/// Why a list of assets has no names at another chain.
#[derive(Clone, Copy, Debug, PartialEq, Eq, Error)]
pub enum ReanchorFault {
    /// An id is bytes, or the target can't name its location.
    #[error("an asset that the target can't name")]
    NotReanchored,
    /// Two assets would be the same.
    #[error("two assets that the target names alike")]
    Same,
    /// Out of memory.
    #[error("out of memory")]
    Memory,
}

impl From<AllocError> for ListFault {
    ghost use Rattle.std.specs.Prelude.{◌≡◌};
    ghost use Rattle.asset_lists.specs.declared.faults.ListFault.TheVariants.{Memory};

    ghost from_gives = { λ _ fault. fault ≡ Memory };

    fn from(_: AllocError) -> ListFault {
        ListFault::Memory
    }
}

impl From<AllocError> for ReanchorFault {
    ghost use Rattle.std.specs.Prelude.{◌≡◌};
    ghost use Rattle.asset_lists.specs.declared.faults.ReanchorFault.TheVariants.{Memory};

    ghost from_gives = { λ _ fault. fault ≡ Memory };

    fn from(_: AllocError) -> ReanchorFault {
        ReanchorFault::Memory
    }
}
