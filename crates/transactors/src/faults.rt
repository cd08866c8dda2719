//! Why an asset isn't moved.
use std::alloc::AllocError;
use thiserror::Error;

/// Why an asset isn't moved into a location's account, or out of it. Source: the errors of xcm-executor's asset transactors; their order
/// is this project's own rule.
#[derive(Clone, Copy, Debug, PartialEq, Eq, Error)]
pub enum MoveFault {
    /// No row that is handled lists the asset.
    #[error("an asset that isn't handled")]
    NotHandled,
    /// The location has no account.
    #[error("a location without account")]
    NoAccount,
    /// The account has less than that, or can't take it in.
    #[error("refused by the ledger")]
    Refused,
    /// Out of memory.
    #[error("out of memory")]
    Memory,
}

impl From<AllocError> for MoveFault {
    ghost use Rattle.std.specs.Prelude.{◌≡◌};
    ghost use Rattle.transactors.specs.declared.faults.MoveFault.TheVariants.{Memory};

    ghost from_gives = { λ _ fault. fault ≡ Memory };

    fn from(_: AllocError) -> MoveFault {
        MoveFault::Memory
    }
}
