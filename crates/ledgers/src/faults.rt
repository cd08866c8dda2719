//! Why a ledger refuses a move.
use std::alloc::AllocError;
use thiserror::Error;

/// Why assets aren't withdrawn. Amounts are in the asset's smallest unit.
#[derive(Clone, Copy, Debug, PartialEq, Eq, Error)]
pub enum LedgerFault {
    /// The account has less of an asset than is asked.
    #[error("not enough: only {have}")]
    NotEnough {
        /// What it has.
        have: u128,
    },
    /// Out of memory.
    #[error("out of memory")]
    Memory,
}

/// Why assets aren't transferred. Amounts are in the asset's smallest unit.
#[derive(Clone, Copy, Debug, PartialEq, Eq, Error)]
pub enum TransferFault {
    /// The giver has less of an asset than is asked.
    #[error("not enough: only {have}")]
    NotEnough {
        /// What it has.
        have: u128,
    },
    /// The receiver would have more than 2^128-1.
    #[error("too much to add to {have}")]
    Overflow {
        /// What the receiver has once the giver has given.
        have: u128,
    },
    /// Out of memory.
    #[error("out of memory")]
    Memory,
}

/// Why assets aren't deposited. Amounts are in the asset's smallest unit.
#[derive(Clone, Copy, Debug, PartialEq, Eq, Error)]
pub enum DepositFault {
    /// The account would have more than 2^128-1.
    #[error("too much to add to {have}")]
    Overflow {
        /// What it has.
        have: u128,
    },
    /// The instance has an owner.
    #[error("an instance that has an owner")]
    InstanceExists {
        /// The account that has it.
        owner: [u8; 32],
    },
    /// Out of memory.
    #[error("out of memory")]
    Memory,
}

impl From<AllocError> for LedgerFault {
    ghost use Rattle.std.specs.Prelude.{◌≡◌};
    ghost use Rattle.ledgers.specs.declared.faults.LedgerFault.TheVariants.{Memory};

    ghost from_gives = { λ _ fault. fault ≡ Memory };

    fn from(_: AllocError) -> LedgerFault {
        LedgerFault::Memory
    }
}

impl From<AllocError> for TransferFault {
    ghost use Rattle.std.specs.Prelude.{◌≡◌};
    ghost use Rattle.ledgers.specs.declared.faults.TransferFault.TheVariants.{Memory};

    ghost from_gives = { λ _ fault. fault ≡ Memory };

    fn from(_: AllocError) -> TransferFault {
        TransferFault::Memory
    }
}

impl From<AllocError> for DepositFault {
    ghost use Rattle.std.specs.Prelude.{◌≡◌};
    ghost use Rattle.ledgers.specs.declared.faults.DepositFault.TheVariants.{Memory};

    ghost from_gives = { λ _ fault. fault ≡ Memory };

    fn from(_: AllocError) -> DepositFault {
        DepositFault::Memory
    }
}
