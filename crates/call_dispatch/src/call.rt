//! What a chain can be asked to do.

use crate::PositiveAmount;
use plain_lists::BoundedVec;
use std::convert::Infallible;

/// A call that a chain is asked to make for an account. `B` is what a batch holds: no batch is in another batch.
#[derive(Debug, Drop, PartialEq, Eq)]
pub enum Call<B = Batch> {
    /// Does nothing, and carries at most 1,024 bytes.
    Remark(BoundedVec<u8, 1024>),
    /// Moves an amount of an asset to another account.
    Transfer {
        /// The index of the asset in the chain's listing, from 0.
        row: u32,
        /// The account that receives.
        dest: [u8; 32],
        /// How much, in the asset's smallest unit.
        amount: PositiveAmount,
    },
    /// Fails with this code.
    Fail(u8),
    /// At most 8 calls that are no batches, in order: all of them, or none.
    Batch(B),
}

/// The calls of a batch.
pub type Batch = BoundedVec<Call<NoBatch>, 8>;

/// There is none: what a call inside a batch holds for a batch.
pub type NoBatch = Infallible;
