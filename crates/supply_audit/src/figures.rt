//! Which figure of an asset is asked for.
use chain_ids::ChainId;

/// What messages carry.
#[derive(Clone, Copy)]
pub(crate) enum Carried {
    /// Units that were given up here, to be made at the receiver.
    Teleports,
    /// What was put into the receiver's account here.
    Deposits,
    /// Units that go back to their reserve.
    Withdrawals,
}

/// A figure of an asset at a chain.
#[derive(Clone, Copy)]
pub(crate) enum Figure {
    /// What is in accounts, traps, fees and parked bundles.
    Placed,
    /// What was burned, for all causes.
    Burned,
    /// What the account has.
    Account([u8; 32]),
    /// What messages carry that the chain sent: to the chain, or to any where none is given.
    Sent(Carried, Option<ChainId>),
}
