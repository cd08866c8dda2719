//! By which call assets arrive.

/// By which call the assets of a message arrive.
#[derive(Clone, Copy)]
pub(crate) enum ArrivalKind {
    /// They are withdrawn from the sender's account.
    Withdrawal,
    /// They were deposited for the sender's word.
    Deposit,
    /// They are teleported.
    Teleport,
}
