//! A lock.
use locations::Location;

/// An account must keep so much of an asset, until who set the lock lets it fall.
#[derive(Debug, Drop)]
pub struct Lock {
    /// The account, by its 32 bytes.
    pub who: [u8; 32],
    /// The asset's id, as the chain of the account names it.
    pub id: Location,
    /// Who may lower the lock, as the chain of the account names it.
    pub unlocker: Location,
    /// How much must stay, in the asset's smallest unit. It is above 0.
    pub amount: u128,
}
