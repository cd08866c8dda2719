//! What a network has of an asset, and how a derivative is covered.

use asset_bundles::Total;

/// What a network has of an asset, in its smallest unit; for a class the number of instances. Each total saturates at 2^160-1.
#[derive(Clone, Copy, Debug, PartialEq, Eq)]
pub struct Supply {
    /// What is at its homes, in accounts, traps, fees and parked bundles.
    pub home: Total,
    /// What is on its way as teleports that a home sent.
    pub flight: Total,
    /// What was burned at its homes, for all causes.
    pub burned: Total,
}

/// How a derivative is covered, in the asset's smallest unit; for a class in instances. Each total saturates at 2^160-1.
#[derive(Clone, Copy, Debug, PartialEq, Eq)]
pub struct Backing {
    /// What the chain's account at the reserve has.
    pub held: Total,
    /// What the chain has, what is on its way to it as deposits, and what is on its way back as withdrawals.
    pub owed: Total,
}
