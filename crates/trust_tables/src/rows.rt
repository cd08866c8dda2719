//! The assets that a chain lists, each with the part that the chain plays for it.
use crate::ChainId;
use asset_lists::Kind;
use locations::Location;
use plain_lists::Listed;

/// The part that a chain plays for an asset that it lists.
#[derive(Debug, Drop)]
pub enum AssetRole {
    /// This chain is a home of the asset: the asset is native here.
    Native {
        /// The chains to and from which it may be teleported.
        partners: Listed<ChainId>,
        /// How much of the asset may be at its other homes, in its smallest unit; none where the chain keeps no
        /// such record. It is a record, not an account of anybody.
        checking: Option<u128>,
    },
    /// The asset is a derivative of one that is kept in this chain's sovereign account at the reserve.
    Derivative {
        /// The chain at which the asset is at home.
        reserve: ChainId,
    },
}

/// An asset that a chain lists: its id as seen from the chain, whether it has amounts or instances, and its role.
#[derive(Debug, Drop)]
pub struct AssetRow {
    /// Its id, as seen from the chain.
    pub id: Location,
    /// Whether it has amounts or instances.
    pub kind: Kind,
    /// Where it is at home, and whom the chain trusts with it.
    pub role: AssetRole,
}
