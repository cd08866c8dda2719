//! What the network document says of a chain.
use asset_pools::Pool;
use operands::PalletInfo;
use plain_lists::{Listed, SharedList};
use trust_tables::{AssetRow, Site};

/// What the network document says of a chain, which no call of the chain changes.
#[derive(Drop)]
pub struct Settings {
    /// Where the chain is.
    pub site: Site,
    /// The assets that it lists.
    pub rows: SharedList<AssetRow>,
    /// The pallets of its runtime.
    pub pallets: Listed<PalletInfo>,
    /// The account that fees are paid to.
    pub fee_account: [u8; 32],
    /// Whether it serves calls.
    pub calls: bool,
    /// Whether assets may be locked there.
    pub locks: bool,
    /// Its pools, which exchange assets for one another.
    pub pools: Listed<Pool>,
}
