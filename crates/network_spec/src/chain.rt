//! What a chain of a network is when the network opens.
use asset_lists::Asset;
use asset_pools::Pool;
use barriers::Barrier;
use chain_ids::ChainId;
use operands::{PalletInfo, Weight};
use plain_lists::{Listed, SharedList};
use trust_tables::AssetRow;
use weight_trader::Rate;
use xcm_program::WeightRule;

/// What an account holds: an amount of an asset, or an instance.
#[derive(Drop)]
pub struct Balance {
    /// The account's 32 bytes.
    pub who: [u8; 32],
    /// What it holds, under the id that the chain gives it; an amount is in the asset's smallest unit.
    pub asset: Asset,
}

/// A chain: its rules, what it lists, and what its accounts hold when the network opens.
#[derive(Drop)]
pub struct ChainSpec {
    /// Which chain of the network it is.
    pub chain: ChainId,
    /// What an instruction weighs, and how many a program may have.
    pub rules: WeightRule,
    /// The most that a program may weigh: picoseconds of computation, and bytes of the storage proof.
    pub limit: Weight,
    /// Half of the most kinds of assets that an execution may hold.
    pub max_holding: u32,
    /// The account that fees are paid to.
    pub fee_account: [u8; 32],
    /// Which programs it lets in, in the order in which they are asked.
    pub barriers: Listed<Barrier>,
    /// What weight costs, in the order in which the rates are tried.
    pub rates: Listed<Rate>,
    /// The assets that it lists.
    pub assets: SharedList<AssetRow>,
    /// What its accounts hold.
    pub accounts: Listed<Balance>,
    /// The pallets of its runtime.
    pub pallets: Listed<PalletInfo>,
    /// The queries that are open: each its number, and the chain that may answer it.
    pub queries: Listed<(u64, ChainId)>,
    /// Whether it serves calls.
    pub calls: bool,
    /// Whether it serves locks.
    pub locks: bool,
    /// The pools that it exchanges assets with.
    pub pools: Listed<Pool>,
}
