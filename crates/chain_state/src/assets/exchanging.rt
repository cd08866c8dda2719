//! Goods that are exchanged with the chain's pools.
ghost use Rattle.exec_base.specs.Answers.{TakesGoodsOrRefuses};
ghost use Rattle.exec_base.specs.Pools.{exchange_refusal, exchanged, exchange_goods};
ghost use Rattle.chain_state.specs.PartOf.{part_of};

use crate::ChainState;
use asset_bundles::AssetBundle;
use asset_lists::Assets;
use asset_pools::{ExchangeFault, exchange};
use exec_base::HostFault;
use operands::XcmError;

impl ChainState {
    /// Exchanges goods for what is wanted with one of the chain's pools, and hands back all that comes of them.
    pub(crate) fn exchange(
        &mut self,
        give: AssetBundle,
        want: &Assets,
        maximal: bool,
    ) -> Result<AssetBundle, (AssetBundle, HostFault)>
        ensures step { TakesGoodsOrRefuses
            (exchange_refusal (part_of self.old) give want.now maximal) give
            (exchange_goods (part_of self.old) give want.now maximal)
            (exchanged (part_of self.old) give want.now maximal) (part_of self.old) result
            (part_of self.new) }
    {
        let alloc = *self.events.allocator();
        let pools = self.settings.pools.items();
        match exchange(alloc, pools, &mut self.ledger, give, want.items(), maximal) {
            Ok(got) => Ok(got),
            Err((give, ExchangeFault::NoDeal)) => Err((give, HostFault::Xcm(XcmError::NoDeal))),
            Err((give, ExchangeFault::Memory)) => Err((give, HostFault::Memory)),
        }
    }
}
