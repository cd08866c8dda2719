//! What is kept aside: in fees, and parked.
ghost use Rattle.std.specs.Prelude.{◌≡◌, min};
ghost use Rattle.asset_bundles.specs.Totals.{total_value};
ghost use Rattle.asset_bundles.specs.Books.{most_burned};
ghost use Rattle.weight_trader.specs.Purchases.{paid_goods};
ghost use Rattle.chain_state.specs.PartOf.{part_of};
ghost use Rattle.chain_state.specs.Aside as aside;
ghost use Rattle.chain_state.specs.Aside.{asset_in, parked_total};

use crate::ChainState;
use asset_bundles::{Total, Units};
use asset_lists::{AssetId, Kind};

/// What the bundles have of an asset together. It saturates at 2^160-1.
fn parked_total(parked: &[Units], id: &AssetId, kind: Kind) -> Total
    ensures { total_value result ≡ min (parked_total id.now kind parked.now) most_burned }
{
    let mut sum = Total::ZERO;
    for goods in parked {
        sum = sum.plus(goods.total(id, kind));
    }
    sum
}

impl ChainState {
    /// What is paid of an asset for weight.
    fn paid(&self, id: &AssetId, kind: Kind) -> u128
        ensures { result ≡ asset_in id.now kind (paid_goods (part_of self.now).lines) }
    {
        match (id, kind) {
            (AssetId::Concrete(asset), Kind::Fungible) => self.trader.paid(asset),
            _ => 0,
        }
    }

    /// What is kept of an asset of the fees for deliveries.
    fn kept_of(&self, id: &AssetId, kind: Kind) -> Total
        ensures { total_value result ≡ asset_in id.now kind (part_of self.now).fees }
    {
        match kind {
            Kind::Fungible => self.fees.total(id),
            Kind::Class => Total::ZERO,
        }
    }

    /// What is kept aside of an asset: paid for weight, the fee in the slot, kept for deliveries, and parked; the amount of a fungible
    /// asset in its smallest unit, or the number of instances of a class. It saturates at 2^160-1, and takes no memory.
    pub fn aside(&self, id: &AssetId, kind: Kind) -> Total
        ensures { total_value result ≡ min (aside.aside (part_of self.now) id.now kind)
            most_burned }
    {
        let parked = parked_total(self.parked.as_slice(), id, kind);
        let with_paid = parked.plus(self.paid(id, kind));
        let with_slot = with_paid.plus(self.fee_slot.total(id, kind));
        with_slot.sum(self.kept_of(id, kind))
    }
}
