//! Weight that is bought, and given back.
ghost use Rattle.std.specs.Prelude.{◌≡◌, IfOk};
ghost use Rattle.asset_bundles.specs.declared.book.Cause.{Cause};
ghost use Rattle.weight_trader.specs.Purchases.{excess_of};
ghost use Rattle.weight_trader.specs.Refunds.{refund_of};
ghost use Rattle.exec_base.specs.Answers.{TakesGoodsOrRefuses, AnswersWithinMemory};
ghost use Rattle.exec_base.specs.Host.{buy_refusal, unspent, bought, refund_goods, refunded};
ghost use Rattle.chain_state.specs.PartOf.{part_of};
ghost use Rattle.chain_state.specs.Lines.{excess_lines};

use crate::ChainState;
use asset_bundles::{AssetBundle, Cause, Total};
use asset_lists::{Asset, AssetId, Fun};
use exec_base::{Event, HostFault};
use locations::Location;
use operands::{Weight, XcmError};
use std::alloc::AllocError;

impl ChainState {
    /// The line of what a purchase would book as saturated, if it would book something.
    fn purchase_lines(&self, w: Weight, payment: &AssetBundle) -> Result<Vec<Event>, AllocError>
        ensures { IfOk result (λ lines. lines.items
            ≡ excess_lines (part_of self.now) (excess_of w payment.now self.now.trader)) }
    {
        let mut lines = Vec::new(*self.events.allocator());
        let Some((asset, amount)) = self.trader.excess_of(w, payment) else {
            return Ok(lines);
        };
        let goods = Asset {
            id: AssetId::Concrete(asset),
            fun: Fun::Fungible(amount),
        };
        lines.push(self.line(&goods, Some(Cause::Saturated))?)?;
        Ok(lines)
    }

    /// Buys weight, and hands back what is unspent.
    pub(crate) fn buy(
        &mut self,
        w: Weight,
        payment: AssetBundle,
    ) -> Result<AssetBundle, (AssetBundle, HostFault)>
        ensures step { TakesGoodsOrRefuses (buy_refusal (part_of self.old) w payment) payment
            (unspent (part_of self.old) w payment) (bought (part_of self.old) w payment)
            (part_of self.old) result (part_of self.new) }
    {
        let Ok(mut lines) = self.purchase_lines(w, &payment) else {
            return Err((payment, HostFault::Memory));
        };
        if self.pending_events.reserve(lines.len()).is_err() {
            return Err((payment, HostFault::Memory));
        }
        match self.trader.buy(w, payment, &mut self.book) {
            Ok(left) => match self.pending_events.append(&mut lines) {
                Ok(()) => Ok(left),
                Err(_) => unreachable!(),
            },
            Err((payment, _)) => Err((payment, HostFault::Xcm(XcmError::TooExpensive))),
        }
    }

    /// What would be given back for the weight.
    pub(crate) fn refund_of(&self, w: Weight) -> Option<(Location, u128)>
        ensures { result ≡ refund_of w (part_of self.now).lines }
    {
        self.trader.refund_of(w)
    }

    /// Gives back what was paid for the weight.
    #[tactic(auto, unfolding(exec_base::specs::Host::refund_goods, exec_base::specs::Host::refunded))]
    pub(crate) fn refund(&mut self, w: Weight) -> Result<AssetBundle, AllocError>
        ensures step { AnswersWithinMemory (refund_goods (part_of self.old) w)
            (refunded (part_of self.old) w) (part_of self.old) result (part_of self.new) }
    {
        self.trader.refund(w)
    }
}
