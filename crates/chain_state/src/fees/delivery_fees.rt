//! Delivery fees.
ghost use Rattle.std.specs.Prelude.{◌≡◌, [], ◌∷◌};
ghost use Rattle.amounts.specs.Amounts.{empty};
ghost use Rattle.exec_base.specs.Host.{IsFeeOrNothing, fee_held, fee_taken, fee_kept};
ghost use Rattle.chain_state.specs.PartOf.{part_of};

use crate::ChainState;
use asset_bundles::AssetBundle;
use std::mem::replace;

impl ChainState {
    /// Puts a fee of one of the chain's channels, or nothing, into the empty slot.
    #[tactic(auto, unfolding(exec_base::specs::Host::fee_held))]
    pub(crate) fn hold_fee(&mut self, goods: AssetBundle)
        requires fee { IsFeeOrNothing (part_of self.old) goods }
        ensures step { part_of self.new ≡ fee_held (part_of self.old) goods }
    {
        self.fee_slot = goods.set_down();
    }

    /// Empties the slot.
    #[tactic(auto, unfolding(exec_base::specs::Host::fee_taken))]
    pub(crate) fn take_fee(&mut self) -> AssetBundle
        ensures goods { result ≡ (part_of self.old).fee_slot }
        ensures step { part_of self.new ≡ fee_taken (part_of self.old) }
    {
        let nothing = AssetBundle::empty(*self.events.allocator()).set_down();
        AssetBundle::take_up(replace(&mut self.fee_slot, nothing))
    }

    /// Adds the slot to the fees, whose sums saturate at 2^160-1, and empties it. No memory is taken.
    pub(crate) fn keep_fee(&mut self)
        ensures step { part_of self.new ≡ fee_kept (part_of self.old) }
    {
        let nothing = AssetBundle::empty(*self.events.allocator()).set_down();
        let goods = AssetBundle::take_up(replace(&mut self.fee_slot, nothing));
        self.fees.keep(goods);
    }
}
