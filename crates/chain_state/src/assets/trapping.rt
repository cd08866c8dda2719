//! Goods that are trapped, and traps that are claimed.
ghost use Rattle.std.specs.Prelude.{◌≡◌, ◌<◌, length};
ghost use Rattle.amounts.specs.Amounts.{rows};
ghost use Rattle.asset_bundles.specs.Bundles.{bundle_of};
ghost use Rattle.exec_base.specs.Answers.{AnswersOrRefuses, Keeps};
ghost use Rattle.exec_base.specs.Host.{claim_refusal, claimed, trapped};
ghost use Rattle.chain_state.specs.PartOf.{part_of};

use crate::ChainState;
use crate::report::lines::push_traps;
use asset_bundles::AssetBundle;
use asset_lists::Assets;
use exec_base::HostFault;
use ledgers::TrapStore;
use locations::Location;
use operands::XcmError;

impl ChainState {
    /// Takes the oldest trap that has this origin and this list.
    pub(crate) fn claim(&mut self, a: &Assets, origin: &Location) -> Result<AssetBundle, HostFault>
        ensures step { AnswersOrRefuses (claim_refusal (part_of self.old) a.now origin.now)
            (bundle_of a.now)
            (claimed (part_of self.old) a.now origin.now) (part_of self.old) result
            (part_of self.new) }
    {
        match self.traps.claim(a, origin) {
            Ok(goods) => Ok(goods),
            Err(_) => Err(HostFault::Xcm(XcmError::UnknownClaim)),
        }
    }

    /// Traps goods, which aren't empty.
    pub(crate) fn trap(&mut self, goods: AssetBundle, origin: &Location) -> Result<(), AssetBundle>
        requires some { 0 < length (rows goods) }
        ensures step { Keeps goods (trapped (part_of self.old) goods origin.now) (part_of self.old)
            result (part_of self.new) }
    {
        let count = TrapStore::pieces(&goods);
        if self.events.reserve(count).is_err() {
            return Err(goods);
        }
        let first = self.traps.trap(goods, origin)?;
        push_traps(&mut self.events, first, count);
        Ok(())
    }
}
