//! Goods that are shipped to other chains.
ghost use Rattle.std.specs.Prelude.{◌≡◌, None, MatchResult, true, if◌then◌else◌};
ghost use Rattle.asset_bundles.specs.Bundles.{held_assets};
ghost use Rattle.exec_base.specs.Answers.{TakesGoodsOrRefuses};
ghost use Rattle.exec_base.specs.Host as host;
ghost use Rattle.exec_base.specs.Host.{first_fault, trust_fault, raise_fault, seen_from, is_teleport, ship_refusal, raised_for, shipped};
ghost use Rattle.exec_base.specs.Sending.{or_else, listed_program, number_to, IsForwardable, away_program};
ghost use Rattle.chain_state.specs.PartOf.{part_of};
ghost use Rattle.chain_state.specs.Sends.{IsAcceptedByChannel, IsSendFault, call_by};

use crate::ChainState;
use crate::send::arrivals::ArrivalKind;
use asset_bundles::{AssetBundle, Way};
use asset_lists::Asset;
use chain_ids::ChainId;
use chain_queues::Cargo;
use exec_base::HostFault;
use locations::Location;
use operands::XcmError;
use xcm_program::Program;

/// By which call the assets of a shipment arrive.
fn call_by(way: Way) -> ArrivalKind
    ensures { result ≡ call_by way }
{
    match way {
        Way::Withdrawal => ArrivalKind::Withdrawal,
        Way::Teleport => ArrivalKind::Teleport,
    }
}

/// Whether it is a teleport.
fn is_teleport(way: Way) -> bool
    ensures { result ≡ is_teleport way }
{
    matches!(way, Way::Teleport)
}

impl ChainState {
    /// Why the chain at that location isn't trusted with the assets, or the checking accounts of their rows can't rise.
    fn leave_refusal(&self, list: &[Asset], way: Way, dest: &Location) -> Option<XcmError>
        ensures { result
            ≡ or_else (first_fault (trust_fault (part_of self.now) dest.now (is_teleport way))
            list.now) (if is_teleport way then first_fault (raise_fault (part_of self.now))
            list.now else None) }
    {
        let teleport = is_teleport(way);
        if let Some(error) = self.trust_refusal(dest, teleport, list) {
            return Some(error);
        }
        if teleport {
            return self.raise_refusal(list);
        }
        None
    }

    /// The message that goes with goods that are shipped, with the chain that it goes to; or why they aren't shipped.
    fn ready_shipment(
        &self,
        goods: &AssetBundle,
        way: Way,
        dest: &Location,
        xcm: &Program,
    ) -> Result<(ChainId, Vec<u8>), HostFault>
        requires forwardable { IsForwardable xcm.now }
        ensures ready { MatchResult result
            (λ ready. IsAcceptedByChannel (part_of self.now) dest.now (listed_program
            (λ a. away_program way a xcm.now)
            (seen_from (part_of self.now) dest.now (held_assets goods.now))) ready.0
            ready.1.items
            × (ship_refusal (part_of self.now) goods.now way dest.now xcm.now ≡ None))
            (IsSendFault (ship_refusal (part_of self.now) goods.now way dest.now xcm.now)) }
    {
        let list = goods.items();
        if let Some(error) = self.leave_refusal(list, way, dest) {
            return Err(HostFault::Xcm(error));
        }
        match self.encoded_around(list, dest, call_by(way), xcm) {
            Ok((to, bytes)) => Ok((to, bytes)),
            Err(fault) => Err(fault),
        }
    }

    /// Raises the checking accounts of the rows of teleported goods, which can rise.
    fn raise_for(&mut self, way: Way, goods: &AssetBundle, list: &[Asset])
        requires list { list.now ≡ held_assets goods.now }
        requires free { (if is_teleport way then first_fault (raise_fault (part_of self.old))
            list.now else None) ≡ None }
        ensures room { self.new.pending_events ≡ self.old.pending_events }
        ensures step { part_of self.new ≡ raised_for (part_of self.old) way goods.now }
    {
        if !is_teleport(way) {
            return;
        }
        self.change_checking(list, true);
    }

    /// Ships goods to another chain. The doing takes no memory.
    pub(crate) fn ship_out(
        &mut self,
        goods: AssetBundle,
        way: Way,
        dest: &Location,
        xcm: &Program,
    ) -> Result<u64, (AssetBundle, HostFault)>
        requires forwardable { IsForwardable xcm.now }
        ensures step { TakesGoodsOrRefuses
            (ship_refusal (part_of self.old) goods way dest.now xcm.now) goods
            (number_to (part_of self.old) dest.now) (shipped (part_of self.old) goods way dest.now
            xcm.now) (part_of self.old) result (part_of self.new) }
    {
        let (to, bytes) = match self.ready_shipment(&goods, way, dest, xcm) {
            Ok(ready) => ready,
            Err(fault) => return Err((goods, fault)),
        };
        if self.pending_events.reserve(1).is_err() {
            return Err((goods, HostFault::Memory));
        }
        self.raise_for(way, &goods, goods.items());
        Ok(self.post(to, bytes, Cargo::Away(goods.ship(way))))
    }
}
