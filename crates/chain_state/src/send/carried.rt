//! Assets that arrive with a message.
ghost use Rattle.std.specs.Prelude.{◌≡◌, IsTrue, IsFalse, IfOk, OnOk, OnErr, if◌then◌else◌};
ghost use Rattle.std.specs.Ordering.{eq_by_cmp};
ghost use Rattle.asset_lists.specs.Units.{assets_cmp};
ghost use Rattle.asset_bundles.specs.Bundles.{bundle_of};
ghost use Rattle.channel_parts.specs.declared.cargo.Cargo.{Cargo};
ghost use Rattle.exec_base.specs.Host.{arrival_of, arrives_by_deposit, fits_call, cargo_list, cargo_after, is_cargo};
ghost use Rattle.chain_state.specs.PartOf.{part_of};
ghost use Rattle.chain_state.specs.Arrivals.{arrival_by, is_away};

use crate::ChainState;
use crate::send::arrivals::ArrivalKind;
use crate::send::naming::{are_seen_as, location_of_other, named};
use asset_bundles::{AssetBundle, Shipment, Way, law_of_landing};
use asset_lists::{Asset, Assets, law_of_reanchored_lists};
use chain_queues::Cargo;
use std::alloc::AllocError;
use std::mem::replace;
use trust_tables::Site;

/// By which call assets are received.
pub(crate) fn call_of(teleport: bool) -> ArrivalKind
    ensures { arrival_by result ≡ arrival_of teleport }
{
    if teleport {
        return ArrivalKind::Teleport;
    }
    ArrivalKind::Deposit
}

impl ArrivalKind {
    /// Whether assets with that cargo arrive by this call.
    fn fits(self, cargo: &Cargo) -> bool
        ensures { result ≡ fits_call (arrival_by self) cargo.now }
    {
        match (self, cargo) {
            (_, Cargo::Nothing) => false,
            (ArrivalKind::Deposit, Cargo::Deposit(_)) => true,
            (_, Cargo::Deposit(_)) => false,
            (ArrivalKind::Withdrawal, Cargo::Away(shipment)) => {
                matches!(shipment.way(), Way::Withdrawal)
            }
            (ArrivalKind::Teleport, Cargo::Away(shipment)) => {
                matches!(shipment.way(), Way::Teleport)
            }
            (ArrivalKind::Deposit, Cargo::Away(_)) => false,
        }
    }
}

/// The assets of a cargo, under the sender's ids.
fn cargo_list(cargo: &Cargo) -> &[Asset]
    ensures { result.now ≡ cargo_list cargo.now }
{
    match cargo {
        Cargo::Nothing => &[],
        Cargo::Deposit(list) => list.items(),
        Cargo::Away(shipment) => shipment.items(),
    }
}

/// Whether they are the same assets in the same order.
fn are_same(one: &[Asset], other: &[Asset]) -> bool
    ensures { result ≡ eq_by_cmp assets_cmp one.now other.now }
{
    one.cmp(other).is_eq()
}

/// The shipment of a cargo that has one.
fn shipment_of(cargo: Cargo) -> Shipment
    requires { IsTrue (is_away cargo) }
    ensures { cargo ≡ Cargo.Away result }
{
    match cargo {
        Cargo::Away(shipment) => shipment,
        Cargo::Nothing => unreachable!(),
        Cargo::Deposit(_) => unreachable!(),
    }
}

impl ChainState {
    /// Whether the call takes what the message carries that is being delivered: the kind fits, and the list, as this chain names it, is
    /// the call's.
    pub(crate) fn is_cargo(&self, call: ArrivalKind, list: &Assets) -> Result<bool, AllocError>
        ensures { IfOk result (λ is. is ≡ is_cargo (part_of self.now) (arrival_by call) list.now) }
    {
        if !call.fits(&self.cargo) {
            return Ok(false);
        }
        let Some(target) = location_of_other(self.sender, self.settings.site.chain) else {
            return Ok(false);
        };
        let sender = Site {
            network: self.settings.site.network,
            chain: self.sender,
        };
        let context = sender.path();
        let carried = cargo_list(&self.cargo);
        let called = list.items();
        // For speed: usually the order is the same under both chains' ids.
        if are_seen_as(carried, &target, &context, called) {
            return Ok(true);
        }
        let alloc = *self.events.allocator();
        let Some(seen) = named(alloc, carried, &target, &context)? else {
            return Ok(false);
        };
        Ok(are_same(seen.as_slice(), called))
    }

    /// Ends what the message carries, a shipment that the call takes: its units under this chain's ids. It takes no memory.
    pub(crate) fn land_cargo(&mut self, call: ArrivalKind, list: &Assets) -> AssetBundle
        requires taken { IsTrue (is_cargo (part_of self.old) (arrival_by call) list.now) }
        requires shipped { IsFalse (arrives_by_deposit (arrival_by call)) }
        ensures landed { result ≡ bundle_of list.now }
        ensures ended { part_of self.new ≡ record (part_of self.old) {
          cargo = record { sender = (part_of self.old).cargo.sender; cargo = Cargo.Nothing };
        } }
    {
        // For the prover alone: a list that is named in full lands as the list that was seen.
        law_of_landing();
        law_of_reanchored_lists();
        let shipment = shipment_of(replace(&mut self.cargo, Cargo::Nothing));
        let Some(target) = location_of_other(self.sender, self.settings.site.chain) else {
            unreachable!();
        };
        let sender = Site {
            network: self.settings.site.network,
            chain: self.sender,
        };
        // For the prover alone: what is shipped is held, and the call's list is one.
        let _units = shipment.items();
        let _list = list.items();
        shipment.land(&target, &sender.path())
    }

    /// Ends what the message carries, if a call takes it that has no shipment.
    fn end_deposit(&mut self, ends: bool)
        ensures { part_of self.new ≡ record (part_of self.old) {
          cargo = if ends
              then (record { sender = (part_of self.old).cargo.sender; cargo = Cargo.Nothing })
              else (part_of self.old).cargo;
        } }
    {
        if ends {
            self.cargo = Cargo::Nothing;
        }
    }

    /// The assets of a call: a teleport that it takes lands, and all else is made. It ends the cargo that it takes.
    pub(crate) fn arrived(
        &mut self,
        list: &Assets,
        teleport: bool,
    ) -> Result<AssetBundle, AllocError>
        ensures goods { IfOk result (λ goods. goods ≡ bundle_of list.now) }
        ensures ended { OnOk result (part_of self.new ≡ record (part_of self.old) {
          cargo = cargo_after (part_of self.old) (arrival_of teleport) list.now;
        }) }
        ensures kept { OnErr result (part_of self.new ≡ part_of self.old) }
    {
        let ends = self.is_cargo(call_of(teleport), list)?;
        if ends && teleport {
            return Ok(self.land_cargo(ArrivalKind::Teleport, list));
        }
        let goods = AssetBundle::mint(*self.events.allocator(), list.items())?;
        self.end_deposit(ends);
        Ok(goods)
    }
}
