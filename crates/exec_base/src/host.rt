//! A chain, as a program of instructions sees it.

use crate::{Event, HostFault};
use asset_bundles::{AssetBundle, Way};
use asset_lists::{Asset, Assets};
use call_dispatch::{Call, CallEnd};
use locations::Location;
use operands::{OpenQuery, PalletInfo, QueryInfo, Response, Weight};
use std::alloc::AllocError;
use trust_tables::Site;
use xcm_program::Program;

/// A chain, as a program of instructions sees it. Each call answers as its rule says, all or nothing, or memory is refused and the part is as it was.
pub trait Host {
    ghost use Rattle.std.specs.Prelude.{◌≡◌, ◌<◌, ◌≤◌, length, is_some, None, [], ◌∷◌, IfSome, OnOk};
    ghost use Rattle.std.specs.Option.{option_copied};
    ghost use Rattle.amounts.specs.Amounts.{empty, rows};
    ghost use Rattle.asset_bundles.specs.Bundles.{bundle_of};
    ghost use Rattle.asset_bundles.specs.Books.{AreListed};
    ghost use Rattle.asset_bundles.specs.Joins.{Excess};
    ghost use Rattle.trust_tables.specs.Trust.{listing};
    ghost use Rattle.weight_trader.specs.Refunds.{refund_of};
    ghost use Rattle.xcm_program.specs.declared.instruction.Instruction.{roll-Instruction};
    ghost use Rattle.xcm_program.specs.declared.instruction.Instruction.TheOpen.{Instruction-F};
    ghost use Rattle.exec_base.specs.Part.{ChainPart};
    ghost use Rattle.exec_base.specs.Answers.{AnswersOrRefuses, TakesGoodsOrRefuses, Keeps, AnswersWithinMemory, JoinedInto};
    ghost use Rattle.exec_base.specs.Sending.{channel_to_location, number_to, IsForwardable};
    ghost use Rattle.exec_base.specs.Calls.{Dispatches};
    ghost use Rattle.exec_base.specs.Pools.{exchange_refusal, exchanged, exchange_goods};
    ghost use Rattle.exec_base.specs.Host.{withdraw_refusal, withdrawn, deposit_refusal, deposited, transfer_refusal, transferred, receive_refusal, received, transfer_out_refusal, transferred_out, deposit_out_refusal, deposited_out, ship_refusal, shipped, respond_refusal, responded, report_program, IsPrice, IsFeeOrNothing, has_open_query, answered, buy_refusal, unspent, bought, refund_goods, refunded, bundles_joined, burnt, claim_refusal, claimed, lock_refusal, asset_locked, unlock_refusal, asset_unlocked, note_refusal, asset_noted, request_refusal, asset_requested, trapped, parked, settled, fee_to, fee_held, fee_taken, fee_kept, fee_drawn, told};

    /// The chain's part of the world.
    ghost part: { Self → ChainPart };

    /// Where the chain is.
    fn site(&self) -> &Site
        ensures { result.now ≡ (part self.now).site };

    /// The chain's pallets, in listed order, at most 64: so many a report can tell of.
    fn pallets(&self) -> &[PalletInfo]
        ensures same { result.now ≡ (part self.now).pallets }
        ensures few { length (part self.now).pallets ≤ 64 };

    /// The chain's open queries.
    fn open(&self) -> &[OpenQuery]
        ensures { result.now ≡ (part self.now).queries };

    /// Takes assets out of an account.
    fn withdraw(&mut self, a: &Assets, who: &Location) -> Result<AssetBundle, HostFault>
        ensures step { AnswersOrRefuses (withdraw_refusal (part self.old) a.now who.now)
            (bundle_of a.now)
            (withdrawn (part self.old) a.now who.now) (part self.old) result (part self.new) };

    /// Puts goods into an account.
    fn deposit(
        &mut self,
        goods: AssetBundle,
        who: &Location,
    ) -> Result<(), (AssetBundle, HostFault)>
        ensures step { TakesGoodsOrRefuses (deposit_refusal (part self.old) goods who.now) goods tt
            (deposited (part self.old) goods who.now) (part self.old) result (part self.new) };

    /// Moves assets between accounts.
    fn transfer(&mut self, a: &Assets, from: &Location, to: &Location) -> Result<(), HostFault>
        ensures step { AnswersOrRefuses (transfer_refusal (part self.old) a.now from.now to.now) tt
            (transferred (part self.old) a.now from.now to.now) (part self.old) result
            (part self.new) };

    /// Makes assets that another chain deposited or teleported here.
    fn receive(
        &mut self,
        a: &Assets,
        from: &Location,
        teleport: bool,
    ) -> Result<AssetBundle, HostFault>
        ensures step { AnswersOrRefuses (receive_refusal (part self.old) a.now from.now teleport)
            (bundle_of a.now) (received (part self.old) a.now teleport) (part self.old) result
            (part self.new) };

    /// Moves assets to the account of another chain, and tells it.
    fn transfer_out(
        &mut self,
        a: &Assets,
        from: &Location,
        dest: &Location,
        xcm: &Program,
    ) -> Result<u64, HostFault>
        requires forwardable { IsForwardable xcm.now }
        ensures step { AnswersOrRefuses
            (transfer_out_refusal (part self.old) a.now from.now dest.now
            xcm.now) (number_to (part self.old) dest.now)
            (transferred_out (part self.old) a.now from.now dest.now xcm.now) (part self.old) result
            (part self.new) };

    /// Puts goods into the account of another chain, and tells it.
    fn deposit_out(
        &mut self,
        goods: AssetBundle,
        dest: &Location,
        xcm: &Program,
    ) -> Result<u64, (AssetBundle, HostFault)>
        requires forwardable { IsForwardable xcm.now }
        ensures step { TakesGoodsOrRefuses
            (deposit_out_refusal (part self.old) goods dest.now xcm.now) goods
            (number_to (part self.old) dest.now)
            (deposited_out (part self.old) goods dest.now xcm.now) (part self.old) result
            (part self.new) };

    /// Ships goods to another chain.
    fn ship_out(
        &mut self,
        goods: AssetBundle,
        way: Way,
        dest: &Location,
        xcm: &Program,
    ) -> Result<u64, (AssetBundle, HostFault)>
        requires forwardable { IsForwardable xcm.now }
        ensures step { TakesGoodsOrRefuses (ship_refusal (part self.old) goods way dest.now xcm.now)
            goods (number_to (part self.old) dest.now)
            (shipped (part self.old) goods way dest.now xcm.now) (part self.old) result
            (part self.new) };

    /// Answers a query of another chain.
    fn respond(
        &mut self,
        to: &QueryInfo,
        response: Response,
        querier: Option<&Location>,
    ) -> Result<u64, HostFault>
        requires forwardable { IsForwardable
            (report_program to.now response (option_copied querier)) }
        ensures step { AnswersOrRefuses (respond_refusal (part self.old) to.now response
            (option_copied querier.entry)) (number_to (part self.old) to.now.destination)
            (responded (part self.old) to.now response (option_copied querier.entry))
            (part self.old) result (part self.new) };

    /// Whether a channel leads to just that location.
    fn routes(&self, dest: &Location) -> bool
        ensures { result ≡ is_some (channel_to_location (part self.now) dest.now) };

    /// Closes the query, where it is open from that location.
    fn answer(&mut self, from: &Location, query: u64) -> Result<bool, AllocError>
        ensures step { AnswersWithinMemory (has_open_query (part self.old) from.now query)
            (answered (part self.old) from.now query) (part self.old) result (part self.new) };

    /// Buys weight, and hands back what is unspent.
    fn buy(
        &mut self,
        w: Weight,
        payment: AssetBundle,
    ) -> Result<AssetBundle, (AssetBundle, HostFault)>
        ensures step { TakesGoodsOrRefuses (buy_refusal (part self.old) w payment) payment
            (unspent (part self.old) w payment) (bought (part self.old) w payment) (part self.old)
            result (part self.new) };

    /// What would be given back for the weight.
    fn refund_of(&self, w: Weight) -> Option<(Location, u128)>
        ensures { result ≡ refund_of w (part self.now).lines };

    /// Gives back what was paid for the weight.
    fn refund(&mut self, w: Weight) -> Result<AssetBundle, AllocError>
        ensures step { AnswersWithinMemory (refund_goods (part self.old) w)
            (refunded (part self.old) w) (part self.old) result (part self.new) };

    /// Joins goods into a bundle, and books what it can't hold.
    fn join(&mut self, into: &mut AssetBundle, goods: AssetBundle) -> Result<(), AssetBundle>
        requires listed { AreListed (listing (part self.old).rows) (Excess into.old goods) }
        ensures step { Keeps goods (bundles_joined (part self.old) into.old goods) (part self.old)
            result (part self.new) }
        ensures into { JoinedInto goods into.old result into.new };

    /// Burns goods.
    fn burn(&mut self, goods: AssetBundle) -> Result<(), AssetBundle>
        requires listed { AreListed (listing (part self.old).rows) goods }
        ensures step { Keeps goods (burnt (part self.old) goods) (part self.old) result
            (part self.new) };

    /// Takes a trap that has this origin and this list.
    fn claim(&mut self, a: &Assets, origin: &Location) -> Result<AssetBundle, HostFault>
        ensures step { AnswersOrRefuses (claim_refusal (part self.old) a.now origin.now)
            (bundle_of a.now)
            (claimed (part self.old) a.now origin.now) (part self.old) result (part self.new) };

    /// Traps goods, which aren't empty.
    fn trap(&mut self, goods: AssetBundle, origin: &Location) -> Result<(), AssetBundle>
        requires some { 0 < length (rows goods) }
        ensures step { Keeps goods (trapped (part self.old) goods origin.now) (part self.old) result
            (part self.new) };

    /// Puts paid fees into the fee account.
    fn settle(&mut self) -> Result<(), AllocError>
        ensures step { AnswersWithinMemory tt (settled (part self.old)) (part self.old) result
            (part self.new) };

    /// Keeps a bundle, without memory.
    fn park(&mut self, goods: AssetBundle)
        requires few { length (part self.old).parked < 4 }
        ensures step { part self.new ≡ parked (part self.old) goods };

    /// Whether a channel leads there and has a fee.
    fn has_fee(&self, dest: &Location) -> bool
        ensures { result ≡ is_some (fee_to (part self.now) dest.now) };

    /// The fee of the channel that leads there, if there is one and it has one: an amount above 0 of a fungible asset.
    fn fee_of(&self, dest: &Location) -> Option<Asset>
        ensures fee { result ≡ fee_to (part self.now) dest.now }
        ensures price { IfSome result IsPrice };

    /// Puts a fee of one of the chain's channels, or nothing, into the empty slot.
    fn hold_fee(&mut self, goods: AssetBundle)
        requires slot { (part self.old).fee_slot ≡ empty }
        requires fee { IsFeeOrNothing (part self.old) goods }
        ensures step { part self.new ≡ fee_held (part self.old) goods };

    /// Empties the slot.
    fn take_fee(&mut self) -> AssetBundle
        ensures goods { result ≡ (part self.old).fee_slot }
        ensures step { part self.new ≡ fee_taken (part self.old) };

    /// Adds the slot to the fees, whose sums saturate at 2^160-1.
    fn keep_fee(&mut self)
        ensures step { part self.new ≡ fee_kept (part self.old) };

    /// Takes a fee out of an account, which can take it back; it ends no cargo.
    fn draw_fee(&mut self, fee: &Asset, who: &Location) -> Result<AssetBundle, HostFault>
        requires price { IsPrice fee.now }
        ensures step { AnswersOrRefuses (withdraw_refusal (part self.old) (fee.now ∷ []) who.now)
            (bundle_of (fee.now ∷ [])) (fee_drawn (part self.old) (fee.now ∷ []) who.now)
            (part self.old) result (part self.new) }
        ensures back { OnOk result (deposit_refusal (part self.new) (bundle_of (fee.now ∷ []))
            who.now ≡ None) };

    /// Whether the chain serves calls.
    fn calls(&self) -> bool
        ensures { result ≡ (part self.now).calls };

    /// Does a call for an account, and keeps the line back that tells of it. Where memory is refused, a prefix of a batch may have been done.
    /// Where the chain serves no calls it changes nothing.
    fn dispatch(&mut self, who: &[u8; 32], call: &Call) -> Result<CallEnd, AllocError>
        ensures step { Dispatches (part self.old).calls (part self.old) who.now call.now result
            (part self.new) };

    /// Whether assets may be locked here.
    fn locks(&self) -> bool
        ensures { result ≡ (part self.now).locks };

    /// Locks so much of an asset on the owner's account, and tells the unlocker.
    fn lock(
        &mut self,
        asset: &Asset,
        owner: &Location,
        unlocker: &Location,
    ) -> Result<u64, HostFault>
        requires forwardable { IsForwardable
            (roll-Instruction (Instruction-F.LockAsset asset.now unlocker.now) ∷ []) }
        ensures step { AnswersOrRefuses
            (lock_refusal (part self.old) asset.now owner.now unlocker.now)
            (number_to (part self.old) unlocker.now)
            (asset_locked (part self.old) asset.now owner.now unlocker.now) (part self.old) result
            (part self.new) };

    /// Lets a lock fall, of which `from` is the unlocker.
    fn unlock(&mut self, asset: &Asset, target: &Location, from: &Location) -> Result<(), HostFault>
        ensures step { AnswersOrRefuses
            (unlock_refusal (part self.old) asset.now target.now from.now) tt
            (asset_unlocked (part self.old) asset.now target.now from.now) (part self.old) result
            (part self.new) };

    /// Notes a lock that `from` holds.
    fn note(&mut self, asset: &Asset, owner: &Location, from: &Location) -> Result<(), HostFault>
        requires forwardable { IsForwardable
            (roll-Instruction (Instruction-F.NoteUnlockable asset.now owner.now) ∷ []) }
        ensures step { AnswersOrRefuses (note_refusal (part self.old) asset.now owner.now from.now)
            tt (asset_noted (part self.old) asset.now owner.now from.now) (part self.old) result
            (part self.new) };

    /// Asks the locker to let a lock fall that is noted, and lowers the note.
    fn request(
        &mut self,
        asset: &Asset,
        owner: &Location,
        locker: &Location,
    ) -> Result<u64, HostFault>
        requires forwardable { IsForwardable
            (roll-Instruction (Instruction-F.RequestUnlock asset.now locker.now) ∷ []) }
        ensures step { AnswersOrRefuses
            (request_refusal (part self.old) asset.now owner.now locker.now)
            (number_to (part self.old) locker.now)
            (asset_requested (part self.old) asset.now owner.now locker.now) (part self.old) result
            (part self.new) };

    /// Exchanges goods for what is wanted with one of the chain's pools, and hands back all that comes of them: as much as there is for the
    /// goods where `maximal`, else just what is wanted for as little as it costs.
    fn exchange(
        &mut self,
        give: AssetBundle,
        want: &Assets,
        maximal: bool,
    ) -> Result<AssetBundle, (AssetBundle, HostFault)>
        ensures step { TakesGoodsOrRefuses (exchange_refusal (part self.old) give want.now maximal)
            give (exchange_goods (part self.old) give want.now maximal)
            (exchanged (part self.old) give want.now maximal) (part self.old) result
            (part self.new) };

    /// Tells an event, and after it what is kept back.
    fn event(&mut self, e: Event) -> Result<(), AllocError>
        ensures step { AnswersWithinMemory tt (told (part self.old) e) (part self.old) result
            (part self.new) };
}
