//! What each call of a host conserves: laws, as the contracts of functions that do nothing.
ghost use Rattle.std.specs.Prelude.{◌≡◌, ◌+◌, ℕ, Bool, List, Option, None, Some};
ghost use Rattle.amounts.specs.Amounts.{empty, merge, total};
ghost use Rattle.asset_bundles.specs.Books.{burned_for, given_up, is_unit_where};
ghost use Rattle.asset_bundles.specs.Bundles.{Bundle, bundle_of};
ghost use Rattle.asset_bundles.specs.Joins.{Joined};
ghost use Rattle.asset_bundles.specs.declared.book.Cause.{Cause};
ghost use Rattle.asset_bundles.specs.declared.shipment.Way.{Way};
ghost use Rattle.asset_lists.specs.Listed.{Listed};
ghost use Rattle.asset_lists.specs.Lists.{IsAssetList};
ghost use Rattle.asset_lists.specs.Units.{Unit};
ghost use Rattle.asset_lists.specs.declared.units.Asset.{Asset};
ghost use Rattle.locations.specs.declared.relative.Location.{Location};
ghost use Rattle.operands.specs.declared.query.QueryInfo.{QueryInfo};
ghost use Rattle.operands.specs.declared.query.Response.{Response};
ghost use Rattle.operands.specs.declared.weight.Weight.{Weight};
ghost use Rattle.trust_tables.specs.Accounts.{account_of};
ghost use Rattle.weight_trader.specs.Purchases.{AreWithinEnd};
ghost use Rattle.xcm_program.specs.declared.instruction.Instruction.{Instruction, out-Instruction};
ghost use Rattle.exec_base.specs.declared.event.Event.{Event};
ghost use Rattle.exec_base.specs.Part.{ChainPart};
ghost use Rattle.exec_base.specs.Host.{withdraw_refusal, withdrawn, deposit_refusal, deposited, transfer_refusal, transferred, received, transfer_out_refusal, transferred_out, deposit_out_refusal, deposited_out, ship_refusal, shipped, responded, answered, unspent, bought, refund_goods, refunded, bundles_joined, burnt, claim_refusal, claimed, trapped, parked, settled_burns, settled, fee_held, fee_taken, fee_kept, fee_drawn, told};
ghost use Rattle.call_dispatch.specs.Spelling.{AnyCall};
ghost use Rattle.exec_base.specs.Calls.{dispatched, IsDispatchedInPart};
ghost use Rattle.exec_base.specs.Pools.{exchanged, exchange_goods};
ghost use Rattle.exec_rules.specs.Machine.{Machine};
ghost use Rattle.exec_rules.specs.Instructions.{refusal_of, xcm};
ghost use Rattle.exec_rules.specs.Readiness.{IsSteady};
ghost use Rattle.exec_rules.specs.Stopping.{leaves_on_oom};
ghost use Rattle.law_hosts.specs.Accepted.{whole_of, made_bundle, IsMadeOrNothing, HasWithdrawalList, HasFeeLists, HasRoomFor};
ghost use Rattle.law_hosts.specs.Wholes.{whole, Conserves, BooksBelow, BuysBelow, KeepsBelow, IsFeeAccountWithin, account_total, IsOtherAccount};

use asset_bundles::law_of_traps;
use exec_rules::law_of_instructions_as_calls;
use ledgers::law_of_ledgers;
use weight_trader::law_of_conserved_payments;

/// What goes into a bundle and what a join books, what is burned, and what is parked.
pub fn law_of_conserved_joins_and_burns()
    ensures joined { (p : ChainPart) (into goods : Bundle) → BooksBelow p (given_up into goods)
        → Conserves (merge into goods) (Joined into goods) p (bundles_joined p into goods) }
    ensures burnt { (p : ChainPart) (goods : Bundle)
        → BooksBelow p (burned_for Cause.BurnAsset goods)
        → Conserves goods empty p (burnt p goods) }
    ensures parked { (p : ChainPart) (goods : Bundle) → Conserves goods empty p (parked p goods) }
    ensures told { (p : ChainPart) (e : Event) → Conserves empty empty p (told p e) }
    ensures answered { (p : ChainPart) (from : Location) (query : ℕ)
        → Conserves empty empty p (answered p from query) }
{}

/// What goes between accounts and bundles. What is received is made: it isn't taken from anything on the chain.
pub fn law_of_conserved_account_moves()
    ensures withdrawn { (p : ChainPart) (list : List Asset) (who : Location)
        → IsAssetList list → withdraw_refusal p list who ≡ None
        → Conserves empty (bundle_of list) p (withdrawn p list who) }
    ensures deposited { (p : ChainPart) (goods : Bundle) (who : Location)
        → deposit_refusal p goods who ≡ None → Conserves goods empty p (deposited p goods who) }
    ensures transferred { (p : ChainPart) (list : List Asset) (from to : Location)
        → IsAssetList list → transfer_refusal p list from to ≡ None
        → Conserves empty empty p (transferred p list from to) }
    ensures received { (p : ChainPart) (list : List Asset) (teleport : Bool) (test : Listed → Bool)
        → whole test (received p list teleport) ≡ whole test p }
{
    law_of_ledgers();
}

/// What a call of the chain moves between accounts, also where memory is refused on the way.
pub fn law_of_dispatched_calls()
    ensures dispatched { (p : ChainPart) (who : List ℕ) (c : AnyCall)
        → Conserves empty empty p (dispatched p who c) }
    ensures in_part { (p : ChainPart) (who : List ℕ) (c : AnyCall) (now : ChainPart)
        → IsDispatchedInPart p who c now → Conserves empty empty p now }
{}

/// What is exchanged with a pool of the chain: what comes of goods is not there any more, and what they were is.
pub fn law_of_exchanged_goods()
    ensures { (p : ChainPart) (give : Bundle) (want : List Asset) (maximal : Bool)
        → Conserves give (exchange_goods p give want maximal) p
        (exchanged p give want maximal) }
{}

/// What goes into traps and out of them.
pub fn law_of_conserved_claims()
    ensures trapped { (p : ChainPart) (goods : Bundle) (origin : Location)
        → Conserves goods empty p (trapped p goods origin) }
    ensures claimed { (p : ChainPart) (list : List Asset) (origin : Location)
        → claim_refusal p list origin ≡ None
        → Conserves empty (bundle_of list) p (claimed p list origin) }
{
    law_of_traps();
}

/// What is sent: a shipment carries what it took, a deposit is in the receiver's account, and a report carries nothing.
pub fn law_of_conserved_sends()
    ensures shipped { (p : ChainPart) (goods : Bundle) (way : Way) (dest : Location)
        (xcm : List Instruction)
        → ship_refusal p goods way dest xcm ≡ None
        → Conserves goods empty p (shipped p goods way dest xcm) }
    ensures deposited_out { (p : ChainPart) (goods : Bundle) (dest : Location)
        (xcm : List Instruction)
        → deposit_out_refusal p goods dest xcm ≡ None
        → Conserves goods empty p (deposited_out p goods dest xcm) }
    ensures transferred_out { (p : ChainPart) (list : List Asset) (from dest : Location)
        (xcm : List Instruction)
        → IsAssetList list → transfer_out_refusal p list from dest xcm ≡ None
        → Conserves empty empty p (transferred_out p list from dest xcm) }
    ensures responded { (p : ChainPart) (info : QueryInfo) (response : Response)
        (querier : Option Location) → Conserves empty empty p (responded p info response querier) }
    ensures raises_by_goods { (p : ChainPart) (goods : Bundle) (dest : Location)
        (xcm : List Instruction) (who : List ℕ) (t : Unit → Bool)
        → account_of dest p.site ≡ Some who → account_total who t (deposited_out p goods dest xcm)
        ≡ account_total who t p + total t goods }
    ensures raises_by_list { (p : ChainPart) (list : List Asset) (from dest : Location)
        (xcm : List Instruction) (who : List ℕ) (t : Unit → Bool)
        → IsAssetList list → transfer_out_refusal p list from dest xcm ≡ None
        → account_of dest p.site ≡ Some who → IsOtherAccount who (account_of from p.site)
        → account_total who t (transferred_out p list from dest xcm)
        ≡ account_total who t p + total t (bundle_of list) }
{
    law_of_ledgers();
}

/// What is paid, for weight and for deliveries, and what is given back of it.
pub fn law_of_conserved_fees()
    ensures held { (p : ChainPart) (goods : Bundle)
        → p.fee_slot ≡ empty → Conserves goods empty p (fee_held p goods) }
    ensures taken { (p : ChainPart) → Conserves empty p.fee_slot p (fee_taken p) }
    ensures kept { (p : ChainPart) → KeepsBelow p → Conserves empty empty p (fee_kept p) }
    ensures drawn { (p : ChainPart) (list : List Asset) (who : Location)
        → IsAssetList list → withdraw_refusal p list who ≡ None
        → Conserves empty (bundle_of list) p (fee_drawn p list who) }
    ensures bought { (p : ChainPart) (w : Weight) (payment : Bundle) → AreWithinEnd p.lines
        → BuysBelow p w payment → Conserves payment (unspent p w payment) p (bought p w payment) }
    ensures refunded { (p : ChainPart) (w : Weight)
        → AreWithinEnd p.lines → Conserves empty (refund_goods p w) p (refunded p w) }
    ensures settled { (p : ChainPart) → AreWithinEnd p.lines → IsFeeAccountWithin p
        → BooksBelow p (settled_burns p) → Conserves empty empty p (settled p) }
{
    law_of_ledgers();
    law_of_conserved_payments();
}

/// What is on a chain, burned and held together: an accepted instruction leaves as much of each listed asset, and of what it makes so much
/// more. Only ReserveAssetDeposited and ReceiveTeleportedAsset make anything. Where memory is refused inside an instruction, what was taken out
/// is put aside, and there is as much as before; or what it makes is there too.
pub fn law_of_conserving_instructions()
    ensures conserved { (x : Instruction) (m : Machine) (test : Listed → Bool) → IsSteady m
        → HasWithdrawalList (out-Instruction x) → HasFeeLists m.part → HasRoomFor (made_bundle (out-Instruction x)) m
        → refusal_of x m ≡ None → whole_of test (xcm.done x m)
        ≡ whole_of test m + total (is_unit_where test) (made_bundle (out-Instruction x)) }
    ensures spilt { (x : Instruction) (m now : Machine) (test : Listed → Bool)
        → IsSteady m → HasWithdrawalList (out-Instruction x)
        → HasFeeLists m.part → HasRoomFor (made_bundle (out-Instruction x)) m
        → leaves_on_oom x m now → IsMadeOrNothing (made_bundle (out-Instruction x)) (whole_of test m)
        (whole_of test now) test }
{
    law_of_instructions_as_calls();
    law_of_ledgers();
    law_of_conserved_payments();
}
