//! What holds of every message that waits: laws, as the contracts of functions that do nothing.
ghost use Rattle.std.specs.Prelude.{◌≡◌, ◌≤◌, ◌+◌, ℕ, true, List, Some, None, Ok, length, slice_get, if◌then◌else◌};
ghost use Rattle.amounts.specs.Amounts.{empty};
ghost use Rattle.std.specs.List.{AllByRecursion};
ghost use Rattle.chain_ids.specs.declared.chain.ChainId.{ChainId};
ghost use Rattle.locations.specs.declared.relative.Location.{Location};
ghost use Rattle.operands.specs.declared.query.OpenQuery.{OpenQuery};
ghost use Rattle.operands.specs.declared.weight.Weight.{Weight};
ghost use Rattle.asset_lists.specs.declared.units.Asset.{Asset};
ghost use Rattle.asset_bundles.specs.declared.shipment.Shipment.{Shipment};
ghost use Rattle.asset_bundles.specs.declared.shipment.Way.{Way};
ghost use Rattle.trust_tables.specs.declared.chains.Site.{Site};
ghost use Rattle.xcm_program.specs.declared.instruction.Instruction.{Instruction};
ghost use Rattle.channel_parts.specs.declared.cargo.Cargo.{Cargo};
ghost use Rattle.channel_parts.specs.Channels.{Waiting};
ghost use Rattle.exec_base.specs.Part.{ChainPart};
ghost use Rattle.exec_base.specs.Host.{Arrival, fits_call, cargo_list, is_cargo};
ghost use Rattle.exec_rules.specs.Run.{Stage, steps, machine_of, Reaches};
ghost use Rattle.exec_rules.specs.Instructions.{xcm};
ghost use Rattle.exec_rules.specs.declared.rules.ChainRules.{ChainRules};
ghost use Rattle.exec_rules.specs.declared.admission.Admitted.{Admitted};
ghost use Rattle.exec_rules.specs.Admission.{admitted};
ghost use Rattle.exec_rules.specs.Execution.{first_stage, executed, IsAbandoned};
ghost use Rattle.network_steps.specs.Acting.{lost_of};
ghost use Rattle.network_steps.specs.Worlds.{Member, World, chain_of, place_of};
ghost use Rattle.network_steps.specs.Steps.{exec, deliver, claim, run_for, Link, Step, waiting, next_channel, drain, world_behind, next_world, worlds};
ghost use Rattle.network_steps.specs.Sends.{deliveries_left};
ghost use Rattle.network_steps.specs.Drains.{HasNoSelfLink};
ghost use Rattle.law_steps.specs.Shapes.{named_there, IsShape, IsShaped, AreShapedAt, AllShaped, NothingWaits};
ghost use Rattle.law_steps.specs.Calm.{MuteAt};
ghost use Rattle.law_steps.specs.Lost.{is_first_done};

use exec_rules::{law_of_orderly_instructions, law_of_orderly_runs};

/// Each message that waits has one of the seven shapes, in every world from one in which nothing waits on.
pub fn law_of_seven_message_shapes()
    ensures first { (w : World) → NothingWaits w → AllShaped w }
    ensures exec { (w : World) (chain : ChainId) (account bytes : List ℕ)
        → AllShaped w → AllShaped (exec w chain account bytes).world }
    ensures deliver { (w : World) (from to : ChainId)
        → AllShaped w → AllShaped (deliver w from to).world }
    ensures claim { (w : World) (from to : ChainId) (bytes : List ℕ)
        → AllShaped w → AllShaped (claim w from to bytes).world }
    ensures after { (order : List Link) (w : World) (step : Step)
        → AllShaped w → AllShaped (next_world order w step) }
    ensures worlds { (order : List Link) (w : World) (steps : List Step)
        → AllShaped w → AllByRecursion AllShaped (worlds order w steps) }
{}

/// So it is inside a run, wherever it comes, after the execution of a program, and where memory is refused and the run stops.
pub fn law_of_runs_that_send()
    ensures reached { (g h : Stage)
        → Reaches xcm g h → AreShapedAt (machine_of g).part → AreShapedAt (machine_of h).part }
    ensures executed { (rules : ChainRules) (origin : Location) (credit : Weight)
        (program : List Instruction) (p : ChainPart)
        → AreShapedAt p → AreShapedAt (executed rules origin credit program p).1 }
    ensures stopped { (rules : ChainRules) (origin : Location) (credit : Weight)
        (program : List Instruction) (p now : ChainPart)
        → IsAbandoned rules origin credit program p now → AreShapedAt p → AreShapedAt now }
{}

/// What a delivery takes from its channel has one of the seven shapes.
pub fn law_of_delivered_messages()
    ensures { (w : World) (from to : ChainId) (i : ℕ) (sender : Member) (x : Waiting)
        → AllShaped w → place_of w from ≡ Some i → slice_get w i ≡ Some sender
        → waiting w from to ≡ Some x → IsShaped sender.part.site to x }
{}

/// The program that the receiver's barriers let in has the shape still, whatever limit they set in it.
pub fn law_of_admitted_messages()
    ensures { (here : Site) (there : ChainId) (program : List Instruction) (cargo : Cargo)
        (rules : ChainRules) (origin : Location) (credit : Weight) (queries : List OpenQuery)
        (a : Admitted)
        → IsShape here there program cargo
        → admitted rules origin credit queries program ≡ Ok a → IsShape here there a.program cargo }
{}

/// Wherever a run of one of the seven messages is, LockAsset and RequestUnlock find no origin.
pub fn law_of_calm_messages()
    ensures { (here : Site) (there : ChainId) (cargo : Cargo) (rules : ChainRules)
        (origin : Location) (a : Admitted) (p : ChainPart) (n : ℕ)
        → IsShape here there a.program cargo
        → MuteAt (steps xcm n (first_stage rules origin a p)) }
{}

/// A delivery lowers the sum, over all messages that wait, of 1 and the messages that their programs may send: in a message no instruction
/// that tells of a lock has an origin. So a drain makes at most so many deliveries, and then no message waits, where no channel leads from a
/// chain to itself.
pub fn law_of_drains_that_end()
    ensures lowers { (w : World) (from to : ChainId) (x : Waiting)
        → AllShaped w → (from ≡ to → ⊥) → waiting w from to ≡ Some x
        → 1 + deliveries_left (deliver w from to).world ≤ deliveries_left w }
    ensures few { (order : List Link) (w : World) → length (drain order w) ≤ deliveries_left w }
    ensures ends { (order : List Link) (w : World) → AllShaped w
        → HasNoSelfLink order → next_channel order (world_behind w (drain order w)) ≡ None }
{
    law_of_orderly_instructions();
}

/// The list at the front of a message is its cargo's, as the receiver names it: so the receiver's call of the kind that fits finds its cargo.
pub fn law_of_matched_cargoes()
    ensures { (here : Site) (p : ChainPart) (cargo : Cargo) (arrival : Arrival) (list : List Asset)
        → p.site.network ≡ here.network → p.cargo.sender ≡ here.chain → p.cargo.cargo ≡ cargo
        → fits_call arrival cargo ≡ true → named_there here p.site.chain (cargo_list cargo)
        ≡ Some list → is_cargo p arrival list ≡ true }
{}

/// A teleport is lost where the first instruction of its message isn't done, and nowhere else: the flag of the execution tells it, whatever comes
/// after.
pub fn law_of_lost_teleports()
    ensures { (sender receiver : Member) (x : Waiting) (shipment : Shipment)
        → IsShaped sender.part.site (chain_of receiver) x
        → receiver.part.site.network ≡ sender.part.site.network
        → x.cargo ≡ Cargo.Away shipment → shipment.way ≡ Way.Teleport
        → lost_of (run_for sender receiver x).left
        ≡ (if is_first_done sender receiver x then empty else shipment.units) }
{
    law_of_orderly_instructions();
    law_of_orderly_runs();
}
