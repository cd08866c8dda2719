//! What holds of locks: laws, as the contracts of functions that do nothing.
ghost use Rattle.std.specs.Prelude.{◌≡◌, ℕ, true, false, List, Some};
ghost use Rattle.std.specs.List.{AllByRecursion};
ghost use Rattle.chain_ids.specs.declared.chain.ChainId.{ChainId};
ghost use Rattle.locations.specs.declared.relative.Location.{Location};
ghost use Rattle.operands.specs.declared.error.XcmError.TheVariants as error;
ghost use Rattle.operands.specs.declared.weight.Weight.{Weight};
ghost use Rattle.asset_lists.specs.declared.units.Asset.{Asset};
ghost use Rattle.asset_lists.specs.Units.{Unit};
ghost use Rattle.asset_locks.specs.LockMaps.{LockKey};
ghost use Rattle.trust_tables.specs.declared.chains.Site.{Site};
ghost use Rattle.xcm_program.specs.declared.instruction.Instruction.{Instruction};
ghost use Rattle.xcm_program.specs.declared.instruction.Instruction.TheOpen.{Instruction-F};
ghost use Rattle.channel_parts.specs.declared.cargo.Cargo.{Cargo};
ghost use Rattle.channel_parts.specs.Channels.{Waiting};
ghost use Rattle.exec_base.specs.Part.{ChainPart};
ghost use Rattle.exec_base.specs.Host.{floor_of};
ghost use Rattle.exec_rules.specs.Machine.{Machine};
ghost use Rattle.exec_rules.specs.Run.{Stage, machine_of, Reaches, Halted};
ghost use Rattle.exec_rules.specs.Keeping.{IsAheadOf};
ghost use Rattle.exec_rules.specs.Outcome.{finished};
ghost use Rattle.exec_rules.specs.Holdings.{with_origin};
ghost use Rattle.exec_rules.specs.Instructions.{refused, xcm};
ghost use Rattle.exec_rules.specs.Stopping.{leaves_on_oom};
ghost use Rattle.exec_rules.specs.declared.rules.ChainRules.{ChainRules};
ghost use Rattle.exec_rules.specs.Execution.{executed, IsAbandoned};
ghost use Rattle.network_steps.specs.Acting.{caller};
ghost use Rattle.network_steps.specs.Worlds.{World};
ghost use Rattle.network_steps.specs.Steps.{is_sovereign, exec, deliver, claim, Link, Step, waiting, worlds};
ghost use Rattle.law_steps.specs.Shapes.{IsShape, AllShaped, NothingWaits};
ghost use Rattle.law_runs.specs.Safety.{AreLists};
ghost use Rattle.law_authority.specs.Origins.{IsAtOrBelow};
ghost use Rattle.law_authority.specs.Floors.{KeepsChainFloors, FallsOnly, RisesOnly, LetsFall, IsSpeakers, NoSovereignLocks, AllHoldFloors, NoneSovereign, AllInOrder, NothingLocked};

use asset_bundles::law_of_bundles;
use exec_rules::law_of_orderly_instructions;
use law_steps::{
    law_of_admitted_messages, law_of_calm_messages, law_of_delivered_messages,
    law_of_seven_message_shapes,
};
use versioned_xcm::law_of_messages;

/// Each account has at least its floor of each asset, and no pool's account a lock, wherever a run comes, after each execution, and where
/// memory is refused and the run stops; the lists of the program are in order, as the type of lists says.
pub fn law_of_kept_floors()
    ensures reached { (g h : Stage) → Reaches xcm g h
        → IsAheadOf AreLists g → KeepsChainFloors (machine_of g).part → KeepsChainFloors (machine_of h).part }
    ensures executed { (rules : ChainRules) (origin : Location) (credit : Weight)
        (program : List Instruction) (p : ChainPart)
        → AllByRecursion AreLists program → KeepsChainFloors p
        → KeepsChainFloors (executed rules origin credit program p).1 }
    ensures stopped { (rules : ChainRules) (origin : Location) (credit : Weight)
        (program : List Instruction) (p now : ChainPart) → AllByRecursion AreLists program
        → IsAbandoned rules origin credit program p now → KeepsChainFloors p → KeepsChainFloors now }
{
    law_of_orderly_instructions();
    law_of_bundles();
}

/// So it is in each world: a step leaves each account at least its floor, where what waits has lists in order, as the type of lists says; and
/// each world has that which comes of one in which nothing is locked and nothing waits.
pub fn law_of_kept_worlds()
    ensures exec { (w : World) (chain : ChainId) (account bytes : List ℕ)
        → AllHoldFloors w → AllHoldFloors (exec w chain account bytes).world }
    ensures deliver { (w : World) (from to : ChainId)
        → ((x : Waiting) → waiting w from to ≡ Some x → AllByRecursion AreLists x.program)
        → AllHoldFloors w
        → AllHoldFloors (deliver w from to).world }
    ensures claim { (w : World) (from to : ChainId) (bytes : List ℕ)
        → AllHoldFloors w → AllHoldFloors (claim w from to bytes).world }
    ensures first { (w : World)
        → NothingLocked w → NothingWaits w → AllHoldFloors w × AllInOrder w }
    ensures worlds { (order : List Link) (w : World) (steps : List Step)
        → AllInOrder w → AllHoldFloors w → AllByRecursion AllHoldFloors (worlds order w steps) }
{
    law_of_orderly_instructions();
    law_of_bundles();
    law_of_messages();
}

/// Only UnlockAsset lowers a lock, and only where the origin is the lock's unlocker; so it is where memory is refused in an instruction too.
/// The end of a run lowers none. A run lowers only locks whose unlocker is its origin or is below it.
pub fn law_of_falling_locks()
    ensures done { (x : Instruction) (m : Machine)
        → FallsOnly (LetsFall x m) m.part.locked (xcm.done x m).part.locked }
    ensures halted { (x : Instruction) (m now : Machine)
        → Halted xcm leaves_on_oom x m now → FallsOnly (LetsFall x m) m.part.locked now.part.locked }
    ensures finished { (m : Machine) → (finished xcm m).locked ≡ m.part.locked }
    ensures executed { (rules : ChainRules) (origin : Location) (credit : Weight)
        (program : List Instruction) (p : ChainPart)
        → FallsOnly (λ (key : LockKey). IsAtOrBelow origin (Some key.2)) p.locked
        (executed rules origin credit program p).1.locked }
    ensures stopped { (rules : ChainRules) (origin : Location) (credit : Weight)
        (program : List Instruction) (p now : ChainPart)
        → IsAbandoned rules origin credit program p now
        → FallsOnly (λ (key : LockKey). IsAtOrBelow origin (Some key.2)) p.locked now.locked }
{}

/// An instruction sets locks on no account but that of the origin register, an execution for a local caller on none but the caller's, and
/// one of the seven messages on none at all; also where memory is refused.
pub fn law_of_rising_locks()
    ensures done { (x : Instruction) (m : Machine)
        → RisesOnly (IsSpeakers m) m.part.locked (xcm.done x m).part.locked }
    ensures halted { (x : Instruction) (m now : Machine)
        → Halted xcm leaves_on_oom x m now → RisesOnly (IsSpeakers m) m.part.locked now.part.locked }
    ensures caller { (rules : ChainRules) (account : List ℕ) (credit : Weight)
        (program : List Instruction) (p : ChainPart)
        → RisesOnly (λ (key : LockKey). key.0 ≡ account) p.locked
        (executed rules (caller account) credit program p).1.locked }
    ensures caller_stopped { (rules : ChainRules) (account : List ℕ) (credit : Weight)
        (program : List Instruction) (p now : ChainPart)
        → IsAbandoned rules (caller account) credit program p now
        → RisesOnly (λ (key : LockKey). key.0 ≡ account) p.locked now.locked }
    ensures message { (here : Site) (there : ChainId) (cargo : Cargo) (rules : ChainRules)
        (origin : Location) (credit : Weight) (program : List Instruction) (p : ChainPart)
        → IsShape here there program cargo
        → RisesOnly (λ (key : LockKey). ⊥) p.locked
        (executed rules origin credit program p).1.locked }
    ensures message_stopped { (here : Site) (there : ChainId) (cargo : Cargo) (rules : ChainRules)
        (origin : Location) (credit : Weight) (program : List Instruction) (p now : ChainPart)
        → IsShape here there program cargo → IsAbandoned rules origin credit program p now
        → RisesOnly (λ (key : LockKey). ⊥) p.locked now.locked }
{
    law_of_admitted_messages();
    law_of_calm_messages();
}

/// No account of a whole chain ever has a lock: a step leaves it so. So what such an account holds is all its own to give.
pub fn law_of_sovereign_locks()
    ensures exec { (w : World) (chain : ChainId) (account bytes : List ℕ)
        → NoneSovereign w → NoneSovereign (exec w chain account bytes).world }
    ensures deliver { (w : World) (from to : ChainId)
        → AllShaped w → NoneSovereign w → NoneSovereign (deliver w from to).world }
    ensures claim { (w : World) (from to : ChainId) (bytes : List ℕ)
        → NoneSovereign w → NoneSovereign (claim w from to bytes).world }
    ensures worlds { (order : List Link) (w : World) (steps : List Step)
        → AllShaped w → NoneSovereign w → AllByRecursion NoneSovereign (worlds order w steps) }
    ensures no_floor { (p : ChainPart) (who : List ℕ) (unit : Unit)
        → NoSovereignLocks p.locked → is_sovereign who ≡ true → floor_of p who unit ≡ 0 }
{
    law_of_seven_message_shapes();
    law_of_delivered_messages();
    law_of_admitted_messages();
    law_of_calm_messages();
}

/// On a chain where nothing may be locked the four instructions answer as if there were no locks anywhere, and no lock and no note changes.
pub fn law_of_chains_without_locks()
    ensures refused { (m : Machine) (a : Asset) (place : Location) → m.part.locks ≡ false
        → (refused (Instruction-F.LockAsset a place) m ≡ with_origin m.regs.origin
        (λ who. Some error.LockError))
        × (refused (Instruction-F.UnlockAsset a place) m ≡ with_origin m.regs.origin
        (λ who. Some error.LockError))
        × (refused (Instruction-F.NoteUnlockable a place) m ≡ with_origin m.regs.origin
        (λ who. Some error.LockError))
        × (refused (Instruction-F.RequestUnlock a place) m ≡ with_origin m.regs.origin
        (λ who. Some error.LockError)) }
    ensures executed { (rules : ChainRules) (origin : Location) (credit : Weight)
        (program : List Instruction) (p : ChainPart) → p.locks ≡ false
        → (executed rules origin credit program p).1.locked ≡ p.locked }
    ensures stopped { (rules : ChainRules) (origin : Location) (credit : Weight)
        (program : List Instruction) (p now : ChainPart) → p.locks ≡ false
        → IsAbandoned rules origin credit program p now → now.locked ≡ p.locked }
{}
