//! Whose amounts fall: laws, as the contracts of functions that do nothing.
ghost use Rattle.std.specs.Prelude.{◌≡◌, ◌≤◌, ℕ, suc, true, List, Some, None, slice_get};
ghost use Rattle.std.specs.List.{AllByRecursion, AllPairs};
ghost use Rattle.amounts.specs.Amounts.{amount};
ghost use Rattle.asset_lists.specs.Units.{Unit};
ghost use Rattle.chain_ids.specs.declared.chain.ChainId.{ChainId};
ghost use Rattle.locations.specs.declared.relative.Location.{Location};
ghost use Rattle.operands.specs.declared.weight.Weight.{Weight};
ghost use Rattle.trust_tables.specs.declared.chains.Site.{Site};
ghost use Rattle.trust_tables.specs.Accounts.{account_of, sovereign_account};
ghost use Rattle.xcm_program.specs.declared.instruction.Instruction.{Instruction};
ghost use Rattle.channel_parts.specs.declared.cargo.Cargo.{Cargo};
ghost use Rattle.exec_base.specs.declared.event.Part.{Part};
ghost use Rattle.exec_base.specs.Part.{ChainPart};
ghost use Rattle.exec_rules.specs.Machine.{Machine};
ghost use Rattle.exec_rules.specs.Run.{Stage, At, steps, machine_of, Reaches};
ghost use Rattle.exec_rules.specs.Instructions.{xcm};
ghost use Rattle.exec_rules.specs.declared.rules.ChainRules.{ChainRules};
ghost use Rattle.exec_rules.specs.declared.admission.Admitted.{Admitted};
ghost use Rattle.exec_rules.specs.Execution.{first_stage, executed, IsAbandoned};
ghost use Rattle.network_steps.specs.Acting.{caller};
ghost use Rattle.network_steps.specs.Worlds.{Member, World};
ghost use Rattle.network_steps.specs.Steps.{is_sovereign, exec, deliver, claim, Link, Step, Exec, Deliver, Claim, worlds};
ghost use Rattle.law_steps.specs.Shapes.{IsShape, AllShaped};
ghost use Rattle.law_authority.specs.Origins.{speaker_of, SpendsOnly, IsAtOrBelow};
ghost use Rattle.law_authority.specs.Alone.{NoneAloneLoses};
ghost use Rattle.law_authority.specs.Burns.{NoBurnFalls};
ghost use Rattle.law_authority.specs.Products.{NoProductFalls, HaveFewPools};
ghost use Rattle.law_authority.specs.Speakers.{SpeaksFor, HasAuthority, IsAuthorized, AreAuthorized};

use law_steps::{law_of_admitted_messages, law_of_delivered_messages, law_of_seven_message_shapes};
use network_steps::law_of_constant_settings;
use trust_tables::law_of_sovereign_accounts;

/// An instruction lowers no account but that of the origin register, and those of pools: with a register that is empty, or whose location has
/// no account, only pools'. No pool's product falls but that of a pool whose account the origin register has.
pub fn law_of_spending_by_origin_alone()
    ensures done { (x : Instruction) (m : Machine)
        → SpendsOnly (speaker_of m) m.part (xcm.done x m).part }
{}

/// Wherever a run comes, its origin register is empty or holds a location that begins with the origin for which it began. In a run of one of
/// the seven messages it is empty before each instruction from the third on.
pub fn law_of_origin_registers()
    ensures reached { (rules : ChainRules) (origin : Location) (a : Admitted) (p : ChainPart)
        (g : Stage) → Reaches xcm (first_stage rules origin a p) g
        → IsAtOrBelow origin (machine_of g).regs.origin }
    ensures cleared { (here : Site) (there : ChainId) (cargo : Cargo) (rules : ChainRules)
        (origin : Location) (a : Admitted) (p : ChainPart) (n : ℕ) (part : Part) (place : ℕ)
        (x : Instruction) (behind : List Instruction) (m : Machine)
        → IsShape here there a.program cargo
        → steps xcm (suc (suc n)) (first_stage rules origin a p) ≡ At part place x behind m
        → m.regs.origin ≡ None }
{}

/// An execution for a local caller lowers the caller's account alone, and an execution of one of the seven messages the account of its origin
/// alone, besides pools, of which no product falls; also where memory is refused and the run stops.
pub fn law_of_executions_spending_one_account()
    ensures caller { (rules : ChainRules) (account : List ℕ) (credit : Weight)
        (program : List Instruction) (p : ChainPart)
        → SpendsOnly (Some account) p (executed rules (caller account) credit program p).1 }
    ensures message { (here : Site) (there : ChainId) (cargo : Cargo) (rules : ChainRules)
        (origin : Location) (credit : Weight) (program : List Instruction) (p : ChainPart)
        → IsShape here there program cargo
        → SpendsOnly (account_of origin p.site) p (executed rules origin credit program p).1 }
    ensures caller_stopped { (rules : ChainRules) (account : List ℕ) (credit : Weight)
        (program : List Instruction) (p now : ChainPart)
        → IsAbandoned rules (caller account) credit program p now
        → SpendsOnly (Some account) p now }
    ensures message_stopped { (here : Site) (there : ChainId) (cargo : Cargo) (rules : ChainRules)
        (origin : Location) (credit : Weight) (program : List Instruction) (p now : ChainPart)
        → IsShape here there program cargo → IsAbandoned rules origin credit program p now
        → SpendsOnly (account_of origin p.site) p now }
{
    law_of_admitted_messages();
}

/// An account that has less of some unit after a step is the caller's, on the chain of an execution, or that of the sending chain at the
/// receiver of a delivery, or a pool's, whose product doesn't fall; and what was burned stays in the books. So it is in each delivery of a drain.
/// It holds in every network in which the messages that wait have their shapes, as they have from the first world on.
pub fn law_of_authority()
    ensures exec { (w : World) (chain : ChainId) (account bytes : List ℕ)
        → HasAuthority w (Exec chain account bytes) (exec w chain account bytes).world }
    ensures deliver { (w : World) (from to : ChainId)
        → AllShaped w → HasAuthority w (Deliver from to) (deliver w from to).world }
    ensures claim { (w : World) (from to : ChainId) (bytes : List ℕ)
        → HasAuthority w (Claim from to bytes) (claim w from to bytes).world }
    ensures after { (order : List Link) (w : World) (step : Step)
        → AllShaped w → IsAuthorized order w step }
    ensures worlds { (order : List Link) (w : World) (steps : List Step)
        → AllShaped w → AreAuthorized order w steps }
{
    law_of_seven_message_shapes();
    law_of_delivered_messages();
    law_of_admitted_messages();
}

/// The account of a whole chain falls by no execution; and at the receiver of a delivery it is the sending chain's own that may.
pub fn law_of_spent_sovereign_accounts()
    ensures exec { (w : World) (chain : ChainId) (account bytes : List ℕ) (place : ℕ)
        (before now : Member) (who : List ℕ) (unit : Unit)
        → is_sovereign who ≡ true → slice_get w place ≡ Some before
        → slice_get (exec w chain account bytes).world place ≡ Some now
        → amount before.part.held (who, unit) ≤ amount now.part.held (who, unit) }
    ensures deliver { (w : World) (from to : ChainId) (place : ℕ) (member : Member) (who : List ℕ)
        → slice_get w place ≡ Some member
        → SpeaksFor w (Deliver from to) place member who → who ≡ sovereign_account to from }
{
    law_of_sovereign_accounts();
}

/// No pool's product of reserves falls by a step, nor over any steps, where no chain has more than 2^32 pools: an account of a pool has no
/// caller, and no chain speaks for one.
pub fn law_of_pool_products()
    ensures exec { (w : World) (chain : ChainId) (account bytes : List ℕ) → HaveFewPools w
        → NoProductFalls w (exec w chain account bytes).world }
    ensures deliver { (w : World) (from to : ChainId) → AllShaped w → HaveFewPools w
        → NoProductFalls w (deliver w from to).world }
    ensures claim { (w : World) (from to : ChainId) (bytes : List ℕ) → HaveFewPools w
        → NoProductFalls w (claim w from to bytes).world }
    ensures worlds { (order : List Link) (w : World) (steps : List Step) → AllShaped w
        → HaveFewPools w → AllByRecursion (NoProductFalls w) (worlds order w steps) }
{
    law_of_constant_settings();
    law_of_seven_message_shapes();
    law_of_delivered_messages();
    law_of_admitted_messages();
    law_of_sovereign_accounts();
}

/// What is burned stays burned: of any two worlds the later one's books have of each asset, for each cause, at least what the earlier one's have.
pub fn law_of_permanent_burns()
    ensures { (order : List Link) (w : World) (steps : List Step)
        → AllShaped w → AllPairs NoBurnFalls (worlds order w steps) }
{
    law_of_constant_settings();
    law_of_seven_message_shapes();
    law_of_delivered_messages();
    law_of_admitted_messages();
    law_of_sovereign_accounts();
}

/// An account of a wallet that is left alone loses nothing: where no step executes a message for it on its chain, and it is no other chain's account
/// there nor a pool's, it has of each asset in every world at least what it had at first.
pub fn law_of_accounts_left_alone()
    ensures { (order : List Link) (w : World) (steps : List Step)
        → AllShaped w → AllByRecursion (NoneAloneLoses steps w) (worlds order w steps) }
{
    law_of_constant_settings();
    law_of_seven_message_shapes();
    law_of_delivered_messages();
    law_of_admitted_messages();
    law_of_sovereign_accounts();
}
