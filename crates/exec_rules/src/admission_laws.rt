//! What holds of every execution: a law, as the contract of a function that does nothing.
ghost use Rattle.std.specs.Prelude.{◌≡◌, ◌<◌, ◌^◌, ℕ, false, length, List, Ok, Err};
ghost use Rattle.amounts.specs.Amounts.{empty, rows};
ghost use Rattle.locations.specs.declared.relative.Location.{Location};
ghost use Rattle.operands.specs.declared.query.OpenQuery.{OpenQuery};
ghost use Rattle.operands.specs.declared.weight.Weight.{Weight};
ghost use Rattle.asset_bundles.specs.Traps.{with_trapped};
ghost use Rattle.weight_trader.specs.Refunds.{Closed};
ghost use Rattle.xcm_program.specs.declared.instruction.Instruction.{Instruction};
ghost use Rattle.xcm_program.specs.declared.outcome.Outcome.{Outcome};
ghost use Rattle.xcm_program.specs.Measure.{deep_count};
ghost use Rattle.exec_base.specs.declared.event.Part.{Part};
ghost use Rattle.exec_base.specs.Part.{ChainPart};
ghost use Rattle.exec_base.specs.Sending.{IsForwardable};
ghost use Rattle.exec_rules.specs.Machine.{Machine};
ghost use Rattle.exec_rules.specs.Run.{Stage, At, run, machine_of, Reaches, IsEnd};
ghost use Rattle.exec_rules.specs.Accounts.{IsBalanced, KeepsAccounts};
ghost use Rattle.exec_rules.specs.Outcome.{owner_of, refunded_last, finished};
ghost use Rattle.exec_rules.specs.Instructions.{xcm};
ghost use Rattle.exec_rules.specs.Readiness.{IsAtRest, IsReady};
ghost use Rattle.exec_rules.specs.declared.rules.ChainRules.{ChainRules};
ghost use Rattle.exec_rules.specs.declared.admission.Admitted.{Admitted};
ghost use Rattle.exec_rules.specs.Admission.{admitted, IsWeighed};
ghost use Rattle.exec_rules.specs.Execution.{first_stage, last_machine, executed};

use crate::{law_of_orderly_instructions, law_of_orderly_runs, law_of_readiness};

/// What is admitted weighs what is said. Its run begins balanced with that weight, so wherever it comes the surplus is at most the weight, and what was
/// refunded at most the surplus, after the last refund too. From a chain at rest it is ready for whichever instruction comes next, and leaves the chain at
/// rest. It ends: no fee is left aside, nothing with the trader, and a holding is trapped just where it isn't empty. What isn't admitted changes nothing.
pub fn law_of_admission()
    ensures weighed { (rules : ChainRules) (origin : Location) (credit : Weight)
        (queries : List OpenQuery) (program : List Instruction) (a : Admitted)
        → deep_count program < 2 ^ 32
        → admitted rules origin credit queries program ≡ Ok a → IsWeighed rules.weight a }
    ensures balanced { (rules : ChainRules) (origin : Location) (a : Admitted) (p : ChainPart)
        → IsWeighed rules.weight a → IsBalanced a.weight (first_stage rules origin a p) }
    ensures accounts { (rules : ChainRules) (origin : Location) (a : Admitted) (p : ChainPart)
        (g : Stage)
        → IsWeighed rules.weight a → Reaches xcm (first_stage rules origin a p) g
        → KeepsAccounts a.weight (machine_of g).regs }
    ensures at_end { (rules : ChainRules) (origin : Location) (a : Admitted) (p : ChainPart)
        → IsWeighed rules.weight a
        → KeepsAccounts a.weight (refunded_last xcm (last_machine rules origin a p)).regs }
    ensures forwardable { (rules : ChainRules) (origin : Location) (credit : Weight)
        (queries : List OpenQuery) (program : List Instruction) (a : Admitted)
        → IsForwardable program
        → admitted rules origin credit queries program ≡ Ok a → IsForwardable a.program }
    ensures ready { (rules : ChainRules) (origin : Location) (a : Admitted) (p : ChainPart)
        (part : Part) (place : ℕ) (x : Instruction) (behind : List Instruction) (m : Machine)
        → IsWeighed rules.weight a → IsForwardable a.program → IsAtRest p
        → Reaches xcm (first_stage rules origin a p) (At part place x behind m) → IsReady x m }
    ensures rests { (rules : ChainRules) (origin : Location) (a : Admitted) (p : ChainPart)
        → IsWeighed rules.weight a
        → IsAtRest p → IsAtRest (finished xcm (last_machine rules origin a p)) }
    ensures ends { (rules : ChainRules) (origin : Location) (a : Admitted) (p : ChainPart)
        → IsEnd (run xcm (first_stage rules origin a p)) }
    ensures refused { (rules : ChainRules) (origin : Location) (credit : Weight)
        (program : List Instruction) (outcome : Outcome) (p : ChainPart)
        → admitted rules origin credit p.queries program ≡ Err outcome
        → executed rules origin credit program p ≡ ((outcome, false), p) }
    ensures settled { (m : Machine) → ((finished xcm m).fees ≡ empty)
        × ((finished xcm m).lines ≡ Closed (refunded_last xcm m).part.lines) }
    ensures trapped { (m : Machine) → 0 < length (rows (refunded_last xcm m).regs.holding)
        → (finished xcm m).traps ≡ with_trapped (refunded_last xcm m).part.traps
        (owner_of (refunded_last xcm m).regs) (refunded_last xcm m).regs.holding }
    ensures untrapped { (m : Machine) → length (rows (refunded_last xcm m).regs.holding) ≡ 0
        → (finished xcm m).traps ≡ (refunded_last xcm m).part.traps }
{
    law_of_orderly_runs();
    law_of_orderly_instructions();
    law_of_readiness();
}
