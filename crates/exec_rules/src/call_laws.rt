//! What instructions ask of their chain, and what holds of all of them: laws, as the contracts of functions that do nothing.
ghost use Rattle.std.specs.Prelude.{◌≡◌, ℕ, List, Some, None};
ghost use Rattle.std.specs.List.{AllByRecursion};
ghost use Rattle.operands.specs.declared.weight.Weight.{Weight};
ghost use Rattle.operands.specs.declared.error.XcmError.{XcmError};
ghost use Rattle.xcm_program.specs.declared.instruction.Instruction.{Instruction};
ghost use Rattle.xcm_program.specs.declared.instruction.Instruction.TheOpen.{Instruction-F};
ghost use Rattle.exec_base.specs.Sending.{IsForwardable};
ghost use Rattle.exec_base.specs.declared.event.Part.{Part};
ghost use Rattle.exec_rules.specs.Machine.{Machine, IsOrderly};
ghost use Rattle.exec_rules.specs.Run.{Stage, At, next, machine_of, Reaches};
ghost use Rattle.exec_rules.specs.Accounts.{IsBalanced};
ghost use Rattle.exec_rules.specs.Keeping.{LeavesAll, IsAheadOf};
ghost use Rattle.exec_rules.specs.Instructions.{refused, done, refusal_of, xcm};
ghost use Rattle.exec_rules.specs.Readiness.{IsSteady, IsSoundInstruction, IsReady};
ghost use Rattle.exec_rules.specs.Stopping.{LeftOnOom};
ghost use Rattle.exec_rules.specs.HostCalls.{between, refusal_along, calls, through};
ghost use Rattle.exec_rules.specs.Reasons.{HaveReasons, IsLedTo};

use crate::law_of_orderly_runs;

/// An instruction is refused by the first of its calls that is refused, and else leaves what they leave, with the registers that it changes. Each
/// call has its reason, and where memory stops an instruction, accepted calls have led there, which change nothing else yet or did a prefix of a
/// call's batch.
pub fn law_of_instructions_as_calls()
    ensures refused { (l : Instruction-F Instruction) (m : Machine)
        → refused l m ≡ refusal_along (calls l m) (between m) }
    ensures done { (l : Instruction-F Instruction) (m : Machine)
        → between (done l m) ≡ through l m }
    ensures asked { (l : Instruction-F Instruction) (m : Machine)
        → HaveReasons l m (calls l m) (between m) }
    ensures stopped { (l : Instruction-F Instruction) (m now : Machine)
        → LeftOnOom l m now → IsLedTo l m now }
{}

/// The instructions steer a run only as they may, so the laws of runs hold of it; and a refused instruction changes no register but the
/// error, the surplus and those of the handler and the appendix, and nothing of the chain but what is told.
pub fn law_of_orderly_instructions()
    ensures steers { IsOrderly xcm }
    ensures refused { (part : Part) (place : ℕ) (x : Instruction) (behind : List Instruction)
        (m : Machine) (e : XcmError)
        → refusal_of x m ≡ Some e → LeavesAll m (machine_of (next xcm (At part place x behind m))) }
{
    law_of_orderly_runs();
}

/// Each instruction leaves a steady machine steady, so a run that begins so stays so; and where its instructions are sound it is ready for
/// whichever comes next. A program that may be sent is made of sound instructions.
pub fn law_of_readiness()
    ensures done { (x : Instruction) (m : Machine)
        → IsSteady m → refusal_of x m ≡ None → IsSteady (xcm.done x m) }
    ensures reached { (most : Weight) (g h : Stage)
        → IsBalanced most g → Reaches xcm g h → IsSteady (machine_of g) → IsSteady (machine_of h) }
    ensures sound { (program : List Instruction)
        → IsForwardable program → AllByRecursion IsSoundInstruction program }
    ensures ready { (most : Weight) (g : Stage) (part : Part) (place : ℕ) (x : Instruction)
        (behind : List Instruction) (m : Machine)
        → IsBalanced most g → IsAheadOf IsSoundInstruction g
        → IsSteady (machine_of g) → Reaches xcm g (At part place x behind m) → IsReady x m }
{}
