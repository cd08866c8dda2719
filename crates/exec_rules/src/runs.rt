//! What holds of every run: laws, as the contracts of functions that do nothing.
ghost use Rattle.std.specs.Prelude.{◌≡◌, ◌+◌, ◌≤◌, ℕ, List, Some};
ghost use Rattle.operands.specs.declared.error.XcmError.{XcmError};
ghost use Rattle.operands.specs.declared.weight.Weight.{Weight};
ghost use Rattle.xcm_program.specs.declared.instruction.Instruction.{Instruction};
ghost use Rattle.exec_base.specs.declared.event.Part.{Part};
ghost use Rattle.exec_rules.specs.Machine.{Machine, Rules, IsOrderly};
ghost use Rattle.exec_rules.specs.Run.{Stage, At, next, run, still_to_run, IsUnderWay, IsEnd, machine_of, Reaches};
ghost use Rattle.exec_rules.specs.Accounts.{IsBalanced, IsAffordable, KeepsAccounts};
ghost use Rattle.exec_rules.specs.Keeping.{LeavesAll, IsAheadOf};

/// Where instructions steer a run only as they may: each instruction is taken at most once, so every run ends, and a run from a stage
/// that it reaches is the same run. Wherever it is, the surplus is at most the weight that was admitted, what was refunded is at most
/// the surplus, and the next instruction may be taken. A refused instruction changes no
/// register but the error, the surplus and those of the handler and the appendix, and nothing of the chain but what is told.
pub fn law_of_orderly_runs()
    ensures once { (rules : Rules) (g : Stage)
        → IsOrderly rules → IsUnderWay g → 1 + still_to_run (next rules g) ≤ still_to_run g }
    ensures ends { (rules : Rules) (g : Stage) → IsOrderly rules → IsEnd (run rules g) }
    ensures same { (rules : Rules) (g h : Stage)
        → IsOrderly rules → Reaches rules g h → run rules g ≡ run rules h }
    ensures accounts { (rules : Rules) (most : Weight) (g h : Stage) → IsOrderly rules
        → Reaches rules g h → IsBalanced most g → KeepsAccounts most (machine_of h).regs }
    ensures affordable { (rules : Rules) (most : Weight) (g : Stage) (part : Part) (place : ℕ)
        (x : Instruction) (behind : List Instruction) (m : Machine)
        → IsOrderly rules → Reaches rules g (At part place x behind m)
        → IsBalanced most g → IsAffordable x m.regs }
    ensures refused { (rules : Rules) (part : Part) (place : ℕ) (x : Instruction)
        (behind : List Instruction) (m : Machine) (e : XcmError)
        → rules.refusal_of x m ≡ Some e
        → LeavesAll m (machine_of (next rules (At part place x behind m))) }
{}

/// A relation between machines that each step of a run keeps, where its instructions, and those that they keep, are of one kind.
pub trait KeptByRuns {
    ghost use Rattle.xcm_program.specs.declared.instruction.Instruction.{Instruction};
    ghost use Rattle.exec_rules.specs.Machine.{Machine, Rules, IsOrderly};
    ghost use Rattle.exec_rules.specs.Keeping.{GoesInside, IsKeptByRuns};

    /// What the instructions do.
    ghost rules: { Rules };

    /// Of what kind they are.
    ghost kind: { Instruction → Type 0 };

    /// The relation.
    ghost relation: { Machine → Machine → Type 0 };

    /// They steer a run only as they may.
    ghost orderly: { IsOrderly rules };

    /// What an instruction keeps is of that kind too.
    ghost inside: { GoesInside kind };

    /// Each step keeps the relation.
    ghost kept: { IsKeptByRuns rules kind relation };
}

/// A relation that each step keeps holds between a run's beginning and whatever it reaches, and the instructions that may still run there
/// are of the same kind.
pub fn law_of_kept_relations<K: KeptByRuns>()
    ensures ahead { (g h : Stage) → IsAheadOf K.kind g → Reaches K.rules g h → IsAheadOf K.kind h }
    ensures reached { (most : Weight) (g h : Stage) → IsBalanced most g
        → IsAheadOf K.kind g → Reaches K.rules g h → K.relation (machine_of g) (machine_of h) }
{}
