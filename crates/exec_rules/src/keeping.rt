//! What executions keep: a law, as the contract of a function that does nothing.
ghost use Rattle.std.specs.Prelude.{◌≡◌, ℕ, None, Ok, Result};
ghost use Rattle.locations.specs.declared.relative.Location.{Location};
ghost use Rattle.xcm_program.specs.declared.instruction.Instruction.{Instruction};
ghost use Rattle.xcm_program.specs.declared.outcome.Outcome.{Outcome};
ghost use Rattle.exec_base.specs.Part.{ChainPart};
ghost use Rattle.exec_rules.specs.Machine.{Machine};
ghost use Rattle.exec_rules.specs.Run.{Stage, machine_of, steps, Reaches};
ghost use Rattle.exec_rules.specs.Keeping.{IsAheadOf};
ghost use Rattle.exec_rules.specs.Instructions.{refusal_of, xcm};
ghost use Rattle.exec_rules.specs.Stopping.{leaves_on_oom};
ghost use Rattle.exec_rules.specs.HostCalls.{between};
ghost use Rattle.exec_rules.specs.declared.rules.ChainRules.{ChainRules};
ghost use Rattle.exec_rules.specs.declared.admission.Admitted.{Admitted};
ghost use Rattle.exec_rules.specs.Execution.{first_machine, first_stage, executed_by, AbandonedIn};
ghost use Rattle.exec_rules.specs.Kept.{HoldsAtEnd};

/// A fact that each call keeps, where the instructions are of one kind.
pub trait KeptByCalls {
    ghost use Rattle.xcm_program.specs.declared.instruction.Instruction.{Instruction};
    ghost use Rattle.exec_rules.specs.HostCalls.{MachineWithGoods};
    ghost use Rattle.exec_rules.specs.Kept.{IsKeptByCalls};

    /// Of what kind the instructions are.
    ghost kind: { Instruction → Type 0 };

    /// The fact.
    ghost fact: { MachineWithGoods → Type 0 };

    /// Each call keeps it, and each change of the other registers.
    ghost kept: { IsKeptByCalls kind fact };
}

/// A fact that each call keeps, each accepted instruction keeps, each that memory stops, each run wherever it comes, and each execution, at its end
/// and where memory was refused to it.
pub fn law_of_kept_facts<K: KeptByCalls>()
    ensures done { (x : Instruction) (m : Machine)
        → K.kind x → refusal_of x m ≡ None → K.fact (between m) → K.fact (between (xcm.done x m)) }
    ensures stopped { (x : Instruction) (m now : Machine)
        → K.kind x → leaves_on_oom x m now → K.fact (between m) → K.fact (between now) }
    ensures reached { (rules : ChainRules) (origin : Location) (a : Admitted) (p : ChainPart)
        → ((j : ℕ) → IsAheadOf K.kind (steps xcm j (first_stage rules origin a p)))
        → K.fact (between (first_machine rules origin p)) → (g : Stage)
        → Reaches xcm (first_stage rules origin a p) g → K.fact (between (machine_of g)) }
    ensures executed { (rules : ChainRules) (origin : Location) (r : Result Admitted Outcome)
        (p : ChainPart)
        → ((a : Admitted) → r ≡ Ok a → (j : ℕ)
        → IsAheadOf K.kind (steps xcm j (first_stage rules origin a p)))
        → K.fact (between (first_machine rules origin p))
        → HoldsAtEnd K.fact (executed_by rules origin r p).1 }
    ensures abandoned { (rules : ChainRules) (origin : Location) (a : Admitted) (p now : ChainPart)
        → ((j : ℕ) → IsAheadOf K.kind (steps xcm j (first_stage rules origin a p)))
        → AbandonedIn rules origin a p now
        → K.fact (between (first_machine rules origin p)) → HoldsAtEnd K.fact now }
{}
