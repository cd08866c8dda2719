//! What holds of all instructions: a law, as the contract of a function that does nothing.
ghost use Rattle.std.specs.Prelude.{◌≡◌, Some, None, IsTrue};
ghost use Rattle.operands.specs.declared.error.XcmError.TheVariants.{BadOrigin};
ghost use Rattle.xcm_program.specs.declared.instruction.Instruction.{Instruction, out-Instruction};
ghost use Rattle.exec_rules.specs.Machine.{Machine};
ghost use Rattle.exec_rules.specs.Origins.{needs_origin};
ghost use Rattle.exec_rules.specs.Instructions.{refusal_of};

/// Seventeen instructions are refused by BadOrigin where the origin register is empty, whatever else would refuse them.
pub fn law_of_origins()
    ensures empty { (x : Instruction) (m : Machine) → IsTrue (needs_origin (out-Instruction x))
        → m.regs.origin ≡ None → refusal_of x m ≡ Some BadOrigin }
{}
