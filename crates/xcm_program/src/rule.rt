//! How a chain weighs programs.

ghost use Rattle.std.specs.Prelude.{◌≡◌};
ghost use Rattle.xcm_program.specs.declared.instruction.Instruction.{out-Instruction};
ghost use Rattle.xcm_program.specs.Weights.{required};

use crate::instruction::Instruction;
use operands::Weight;

/// How a chain weighs programs. This project's own rule.
#[derive(Clone, Copy, Debug, PartialEq, Eq)]
pub struct WeightRule {
    /// What each instruction weighs.
    pub unit: Weight,
    /// The most instructions of a program that has a weight, those of handlers and appendices counted.
    pub max_instructions: u32,
}

/// The most that the call of an instruction may weigh, beside the instruction itself; no weight where it has no call.
pub fn required(instruction: &Instruction) -> Weight
    ensures { result ≡ required (out-Instruction instruction.now) }
{
    match instruction {
        Instruction::Transact {
            require_weight_at_most,
            ..
        } => *require_weight_at_most,
        _ => Weight::ZERO,
    }
}
