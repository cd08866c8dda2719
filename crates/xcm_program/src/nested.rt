//! The programs inside instructions.

ghost use Rattle.std.specs.Prelude.{◌≡◌};
ghost use Rattle.std.specs.Option.{option_copied};
ghost use Rattle.xcm_program.specs.declared.instruction.Instruction.{out-Instruction};
ghost use Rattle.xcm_program.specs.Measure.{inner_of, with_inner};
ghost use Rattle.xcm_program.specs.Weights.{kept};

use crate::instruction::{Instruction, Program};

/// The program inside an instruction.
pub fn inner(instruction: &Instruction) -> Option<&Program>
    ensures { option_copied result ≡ inner_of instruction.now }
{
    match instruction {
        Instruction::TransferReserveAsset { xcm, .. }
        | Instruction::DepositReserveAsset { xcm, .. }
        | Instruction::InitiateReserveWithdraw { xcm, .. }
        | Instruction::InitiateTeleport { xcm, .. }
        | Instruction::SetErrorHandler { xcm }
        | Instruction::SetAppendix { xcm }
        | Instruction::ExportMessage { xcm, .. } => Some(xcm),
        _ => None,
    }
}

/// The program inside that may run after this one on the same chain: the handler or the appendix that the instruction sets.
pub fn kept(instruction: &Instruction) -> Option<&Program>
    ensures { option_copied result ≡ kept (out-Instruction instruction.now) }
{
    match instruction {
        Instruction::SetErrorHandler { xcm } | Instruction::SetAppendix { xcm } => Some(xcm),
        _ => None,
    }
}

/// Puts another program inside the instruction where it has one, and drops the one before.
pub fn set_program(instruction: &mut Instruction, program: Program)
    ensures { out-Instruction instruction.new
        ≡ with_inner (out-Instruction instruction.old) program }
{
    match instruction {
        Instruction::TransferReserveAsset { xcm, .. } => *xcm = program,
        Instruction::DepositReserveAsset { xcm, .. } => *xcm = program,
        Instruction::InitiateReserveWithdraw { xcm, .. } => *xcm = program,
        Instruction::InitiateTeleport { xcm, .. } => *xcm = program,
        Instruction::SetErrorHandler { xcm } => *xcm = program,
        Instruction::SetAppendix { xcm } => *xcm = program,
        Instruction::ExportMessage { xcm, .. } => *xcm = program,
        _ => {}
    }
}
