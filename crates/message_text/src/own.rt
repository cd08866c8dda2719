//! The fields of an instruction, but for the program inside.
ghost use Rattle.std.specs.Prelude.{◌≡◌, ◌++◌, ◌+◌, ◌<◌, ◌^◌, OnOk, string_bytes};
ghost use Rattle.xcm_program.specs.declared.instruction.Instruction.{out-Instruction};
ghost use Rattle.message_text.specs.Messages.{own_fields};

use crate::group0::push_group0;
use crate::group1::push_group1;
use crate::group2::push_group2;
use crate::group3::push_group3;
use crate::group4::push_group4;
use crate::group5::push_group5;
use std::alloc::{AllocError, Global};
use xcm_program::Instruction;

/// Appends the fields, but for the program inside.
pub(crate) fn push_own(
    alloc: Global,
    text: &mut String,
    level: u32,
    instruction: &Instruction,
) -> Result<(), AllocError>
    requires { level + 1 < 2 ^ 32 }
    ensures { OnOk result (string_bytes text.new
        ≡ string_bytes text.old ++ own_fields level (out-Instruction instruction.now)) }
{
    let index = instruction.index();
    if index < 8 {
        push_group0(alloc, text, level, instruction)
    } else if index < 16 {
        push_group1(alloc, text, level, instruction)
    } else if index < 24 {
        push_group2(alloc, text, level, instruction)
    } else if index < 32 {
        push_group3(alloc, text, level, instruction)
    } else if index < 40 {
        push_group4(alloc, text, level, instruction)
    } else {
        push_group5(alloc, text, level, instruction)
    }
}
