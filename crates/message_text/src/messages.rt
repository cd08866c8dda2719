//! Programs.
ghost use Rattle.std.specs.Prelude.{◌≡◌, ◌++◌, ◌+◌, ◌*◌, ◌<◌, ◌^◌, IfOk, OnOk, string_bytes};
ghost use Rattle.xcm_program.specs.Measure.{deep_count_one, deep_count};
ghost use Rattle.message_text.specs.Messages.{instruction_text, program_text};

use crate::lines::push_line;
use crate::names::{FieldName, name_text};
use crate::own::push_own;
use std::alloc::{AllocError, Global};
use xcm_program::{Instruction, Program, inner};

/// Appends an instruction: its name, its fields, and the program inside.
#[cycle(program)]
#[tactic(auto, using(crate::proofs::Lemmas::none_text, crate::proofs::Lemmas::some_text, xcm_program::proofs::Lemmas::counted_inside))]
fn push_instruction(
    alloc: Global,
    text: &mut String,
    level: u32,
    instruction: &Instruction,
) -> Result<(), AllocError>
    requires { level + 2 * deep_count_one instruction.now < 2 ^ 32 }
    ensures { OnOk result (string_bytes text.new
        ≡ string_bytes text.old ++ instruction_text instruction.now level) }
{
    push_line(text, level, instruction.name())?;
    push_own(alloc, text, level + 1, instruction)?;
    match inner(instruction) {
        Some(xcm) => {
            push_line(text, level + 1, name_text(FieldName::Xcm))?;
            push_program(alloc, text, level + 2, xcm)
        }
        None => Ok(()),
    }
}

/// Appends the instructions of a program.
#[cycle(program)]
fn push_program(
    alloc: Global,
    text: &mut String,
    level: u32,
    program: &Program,
) -> Result<(), AllocError>
    requires { level + 2 * deep_count program.now < 2 ^ 32 }
    ensures { OnOk result (string_bytes text.new
        ≡ string_bytes text.old ++ program_text level program.now) }
{
    for instruction in program.items() {
        push_instruction(alloc, text, level, instruction)?;
    }
    Ok(())
}

/// A message as a tree: a line for each instruction with its name, one level (two spaces) deeper a line for each of its fields, and below
/// `xcm` the program inside. The first line is at this level. Locations, amounts and errors are written as in a report, bytes as
/// lower-case hex after `0x`, weights as ref_time in picoseconds and proof_size in bytes. An `Err` is out of memory.
pub fn message_text(alloc: Global, level: u32, program: &Program) -> Result<String, AllocError>
    requires { level + 2 * deep_count program.now < 2 ^ 32 }
    ensures { IfOk result (λ text. string_bytes text ≡ program_text level program.now) }
{
    let mut text = String::new(alloc);
    push_program(alloc, &mut text, level, program)?;
    Ok(text)
}
