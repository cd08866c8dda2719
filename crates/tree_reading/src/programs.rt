//! Instructions and programs.

ghost use Rattle.std.specs.Prelude.{◌≡◌, ◌<◌, ◌≤◌, ◌+◌, ◌*◌, ◌^◌, ◌++◌, List, ℕ, length, map, OnOk};
ghost use Rattle.std.specs.List.{AllByRecursion};
ghost use Rattle.xcm_program.specs.declared.instruction.Instruction.{Instruction};
ghost use Rattle.xcm_program.specs.declared.instruction.Instruction.TheOpen.{Instruction-F};
ghost use Rattle.xcm_program.specs.Measure.{deep_count_one, deep_count, depth_one, depth, greatest};
ghost use Rattle.xcm_program.specs.Texts.{instruction_name};
ghost use Rattle.xcm_format.specs.Programs.{instruction_spelling, program_spelling};
ghost use Rattle.message_text.specs.Lines.{line};
ghost use Rattle.message_text.specs.Messages.{own_fields, instruction_text, program_text};
ghost use Rattle.tree_reading.specs.Rows.{IsOutside};
ghost use Rattle.tree_reading.specs.Took.{Took};
ghost use Rattle.tree_reading.specs.Programs.{HasTree, HasRows, HasHead, TookHead, TookCounted, TookInstructions};

use crate::expected::{Expected, TreeFault};
use crate::fields::{put_fields, take_name};
use crate::lists::Form;
use crate::rows::Rows;
use crate::table::{fields_at, index_of_name, is_nesting};
use scale_codec::Out;

/// Appends an instruction up to the program inside, and tells whether there is one.
fn put_head(form: Form, rows: &mut Rows<'_>, out: &mut Out, level: usize) -> Result<bool, TreeFault>
    requires { level < 63 }
    ensures reads { (layer : Instruction-F Instruction) (rest : List ℕ)
        → HasHead form.version layer → IsOutside (level + 2) rest
        → rows.old.rest.now
        ≡ line level (instruction_name layer) ++ (own_fields (level + 1) layer ++ rest)
        → TookHead form.version layer rest result rows.new.rest.now out.old out.new }
    ensures shorter { OnOk result (length rows.new.rest.now < length rows.old.rest.now) }
{
    let name = rows.take(level, Expected::Instruction)?;
    let Some(index) = index_of_name(name) else {
        return Err(rows.wrong(Expected::Instruction));
    };
    out.put_u8(index)?;
    put_fields(form, rows, out, level + 1, fields_at(index))?;
    Ok(is_nesting(index))
}

/// Appends an instruction, and the program inside, which may have so many levels.
#[cycle(program)]
fn put_instruction(
    form: Form,
    rows: &mut Rows<'_>,
    out: &mut Out,
    left: &mut u32,
    level: usize,
    levels: u32,
) -> Result<(), TreeFault>
    requires { level + 2 * levels < 58 }
    ensures reads { (instruction : Instruction) (rest : List ℕ)
        → HasRows form.version instruction → deep_count_one instruction ≤ left.old
        → depth_one instruction ≤ levels → IsOutside (level + 1) rest
        → rows.old.rest.now ≡ instruction_text instruction level ++ rest
        → TookCounted rest (instruction_spelling form.version instruction)
        (deep_count_one instruction) result rows.new.rest.now out.old out.new left.old left.new }
    ensures shorter { OnOk result (length rows.new.rest.now < length rows.old.rest.now) }
{
    if *left == 0 {
        return Err(rows.missing(Expected::NoMore));
    }
    *left -= 1;
    let nests = put_head(form, rows, out, level)?;
    if !nests {
        return Ok(());
    }
    take_name(rows, level + 1, "xcm")?;
    put_program(form, rows, out, left, level + 2, levels)
}

/// Appends the instructions of a program, in each of which programs may have so many levels, and tells how many there are.
#[cycle(program)]
fn put_instructions(
    form: Form,
    rows: &mut Rows<'_>,
    out: &mut Out,
    left: &mut u32,
    level: usize,
    levels: u32,
) -> Result<u64, TreeFault>
    requires { level + 2 * levels < 58 }
    ensures reads { (program : List Instruction) (rest : List ℕ)
        → AllByRecursion (HasRows form.version) program → length program < 2 ^ 32
        → deep_count program ≤ left.old → greatest (map depth_one program) ≤ levels
        → IsOutside level rest → rows.old.rest.now ≡ program_text level program ++ rest
        → TookInstructions form.version program rest result rows.new.rest.now out.old out.new
        left.old left.new }
    ensures shorter { OnOk result (length rows.new.rest.now ≤ length rows.old.rest.now) }
{
    let mut count: u64 = 0;
    while rows.has_row(level) {
        match put_instruction(form, rows, out, left, level, levels) {
            Ok(()) => count = count.saturating_add(1),
            Err(stop) => return Err(stop),
        }
    }
    Ok(count)
}

/// Appends a program of at most so many levels: its instructions after their number.
#[cycle(program)]
pub(crate) fn put_program(
    form: Form,
    rows: &mut Rows<'_>,
    out: &mut Out,
    left: &mut u32,
    level: usize,
    levels: u32,
) -> Result<(), TreeFault>
    requires { level + 2 * levels < 60 }
    ensures reads { (program : List Instruction) (rest : List ℕ) → HasTree form.version program
        → deep_count program ≤ left.old → depth program ≤ levels → IsOutside level rest
        → rows.old.rest.now ≡ program_text level program ++ rest
        → Took rest (program_spelling form.version program) result rows.new.rest.now out.old out.new }
    ensures counts { (program : List Instruction) (rest : List ℕ) → HasTree form.version program
        → deep_count program ≤ left.old → depth program ≤ levels → IsOutside level rest
        → rows.old.rest.now ≡ program_text level program ++ rest
        → OnOk result (left.new + deep_count program ≡ left.old) }
    ensures shorter { OnOk result (length rows.new.rest.now ≤ length rows.old.rest.now) }
{
    if levels == 0 {
        return Err(rows.missing(Expected::NoDeeper));
    }
    let mut instructions = Out::new(form.alloc);
    let count = put_instructions(form, rows, &mut instructions, left, level, levels - 1)?;
    out.put_compact(u128::from(count))?;
    out.put_bytes(instructions.bytes())?;
    Ok(())
}
