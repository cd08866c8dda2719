//! Reads of programs.

ghost use Rattle.std.specs.Prelude.{◌≡◌};
ghost use Rattle.xcm_format.specs.Programs.{program_spelling};
ghost use Rattle.xcm_format.specs.Messages.{IsReadable};
ghost use Rattle.versioned_xcm.specs.Programs.{instruction_at, program_at, readable_at};
ghost use Rattle.scale_codec.specs.Answers.{GivesOrFails, GotOrFails, GotWith, IsReadOrFails};

use asset_wire::WireFault;
use instruction_reading::fill_head;
use scale_codec::Cursor;
use std::alloc::Global;
use xcm_format::Version;
use xcm_program::{Instruction, Program, inner, set_program};

/// The most levels of nested programs. This project's own rule.
pub const MAX_DEPTH: u32 = 8;

/// The most instructions of a program, those of nested programs counted. This project's own rule.
pub const MAX_INSTRUCTIONS: u32 = 100;

/// An instruction into its slot, and how many there may still be.
#[cycle(program)]
#[tactic(auto, unfolding(crate::specs::Programs::instruction_at))]
fn fill_instruction(
    alloc: Global,
    c: &mut Cursor<'_>,
    v: Version,
    depth: u32,
    left: u32,
    slot: &mut Instruction,
) -> Result<u32, WireFault>
    ensures { GotWith (λ after. (slot.new, (after, c.new))) result
        (instruction_at v (program_at v depth) left c.old) }
{
    if left == 0 {
        return Err(WireFault::NoSpelling);
    }
    fill_head(alloc, c, v, slot)?;
    if inner(slot).is_none() {
        return Ok(left - 1);
    }
    let (xcm, after) = take_to_depth(alloc, c, v, depth, left - 1)?;
    set_program(slot, xcm);
    Ok(after)
}

/// A program to a depth, and how many instructions there may still be. Each instruction is read where it is in the list; memory is taken
/// once, for no more of them than there may still be.
#[cycle(program)]
fn take_to_depth(
    alloc: Global,
    c: &mut Cursor<'_>,
    v: Version,
    depth: u32,
    most: u32,
) -> Result<(Program, u32), WireFault>
    ensures { GotWith (λ x. (x.0, (x.1, c.new))) result (program_at v depth most c.old) }
{
    if depth == 0 {
        return Err(WireFault::NoSpelling);
    }
    let count = c.compact_u32()?;
    let mut items = Vec::with_capacity(alloc, count.min(most) as usize)?;
    let mut left = most;
    for _ in 0..count {
        if left == 0 {
            return Err(WireFault::NoSpelling);
        }
        let last = items.len();
        items.push_reserved(Instruction::ClearOrigin);
        left = fill_instruction(alloc, c, v, depth - 1, left, &mut items[last])?;
    }
    Ok((Program::from_vec(items), left))
}

/// As `read_program`, with nothing said of the cursor after a refusal.
fn take_program(alloc: Global, c: &mut Cursor<'_>, v: Version) -> Result<Program, WireFault>
    ensures { GotOrFails (λ program. program) result (readable_at v c.old) c.new }
{
    let (program, _) = take_to_depth(alloc, c, v, MAX_DEPTH, MAX_INSTRUCTIONS)?;
    Ok(program)
}

/// The program at the front of what is left, as the version spells it. `NoSpelling` comes exactly where no prefix spells a program
/// with at most 100 instructions, nested ones counted, and at most 8 levels. After a refusal the cursor is where it was.
pub fn read_program(alloc: Global, c: &mut Cursor<'_>, v: Version) -> Result<Program, WireFault>
    ensures read { GivesOrFails result (readable_at v c.old) c.old c.new }
    ensures spelling { IsReadOrFails (program_spelling v) (IsReadable v) result c.old c.new }
{
    let start = c.rest();
    let read = take_program(alloc, c, v);
    c.settle(start, read)
}
