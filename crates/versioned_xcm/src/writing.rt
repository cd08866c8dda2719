//! Writes of programs: each appends the one spelling.

ghost use Rattle.std.specs.Prelude.{◌<◌, ◌^◌};
ghost use Rattle.scale_codec.specs.Answers.{Puts, IsWritten};
ghost use Rattle.xcm_program.specs.Measure.{deep_count_one};
ghost use Rattle.xcm_format.specs.Programs.{instruction_spelling, FitsInstruction, program_spelling, FitsProgram};
ghost use Rattle.xcm_program.specs.Conversions.{HasAmounts};
ghost use Rattle.xcm_format.specs.Writable.{IsNamedOne, IsWritable};

use instruction_writing::put_head;
use scale_codec::{Draft, Out};
use std::alloc::AllocError;
use xcm_format::Version;
use xcm_program::{Instruction, Program, inner};

/// As `write_instruction`, into a draft: the head, and the program inside after it.
#[cycle(written)]
pub(crate) fn put_instruction(o: &mut Draft, i: &Instruction, v: Version) -> Result<(), AllocError>
    requires few { deep_count_one i.now < 2 ^ 32 }
    requires named { IsNamedOne v i.now }
    requires amounts { HasAmounts i.now }
    ensures { Puts (instruction_spelling v) (FitsInstruction v) i.now result o.old o.new }
{
    put_head(o, i, v)?;
    match inner(i) {
        Some(xcm) => put_program(o, xcm, v),
        None => Ok(()),
    }
}

/// As `write_program`, into a draft: how many instructions, and these.
#[cycle(written)]
pub(crate) fn put_program(o: &mut Draft, p: &Program, v: Version) -> Result<(), AllocError>
    requires { IsWritable v p.now }
    ensures { Puts (program_spelling v) (FitsProgram v) p.now result o.old o.new }
{
    let items = p.items();
    o.put_compact(items.len() as u128)?;
    for i in items {
        put_instruction(o, i, v)?;
    }
    Ok(())
}

/// Appends the one spelling of the instruction in the version, with the program inside. The version must have one: it can say each
/// asset id, and no amount is 0; and there are fewer than 2^32 instructions. Where memory is refused, `o` is as before.
pub fn write_instruction(o: &mut Out, i: &Instruction, v: Version) -> Result<(), AllocError>
    requires few { deep_count_one i.now < 2 ^ 32 }
    requires named { IsNamedOne v i.now }
    requires amounts { HasAmounts i.now }
    ensures { IsWritten (instruction_spelling v) (FitsInstruction v) i.now result o.old o.new }
{
    let mut draft = o.draft();
    let written = put_instruction(&mut draft, i, v);
    o.settle(draft, written)
}

/// Appends the one spelling of the program in the version. The version must have one: it can say each asset id, and no amount is 0;
/// and there are fewer than 2^32 instructions. Where memory is refused, `o` is as before.
pub fn write_program(o: &mut Out, p: &Program, v: Version) -> Result<(), AllocError>
    requires { IsWritable v p.now }
    ensures { IsWritten (program_spelling v) (FitsProgram v) p.now result o.old o.new }
{
    let mut draft = o.draft();
    let written = put_program(&mut draft, p, v);
    o.settle(draft, written)
}
