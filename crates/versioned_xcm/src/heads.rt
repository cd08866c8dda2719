//! One instruction as bytes, both ways, without the program inside.

ghost use Rattle.std.specs.Prelude.{◌≡◌, [], IfOk};
ghost use Rattle.scale_codec.specs.Answers.{GotOrFails, IsReadOrFails, IsWritten};
ghost use Rattle.xcm_program.specs.declared.instruction.Instruction.{Instruction, out-Instruction};
ghost use Rattle.xcm_program.specs.Measure.{with_inner};
ghost use Rattle.xcm_program.specs.Conversions.{HasAmount};
ghost use Rattle.xcm_format.specs.Programs.{head, FitsHead};
ghost use Rattle.xcm_format.specs.Writable.{IsNamedHead};
ghost use Rattle.instruction_reading.specs.Reading.{head_at};

use asset_wire::{Version, WireFault};
use instruction_reading::fill_head;
use instruction_writing::put_head;
use scale_codec::{Cursor, Out};
use std::alloc::{AllocError, Global};
use xcm_program::Instruction;

/// As `read_head`, with nothing said of the cursor after a refusal.
fn take_head(alloc: Global, c: &mut Cursor<'_>, v: Version) -> Result<Instruction, WireFault>
    ensures { GotOrFails (λ i. out-Instruction i) result (head_at v c.old) c.new }
{
    let mut instruction = Instruction::ClearOrigin;
    fill_head(alloc, c, v, &mut instruction)?;
    Ok(instruction)
}

/// The instruction at the front of what is left, as the version spells it, up to the program inside: that comes last, isn't read, and
/// is empty in what is returned. `NoSpelling` comes exactly where no prefix spells an instruction so far. After a refusal the cursor
/// is where it was.
pub fn read_head(alloc: Global, c: &mut Cursor<'_>, v: Version) -> Result<Instruction, WireFault>
    ensures read { GotOrFails (λ i. out-Instruction i) result (head_at v c.old) c.new }
    ensures spelling { IsReadOrFails (λ i. head v (out-Instruction i))
        (λ i. FitsHead v (out-Instruction i)) result c.old c.new }
    ensures empty { IfOk result (λ i. with_inner (out-Instruction i) [] ≡ out-Instruction i) }
{
    let start = c.rest();
    let read = take_head(alloc, c, v);
    c.settle(start, read)
}

/// Appends the one spelling of the instruction in the version, up to the program inside, which comes last. The version must have one:
/// it can say each asset id outside that program, and no amount is 0. Where memory is refused, `o` is as before.
pub fn write_head(o: &mut Out, i: &Instruction, v: Version) -> Result<(), AllocError>
    requires named { IsNamedHead v Instruction (out-Instruction i.now) }
    requires amount { HasAmount Instruction (out-Instruction i.now) }
    ensures { IsWritten (λ i. head v (out-Instruction i)) (λ i. FitsHead v (out-Instruction i))
        i.now result o.old o.new }
{
    let mut draft = o.draft();
    let written = put_head(&mut draft, i, v);
    o.settle(draft, written)
}
