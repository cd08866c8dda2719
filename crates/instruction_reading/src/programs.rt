//! Instructions about the run of the program. Each puts the fields after the number, in their order, into the slot for the instruction.

ghost use Rattle.std.specs.Prelude.{◌^◌, []};
ghost use Rattle.scale_codec.specs.Reading.{below_at, take_at, flag_at, pure_reader, made1, made3};
ghost use Rattle.xcm_format.specs.Reading.{weight_at, origin_kind_at, bytes_at};
ghost use Rattle.xcm_program.specs.declared.instruction.Instruction.TheOpen.{Instruction-F};
ghost use Rattle.instruction_reading.specs.Answers.{FilledHead};

use crate::inside::{nothing_inside, put};
use asset_wire::WireFault;
use scale_codec::Cursor;
use std::alloc::Global;
use xcm_format::{take_bytes, take_origin_kind, take_weight};
use xcm_program::Instruction;

/// The right, the most weight, and the call.
pub(crate) fn fill_transact(
    alloc: Global,
    c: &mut Cursor<'_>,
    slot: &mut Instruction,
) -> Result<(), WireFault>
    ensures { FilledHead result (made3 origin_kind_at weight_at (bytes_at 4294967295)
        Instruction-F.Transact c.old) slot.new c.new }
{
    let origin_kind = take_origin_kind(c)?;
    let require_weight_at_most = take_weight(c)?;
    let call = take_bytes(alloc, c)?;
    put(
        slot,
        Instruction::Transact {
            origin_kind,
            require_weight_at_most,
            call,
        },
    );
    Ok(())
}

/// The code.
pub(crate) fn fill_trap(c: &mut Cursor<'_>, slot: &mut Instruction) -> Result<(), WireFault>
    ensures { FilledHead result (made1 (below_at (2 ^ 64)) Instruction-F.Trap c.old) slot.new
        c.new }
{
    let code = c.compact_u64()?;
    put(slot, Instruction::Trap { code });
    Ok(())
}

/// No field before the program.
pub(crate) fn fill_set_error_handler(
    alloc: Global,
    c: &mut Cursor<'_>,
    slot: &mut Instruction,
) -> Result<(), WireFault>
    ensures { FilledHead result (pure_reader (Instruction-F.SetErrorHandler []) c.old) slot.new
        c.new }
{
    let xcm = nothing_inside(alloc);
    put(slot, Instruction::SetErrorHandler { xcm });
    Ok(())
}

/// No field before the program.
pub(crate) fn fill_set_appendix(
    alloc: Global,
    c: &mut Cursor<'_>,
    slot: &mut Instruction,
) -> Result<(), WireFault>
    ensures { FilledHead result (pure_reader (Instruction-F.SetAppendix []) c.old) slot.new c.new }
{
    let xcm = nothing_inside(alloc);
    put(slot, Instruction::SetAppendix { xcm });
    Ok(())
}

/// Whether fees come from the account of the origin.
pub(crate) fn fill_set_fees_mode(
    c: &mut Cursor<'_>,
    slot: &mut Instruction,
) -> Result<(), WireFault>
    ensures { FilledHead result (made1 flag_at Instruction-F.SetFeesMode c.old) slot.new c.new }
{
    let jit_withdraw = c.flag()?;
    put(slot, Instruction::SetFeesMode { jit_withdraw });
    Ok(())
}

/// The topic.
pub(crate) fn fill_set_topic(c: &mut Cursor<'_>, slot: &mut Instruction) -> Result<(), WireFault>
    ensures { FilledHead result (made1 (take_at 32) Instruction-F.SetTopic c.old) slot.new c.new }
{
    let topic = c.take_array()?;
    put(slot, Instruction::SetTopic { topic });
    Ok(())
}
