//! Instructions that fail where something is otherwise. Each puts the fields after the number, in their order, into the slot for the instruction.

ghost use Rattle.std.specs.Prelude.{◌^◌};
ghost use Rattle.scale_codec.specs.Reading.{below_at, made1, made5, optional_at};
ghost use Rattle.asset_wire.specs.Reading.{assets_at};
ghost use Rattle.xcm_format.specs.Reading.{failure_at, bytes_at, maybe_error_at};
ghost use Rattle.xcm_program.specs.declared.instruction.Instruction.TheOpen.{Instruction-F};
ghost use Rattle.instruction_reading.specs.Answers.{FilledHead};

use crate::inside::put;
use asset_wire::{Version, WireFault, take_assets};
use scale_codec::Cursor;
use std::alloc::Global;
use xcm_format::{take_bytes, take_maybe_error, take_optional_failure};
use xcm_program::Instruction;

/// Assets.
pub(crate) fn fill_expect_asset(
    alloc: Global,
    c: &mut Cursor<'_>,
    v: Version,
    slot: &mut Instruction,
) -> Result<(), WireFault>
    ensures { FilledHead result (made1 (assets_at v) Instruction-F.ExpectAsset c.old) slot.new
        c.new }
{
    let assets = take_assets(alloc, c, v)?;
    put(slot, Instruction::ExpectAsset { assets });
    Ok(())
}

/// The instruction and its error, or none.
pub(crate) fn fill_expect_error(c: &mut Cursor<'_>, slot: &mut Instruction) -> Result<(), WireFault>
    ensures { FilledHead result (made1 (optional_at failure_at) Instruction-F.ExpectError c.old)
        slot.new c.new }
{
    let error = take_optional_failure(c)?;
    put(slot, Instruction::ExpectError { error });
    Ok(())
}

/// The status.
pub(crate) fn fill_expect_transact_status(
    alloc: Global,
    c: &mut Cursor<'_>,
    slot: &mut Instruction,
) -> Result<(), WireFault>
    ensures { FilledHead result (made1 maybe_error_at Instruction-F.ExpectTransactStatus c.old)
        slot.new c.new }
{
    let status = take_maybe_error(alloc, c)?;
    put(slot, Instruction::ExpectTransactStatus { status });
    Ok(())
}

/// The index, both names and the version of the pallet.
pub(crate) fn fill_expect_pallet(
    alloc: Global,
    c: &mut Cursor<'_>,
    slot: &mut Instruction,
) -> Result<(), WireFault>
    ensures { FilledHead result (made5 (below_at (2 ^ 32)) (bytes_at 4294967295)
        (bytes_at 4294967295) (below_at (2 ^ 32)) (below_at (2 ^ 32)) Instruction-F.ExpectPallet
        c.old) slot.new c.new }
{
    let index = c.compact_u32()?;
    let name = take_bytes(alloc, c)?;
    let module_name = take_bytes(alloc, c)?;
    let crate_major = c.compact_u32()?;
    let min_crate_minor = c.compact_u32()?;
    put(
        slot,
        Instruction::ExpectPallet {
            index,
            name,
            module_name,
            crate_major,
            min_crate_minor,
        },
    );
    Ok(())
}
