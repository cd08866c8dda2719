//! Instructions about locks. Each puts the fields after the number, in their order, into the slot for the instruction.

ghost use Rattle.std.specs.Prelude.{◌≡◌};
ghost use Rattle.scale_codec.specs.Reading.{made2};
ghost use Rattle.location_wire.specs.Reading.{location_at};
ghost use Rattle.asset_wire.specs.Reading.{asset_at};
ghost use Rattle.xcm_program.specs.declared.instruction.Instruction.TheOpen.{Instruction-F};
ghost use Rattle.instruction_reading.specs.Answers.{FilledHead};

use crate::inside::{put, take_location, take_one_asset};
use asset_wire::{Version, WireFault};
use scale_codec::Cursor;
use std::alloc::Global;
use xcm_program::Instruction;

/// The asset, and who may unlock it.
pub(crate) fn fill_lock_asset(
    alloc: Global,
    c: &mut Cursor<'_>,
    v: Version,
    slot: &mut Instruction,
) -> Result<(), WireFault>
    ensures { FilledHead result (made2 (asset_at v) location_at Instruction-F.LockAsset c.old)
        slot.new c.new }
{
    let asset = take_one_asset(alloc, c, v)?;
    let unlocker = take_location(alloc, c)?;
    put(slot, Instruction::LockAsset { asset, unlocker });
    Ok(())
}

/// The asset, and whose it is.
pub(crate) fn fill_unlock_asset(
    alloc: Global,
    c: &mut Cursor<'_>,
    v: Version,
    slot: &mut Instruction,
) -> Result<(), WireFault>
    ensures { FilledHead result (made2 (asset_at v) location_at Instruction-F.UnlockAsset c.old)
        slot.new c.new }
{
    let asset = take_one_asset(alloc, c, v)?;
    let target = take_location(alloc, c)?;
    put(slot, Instruction::UnlockAsset { asset, target });
    Ok(())
}

/// The asset, and whose it is.
pub(crate) fn fill_note_unlockable(
    alloc: Global,
    c: &mut Cursor<'_>,
    v: Version,
    slot: &mut Instruction,
) -> Result<(), WireFault>
    ensures { FilledHead result (made2 (asset_at v) location_at Instruction-F.NoteUnlockable c.old)
        slot.new c.new }
{
    let asset = take_one_asset(alloc, c, v)?;
    let owner = take_location(alloc, c)?;
    put(slot, Instruction::NoteUnlockable { asset, owner });
    Ok(())
}

/// The asset, and where it is locked.
pub(crate) fn fill_request_unlock(
    alloc: Global,
    c: &mut Cursor<'_>,
    v: Version,
    slot: &mut Instruction,
) -> Result<(), WireFault>
    ensures { FilledHead result (made2 (asset_at v) location_at Instruction-F.RequestUnlock c.old)
        slot.new c.new }
{
    let asset = take_one_asset(alloc, c, v)?;
    let locker = take_location(alloc, c)?;
    put(slot, Instruction::RequestUnlock { asset, locker });
    Ok(())
}
