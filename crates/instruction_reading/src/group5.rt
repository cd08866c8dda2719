//! Instructions 40 to 47.

ghost use Rattle.std.specs.Prelude.{◌≤◌, ◌<◌};
ghost use Rattle.instruction_reading.specs.Reading.{group5_at};
ghost use Rattle.instruction_reading.specs.Answers.{FilledHead};

use crate::inside::put;
use crate::locks::{fill_note_unlockable, fill_request_unlock, fill_unlock_asset};
use crate::origin::{fill_alias_origin, fill_unpaid_execution};
use crate::programs::{fill_set_fees_mode, fill_set_topic};
use asset_wire::{Version, WireFault};
use scale_codec::Cursor;
use std::alloc::Global;
use xcm_program::Instruction;

/// The fields after the number, and an empty program inside, into the slot for the instruction.
#[tactic(auto, unfolding(crate::specs::Reading::group5_at))]
pub(crate) fn fill_group5(
    alloc: Global,
    c: &mut Cursor<'_>,
    v: Version,
    index: u8,
    slot: &mut Instruction,
) -> Result<(), WireFault>
    requires low { 40 ≤ index }
    requires high { index < 48 }
    ensures { FilledHead result (group5_at v index c.old) slot.new c.new }
{
    match index {
        40 => fill_unlock_asset(alloc, c, v, slot),
        41 => fill_note_unlockable(alloc, c, v, slot),
        42 => fill_request_unlock(alloc, c, v, slot),
        43 => fill_set_fees_mode(c, slot),
        44 => fill_set_topic(c, slot),
        45 => {
            put(slot, Instruction::ClearTopic);
            Ok(())
        }
        46 => fill_alias_origin(alloc, c, slot),
        47 => fill_unpaid_execution(alloc, c, slot),
        _ => unreachable!(),
    }
}
