//! Instructions 32 to 39.

ghost use Rattle.std.specs.Prelude.{◌≤◌, ◌<◌};
ghost use Rattle.instruction_reading.specs.Reading.{group4_at};
ghost use Rattle.instruction_reading.specs.Answers.{FilledHead};

use crate::expectations::{fill_expect_pallet, fill_expect_transact_status};
use crate::inside::put;
use crate::locks::fill_lock_asset;
use crate::origin::{fill_export_message, fill_universal_origin};
use crate::queries::{fill_query_pallet, fill_report_transact_status};
use asset_wire::{Version, WireFault};
use scale_codec::Cursor;
use std::alloc::Global;
use xcm_program::Instruction;

/// The fields after the number, and an empty program inside, into the slot for the instruction.
#[tactic(auto, unfolding(crate::specs::Reading::group4_at))]
pub(crate) fn fill_group4(
    alloc: Global,
    c: &mut Cursor<'_>,
    v: Version,
    index: u8,
    slot: &mut Instruction,
) -> Result<(), WireFault>
    requires low { 32 ≤ index }
    requires high { index < 40 }
    ensures { FilledHead result (group4_at v index c.old) slot.new c.new }
{
    match index {
        32 => fill_expect_transact_status(alloc, c, slot),
        33 => fill_query_pallet(alloc, c, slot),
        34 => fill_expect_pallet(alloc, c, slot),
        35 => fill_report_transact_status(alloc, c, slot),
        36 => {
            put(slot, Instruction::ClearTransactStatus);
            Ok(())
        }
        37 => fill_universal_origin(c, slot),
        38 => fill_export_message(alloc, c, slot),
        39 => fill_lock_asset(alloc, c, v, slot),
        _ => unreachable!(),
    }
}
