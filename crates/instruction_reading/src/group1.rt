//! Instructions 8 to 15.

ghost use Rattle.std.specs.Prelude.{◌≤◌, ◌<◌};
ghost use Rattle.instruction_reading.specs.Reading.{group1_at};
ghost use Rattle.instruction_reading.specs.Answers.{FilledHead};

use crate::channels::{fill_hrmp_channel_accepted, fill_hrmp_channel_closing};
use crate::holding::fill_exchange_asset;
use crate::inside::put;
use crate::origin::fill_descend_origin;
use crate::queries::fill_report_error;
use crate::transfers::{fill_deposit_asset, fill_deposit_reserve_asset};
use asset_wire::{Version, WireFault};
use scale_codec::Cursor;
use std::alloc::Global;
use xcm_program::Instruction;

/// The fields after the number, and an empty program inside, into the slot for the instruction.
#[tactic(auto, unfolding(crate::specs::Reading::group1_at))]
pub(crate) fn fill_group1(
    alloc: Global,
    c: &mut Cursor<'_>,
    v: Version,
    index: u8,
    slot: &mut Instruction,
) -> Result<(), WireFault>
    requires low { 8 ≤ index }
    requires high { index < 16 }
    ensures { FilledHead result (group1_at v index c.old) slot.new c.new }
{
    match index {
        8 => fill_hrmp_channel_accepted(c, slot),
        9 => fill_hrmp_channel_closing(c, slot),
        10 => {
            put(slot, Instruction::ClearOrigin);
            Ok(())
        }
        11 => fill_descend_origin(alloc, c, slot),
        12 => fill_report_error(alloc, c, slot),
        13 => fill_deposit_asset(alloc, c, v, slot),
        14 => fill_deposit_reserve_asset(alloc, c, v, slot),
        15 => fill_exchange_asset(alloc, c, v, slot),
        _ => unreachable!(),
    }
}
