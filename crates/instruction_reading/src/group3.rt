//! Instructions 24 to 31.

ghost use Rattle.std.specs.Prelude.{◌≤◌, ◌<◌};
ghost use Rattle.instruction_reading.specs.Reading.{group3_at};
ghost use Rattle.instruction_reading.specs.Answers.{FilledHead};

use crate::expectations::{fill_expect_asset, fill_expect_error};
use crate::holding::{fill_burn_asset, fill_claim_asset};
use crate::inside::put;
use crate::origin::fill_expect_origin;
use crate::programs::fill_trap;
use crate::queries::fill_subscribe_version;
use asset_wire::{Version, WireFault};
use scale_codec::Cursor;
use std::alloc::Global;
use xcm_program::Instruction;

/// The fields after the number, and an empty program inside, into the slot for the instruction.
#[tactic(auto, unfolding(crate::specs::Reading::group3_at))]
pub(crate) fn fill_group3(
    alloc: Global,
    c: &mut Cursor<'_>,
    v: Version,
    index: u8,
    slot: &mut Instruction,
) -> Result<(), WireFault>
    requires low { 24 ≤ index }
    requires high { index < 32 }
    ensures { FilledHead result (group3_at v index c.old) slot.new c.new }
{
    match index {
        24 => fill_claim_asset(alloc, c, v, slot),
        25 => fill_trap(c, slot),
        26 => fill_subscribe_version(c, slot),
        27 => {
            put(slot, Instruction::UnsubscribeVersion);
            Ok(())
        }
        28 => fill_burn_asset(alloc, c, v, slot),
        29 => fill_expect_asset(alloc, c, v, slot),
        30 => fill_expect_origin(alloc, c, slot),
        31 => fill_expect_error(c, slot),
        _ => unreachable!(),
    }
}
