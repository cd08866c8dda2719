//! Instructions 16 to 23.

ghost use Rattle.std.specs.Prelude.{◌≤◌, ◌<◌};
ghost use Rattle.instruction_reading.specs.Reading.{group2_at};
ghost use Rattle.instruction_reading.specs.Answers.{FilledHead};

use crate::holding::fill_buy_execution;
use crate::inside::put;
use crate::programs::{fill_set_appendix, fill_set_error_handler};
use crate::queries::fill_report_holding;
use crate::transfers::{fill_initiate_reserve_withdraw, fill_initiate_teleport};
use asset_wire::{Version, WireFault};
use scale_codec::Cursor;
use std::alloc::Global;
use xcm_program::Instruction;

/// The fields after the number, and an empty program inside, into the slot for the instruction.
#[tactic(auto, unfolding(crate::specs::Reading::group2_at))]
pub(crate) fn fill_group2(
    alloc: Global,
    c: &mut Cursor<'_>,
    v: Version,
    index: u8,
    slot: &mut Instruction,
) -> Result<(), WireFault>
    requires low { 16 ≤ index }
    requires high { index < 24 }
    ensures { FilledHead result (group2_at v index c.old) slot.new c.new }
{
    match index {
        16 => fill_initiate_reserve_withdraw(alloc, c, v, slot),
        17 => fill_initiate_teleport(alloc, c, v, slot),
        18 => fill_report_holding(alloc, c, v, slot),
        19 => fill_buy_execution(alloc, c, v, slot),
        20 => {
            put(slot, Instruction::RefundSurplus);
            Ok(())
        }
        21 => fill_set_error_handler(alloc, c, slot),
        22 => fill_set_appendix(alloc, c, slot),
        23 => {
            put(slot, Instruction::ClearError);
            Ok(())
        }
        _ => unreachable!(),
    }
}
