//! Instructions 0 to 7.

ghost use Rattle.std.specs.Prelude.{◌<◌};
ghost use Rattle.instruction_reading.specs.Reading.{group0_at};
ghost use Rattle.instruction_reading.specs.Answers.{FilledHead};

use crate::channels::fill_hrmp_new_channel_open_request;
use crate::holding::{
    fill_receive_teleported_asset, fill_reserve_asset_deposited, fill_withdraw_asset,
};
use crate::programs::fill_transact;
use crate::queries::fill_query_response;
use crate::transfers::{fill_transfer_asset, fill_transfer_reserve_asset};
use asset_wire::{Version, WireFault};
use scale_codec::Cursor;
use std::alloc::Global;
use xcm_program::Instruction;

/// The fields after the number, and an empty program inside, into the slot for the instruction.
#[tactic(auto, unfolding(crate::specs::Reading::group0_at))]
pub(crate) fn fill_group0(
    alloc: Global,
    c: &mut Cursor<'_>,
    v: Version,
    index: u8,
    slot: &mut Instruction,
) -> Result<(), WireFault>
    requires { index < 8 }
    ensures { FilledHead result (group0_at v index c.old) slot.new c.new }
{
    match index {
        0 => fill_withdraw_asset(alloc, c, v, slot),
        1 => fill_reserve_asset_deposited(alloc, c, v, slot),
        2 => fill_receive_teleported_asset(alloc, c, v, slot),
        3 => fill_query_response(alloc, c, v, slot),
        4 => fill_transfer_asset(alloc, c, v, slot),
        5 => fill_transfer_reserve_asset(alloc, c, v, slot),
        6 => fill_transact(alloc, c, slot),
        7 => fill_hrmp_new_channel_open_request(c, slot),
        _ => unreachable!(),
    }
}
