//! The instruction by its index.

ghost use Rattle.std.specs.Prelude.{◌≡◌};
ghost use Rattle.instruction_reading.specs.Reading.{head_at};
ghost use Rattle.instruction_reading.specs.Answers.{FilledHead};

use crate::group0::fill_group0;
use crate::group1::fill_group1;
use crate::group2::fill_group2;
use crate::group3::fill_group3;
use crate::group4::fill_group4;
use crate::group5::fill_group5;
use asset_wire::{Version, WireFault};
use scale_codec::Cursor;
use std::alloc::Global;
use xcm_program::Instruction;

/// Reads the instruction at the front of what is left, up to the program inside, into a slot for it. Nothing is said of the slot and
/// the cursor after a refusal.
#[tactic(auto, unfolding(crate::specs::Reading::head_at, crate::specs::Reading::form_at))]
pub fn fill_head(
    alloc: Global,
    c: &mut Cursor<'_>,
    v: Version,
    slot: &mut Instruction,
) -> Result<(), WireFault>
    ensures { FilledHead result (head_at v c.old) slot.new c.new }
{
    let index = c.u8()?;
    match index {
        0..=7 => fill_group0(alloc, c, v, index, slot),
        8..=15 => fill_group1(alloc, c, v, index, slot),
        16..=23 => fill_group2(alloc, c, v, index, slot),
        24..=31 => fill_group3(alloc, c, v, index, slot),
        32..=39 => fill_group4(alloc, c, v, index, slot),
        40..=47 => fill_group5(alloc, c, v, index, slot),
        _ => Err(WireFault::NoSpelling),
    }
}
