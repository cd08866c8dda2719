//! Instructions 16 to 23.

ghost use Rattle.std.specs.Prelude.{◌≡◌, ◌≤◌, ◌<◌};
ghost use Rattle.scale_codec.specs.Answers.{Appends};
ghost use Rattle.xcm_program.specs.declared.instruction.Instruction.{Instruction, out-Instruction};
ghost use Rattle.xcm_program.specs.Indices.{index};
ghost use Rattle.xcm_format.specs.Programs.{FitsHead};
ghost use Rattle.xcm_program.specs.Conversions.{HasAmount};
ghost use Rattle.xcm_format.specs.Writable.{IsNamedHead};
ghost use Rattle.instruction_writing.specs.Fields.{instruction_fields};

use crate::several::put_filter_for;
use asset_wire::{Version, put_asset, put_filter};
use scale_codec::Draft;
use std::alloc::AllocError;
use xcm_format::{put_query_info, put_weight_limit};
use xcm_program::Instruction;

/// What follows the index, up to the program inside.
#[tactic(auto, unfolding(xcm_format::specs::Programs::head))]
pub(crate) fn put_group2(o: &mut Draft, i: &Instruction, v: Version) -> Result<(), AllocError>
    requires low { 16 ≤ index (out-Instruction i.now) }
    requires high { index (out-Instruction i.now) < 24 }
    requires named { IsNamedHead v Instruction (out-Instruction i.now) }
    requires amount { HasAmount Instruction (out-Instruction i.now) }
    ensures { Appends result o.old o.new (instruction_fields v (out-Instruction i.now))
        (FitsHead v (out-Instruction i.now)) }
{
    match i {
        Instruction::InitiateReserveWithdraw {
            assets,
            reserve,
            ..
        } => put_filter_for(o, assets, reserve.value(), v),
        Instruction::InitiateTeleport { assets, dest, .. } => put_filter_for(
            o,
            assets,
            dest.value(),
            v,
        ),
        Instruction::ReportHolding { info, assets } => {
            put_query_info(o, info.value())?;
            put_filter(o, assets, v)
        }
        Instruction::BuyExecution { fees, limit } => {
            put_asset(o, fees.value(), v)?;
            put_weight_limit(o, limit)
        }
        Instruction::RefundSurplus
        | Instruction::SetErrorHandler { .. }
        | Instruction::SetAppendix { .. }
        | Instruction::ClearError => Ok(()),
        _ => unreachable!(),
    }
}
