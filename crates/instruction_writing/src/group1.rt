//! Instructions 8 to 15.

ghost use Rattle.std.specs.Prelude.{◌≡◌, ◌≤◌, ◌<◌};
ghost use Rattle.scale_codec.specs.Answers.{Appends};
ghost use Rattle.xcm_program.specs.declared.instruction.Instruction.{Instruction, out-Instruction};
ghost use Rattle.xcm_program.specs.Indices.{index};
ghost use Rattle.xcm_format.specs.Programs.{FitsHead};
ghost use Rattle.xcm_format.specs.Writable.{IsNamedHead};
ghost use Rattle.instruction_writing.specs.Fields.{instruction_fields};

use crate::several::{put_filter_for, put_flag, put_numbers};
use asset_wire::{Version, put_assets, put_filter};
use location_wire::put_junctions;
use scale_codec::Draft;
use std::alloc::AllocError;
use xcm_format::put_query_info;
use xcm_program::Instruction;

/// What follows the index, up to the program inside.
#[tactic(auto, unfolding(xcm_format::specs::Programs::head))]
pub(crate) fn put_group1(o: &mut Draft, i: &Instruction, v: Version) -> Result<(), AllocError>
    requires low { 8 ≤ index (out-Instruction i.now) }
    requires high { index (out-Instruction i.now) < 16 }
    requires named { IsNamedHead v Instruction (out-Instruction i.now) }
    ensures { Appends result o.old o.new (instruction_fields v (out-Instruction i.now))
        (FitsHead v (out-Instruction i.now)) }
{
    match i {
        Instruction::HrmpChannelAccepted { recipient } => o.put_compact(u128::from(*recipient)),
        Instruction::HrmpChannelClosing {
            initiator,
            sender,
            recipient,
        } => put_numbers(o, *initiator, *sender, *recipient),
        Instruction::ClearOrigin => Ok(()),
        Instruction::DescendOrigin { interior } => put_junctions(o, interior.value()),
        Instruction::ReportError { info } => put_query_info(o, info.value()),
        Instruction::DepositAsset {
            assets,
            beneficiary,
        } => put_filter_for(o, assets, beneficiary.value(), v),
        Instruction::DepositReserveAsset { assets, dest, .. } => put_filter_for(
            o,
            assets,
            dest.value(),
            v,
        ),
        Instruction::ExchangeAsset {
            give,
            want,
            maximal,
        } => {
            put_filter(o, give, v)?;
            put_assets(o, want, v)?;
            put_flag(o, *maximal)
        }
        _ => unreachable!(),
    }
}
