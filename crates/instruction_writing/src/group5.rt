//! Instructions 40 to 47.

ghost use Rattle.std.specs.Prelude.{◌≡◌, ◌≤◌, ◌<◌};
ghost use Rattle.scale_codec.specs.Answers.{Appends};
ghost use Rattle.xcm_program.specs.declared.instruction.Instruction.{Instruction, out-Instruction};
ghost use Rattle.xcm_program.specs.Indices.{index};
ghost use Rattle.xcm_format.specs.Programs.{FitsHead};
ghost use Rattle.xcm_program.specs.Conversions.{HasAmount};
ghost use Rattle.xcm_format.specs.Writable.{IsNamedHead};
ghost use Rattle.instruction_writing.specs.Fields.{instruction_fields};

use crate::several::{put_asset_for, put_flag};
use asset_wire::Version;
use location_wire::put_location;
use scale_codec::Draft;
use std::alloc::AllocError;
use xcm_format::{put_optional_location, put_weight_limit};
use xcm_program::Instruction;

/// What follows the index, up to the program inside.
#[tactic(auto, unfolding(xcm_format::specs::Programs::head))]
pub(crate) fn put_group5(o: &mut Draft, i: &Instruction, v: Version) -> Result<(), AllocError>
    requires low { 40 ≤ index (out-Instruction i.now) }
    requires high { index (out-Instruction i.now) < 48 }
    requires named { IsNamedHead v Instruction (out-Instruction i.now) }
    requires amount { HasAmount Instruction (out-Instruction i.now) }
    ensures { Appends result o.old o.new (instruction_fields v (out-Instruction i.now))
        (FitsHead v (out-Instruction i.now)) }
{
    match i {
        Instruction::UnlockAsset { asset, target } => put_asset_for(
            o,
            asset.value(),
            target.value(),
            v,
        ),
        Instruction::NoteUnlockable { asset, owner } => put_asset_for(
            o,
            asset.value(),
            owner.value(),
            v,
        ),
        Instruction::RequestUnlock { asset, locker } => put_asset_for(
            o,
            asset.value(),
            locker.value(),
            v,
        ),
        Instruction::SetFeesMode { jit_withdraw } => put_flag(o, *jit_withdraw),
        Instruction::SetTopic { topic } => o.put_bytes(topic),
        Instruction::ClearTopic => Ok(()),
        Instruction::AliasOrigin { target } => put_location(o, target.value()),
        Instruction::UnpaidExecution {
            limit,
            check_origin,
        } => {
            put_weight_limit(o, limit)?;
            put_optional_location(o, check_origin.value())
        }
        _ => unreachable!(),
    }
}
