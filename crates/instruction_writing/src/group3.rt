//! Instructions 24 to 31.

ghost use Rattle.std.specs.Prelude.{◌≡◌, ◌≤◌, ◌<◌};
ghost use Rattle.scale_codec.specs.Answers.{Appends};
ghost use Rattle.xcm_program.specs.declared.instruction.Instruction.{Instruction, out-Instruction};
ghost use Rattle.xcm_program.specs.Indices.{index};
ghost use Rattle.xcm_format.specs.Programs.{FitsHead};
ghost use Rattle.xcm_format.specs.Writable.{IsNamedHead};
ghost use Rattle.instruction_writing.specs.Fields.{instruction_fields};

use crate::several::put_assets_for;
use asset_wire::{Version, put_assets};
use scale_codec::Draft;
use std::alloc::AllocError;
use xcm_format::{put_optional_failure, put_optional_location, put_weight};
use xcm_program::Instruction;

/// What follows the index, up to the program inside.
#[tactic(auto, unfolding(xcm_format::specs::Programs::head))]
pub(crate) fn put_group3(o: &mut Draft, i: &Instruction, v: Version) -> Result<(), AllocError>
    requires low { 24 ≤ index (out-Instruction i.now) }
    requires high { index (out-Instruction i.now) < 32 }
    requires named { IsNamedHead v Instruction (out-Instruction i.now) }
    ensures { Appends result o.old o.new (instruction_fields v (out-Instruction i.now))
        (FitsHead v (out-Instruction i.now)) }
{
    match i {
        Instruction::ClaimAsset { assets, ticket } => put_assets_for(o, assets, ticket.value(), v),
        Instruction::Trap { code } => o.put_compact(u128::from(*code)),
        Instruction::SubscribeVersion {
            query_id,
            max_response_weight,
        } => {
            o.put_compact(u128::from(*query_id))?;
            put_weight(o, max_response_weight)
        }
        Instruction::UnsubscribeVersion => Ok(()),
        Instruction::BurnAsset { assets } | Instruction::ExpectAsset { assets } => put_assets(
            o, assets, v,
        ),
        Instruction::ExpectOrigin { origin } => put_optional_location(o, origin.value()),
        Instruction::ExpectError { error } => put_optional_failure(o, error),
        _ => unreachable!(),
    }
}
