//! Instructions 0 to 7.

ghost use Rattle.std.specs.Prelude.{◌≡◌, ◌<◌};
ghost use Rattle.scale_codec.specs.Answers.{Appends};
ghost use Rattle.xcm_program.specs.declared.instruction.Instruction.{Instruction, out-Instruction};
ghost use Rattle.xcm_program.specs.Indices.{index};
ghost use Rattle.xcm_format.specs.Programs.{FitsHead};
ghost use Rattle.xcm_format.specs.Writable.{IsNamedHead};
ghost use Rattle.instruction_writing.specs.Fields.{instruction_fields};

use crate::several::{put_assets_for, put_numbers};
use asset_wire::{Version, put_assets};
use scale_codec::Draft;
use std::alloc::AllocError;
use xcm_format::{put_bytes, put_optional_location, put_origin_kind, put_response, put_weight};
use xcm_program::Instruction;

/// What follows the index, up to the program inside.
#[tactic(auto, unfolding(xcm_format::specs::Programs::head))]
pub(crate) fn put_group0(o: &mut Draft, i: &Instruction, v: Version) -> Result<(), AllocError>
    requires high { index (out-Instruction i.now) < 8 }
    requires named { IsNamedHead v Instruction (out-Instruction i.now) }
    ensures { Appends result o.old o.new (instruction_fields v (out-Instruction i.now))
        (FitsHead v (out-Instruction i.now)) }
{
    match i {
        Instruction::WithdrawAsset { assets }
        | Instruction::ReserveAssetDeposited { assets }
        | Instruction::ReceiveTeleportedAsset { assets } => put_assets(o, assets, v),
        Instruction::QueryResponse {
            query_id,
            response,
            max_weight,
            querier,
        } => {
            o.put_compact(u128::from(*query_id))?;
            put_response(o, response, v)?;
            put_weight(o, max_weight)?;
            put_optional_location(o, querier.value())
        }
        Instruction::TransferAsset {
            assets,
            beneficiary,
        } => put_assets_for(o, assets, beneficiary.value(), v),
        Instruction::TransferReserveAsset { assets, dest, .. } => put_assets_for(
            o,
            assets,
            dest.value(),
            v,
        ),
        Instruction::Transact {
            origin_kind,
            require_weight_at_most,
            call,
        } => {
            put_origin_kind(o, origin_kind)?;
            put_weight(o, require_weight_at_most)?;
            put_bytes(o, call)
        }
        Instruction::HrmpNewChannelOpenRequest {
            sender,
            max_message_size,
            max_capacity,
        } => put_numbers(o, *sender, *max_message_size, *max_capacity),
        _ => unreachable!(),
    }
}
