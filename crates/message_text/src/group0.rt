//! The fields of instructions 0 to 7.
ghost use Rattle.std.specs.Prelude.{◌≡◌, ◌++◌, ◌+◌, ◌<◌, ◌≤◌, ◌^◌, OnOk, string_bytes};
ghost use Rattle.xcm_program.specs.declared.instruction.Instruction.{out-Instruction};
ghost use Rattle.xcm_program.specs.Indices.{index};
ghost use Rattle.message_text.specs.Messages.{own_fields};

use crate::fields::{push_assets, push_bytes, push_number, push_place, push_weight};
use crate::lines::push_field;
use crate::names::FieldName;
use crate::queries::push_response;
use crate::several::push_assets_for;
use crate::words::origin_kind_text;
use std::alloc::{AllocError, Global};
use xcm_program::Instruction;

/// Appends the fields, but for the program inside.
#[tactic(auto, unfolding(crate::specs::Messages::own_fields))]
pub(crate) fn push_group0(
    alloc: Global,
    text: &mut String,
    level: u32,
    instruction: &Instruction,
) -> Result<(), AllocError>
    requires few { level + 1 < 2 ^ 32 }
    requires high { index (out-Instruction instruction.now) < 8 }
    ensures { OnOk result (string_bytes text.new
        ≡ string_bytes text.old ++ own_fields level (out-Instruction instruction.now)) }
{
    match instruction {
        Instruction::WithdrawAsset { assets }
        | Instruction::ReserveAssetDeposited { assets }
        | Instruction::ReceiveTeleportedAsset { assets } => {
            push_assets(alloc, text, level, FieldName::Assets, assets.items())
        }
        Instruction::QueryResponse {
            query_id,
            response,
            max_weight,
            querier,
        } => {
            push_number(alloc, text, level, FieldName::QueryId, *query_id)?;
            push_response(alloc, text, level, response)?;
            push_weight(alloc, text, level, FieldName::MaxWeight, *max_weight)?;
            push_place(alloc, text, level, FieldName::Querier, querier.value())
        }
        Instruction::TransferAsset {
            assets,
            beneficiary,
        } => push_assets_for(
            alloc,
            text,
            level,
            assets,
            FieldName::Beneficiary,
            beneficiary.value(),
        ),
        Instruction::TransferReserveAsset { assets, dest, .. } => {
            push_assets_for(alloc, text, level, assets, FieldName::Dest, dest.value())
        }
        Instruction::Transact {
            origin_kind,
            require_weight_at_most,
            call,
        } => {
            let kind = origin_kind_text(*origin_kind);
            push_field(text, level, FieldName::OriginKind, kind)?;
            push_weight(
                alloc,
                text,
                level,
                FieldName::RequireWeightAtMost,
                *require_weight_at_most,
            )?;
            push_bytes(alloc, text, level, FieldName::Call, call.items())
        }
        Instruction::HrmpNewChannelOpenRequest {
            sender,
            max_message_size,
            max_capacity,
        } => {
            push_number(alloc, text, level, FieldName::Sender, u64::from(*sender))?;
            push_number(
                alloc,
                text,
                level,
                FieldName::MaxMessageSize,
                u64::from(*max_message_size),
            )?;
            push_number(
                alloc,
                text,
                level,
                FieldName::MaxCapacity,
                u64::from(*max_capacity),
            )
        }
        _ => unreachable!(),
    }
}
