//! The fields of instructions 24 to 31.
ghost use Rattle.std.specs.Prelude.{◌≡◌, ◌++◌, ◌+◌, ◌<◌, ◌≤◌, ◌^◌, OnOk, string_bytes};
ghost use Rattle.xcm_program.specs.declared.instruction.Instruction.{out-Instruction};
ghost use Rattle.xcm_program.specs.Indices.{index};
ghost use Rattle.message_text.specs.Messages.{own_fields};

use crate::fields::{push_assets, push_number, push_place, push_weight};
use crate::lines::push_field;
use crate::names::FieldName;
use crate::several::push_assets_for;
use crate::words::failure_text;
use std::alloc::{AllocError, Global};
use xcm_program::Instruction;

/// Appends the fields, but for the program inside.
#[tactic(auto, unfolding(crate::specs::Messages::own_fields))]
pub(crate) fn push_group3(
    alloc: Global,
    text: &mut String,
    level: u32,
    instruction: &Instruction,
) -> Result<(), AllocError>
    requires few { level + 1 < 2 ^ 32 }
    requires low { 24 ≤ index (out-Instruction instruction.now) }
    requires high { index (out-Instruction instruction.now) < 32 }
    ensures { OnOk result (string_bytes text.new
        ≡ string_bytes text.old ++ own_fields level (out-Instruction instruction.now)) }
{
    match instruction {
        Instruction::ClaimAsset { assets, ticket } => {
            push_assets_for(
                alloc,
                text,
                level,
                assets,
                FieldName::Ticket,
                ticket.value(),
            )
        }
        Instruction::Trap { code } => push_number(alloc, text, level, FieldName::Code, *code),
        Instruction::SubscribeVersion {
            query_id,
            max_response_weight,
        } => {
            push_number(alloc, text, level, FieldName::QueryId, *query_id)?;
            push_weight(
                alloc,
                text,
                level,
                FieldName::MaxResponseWeight,
                *max_response_weight,
            )
        }
        Instruction::UnsubscribeVersion => Ok(()),
        Instruction::BurnAsset { assets } | Instruction::ExpectAsset { assets } => {
            push_assets(alloc, text, level, FieldName::Assets, assets.items())
        }
        Instruction::ExpectOrigin { origin } => push_place(
            alloc,
            text,
            level,
            FieldName::Origin,
            origin.value(),
        ),
        Instruction::ExpectError { error } => {
            let error = failure_text(alloc, error)?;
            push_field(text, level, FieldName::Error, &error)
        }
        _ => unreachable!(),
    }
}
