//! The fields of instructions 40 to 47.
ghost use Rattle.std.specs.Prelude.{◌≡◌, ◌++◌, ◌+◌, ◌<◌, ◌≤◌, ◌^◌, OnOk, string_bytes};
ghost use Rattle.xcm_program.specs.declared.instruction.Instruction.{out-Instruction};
ghost use Rattle.xcm_program.specs.Indices.{index};
ghost use Rattle.message_text.specs.Messages.{own_fields};

use crate::fields::{push_bytes, push_location, push_place};
use crate::lines::push_field;
use crate::names::FieldName;
use crate::several::{push_asset_for, push_limit};
use crate::words::flag_text;
use std::alloc::{AllocError, Global};
use xcm_program::Instruction;

/// Appends the fields, but for the program inside.
#[tactic(auto, unfolding(crate::specs::Messages::own_fields))]
pub(crate) fn push_group5(
    alloc: Global,
    text: &mut String,
    level: u32,
    instruction: &Instruction,
) -> Result<(), AllocError>
    requires few { level + 1 < 2 ^ 32 }
    requires low { 40 ≤ index (out-Instruction instruction.now) }
    ensures { OnOk result (string_bytes text.new
        ≡ string_bytes text.old ++ own_fields level (out-Instruction instruction.now)) }
{
    match instruction {
        Instruction::UnlockAsset { asset, target } => {
            push_asset_for(
                alloc,
                text,
                level,
                asset.value(),
                FieldName::Target,
                target.value(),
            )
        }
        Instruction::NoteUnlockable { asset, owner } => {
            push_asset_for(
                alloc,
                text,
                level,
                asset.value(),
                FieldName::Owner,
                owner.value(),
            )
        }
        Instruction::RequestUnlock { asset, locker } => {
            push_asset_for(
                alloc,
                text,
                level,
                asset.value(),
                FieldName::Locker,
                locker.value(),
            )
        }
        Instruction::SetFeesMode { jit_withdraw } => {
            push_field(
                text,
                level,
                FieldName::JitWithdraw,
                flag_text(*jit_withdraw),
            )
        }
        Instruction::SetTopic { topic } => {
            push_bytes(alloc, text, level, FieldName::Topic, topic.as_slice())
        }
        Instruction::ClearTopic => Ok(()),
        Instruction::AliasOrigin { target } => {
            push_location(alloc, text, level, FieldName::Target, target.value())
        }
        Instruction::UnpaidExecution {
            limit,
            check_origin,
        } => {
            push_limit(alloc, text, level, *limit)?;
            push_place(
                alloc,
                text,
                level,
                FieldName::CheckOrigin,
                check_origin.value(),
            )
        }
        _ => unreachable!(),
    }
}
