//! The fields of instructions 16 to 23.
ghost use Rattle.std.specs.Prelude.{◌≡◌, ◌++◌, ◌+◌, ◌<◌, ◌≤◌, ◌^◌, OnOk, string_bytes};
ghost use Rattle.xcm_program.specs.declared.instruction.Instruction.{out-Instruction};
ghost use Rattle.xcm_program.specs.Indices.{index};
ghost use Rattle.message_text.specs.Messages.{own_fields};

use crate::fields::{push_asset, push_filter};
use crate::names::FieldName;
use crate::queries::push_info;
use crate::several::{push_limit, push_taken_for};
use std::alloc::{AllocError, Global};
use xcm_program::Instruction;

/// Appends the fields, but for the program inside.
#[tactic(auto, unfolding(crate::specs::Messages::own_fields))]
pub(crate) fn push_group2(
    alloc: Global,
    text: &mut String,
    level: u32,
    instruction: &Instruction,
) -> Result<(), AllocError>
    requires few { level + 1 < 2 ^ 32 }
    requires low { 16 ≤ index (out-Instruction instruction.now) }
    requires high { index (out-Instruction instruction.now) < 24 }
    ensures { OnOk result (string_bytes text.new
        ≡ string_bytes text.old ++ own_fields level (out-Instruction instruction.now)) }
{
    match instruction {
        Instruction::InitiateReserveWithdraw {
            assets,
            reserve,
            ..
        } => push_taken_for(
            alloc,
            text,
            level,
            assets,
            FieldName::Reserve,
            reserve.value(),
        ),
        Instruction::InitiateTeleport { assets, dest, .. } => {
            push_taken_for(alloc, text, level, assets, FieldName::Dest, dest.value())
        }
        Instruction::ReportHolding { info, assets } => {
            push_info(alloc, text, level, info.value())?;
            push_filter(alloc, text, level, FieldName::Assets, assets)
        }
        Instruction::BuyExecution { fees, limit } => {
            push_asset(alloc, text, level, FieldName::Fees, fees.value())?;
            push_limit(alloc, text, level, *limit)
        }
        Instruction::RefundSurplus
        | Instruction::SetErrorHandler { .. }
        | Instruction::SetAppendix { .. }
        | Instruction::ClearError => Ok(()),
        _ => unreachable!(),
    }
}
