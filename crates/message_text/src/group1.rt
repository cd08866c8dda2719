//! The fields of instructions 8 to 15.
ghost use Rattle.std.specs.Prelude.{◌≡◌, ◌++◌, ◌+◌, ◌<◌, ◌≤◌, ◌^◌, OnOk, string_bytes};
ghost use Rattle.xcm_program.specs.declared.instruction.Instruction.{out-Instruction};
ghost use Rattle.xcm_program.specs.Indices.{index};
ghost use Rattle.message_text.specs.Messages.{own_fields};

use crate::fields::{push_assets, push_filter, push_number};
use crate::lines::push_field;
use crate::names::FieldName;
use crate::queries::push_info;
use crate::several::push_taken_for;
use crate::words::flag_text;
use location_wire::path_text;
use std::alloc::{AllocError, Global};
use xcm_program::Instruction;

/// Appends the fields, but for the program inside.
#[tactic(auto, unfolding(crate::specs::Messages::own_fields))]
pub(crate) fn push_group1(
    alloc: Global,
    text: &mut String,
    level: u32,
    instruction: &Instruction,
) -> Result<(), AllocError>
    requires few { level + 1 < 2 ^ 32 }
    requires low { 8 ≤ index (out-Instruction instruction.now) }
    requires high { index (out-Instruction instruction.now) < 16 }
    ensures { OnOk result (string_bytes text.new
        ≡ string_bytes text.old ++ own_fields level (out-Instruction instruction.now)) }
{
    match instruction {
        Instruction::HrmpChannelAccepted { recipient } => {
            push_number(
                alloc,
                text,
                level,
                FieldName::Recipient,
                u64::from(*recipient),
            )
        }
        Instruction::HrmpChannelClosing {
            initiator,
            sender,
            recipient,
        } => {
            push_number(
                alloc,
                text,
                level,
                FieldName::Initiator,
                u64::from(*initiator),
            )?;
            push_number(alloc, text, level, FieldName::Sender, u64::from(*sender))?;
            push_number(
                alloc,
                text,
                level,
                FieldName::Recipient,
                u64::from(*recipient),
            )
        }
        Instruction::ClearOrigin => Ok(()),
        Instruction::DescendOrigin { interior } => {
            let interior = path_text(alloc, interior.value())?;
            push_field(text, level, FieldName::Interior, &interior)
        }
        Instruction::ReportError { info } => push_info(alloc, text, level, info.value()),
        Instruction::DepositAsset {
            assets,
            beneficiary,
        } => push_taken_for(
            alloc,
            text,
            level,
            assets,
            FieldName::Beneficiary,
            beneficiary.value(),
        ),
        Instruction::DepositReserveAsset { assets, dest, .. } => {
            push_taken_for(alloc, text, level, assets, FieldName::Dest, dest.value())
        }
        Instruction::ExchangeAsset {
            give,
            want,
            maximal,
        } => {
            push_filter(alloc, text, level, FieldName::Give, give)?;
            push_assets(alloc, text, level, FieldName::Want, want.items())?;
            push_field(text, level, FieldName::Maximal, flag_text(*maximal))
        }
        _ => unreachable!(),
    }
}
