//! The fields of instructions 32 to 39.
ghost use Rattle.std.specs.Prelude.{◌≡◌, ◌++◌, ◌+◌, ◌<◌, ◌≤◌, ◌^◌, OnOk, string_bytes};
ghost use Rattle.xcm_program.specs.declared.instruction.Instruction.{out-Instruction};
ghost use Rattle.xcm_program.specs.Indices.{index};
ghost use Rattle.message_text.specs.Messages.{own_fields};

use crate::fields::{push_bytes, push_number};
use crate::lines::push_field;
use crate::names::FieldName;
use crate::queries::push_info;
use crate::several::push_asset_for;
use crate::words::{junction_text, network_text, status_text};
use location_wire::path_text;
use std::alloc::{AllocError, Global};
use xcm_program::Instruction;

/// Appends the fields, but for the program inside.
#[tactic(auto, unfolding(crate::specs::Messages::own_fields))]
pub(crate) fn push_group4(
    alloc: Global,
    text: &mut String,
    level: u32,
    instruction: &Instruction,
) -> Result<(), AllocError>
    requires few { level + 1 < 2 ^ 32 }
    requires low { 32 ≤ index (out-Instruction instruction.now) }
    requires high { index (out-Instruction instruction.now) < 40 }
    ensures { OnOk result (string_bytes text.new
        ≡ string_bytes text.old ++ own_fields level (out-Instruction instruction.now)) }
{
    match instruction {
        Instruction::ExpectTransactStatus { status } => {
            let status = status_text(alloc, status)?;
            push_field(text, level, FieldName::Status, &status)
        }
        Instruction::QueryPallet { module_name, info } => {
            push_bytes(
                alloc,
                text,
                level,
                FieldName::ModuleName,
                module_name.items(),
            )?;
            push_info(alloc, text, level, info.value())
        }
        Instruction::ExpectPallet {
            index,
            name,
            module_name,
            crate_major,
            min_crate_minor,
        } => {
            push_number(alloc, text, level, FieldName::Index, u64::from(*index))?;
            push_bytes(alloc, text, level, FieldName::Name, name.items())?;
            push_bytes(
                alloc,
                text,
                level,
                FieldName::ModuleName,
                module_name.items(),
            )?;
            push_number(
                alloc,
                text,
                level,
                FieldName::CrateMajor,
                u64::from(*crate_major),
            )?;
            push_number(
                alloc,
                text,
                level,
                FieldName::MinCrateMinor,
                u64::from(*min_crate_minor),
            )
        }
        Instruction::ReportTransactStatus { info } => push_info(alloc, text, level, info.value()),
        Instruction::ClearTransactStatus => Ok(()),
        Instruction::UniversalOrigin { junction } => {
            let junction = junction_text(alloc, junction)?;
            push_field(text, level, FieldName::Junction, &junction)
        }
        Instruction::ExportMessage {
            network,
            destination,
            ..
        } => {
            let network = network_text(alloc, *network)?;
            push_field(text, level, FieldName::Network, &network)?;
            let destination = path_text(alloc, destination.value())?;
            push_field(text, level, FieldName::Destination, &destination)
        }
        Instruction::LockAsset { asset, unlocker } => {
            push_asset_for(
                alloc,
                text,
                level,
                asset.value(),
                FieldName::Unlocker,
                unlocker.value(),
            )
        }
        _ => unreachable!(),
    }
}
