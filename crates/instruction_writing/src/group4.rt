//! Instructions 32 to 39.

ghost use Rattle.std.specs.Prelude.{◌≡◌, ◌≤◌, ◌<◌};
ghost use Rattle.scale_codec.specs.Answers.{Appends};
ghost use Rattle.xcm_program.specs.declared.instruction.Instruction.{Instruction, out-Instruction};
ghost use Rattle.xcm_program.specs.Indices.{index};
ghost use Rattle.xcm_format.specs.Programs.{FitsHead};
ghost use Rattle.xcm_program.specs.Conversions.{HasAmount};
ghost use Rattle.xcm_format.specs.Writable.{IsNamedHead};
ghost use Rattle.instruction_writing.specs.Fields.{instruction_fields};

use crate::several::put_asset_for;
use asset_wire::Version;
use location_wire::{put_junction, put_junctions, put_network};
use scale_codec::Draft;
use std::alloc::AllocError;
use xcm_format::{put_bytes, put_maybe_error, put_query_info};
use xcm_program::Instruction;

/// What follows the index, up to the program inside.
#[tactic(auto, unfolding(xcm_format::specs::Programs::head))]
pub(crate) fn put_group4(o: &mut Draft, i: &Instruction, v: Version) -> Result<(), AllocError>
    requires low { 32 ≤ index (out-Instruction i.now) }
    requires high { index (out-Instruction i.now) < 40 }
    requires named { IsNamedHead v Instruction (out-Instruction i.now) }
    requires amount { HasAmount Instruction (out-Instruction i.now) }
    ensures { Appends result o.old o.new (instruction_fields v (out-Instruction i.now))
        (FitsHead v (out-Instruction i.now)) }
{
    match i {
        Instruction::ExpectTransactStatus { status } => put_maybe_error(o, status),
        Instruction::QueryPallet { module_name, info } => {
            put_bytes(o, module_name)?;
            put_query_info(o, info.value())
        }
        Instruction::ExpectPallet {
            index,
            name,
            module_name,
            crate_major,
            min_crate_minor,
        } => {
            o.put_compact(u128::from(*index))?;
            put_bytes(o, name)?;
            put_bytes(o, module_name)?;
            o.put_compact(u128::from(*crate_major))?;
            o.put_compact(u128::from(*min_crate_minor))
        }
        Instruction::ReportTransactStatus { info } => put_query_info(o, info.value()),
        Instruction::ClearTransactStatus => Ok(()),
        Instruction::UniversalOrigin { junction } => put_junction(o, junction),
        Instruction::ExportMessage {
            network,
            destination,
            ..
        } => {
            put_network(o, network)?;
            put_junctions(o, destination.value())
        }
        Instruction::LockAsset { asset, unlocker } => put_asset_for(
            o,
            asset.value(),
            unlocker.value(),
            v,
        ),
        _ => unreachable!(),
    }
}
