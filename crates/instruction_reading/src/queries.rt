//! Instructions that answer or report. Each puts the fields after the number, in their order, into the slot for the instruction.

ghost use Rattle.std.specs.Prelude.{◌≡◌, ◌^◌};
ghost use Rattle.scale_codec.specs.Reading.{below_at, made1, made2, made4, optional_at};
ghost use Rattle.location_wire.specs.Reading.{location_at};
ghost use Rattle.asset_wire.specs.Reading.{filter_at};
ghost use Rattle.xcm_format.specs.Reading.{weight_at, bytes_at, query_info_at, response_at};
ghost use Rattle.xcm_program.specs.declared.instruction.Instruction.TheOpen.{Instruction-F};
ghost use Rattle.instruction_reading.specs.Answers.{FilledHead};

use crate::inside::{put, take_info, take_location_if_any};
use asset_wire::{Version, WireFault, take_filter};
use scale_codec::Cursor;
use std::alloc::Global;
use xcm_format::{take_bytes, take_response, take_weight};
use xcm_program::Instruction;

/// The number of the query, its response, the most weight, and who asked.
pub(crate) fn fill_query_response(
    alloc: Global,
    c: &mut Cursor<'_>,
    v: Version,
    slot: &mut Instruction,
) -> Result<(), WireFault>
    ensures { FilledHead result (made4 (below_at (2 ^ 64)) (response_at v) weight_at
        (optional_at location_at) Instruction-F.QueryResponse c.old) slot.new c.new }
{
    let query_id = c.compact_u64()?;
    let response = take_response(alloc, c, v)?;
    let max_weight = take_weight(c)?;
    let querier = take_location_if_any(alloc, c)?;
    put(
        slot,
        Instruction::QueryResponse {
            query_id,
            response,
            max_weight,
            querier,
        },
    );
    Ok(())
}

/// Where to.
pub(crate) fn fill_report_error(
    alloc: Global,
    c: &mut Cursor<'_>,
    slot: &mut Instruction,
) -> Result<(), WireFault>
    ensures { FilledHead result (made1 query_info_at Instruction-F.ReportError c.old) slot.new
        c.new }
{
    let info = take_info(alloc, c)?;
    put(slot, Instruction::ReportError { info });
    Ok(())
}

/// Where to, and which assets.
pub(crate) fn fill_report_holding(
    alloc: Global,
    c: &mut Cursor<'_>,
    v: Version,
    slot: &mut Instruction,
) -> Result<(), WireFault>
    ensures { FilledHead result (made2 query_info_at (filter_at v) Instruction-F.ReportHolding
        c.old) slot.new c.new }
{
    let info = take_info(alloc, c)?;
    let assets = take_filter(alloc, c, v)?;
    put(slot, Instruction::ReportHolding { info, assets });
    Ok(())
}

/// The name of the module, and where to.
pub(crate) fn fill_query_pallet(
    alloc: Global,
    c: &mut Cursor<'_>,
    slot: &mut Instruction,
) -> Result<(), WireFault>
    ensures { FilledHead result (made2 (bytes_at 4294967295) query_info_at Instruction-F.QueryPallet
        c.old) slot.new c.new }
{
    let module_name = take_bytes(alloc, c)?;
    let info = take_info(alloc, c)?;
    put(slot, Instruction::QueryPallet { module_name, info });
    Ok(())
}

/// Where to.
pub(crate) fn fill_report_transact_status(
    alloc: Global,
    c: &mut Cursor<'_>,
    slot: &mut Instruction,
) -> Result<(), WireFault>
    ensures { FilledHead result (made1 query_info_at Instruction-F.ReportTransactStatus c.old)
        slot.new c.new }
{
    let info = take_info(alloc, c)?;
    put(slot, Instruction::ReportTransactStatus { info });
    Ok(())
}

/// The number of the query, and the most weight.
pub(crate) fn fill_subscribe_version(
    c: &mut Cursor<'_>,
    slot: &mut Instruction,
) -> Result<(), WireFault>
    ensures { FilledHead result (made2 (below_at (2 ^ 64)) weight_at Instruction-F.SubscribeVersion
        c.old) slot.new c.new }
{
    let query_id = c.compact_u64()?;
    let max_response_weight = take_weight(c)?;
    put(
        slot,
        Instruction::SubscribeVersion {
            query_id,
            max_response_weight,
        },
    );
    Ok(())
}
