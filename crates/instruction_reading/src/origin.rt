//! Instructions about the origin and other consensus systems. Each puts the fields after the number, in their order, into the slot for the instruction.

ghost use Rattle.std.specs.Prelude.{◌≡◌, []};
ghost use Rattle.scale_codec.specs.Reading.{made1, made2, optional_at};
ghost use Rattle.location_wire.specs.Reading.{network_at, junction_at, junctions_at, location_at};
ghost use Rattle.xcm_format.specs.Reading.{weight_limit_at};
ghost use Rattle.xcm_program.specs.declared.instruction.Instruction.TheOpen.{Instruction-F};
ghost use Rattle.instruction_reading.specs.Answers.{FilledHead};

use crate::inside::{nothing_inside, put, take_junctions, take_location, take_location_if_any};
use asset_wire::WireFault;
use location_wire::{take_junction, take_network};
use scale_codec::Cursor;
use std::alloc::Global;
use xcm_format::take_weight_limit;
use xcm_program::Instruction;

/// The junctions.
pub(crate) fn fill_descend_origin(
    alloc: Global,
    c: &mut Cursor<'_>,
    slot: &mut Instruction,
) -> Result<(), WireFault>
    ensures { FilledHead result (made1 junctions_at Instruction-F.DescendOrigin c.old) slot.new
        c.new }
{
    let interior = take_junctions(alloc, c)?;
    put(slot, Instruction::DescendOrigin { interior });
    Ok(())
}

/// The origin, or none.
pub(crate) fn fill_expect_origin(
    alloc: Global,
    c: &mut Cursor<'_>,
    slot: &mut Instruction,
) -> Result<(), WireFault>
    ensures { FilledHead result (made1 (optional_at location_at) Instruction-F.ExpectOrigin c.old)
        slot.new c.new }
{
    let origin = take_location_if_any(alloc, c)?;
    put(slot, Instruction::ExpectOrigin { origin });
    Ok(())
}

/// The origin that is set.
pub(crate) fn fill_alias_origin(
    alloc: Global,
    c: &mut Cursor<'_>,
    slot: &mut Instruction,
) -> Result<(), WireFault>
    ensures { FilledHead result (made1 location_at Instruction-F.AliasOrigin c.old) slot.new c.new }
{
    let target = take_location(alloc, c)?;
    put(slot, Instruction::AliasOrigin { target });
    Ok(())
}

/// The most weight, and the origin, or none.
pub(crate) fn fill_unpaid_execution(
    alloc: Global,
    c: &mut Cursor<'_>,
    slot: &mut Instruction,
) -> Result<(), WireFault>
    ensures { FilledHead result (made2 weight_limit_at (optional_at location_at)
        Instruction-F.UnpaidExecution c.old) slot.new c.new }
{
    let limit = take_weight_limit(c)?;
    let check_origin = take_location_if_any(alloc, c)?;
    put(
        slot,
        Instruction::UnpaidExecution {
            limit,
            check_origin,
        },
    );
    Ok(())
}

/// The system, and the location in it.
pub(crate) fn fill_export_message(
    alloc: Global,
    c: &mut Cursor<'_>,
    slot: &mut Instruction,
) -> Result<(), WireFault>
    ensures { FilledHead result (made2 network_at junctions_at
        (λ net path. Instruction-F.ExportMessage net path []) c.old) slot.new c.new }
{
    let network = take_network(c)?;
    let destination = take_junctions(alloc, c)?;
    let xcm = nothing_inside(alloc);
    put(
        slot,
        Instruction::ExportMessage {
            network,
            destination,
            xcm,
        },
    );
    Ok(())
}

/// The junction of the system.
pub(crate) fn fill_universal_origin(
    c: &mut Cursor<'_>,
    slot: &mut Instruction,
) -> Result<(), WireFault>
    ensures { FilledHead result (made1 junction_at Instruction-F.UniversalOrigin c.old) slot.new
        c.new }
{
    let junction = take_junction(c)?;
    put(slot, Instruction::UniversalOrigin { junction });
    Ok(())
}
