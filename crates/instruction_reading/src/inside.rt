//! Fields that several instructions have, and how an instruction is put into its slot. What is large is in memory of its own.

ghost use Rattle.std.specs.Prelude.{◌≡◌, []};
ghost use Rattle.scale_codec.specs.Reading.{optional_at};
ghost use Rattle.scale_codec.specs.Answers.{GotOrFails};
ghost use Rattle.location_wire.specs.Reading.{junctions_at, location_at};
ghost use Rattle.asset_wire.specs.Reading.{asset_at};
ghost use Rattle.xcm_format.specs.Reading.{query_info_at};

use asset_lists::Asset;
use asset_wire::{Version, WireFault, take_boxed_asset};
use location_wire::{fill_junctions, fill_location};
use locations::{Junctions, Location};
use operands::QueryInfo;
use plain_lists::Boxed;
use scale_codec::Cursor;
use std::alloc::Global;
use xcm_format::{take_optional_location, take_query_info};
use xcm_program::{Instruction, Program};

/// The empty program. It takes no memory.
pub(crate) fn nothing_inside(alloc: Global) -> Program
    ensures { result ≡ [] }
{
    Program::from_vec(Vec::new(alloc))
}

/// A location.
pub(crate) fn take_location(alloc: Global, c: &mut Cursor<'_>) -> Result<Boxed<Location>, WireFault>
    ensures { GotOrFails (λ location. location) result (location_at c.old) c.new }
{
    // Read where it will be.
    let mut location = Box::new(alloc, Location::here())?;
    fill_location(c, &mut *location)?;
    Ok(Boxed::from_box(location))
}

/// A location or none.
pub(crate) fn take_location_if_any(
    alloc: Global,
    c: &mut Cursor<'_>,
) -> Result<Boxed<Option<Location>>, WireFault>
    ensures { GotOrFails (λ location. location) result (optional_at location_at c.old) c.new }
{
    let location = take_optional_location(c)?;
    Ok(Boxed::new(alloc, location)?)
}

/// Junctions.
pub(crate) fn take_junctions(
    alloc: Global,
    c: &mut Cursor<'_>,
) -> Result<Boxed<Junctions>, WireFault>
    ensures { GotOrFails (λ path. path) result (junctions_at c.old) c.new }
{
    let mut path = Junctions::empty();
    fill_junctions(c, &mut path)?;
    Ok(Boxed::new(alloc, path)?)
}

/// An asset.
pub(crate) fn take_one_asset(
    alloc: Global,
    c: &mut Cursor<'_>,
    v: Version,
) -> Result<Boxed<Asset>, WireFault>
    ensures { GotOrFails (λ asset. asset) result (asset_at v c.old) c.new }
{
    take_boxed_asset(alloc, c, v)
}

/// Where a report goes, and for which query.
pub(crate) fn take_info(alloc: Global, c: &mut Cursor<'_>) -> Result<Boxed<QueryInfo>, WireFault>
    ensures { GotOrFails (λ info. info) result (query_info_at c.old) c.new }
{
    let info = take_query_info(c)?;
    Ok(Boxed::new(alloc, info)?)
}

/// Puts an instruction into its slot. What was there is dropped here alone, so that no reader has to look through all that an
/// instruction may keep.
#[inline(always)]
pub(crate) fn put(slot: &mut Instruction, instruction: Instruction)
    ensures { slot.new ≡ instruction }
{
    *slot = instruction;
}
