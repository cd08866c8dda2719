//! Pallets.

ghost use Rattle.xcm_format.specs.Parts.{pallet_info, FitsPallet};
ghost use Rattle.message_text.specs.Fields.{pallet_text};
ghost use Rattle.tree_reading.specs.Puts.{PutsWords};
ghost use Rattle.tree_reading.specs.Pallets.{minor_text, minor_version, crate_text, crate_version, named_text, named_pallet, module_text, module_pallet};

use crate::hexes::put_hex;
use crate::numbers::{MAX_32, put_number};
use crate::splits::{at_dot, at_space, part_of, word_of};
use scale_codec::Out;
use std::alloc::{AllocError, Global};

/// Appends the minor version of a pallet's crate and its patch.
fn put_minor(out: &mut Out, text: &str) -> Result<bool, AllocError>
    ensures { PutsWords FitsPallet minor_text minor_version text.now result out.old out.new }
{
    let Some((minor, patch)) = at_dot(text) else {
        return Ok(false);
    };
    let done = put_number(out, minor, MAX_32)?;
    if !done {
        return Ok(false);
    }
    put_number(out, part_of(patch), MAX_32)
}

/// Appends the version of a pallet's crate.
fn put_crate(out: &mut Out, text: &str) -> Result<bool, AllocError>
    ensures { PutsWords FitsPallet crate_text crate_version text.now result out.old out.new }
{
    let Some((major, minor)) = at_dot(text) else {
        return Ok(false);
    };
    let done = put_number(out, major, MAX_32)?;
    if !done {
        return Ok(false);
    }
    put_minor(out, minor)
}

/// Appends the name of a pallet's module, and the version of its crate.
fn put_module(alloc: Global, out: &mut Out, text: &str) -> Result<bool, AllocError>
    ensures { PutsWords FitsPallet module_text module_pallet text.now result out.old out.new }
{
    let Some((module, version)) = at_space(text) else {
        return Ok(false);
    };
    let done = put_hex(alloc, out, module)?;
    if !done {
        return Ok(false);
    }
    put_crate(out, word_of(version))
}

/// Appends a pallet's name and what follows it.
fn put_named_pallet(alloc: Global, out: &mut Out, text: &str) -> Result<bool, AllocError>
    ensures { PutsWords FitsPallet named_text named_pallet text.now result out.old out.new }
{
    let Some((name, module)) = at_space(text) else {
        return Ok(false);
    };
    let done = put_hex(alloc, out, name)?;
    if !done {
        return Ok(false);
    }
    put_module(alloc, out, module)
}

/// Appends a pallet.
pub(crate) fn put_pallet(alloc: Global, out: &mut Out, text: &str) -> Result<bool, AllocError>
    ensures { PutsWords FitsPallet pallet_text pallet_info text.now result out.old out.new }
{
    let Some((index, named)) = at_space(text) else {
        return Ok(false);
    };
    let done = put_number(out, index, MAX_32)?;
    if !done {
        return Ok(false);
    }
    put_named_pallet(alloc, out, named)
}
