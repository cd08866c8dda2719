//! Assets and wildcards.

ghost use Rattle.std.specs.Prelude.{◌≡◌, ◌<◌, ◌≤◌, ◌^◌, ◌++◌, ◌∷◌, List, ℕ, Some, codes, decimal, ⊤};
ghost use Rattle.scale_codec.specs.Spelling.{compact};
ghost use Rattle.location_wire.specs.Texts.{hex_text};
ghost use Rattle.asset_wire.specs.Spelling.{asset_id, instance, fun, FitsAmount, FitsFun, asset, wild_fun, wild};
ghost use Rattle.message_text.specs.Words.{id_text, fun_text, asset_text, wild_fun_text};
ghost use Rattle.message_text.specs.Fields.{wild_text};
ghost use Rattle.tree_reading.specs.Puts.{PutsWords};
ghost use Rattle.tree_reading.specs.Assets.{FitsPlaceId, FitsPlaceAsset, FitsKindOf, kind_of_text, kind_of_spelling, FitsCounting, counting_text, counting_spelling, FitsCountOf, count_of_text, count_of_spelling, FitsPlaceWild, FitsSomeWild};

use crate::hexes::bytes_of;
use crate::numbers::{MAX_32, put_number};
use crate::places::put_location;
use crate::splits::{after, at_space};
use operands::Version;
use scale_codec::Out;
use std::alloc::{AllocError, Global};

/// Appends an asset id, which is a location.
fn put_id(alloc: Global, out: &mut Out, version: Version, text: &str) -> Result<bool, AllocError>
    ensures { PutsWords (FitsPlaceId version) id_text (asset_id version) text.now result out.old
        out.new }
{
    match version {
        Version::V3 => {
            out.put_u8(0)?;
            put_location(alloc, out, text)
        }
        Version::V4 => put_location(alloc, out, text),
    }
}

/// Appends an instance, whose text has its bytes.
fn put_instance(alloc: Global, out: &mut Out, text: &str) -> Result<bool, AllocError>
    ensures { PutsWords (λ _. ⊤) hex_text (λ b. 1 ∷ b) text.now result out.old out.new }
{
    let Some(bytes) = bytes_of(alloc, text)? else {
        return Ok(false);
    };
    out.put_u8(1)?;
    out.put_bytes(bytes.as_slice())?;
    Ok(true)
}

/// An amount.
fn amount_of(text: &str) -> Option<u128>
    ensures { (n : ℕ) → n < 2 ^ 128 → text.now ≡ decimal n → result ≡ Some n }
{
    text.parse::<u128>().ok()
}

/// Appends an amount, which isn't 0.
fn put_amount(out: &mut Out, text: &str) -> Result<bool, AllocError>
    ensures { PutsWords FitsAmount decimal (λ n. 0 ∷ compact n) text.now result out.old out.new }
{
    let Some(amount) = amount_of(text) else {
        return Ok(false);
    };
    if amount == 0 {
        return Ok(false);
    }
    out.put_u8(0)?;
    out.put_compact(amount)?;
    Ok(true)
}

/// Appends an amount, or an instance.
fn put_fun(alloc: Global, out: &mut Out, text: &str) -> Result<bool, AllocError>
    ensures { PutsWords FitsFun fun_text fun text.now result out.old out.new }
{
    match after(text, "instance ") {
        Some(instance) => put_instance(alloc, out, instance),
        None => put_amount(out, text),
    }
}

/// Appends an asset: its id, and what there is of it.
pub(crate) fn put_asset(
    alloc: Global,
    out: &mut Out,
    version: Version,
    text: &str,
) -> Result<bool, AllocError>
    ensures { PutsWords (FitsPlaceAsset version) asset_text (asset version) text.now result out.old
        out.new }
{
    let Some((id, fun)) = at_space(text) else {
        return Ok(false);
    };
    let done = put_id(alloc, out, version, id)?;
    if !done {
        return Ok(false);
    }
    put_fun(alloc, out, fun)
}

/// Appends what a wildcard means of an asset id.
fn put_wild_fun(out: &mut Out, text: &str) -> Result<bool, AllocError>
    ensures { PutsWords (λ _. ⊤) wild_fun_text wild_fun text.now result out.old out.new }
{
    match text {
        "Fungible" => out.put_u8(0)?,
        "NonFungible" => out.put_u8(1)?,
        _ => return Ok(false),
    }
    Ok(true)
}

/// Appends what a wildcard means of an asset id, and how many.
fn put_counting(out: &mut Out, text: &str) -> Result<bool, AllocError>
    ensures { PutsWords FitsCounting counting_text counting_spelling text.now result out.old out.new }
{
    let Some((fun, count)) = at_space(text) else {
        return Ok(false);
    };
    let done = put_wild_fun(out, fun)?;
    if !done {
        return Ok(false);
    }
    put_number(out, count, MAX_32)
}

/// Appends an id, and what a wildcard means of it.
fn put_kind_of(
    alloc: Global,
    out: &mut Out,
    version: Version,
    text: &str,
) -> Result<bool, AllocError>
    ensures { PutsWords (FitsKindOf version) kind_of_text (kind_of_spelling version) text.now result out.old
        out.new }
{
    let Some((id, fun)) = at_space(text) else {
        return Ok(false);
    };
    let done = put_id(alloc, out, version, id)?;
    if !done {
        return Ok(false);
    }
    put_wild_fun(out, fun)
}

/// Appends an id, what a wildcard means of it, and how many.
fn put_count_of(
    alloc: Global,
    out: &mut Out,
    version: Version,
    text: &str,
) -> Result<bool, AllocError>
    ensures { PutsWords (FitsCountOf version) count_of_text (count_of_spelling version) text.now result
        out.old out.new }
{
    let Some((id, counting)) = at_space(text) else {
        return Ok(false);
    };
    let done = put_id(alloc, out, version, id)?;
    if !done {
        return Ok(false);
    }
    put_counting(out, counting)
}

/// Appends a wildcard that says something of the assets it means.
fn put_some_wild(
    alloc: Global,
    out: &mut Out,
    version: Version,
    text: &str,
) -> Result<bool, AllocError>
    ensures { PutsWords (FitsSomeWild version) wild_text (wild version) text.now result out.old
        out.new }
{
    if let Some(count) = after(text, "AllCounted ") {
        out.put_u8(2)?;
        return put_number(out, count, MAX_32);
    }
    if let Some(kind) = after(text, "AllOf ") {
        out.put_u8(1)?;
        return put_kind_of(alloc, out, version, kind);
    }
    match after(text, "AllOfCounted ") {
        Some(counting) => {
            out.put_u8(3)?;
            put_count_of(alloc, out, version, counting)
        }
        None => Ok(false),
    }
}

/// Appends a wildcard.
pub(crate) fn put_wild(
    alloc: Global,
    out: &mut Out,
    version: Version,
    text: &str,
) -> Result<bool, AllocError>
    ensures { PutsWords (FitsPlaceWild version) wild_text (wild version) text.now result out.old
        out.new }
{
    match text {
        "All" => {
            out.put_u8(0)?;
            Ok(true)
        }
        _ => put_some_wild(alloc, out, version, text),
    }
}
