//! Fields of one line, lists of assets, and filters.
ghost use Rattle.std.specs.Prelude.{◌≡◌, ◌++◌, ◌+◌, ◌<◌, ◌^◌, IfOk, OnOk, string_bytes};
ghost use Rattle.message_text.specs.Fields.{asset_lines, assets_field, wild_text, filter_field};
ghost use Rattle.message_text.specs.Lines.{line, field};
ghost use Rattle.message_text.specs.Messages.{location_field, number_field, bytes_field};
ghost use Rattle.message_text.specs.Words.{asset_text, place_text};
ghost use Rattle.operands.specs.Texts.{weight_text};

use crate::lines::{push_field, push_line};
use crate::names::{FieldName, name_text};
use crate::words::{asset_text, hex_text, id_text, place_text, wild_fun_text};
use asset_lists::{Asset, Filter, Wild};
use location_wire::location_text;
use locations::Location;
use operands::Weight;
use std::alloc::{AllocError, Global};

/// Appends a field that is a location.
pub(crate) fn push_location(
    alloc: Global,
    text: &mut String,
    level: u32,
    name: FieldName,
    place: &Location,
) -> Result<(), AllocError>
    ensures { OnOk result (string_bytes text.new
        ≡ string_bytes text.old ++ location_field level name place.now) }
{
    let place = location_text(alloc, place)?;
    push_field(text, level, name, &place)
}

/// Appends a field that is a location or none.
pub(crate) fn push_place(
    alloc: Global,
    text: &mut String,
    level: u32,
    name: FieldName,
    place: &Option<Location>,
) -> Result<(), AllocError>
    ensures { OnOk result (string_bytes text.new
        ≡ string_bytes text.old ++ field level name (place_text place.now)) }
{
    let place = place_text(alloc, place)?;
    push_field(text, level, name, &place)
}

/// Appends a field that is a number.
pub(crate) fn push_number(
    alloc: Global,
    text: &mut String,
    level: u32,
    name: FieldName,
    number: u64,
) -> Result<(), AllocError>
    ensures { OnOk result (string_bytes text.new
        ≡ string_bytes text.old ++ number_field level name number) }
{
    let number = format!(in alloc; "{number}")?;
    push_field(text, level, name, &number)
}

/// Appends a field that is a weight: ref_time in picoseconds, proof_size in bytes.
pub(crate) fn push_weight(
    alloc: Global,
    text: &mut String,
    level: u32,
    name: FieldName,
    weight: Weight,
) -> Result<(), AllocError>
    ensures { OnOk result (string_bytes text.new
        ≡ string_bytes text.old ++ field level name (weight_text weight)) }
{
    let weight = format!(in alloc; "{weight}")?;
    push_field(text, level, name, &weight)
}

/// Appends a field that is bytes.
pub(crate) fn push_bytes(
    alloc: Global,
    text: &mut String,
    level: u32,
    name: FieldName,
    bytes: &[u8],
) -> Result<(), AllocError>
    ensures { OnOk result (string_bytes text.new
        ≡ string_bytes text.old ++ bytes_field level name bytes.now) }
{
    let digits = hex_text(alloc, bytes)?;
    push_field(text, level, name, &digits)
}

/// Appends a field that is an asset.
pub(crate) fn push_asset(
    alloc: Global,
    text: &mut String,
    level: u32,
    name: FieldName,
    asset: &Asset,
) -> Result<(), AllocError>
    ensures { OnOk result (string_bytes text.new
        ≡ string_bytes text.old ++ field level name (asset_text asset.now)) }
{
    let asset = asset_text(alloc, asset)?;
    push_field(text, level, name, &asset)
}

/// Appends the line of an asset of a list.
fn push_listed(
    alloc: Global,
    text: &mut String,
    level: u32,
    asset: &Asset,
) -> Result<(), AllocError>
    ensures { OnOk result (string_bytes text.new
        ≡ string_bytes text.old ++ line level (asset_text asset.now)) }
{
    let asset = asset_text(alloc, asset)?;
    push_line(text, level, &asset)
}

/// Appends a line for each asset.
pub(crate) fn push_list(
    alloc: Global,
    text: &mut String,
    level: u32,
    assets: &[Asset],
) -> Result<(), AllocError>
    ensures { OnOk result (string_bytes text.new
        ≡ string_bytes text.old ++ asset_lines level assets.now) }
{
    for asset in assets {
        push_listed(alloc, text, level, asset)?;
    }
    Ok(())
}

/// Appends a field that is a list of assets.
#[tactic(auto, unfolding(crate::specs::Fields::assets_field))]
pub(crate) fn push_assets(
    alloc: Global,
    text: &mut String,
    level: u32,
    name: FieldName,
    assets: &[Asset],
) -> Result<(), AllocError>
    requires { level + 1 < 2 ^ 32 }
    ensures { OnOk result (string_bytes text.new
        ≡ string_bytes text.old ++ assets_field level name assets.now) }
{
    push_line(text, level, name_text(name))?;
    push_list(alloc, text, level + 1, assets)
}

/// What a wildcard says.
#[tactic(auto, unfolding(crate::specs::Fields::wild_text))]
fn wild_text(alloc: Global, wild: &Wild) -> Result<String, AllocError>
    ensures { IfOk result (λ text. string_bytes text ≡ wild_text wild.now) }
{
    match wild {
        Wild::All => format!(in alloc; "All"),
        Wild::AllOf { id, fun } => {
            let (id, fun) = (id_text(alloc, id.value())?, wild_fun_text(*fun));
            format!(in alloc; "AllOf {id} {fun}")
        }
        Wild::AllCounted(count) => format!(in alloc; "AllCounted {count}"),
        Wild::AllOfCounted { id, fun, count } => {
            let (id, fun) = (id_text(alloc, id.value())?, wild_fun_text(*fun));
            format!(in alloc; "AllOfCounted {id} {fun} {count}")
        }
    }
}

/// Appends a field that says which assets are taken.
#[tactic(auto, unfolding(crate::specs::Fields::filter_field))]
pub(crate) fn push_filter(
    alloc: Global,
    text: &mut String,
    level: u32,
    name: FieldName,
    filter: &Filter,
) -> Result<(), AllocError>
    requires { level + 1 < 2 ^ 32 }
    ensures { OnOk result (string_bytes text.new
        ≡ string_bytes text.old ++ filter_field level name filter.now) }
{
    match filter {
        Filter::Definite(assets) => push_assets(alloc, text, level, name, assets.items()),
        Filter::Wild(wild) => {
            let wild = wild_text(alloc, wild)?;
            push_field(text, level, name, &wild)
        }
    }
}
