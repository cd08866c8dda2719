//! Fields that several instructions have together.
ghost use Rattle.std.specs.Prelude.{◌≡◌, ◌++◌, ◌+◌, ◌<◌, ◌^◌, OnOk, string_bytes};
ghost use Rattle.message_text.specs.Lines.{field};
ghost use Rattle.message_text.specs.declared.names.FieldName.TheVariants as names;
ghost use Rattle.message_text.specs.Fields.{assets_field, filter_field};
ghost use Rattle.message_text.specs.Messages.{location_field};
ghost use Rattle.message_text.specs.Words.{asset_text, limit_text};

use crate::fields::{push_asset, push_assets, push_filter, push_location};
use crate::lines::push_field;
use crate::names::FieldName;
use crate::words::limit_text;
use asset_lists::{Asset, Assets, Filter};
use locations::Location;
use operands::WeightLimit;
use std::alloc::{AllocError, Global};

/// Appends a list of assets, and the location that this name says.
pub(crate) fn push_assets_for(
    alloc: Global,
    text: &mut String,
    level: u32,
    assets: &Assets,
    name: FieldName,
    place: &Location,
) -> Result<(), AllocError>
    requires { level + 1 < 2 ^ 32 }
    ensures { OnOk result (string_bytes text.new ≡ string_bytes text.old
        ++ (assets_field level names.Assets assets.now
        ++ location_field level name place.now)) }
{
    push_assets(alloc, text, level, FieldName::Assets, assets.items())?;
    push_location(alloc, text, level, name, place)
}

/// Appends which assets are taken, and the location that this name says.
pub(crate) fn push_taken_for(
    alloc: Global,
    text: &mut String,
    level: u32,
    assets: &Filter,
    name: FieldName,
    place: &Location,
) -> Result<(), AllocError>
    requires { level + 1 < 2 ^ 32 }
    ensures { OnOk result (string_bytes text.new ≡ string_bytes text.old
        ++ (filter_field level names.Assets assets.now
        ++ location_field level name place.now)) }
{
    push_filter(alloc, text, level, FieldName::Assets, assets)?;
    push_location(alloc, text, level, name, place)
}

/// Appends an asset, and the location that this name says.
pub(crate) fn push_asset_for(
    alloc: Global,
    text: &mut String,
    level: u32,
    asset: &Asset,
    name: FieldName,
    place: &Location,
) -> Result<(), AllocError>
    ensures { OnOk result (string_bytes text.new ≡ string_bytes text.old
        ++ (field level names.Asset (asset_text asset.now)
        ++ location_field level name place.now)) }
{
    push_asset(alloc, text, level, FieldName::Asset, asset)?;
    push_location(alloc, text, level, name, place)
}

/// Appends a limit of weights.
pub(crate) fn push_limit(
    alloc: Global,
    text: &mut String,
    level: u32,
    limit: WeightLimit,
) -> Result<(), AllocError>
    ensures { OnOk result (string_bytes text.new ≡ string_bytes text.old
        ++ field level names.Limit (limit_text limit)) }
{
    let limit = limit_text(alloc, limit)?;
    push_field(text, level, FieldName::Limit, &limit)
}
