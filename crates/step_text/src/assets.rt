//! The texts of assets and registers.

ghost use Rattle.std.specs.Prelude.{◌≡◌, ◌++◌, IfOk, OnOk, flat_map, string_bytes};
ghost use Rattle.step_text.specs.Texts.{origin_text, topic_text, next_text, assets_text};

use asset_lists::Asset;
use location_wire::push_location_text;
use locations::Location;
use message_text::{asset_text, hex_text, push_asset_text};
use plain_lists::Boxed;
use std::alloc::{AllocError, Global};

/// Appends the origin register.
pub(crate) fn push_origin(
    alloc: Global,
    text: &mut String,
    origin: &Option<Boxed<Location>>,
) -> Result<(), AllocError>
    ensures { OnOk result (string_bytes text.new
        ≡ string_bytes text.old ++ origin_text origin.now) }
{
    match origin {
        None => text.push_str("-"),
        Some(l) => push_location_text(alloc, text, l.value()),
    }
}

/// Appends the topic register.
pub(crate) fn push_topic(
    alloc: Global,
    text: &mut String,
    topic: &Option<[u8; 32]>,
) -> Result<(), AllocError>
    ensures { OnOk result (string_bytes text.new
        ≡ string_bytes text.old ++ topic_text topic.now) }
{
    match topic {
        None => text.push_str("-"),
        Some(bytes) => {
            let digits = hex_text(alloc, bytes.as_slice())?;
            text.push_str(&digits)
        }
    }
}

/// Appends an asset after another.
fn push_next(alloc: Global, text: &mut String, asset: &Asset) -> Result<(), AllocError>
    ensures { OnOk result (string_bytes text.new ≡ string_bytes text.old ++ next_text asset.now) }
{
    text.push_str(", ")?;
    push_asset_text(alloc, text, asset)
}

/// Appends assets after another.
fn push_others(alloc: Global, text: &mut String, assets: &[Asset]) -> Result<(), AllocError>
    ensures { OnOk result (string_bytes text.new
        ≡ string_bytes text.old ++ flat_map next_text assets.now) }
{
    for asset in assets {
        push_next(alloc, text, asset)?;
    }
    Ok(())
}

/// Assets, a comma and a space between them.
pub(crate) fn assets_text(alloc: Global, assets: &[Asset]) -> Result<String, AllocError>
    ensures { IfOk result (λ text. string_bytes text ≡ assets_text assets.now) }
{
    let Some((first, others)) = assets.split_first() else {
        return Ok(String::new(alloc));
    };
    let mut text = asset_text(alloc, first)?;
    push_others(alloc, &mut text, others)?;
    Ok(text)
}
