//! The lines of what there is of each asset that has a home.
ghost use Rattle.std.specs.Prelude.{◌≡◌, ◌++◌, map, IfOk, OnOk, flat_map, string_bytes};
ghost use Rattle.chain_state.specs.PartOf.{part_of};
ghost use Rattle.supply_audit.specs.Places.{chain_table};
ghost use Rattle.supply_audit.specs.RowPlaces.{places_in};
ghost use Rattle.report_text.specs.Plan.{supply_beginning, planned_supply, planned_supply_text};

use crate::figures::{ROOM, kind_name, push_sum};
use crate::natives::Natives;
use chain_state::ChainState;
use location_wire::push_path_text;
use std::alloc::{AllocError, Global};
use std::marker::Model;
use supply_audit::{HomePlaces, NetworkAsset, Place, supply_at};

/// The line of an asset: its beginning, and the positions of the rows whose figures it has.
#[derive(Drop)]
pub(crate) struct SupplyEntry {
    pub(crate) beginning: String,
    pub(crate) places: Vec<Place>,
}

impl Model for SupplyEntry {
    ghost use Rattle.std.specs.Prelude.{string_bytes};
    ghost use Rattle.report_text.specs.Planned.{PlannedSupply};

    ghost Value = { PlannedSupply };

    ghost view = { λ e. record { beginning = string_bytes e.beginning; places = e.places.items } };
}

/// What comes before an asset's figures.
#[tactic(auto, unfolding(crate::specs::Plan::supply_beginning))]
fn beginning(alloc: Global, asset: &NetworkAsset) -> Result<String, AllocError>
    ensures { IfOk result (λ text. string_bytes text ≡ supply_beginning asset.now) }
{
    let mut text = String::with_capacity(alloc, ROOM)?;
    text.push_str("  supply ")?;
    text.push_str(kind_name(asset.kind()))?;
    text.push_str(" ")?;
    push_path_text(alloc, &mut text, asset.path())?;
    text.push_str(" home ")?;
    Ok(text)
}

/// The entry of an asset.
fn entry_of(
    alloc: Global,
    homes: &HomePlaces,
    asset: &NetworkAsset,
) -> Result<SupplyEntry, AllocError>
    ensures { IfOk result (λ entry. entry ≡ record {
      beginning = supply_beginning asset.now;
      places = places_in homes.now.places.entries asset.now;
    }) }
{
    let beginning = beginning(alloc, asset)?;
    let places = homes.places(alloc, asset)?;
    Ok(SupplyEntry { beginning, places })
}

/// The entries of the assets that some chain lists as native.
pub(crate) fn plan_supplies(
    alloc: Global,
    chains: &[ChainState],
    assets: &Natives,
) -> Result<Vec<SupplyEntry>, AllocError>
    ensures { IfOk result (λ entries. entries.items
        ≡ map (planned_supply (map chain_table (map part_of chains.now))) assets.now.keys) }
{
    let homes = HomePlaces::of(alloc, chains)?;
    let mut entries = Vec::new(alloc);
    for asset in assets {
        let entry = entry_of(alloc, &homes, asset)?;
        entries.push(entry)?;
    }
    Ok(entries)
}

/// Appends a line with the figures of these positions.
fn push_figures(
    text: &mut String,
    chains: &[ChainState],
    beginning: &str,
    places: &[Place],
) -> Result<(), AllocError>
    ensures { OnOk result (string_bytes text.new
        ≡ string_bytes text.old
        ++ planned_supply_text (map part_of chains.now)
        (record { beginning = beginning.now; places = places.now })) }
{
    let found = supply_at(chains, places);
    text.push_str(beginning)?;
    push_sum(text, found.home)?;
    text.push_str(" flight ")?;
    push_sum(text, found.flight)?;
    text.push_str(" burned ")?;
    push_sum(text, found.burned)?;
    text.push_str("\n")?;
    Ok(())
}

/// Appends the line of an entry.
fn push_line(
    text: &mut String,
    chains: &[ChainState],
    entry: &SupplyEntry,
) -> Result<(), AllocError>
    ensures { OnOk result (string_bytes text.new
        ≡ string_bytes text.old ++ planned_supply_text (map part_of chains.now) entry.now) }
{
    push_figures(text, chains, &entry.beginning, entry.places.as_slice())
}

/// Appends the lines of entries.
pub(crate) fn push_supplies(
    text: &mut String,
    chains: &[ChainState],
    entries: &[SupplyEntry],
) -> Result<(), AllocError>
    ensures { OnOk result (string_bytes text.new
        ≡ string_bytes text.old
        ++ flat_map (planned_supply_text (map part_of chains.now)) entries.now) }
{
    for entry in entries {
        push_line(text, chains, entry)?;
    }
    Ok(())
}
