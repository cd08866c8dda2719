//! The lines of what backs each derivative.
ghost use Rattle.std.specs.Prelude.{◌≡◌, ◌++◌, map, IfOk, OnOk, IsTrue, flat_map, string_bytes};
ghost use Rattle.std.specs.List.{enumerate_from};
ghost use Rattle.trust_tables.specs.Chains.{path_of_site};
ghost use Rattle.network_steps.specs.Tests.{has_path, have_paths};
ghost use Rattle.chain_state.specs.PartOf.{part_of};
ghost use Rattle.supply_audit.specs.AssetPlaces.{ArePlaces};
ghost use Rattle.supply_audit.specs.Places.{chain_table};
ghost use Rattle.report_text.specs.Plan.{backing_beginning, planned_backing, planned_if, planned_backings, planned_backing_text};

use crate::figures::{ROOM, kind_name, push_chain, push_sum};
use chain_state::ChainState;
use location_wire::push_path_text;
use std::alloc::{AllocError, Global};
use std::marker::Model;
use supply_audit::{AssetPlaces, Cover, NetworkAsset, backing_at};
use trust_tables::{AssetRole, AssetRow, Site};

/// The line of a derivative: its beginning, and the positions of it and of what covers it.
#[derive(Drop)]
pub(crate) struct BackingEntry {
    pub(crate) beginning: String,
    pub(crate) cover: Option<Cover>,
}

impl Model for BackingEntry {
    ghost use Rattle.std.specs.Prelude.{string_bytes};
    ghost use Rattle.report_text.specs.Planned.{PlannedBacking};

    ghost Value = { PlannedBacking };

    ghost view = { λ e. record { beginning = string_bytes e.beginning; cover = e.cover } };
}

/// What comes before a derivative's figures.
#[tactic(auto, unfolding(crate::specs::Plan::backing_beginning))]
fn beginning(alloc: Global, site: &Site, row: &AssetRow) -> Result<String, AllocError>
    requires { IsTrue (has_path (path_of_site site.now) row.now) }
    ensures { IfOk result (λ text. string_bytes text ≡ backing_beginning site.now row.now) }
{
    let asset = NetworkAsset::listed_at(site, row);
    let mut text = String::with_capacity(alloc, ROOM)?;
    text.push_str("  backing ")?;
    push_chain(&mut text, site.chain)?;
    text.push_str(" ")?;
    text.push_str(kind_name(row.kind))?;
    text.push_str(" ")?;
    push_path_text(alloc, &mut text, asset.path())?;
    text.push_str(" held ")?;
    Ok(text)
}

/// The entry of the derivative in a row, which is at this index of its chain's list.
fn entry_of(
    alloc: Global,
    chains: &[ChainState],
    index: &AssetPlaces,
    site: &Site,
    place: usize,
    row: &AssetRow,
) -> Result<BackingEntry, AllocError>
    requires index { ArePlaces index.now.places.entries (map chain_table (map part_of chains.now)) }
    requires path { IsTrue (has_path (path_of_site site.now) row.now) }
    ensures { IfOk result (λ entry. entry
        ≡ planned_backing (map chain_table (map part_of chains.now)) site.now place row.now) }
{
    let beginning = beginning(alloc, site, row)?;
    let cover = Cover::of(alloc, chains, index, site.chain, place)?;
    Ok(BackingEntry { beginning, cover })
}

/// Appends the entry of a row, where it is of a derivative.
fn plan_row(
    alloc: Global,
    entries: &mut Vec<BackingEntry>,
    chains: &[ChainState],
    index: &AssetPlaces,
    site: &Site,
    place: usize,
    row: &AssetRow,
) -> Result<(), AllocError>
    requires index { ArePlaces index.now.places.entries (map chain_table (map part_of chains.now)) }
    requires path { IsTrue (has_path (path_of_site site.now) row.now) }
    ensures { OnOk result (entries.new.items
        ≡ entries.old.items ++ planned_if (map chain_table (map part_of chains.now)) site.now
        (place, row.now)) }
{
    match &row.role {
        AssetRole::Native { .. } => Ok(()),
        AssetRole::Derivative { .. } => {
            let entry = entry_of(alloc, chains, index, site, place, row)?;
            entries.push(entry)?;
            Ok(())
        }
    }
}

/// Appends the entries of a chain's rows.
fn plan_rows(
    alloc: Global,
    entries: &mut Vec<BackingEntry>,
    chains: &[ChainState],
    index: &AssetPlaces,
    site: &Site,
    rows: &[AssetRow],
) -> Result<(), AllocError>
    requires index { ArePlaces index.now.places.entries (map chain_table (map part_of chains.now)) }
    requires paths { IsTrue (have_paths (path_of_site site.now) rows.now) }
    ensures { OnOk result (entries.new.items
        ≡ entries.old.items ++ flat_map
        (planned_if (map chain_table (map part_of chains.now)) site.now) (enumerate_from 0 rows.now)) }
{
    for (place, row) in rows.iter().enumerate() {
        plan_row(alloc, entries, chains, index, site, place, row)?;
    }
    Ok(())
}

/// Appends the entries of a chain.
fn plan_chain(
    alloc: Global,
    entries: &mut Vec<BackingEntry>,
    chains: &[ChainState],
    index: &AssetPlaces,
    chain: &ChainState,
) -> Result<(), AllocError>
    requires { ArePlaces index.now.places.entries (map chain_table (map part_of chains.now)) }
    ensures { OnOk result (entries.new.items
        ≡ entries.old.items ++ planned_backings (map chain_table (map part_of chains.now))
        (chain_table (part_of chain.now))) }
{
    plan_rows(alloc, entries, chains, index, chain.site(), chain.rows())
}

/// The entries of the derivatives of all chains, of which `chains` is the network.
pub(crate) fn plan_backings(
    alloc: Global,
    chains: &[ChainState],
) -> Result<Vec<BackingEntry>, AllocError>
    ensures { IfOk result (λ entries. entries.items
        ≡ flat_map (planned_backings (map chain_table (map part_of chains.now)))
        (map chain_table (map part_of chains.now))) }
{
    let index = AssetPlaces::of(alloc, chains)?;
    let mut entries = Vec::new(alloc);
    for chain in chains {
        plan_chain(alloc, &mut entries, chains, &index, chain)?;
    }
    Ok(entries)
}

/// Appends the line of an entry.
fn push_line(
    text: &mut String,
    chains: &[ChainState],
    entry: &BackingEntry,
) -> Result<(), AllocError>
    ensures { OnOk result (string_bytes text.new
        ≡ string_bytes text.old ++ planned_backing_text (map part_of chains.now) entry.now) }
{
    let found = backing_at(chains, &entry.cover);
    text.push_str(&entry.beginning)?;
    push_sum(text, found.held)?;
    text.push_str(" owed ")?;
    push_sum(text, found.owed)?;
    text.push_str("\n")
}

/// Appends the lines of entries.
pub(crate) fn push_backings(
    text: &mut String,
    chains: &[ChainState],
    entries: &[BackingEntry],
) -> Result<(), AllocError>
    ensures { OnOk result (string_bytes text.new
        ≡ string_bytes text.old
        ++ flat_map (planned_backing_text (map part_of chains.now)) entries.now) }
{
    for entry in entries {
        push_line(text, chains, entry)?;
    }
    Ok(())
}
