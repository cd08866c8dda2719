//! The positions of the rows of each asset, at all chains.
ghost use Rattle.std.specs.Prelude.{◌≡◌, ◌++◌, true, map, IfOk, OnOk, IsTrue};
ghost use Rattle.std.specs.List.{filter};
ghost use Rattle.trust_tables.specs.Chains.{path_of_site};
ghost use Rattle.law_coherence.specs.UniversalAssets.{UniversalAsset};
ghost use Rattle.network_steps.specs.Tests.{has_path};
ghost use Rattle.chain_state.specs.PartOf.{part_of};
ghost use Rattle.supply_audit.specs.Places.{chain_table};
ghost use Rattle.supply_audit.specs.RowPlaces.{chain_places, place_if, places_in};
ghost use Rattle.supply_audit.specs.AssetPlaces.{ArePlaces, is_at};

use crate::Place;
use crate::home_places::{Places, add_place};
use crate::network_asset::NetworkAsset;
use chain_state::ChainState;
use indexmap::IndexMap;
use std::alloc::{AllocError, Global};
use trust_tables::AssetRow;

/// The positions of the rows of each asset, at all chains that list it.
#[derive(Drop)]
pub struct AssetPlaces {
    places: Places,
}

impl AssetPlaces {
    /// The positions of the rows of these chains. It takes time in proportion to the rows of all chains, where few paths are hashed alike. An `Err` is
    /// out of memory.
    pub fn of(alloc: Global, chains: &[ChainState]) -> Result<AssetPlaces, AllocError>
        ensures { IfOk result
            (λ index. ArePlaces index.places.entries (map chain_table (map part_of chains.now))) }
    {
        let mut places = IndexMap::new(alloc);
        for (number, chain) in chains.iter().enumerate() {
            add_rows(alloc, &mut places, number, chain)?;
        }
        Ok(AssetPlaces { places })
    }

    /// The positions of the rows of an asset, chain by chain.
    pub(crate) fn of_asset(&self, asset: &NetworkAsset) -> &[Place]
        ensures { result.now ≡ places_in self.now.places.entries asset.now }
    {
        match self.places.get(asset) {
            None => &[],
            Some(list) => list.as_slice(),
        }
    }
}

/// Those of the positions that are at the chain of this number.
pub(crate) fn places_at(
    alloc: Global,
    places: &[Place],
    chain: usize,
) -> Result<Vec<Place>, AllocError>
    ensures { IfOk result (λ list. list.items ≡ filter (is_at chain) places.now) }
{
    let mut list = Vec::new(alloc);
    for place in places {
        if place.chain == chain {
            list.push(*place)?;
        }
    }
    Ok(list)
}

/// Adds the position of a row.
fn add_row(
    alloc: Global,
    places: &mut Places,
    chain: &ChainState,
    place: Place,
    row: &AssetRow,
) -> Result<(), AllocError>
    requires { IsTrue (has_path (path_of_site (part_of chain.now).site) row.now) }
    ensures { OnOk result ((a : UniversalAsset) → places_in places.new.entries a
        ≡ places_in places.old.entries a
        ++ place_if true (chain_table (part_of chain.now)) a place.chain (place.row, row.now)) }
{
    let asset = NetworkAsset::listed_at(chain.site(), row);
    add_place(alloc, places, asset, place)
}

/// Adds the positions of a chain's rows.
fn add_rows(
    alloc: Global,
    places: &mut Places,
    number: usize,
    chain: &ChainState,
) -> Result<(), AllocError>
    ensures { OnOk result ((a : UniversalAsset) → places_in places.new.entries a
        ≡ places_in places.old.entries a
        ++ chain_places true a (number, chain_table (part_of chain.now))) }
{
    let rows = chain.rows();
    for (k, row) in rows.iter().enumerate() {
        let place = Place {
            chain: number,
            row: k,
        };
        add_row(alloc, places, chain, place, row)?;
    }
    Ok(())
}
