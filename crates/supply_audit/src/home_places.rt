//! The positions of the rows of assets at their homes.
ghost use Rattle.std.specs.Prelude.{◌≡◌, ◌++◌, ◌∷◌, [], map, IfOk, OnOk, IsTrue, if◌then◌else◌};
ghost use Rattle.std.specs.BTreeSet.{contains};
ghost use Rattle.std.specs.Ordering.{eq_by_cmp};
ghost use Rattle.trust_tables.specs.Chains.{path_of_site};
ghost use Rattle.law_coherence.specs.UniversalAssets.{UniversalAsset};
ghost use Rattle.law_coherence.specs.Networks.{is_home};
ghost use Rattle.network_steps.specs.Tests.{has_path};
ghost use Rattle.chain_state.specs.PartOf.{part_of};
ghost use Rattle.supply_audit.specs.Assets.{universal_asset_cmp};
ghost use Rattle.supply_audit.specs.Places.{chain_table};
ghost use Rattle.supply_audit.specs.RowPlaces.{chain_places, home_places, place_if, places_in};

use crate::Place;
use crate::network_asset::NetworkAsset;
use crate::table::{Homes, homes_of};
use chain_state::ChainState;
use indexmap::IndexMap;
use std::alloc::{AllocError, Global};
use trust_tables::AssetRow;

/// Positions of the rows of each asset.
pub(crate) type Places = IndexMap<NetworkAsset, Vec<Place>>;

/// The positions of the rows of each asset, at the chains where it is at home.
#[derive(Drop)]
pub struct HomePlaces {
    places: Places,
}

impl HomePlaces {
    /// The positions of the rows at these chains. An `Err` is out of memory.
    pub fn of(alloc: Global, chains: &[ChainState]) -> Result<HomePlaces, AllocError>
        ensures { IfOk result (λ table. (a : UniversalAsset) → places_in table.places.entries a
            ≡ home_places a (map chain_table (map part_of chains.now))) }
    {
        let mut places = IndexMap::new(alloc);
        for (number, chain) in chains.iter().enumerate() {
            add_chain(alloc, &mut places, number, chain)?;
        }
        Ok(HomePlaces { places })
    }

    /// The positions of the rows of an asset, chain by chain in listed order. An `Err` is out of memory.
    pub fn places(&self, alloc: Global, asset: &NetworkAsset) -> Result<Vec<Place>, AllocError>
        ensures { IfOk result (λ list. list.items ≡ places_in self.now.places.entries asset.now) }
    {
        match self.places.get(asset) {
            None => Ok(Vec::new(alloc)),
            Some(list) => list.as_slice().to_vec(alloc),
        }
    }
}

/// Writes the positions of an asset.
fn write_places(
    places: &mut Places,
    asset: NetworkAsset,
    list: Vec<Place>,
) -> Result<(), AllocError>
    ensures { OnOk result ((a : UniversalAsset) → places_in places.new.entries a
        ≡ (if eq_by_cmp universal_asset_cmp asset a then list.items else places_in places.old.entries a)) }
{
    places.insert(asset, list)?;
    Ok(())
}

/// Adds a position to those of an asset.
pub(crate) fn add_place(
    alloc: Global,
    places: &mut Places,
    asset: NetworkAsset,
    place: Place,
) -> Result<(), AllocError>
    ensures { OnOk result ((a : UniversalAsset)
        → places_in places.new.entries a
        ≡ (if eq_by_cmp universal_asset_cmp asset a then places_in places.old.entries asset ++ place ∷ []
        else places_in places.old.entries a)) }
{
    if let Some(list) = places.get_mut(&asset) {
        list.push(place)?;
        return Ok(());
    }
    let mut list = Vec::new(alloc);
    list.push(place)?;
    write_places(places, asset, list)
}

/// Adds the position of a row, where its asset is at home at the chain.
fn add_row(
    alloc: Global,
    places: &mut Places,
    homes: &Homes,
    chain: &ChainState,
    place: Place,
    row: &AssetRow,
) -> Result<(), AllocError>
    requires path { IsTrue (has_path (path_of_site (part_of chain.now).site) row.now) }
    requires homes { (a : UniversalAsset) → contains universal_asset_cmp homes.now a
        ≡ is_home a (chain_table (part_of chain.now)) }
    ensures { OnOk result ((a : UniversalAsset) → places_in places.new.entries a
        ≡ places_in places.old.entries a
        ++ place_if (is_home a (chain_table (part_of chain.now))) (chain_table (part_of chain.now)) a
        place.chain (place.row, row.now)) }
{
    let asset = NetworkAsset::listed_at(chain.site(), row);
    if !homes.contains(&asset) {
        return Ok(());
    }
    add_place(alloc, places, asset, place)
}

/// Adds the positions of a chain's rows.
fn add_rows(
    alloc: Global,
    places: &mut Places,
    homes: &Homes,
    number: usize,
    chain: &ChainState,
) -> Result<(), AllocError>
    requires homes { (a : UniversalAsset) → contains universal_asset_cmp homes.now a
        ≡ is_home a (chain_table (part_of chain.now)) }
    ensures { OnOk result ((a : UniversalAsset) → places_in places.new.entries a
        ≡ places_in places.old.entries a
        ++ chain_places (is_home a (chain_table (part_of chain.now))) a
        (number, chain_table (part_of chain.now))) }
{
    let rows = chain.rows();
    for (k, row) in rows.iter().enumerate() {
        let place = Place {
            chain: number,
            row: k,
        };
        add_row(alloc, places, homes, chain, place, row)?;
    }
    Ok(())
}

/// Adds a chain.
fn add_chain(
    alloc: Global,
    places: &mut Places,
    number: usize,
    chain: &ChainState,
) -> Result<(), AllocError>
    ensures { OnOk result ((a : UniversalAsset) → places_in places.new.entries a
        ≡ places_in places.old.entries a
        ++ chain_places (is_home a (chain_table (part_of chain.now))) a
        (number, chain_table (part_of chain.now))) }
{
    let homes = homes_of(alloc, chain)?;
    add_rows(alloc, places, &homes, number, chain)
}
