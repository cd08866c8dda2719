//! The list of a chain's assets, in which each has a number.
ghost use Rattle.std.specs.Prelude.{◌≡◌, map, length, IfOk, ◌+◌, ◌<◌, ◌^◌, [], ◌∷◌, ◌++◌, vec_len, vec_capacity, slice_get};
ghost use Rattle.std.specs.Ordering.{eq_by_cmp};
ghost use Rattle.std.specs.List.{IsDistinct};
ghost use Rattle.asset_lists.specs.Listed.{listed_cmp};
ghost use Rattle.ledgers.specs.Ledgers.{listed_pair, number_in};

use crate::listed_asset::{ListedAsset, Sought};
use asset_lists::{AssetId, Kind};
use indexmap::IndexSet;
use locations::{Location, StoredLocation};
use std::alloc::{AllocError, Global};
use std::marker::Model;

/// The assets that a chain lists, each once. The index of an asset is its number.
#[derive(Drop)]
pub struct AssetTable {
    assets: IndexSet<ListedAsset>,
}

impl Model for AssetTable {
    ghost use Rattle.std.specs.Prelude.{List, length, ◌<◌, ◌^◌};
    ghost use Rattle.asset_lists.specs.Listed.{Listed};
    ghost use Rattle.ledgers.specs.AssetTable.{table_keys, table_code};

    ghost Value = { List Listed };

    ghost coded = { table_code };

    ghost view = { λ t. table_keys t.assets.keys };

    ghost invariant = { λ t. length t.assets.keys < 2 ^ 32 };
}

impl AssetTable {
    /// The table of these assets, of which none is there twice.
    pub fn open(alloc: Global, list: Vec<(Location, Kind)>) -> Result<AssetTable, AllocError>
        requires distinct { IsDistinct (eq_by_cmp listed_cmp) (map listed_pair list.items) }
        requires few { length list.items < 2 ^ 32 }
        ensures opened { IfOk result (λ table. table ≡ map listed_pair list.items) }
    {
        let mut assets = IndexSet::with_capacity(alloc, list.len())?;
        for (id, kind) in list {
            let id = StoredLocation::of(alloc, &id)?;
            assets.insert(ListedAsset { id, kind })?;
        }
        Ok(AssetTable { assets })
    }

    /// Puts an asset at the end of a list that a table is to be opened with, which has room for it.
    pub fn push_listed(list: &mut Vec<(Location, Kind)>, id: &Location, kind: Kind)
        requires room { vec_len list.old < vec_capacity list.old }
        ensures items { list.new.items ≡ list.old.items ++ (id.now, kind) ∷ [] }
        ensures len { vec_len list.new ≡ vec_len list.old + 1 }
        ensures capacity { vec_capacity list.new ≡ vec_capacity list.old }
    {
        let last = list.len();
        list.push_reserved((Location::here(), kind));
        let place = &mut list[last];
        place.0.assign(id);
        place.1 = kind;
    }

    /// How many assets there are.
    pub fn len(&self) -> u32
        ensures { result ≡ length self.now }
    {
        self.assets.len() as u32
    }

    /// The asset of a number.
    pub fn get(&self, number: u32) -> Option<(AssetId, Kind)>
        ensures { result ≡ slice_get self.now number }
    {
        match self.assets.get_index(number as usize) {
            Some(asset) => Some((AssetId::Concrete(asset.id.to_location()), asset.kind)),
            None => None,
        }
    }

    /// The number of an asset.
    pub fn number_of(&self, id: &AssetId, kind: Kind) -> Option<u32>
        ensures { result ≡ number_in self.now (id.now, kind) }
    {
        match id {
            AssetId::Concrete(place) => {
                let asset = Sought { id: place, kind };
                match self.assets.get_index_of(asset) {
                    Some(number) => Some(number as u32),
                    None => None,
                }
            }
            AssetId::Abstract(_) => None,
        }
    }
}
