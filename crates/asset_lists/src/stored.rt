//! An asset's id in no more memory than it needs.
ghost use Rattle.std.specs.Prelude.{◌≡◌, IfOk};
ghost use Rattle.std.specs.Ordering.{eq_by_cmp};
ghost use Rattle.asset_lists.specs.Units.{asset_id_cmp};

use crate::AssetId;
use locations::StoredLocation;
use std::alloc::{AllocError, Global};
use std::marker::Model;

/// An id that a table keeps. Contracts see it as the id.
#[derive(Debug, Drop)]
pub struct StoredId {
    // None where the id is bytes.
    place: Option<StoredLocation>,
    bytes: [u8; 32],
}

impl Model for StoredId {
    ghost use Rattle.asset_lists.specs.declared.units.AssetId.{AssetId};
    ghost use Rattle.asset_lists.specs.Stored.{id_of};

    ghost Value = { AssetId };

    ghost view = { λ s. id_of s.place s.bytes };
}

impl StoredId {
    /// The same id, stored. An `Err` is out of memory.
    pub fn of(alloc: Global, id: &AssetId) -> Result<StoredId, AllocError>
        ensures { IfOk result (λ stored. stored ≡ id.now) }
    {
        match id {
            AssetId::Concrete(place) => {
                let place = StoredLocation::of(alloc, place)?;
                Ok(StoredId {
                    place: Some(place),
                    bytes: [0; 32],
                })
            }
            AssetId::Abstract(bytes) => Ok(StoredId {
                place: None,
                bytes: *bytes,
            }),
        }
    }

    /// The same id.
    pub fn to_id(&self) -> AssetId
        ensures { result ≡ self.now }
    {
        match &self.place {
            Some(place) => AssetId::Concrete(place.to_location()),
            None => AssetId::Abstract(self.bytes),
        }
    }

    /// Whether an id is this one.
    pub fn is(&self, id: &AssetId) -> bool
        ensures { result ≡ eq_by_cmp asset_id_cmp id.now self.now }
    {
        match id {
            AssetId::Concrete(place) => match &self.place {
                Some(own) => own.is(place),
                None => false,
            },
            AssetId::Abstract(bytes) => match &self.place {
                Some(_) => false,
                None => bytes.cmp(&self.bytes).is_eq(),
            },
        }
    }
}
