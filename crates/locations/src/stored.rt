//! A location in no more memory than its junctions need.
ghost use Rattle.std.specs.Prelude.{◌≡◌, ◌≤◌, length, IfOk};
ghost use Rattle.std.specs.Ordering.{eq_by_cmp};
ghost use Rattle.locations.specs.Order.{location_cmp};

use crate::interior::are_lists_apart;
use crate::{Junction, Junctions, Location};
use std::alloc::{AllocError, Global};
use std::hash::{Hash, Hasher};
use std::marker::Model;

/// A location that a table keeps: a `Location` has room for eight junctions, this one for those that there are. Contracts see it as the location.
#[derive(Debug, Drop)]
pub struct StoredLocation {
    parents: u8,
    interior: Vec<Junction>,
}

impl Model for StoredLocation {
    ghost use Rattle.std.specs.Prelude.{◌≤◌, length};
    ghost use Rattle.locations.specs.declared.relative.Location.{Location};

    ghost Value = { Location };

    ghost view = { λ l. record { parents = l.parents; interior = l.interior.items } };

    ghost invariant = { λ l. length l.interior.items ≤ 8 };
}

/// Whether both are one location.
fn is_one(parents: u8, interior: &[Junction], other_parents: u8, other: &[Junction]) -> bool
    ensures { result ≡ eq_by_cmp location_cmp
        (record { parents = parents; interior = interior.now })
        (record { parents = other_parents; interior = other.now }) }
{
    if are_lists_apart(interior, other) {
        return false;
    }
    let lengths = interior.len().cmp(&other.len());
    parents
        .cmp(&other_parents)
        .then(lengths.then(interior.cmp(other)))
        .is_eq()
}

impl StoredLocation {
    /// The same location, stored. An `Err` is out of memory.
    pub fn of(alloc: Global, place: &Location) -> Result<StoredLocation, AllocError>
        ensures { IfOk result (λ stored. stored ≡ place.now) }
    {
        let interior = Vec::from_slice(alloc, place.interior.items())?;
        Ok(StoredLocation {
            parents: place.parents,
            interior,
        })
    }

    /// The same location.
    pub fn to_location(&self) -> Location
        ensures { result ≡ self.now }
    {
        Location {
            parents: self.parents,
            interior: Junctions::from_few(self.interior.as_slice()),
        }
    }

    /// Whether a location is this one.
    pub fn is(&self, place: &Location) -> bool
        ensures { result ≡ eq_by_cmp location_cmp place.now self.now }
    {
        is_one(
            place.parents,
            place.interior.items(),
            self.parents,
            self.interior.as_slice(),
        )
    }
}

impl PartialEq for StoredLocation {
    ghost use Rattle.std.specs.Cmp.{partial_equiv_from_equiv, eq_by_cmp_equiv};
    ghost use Rattle.std.specs.Ordering.{eq_by_cmp};
    ghost use Rattle.locations.specs.Order.{location_cmp};
    ghost use Rattle.locations.specs.OrderLaws.{location_total};

    ghost eq = { eq_by_cmp location_cmp };

    ghost laws = { partial_equiv_from_equiv (eq_by_cmp_equiv location_total) };

    fn eq(&self, other: &StoredLocation) -> bool {
        is_one(
            self.parents,
            self.interior.as_slice(),
            other.parents,
            other.interior.as_slice(),
        )
    }
}

impl Eq for StoredLocation {
    ghost use Rattle.std.specs.Cmp.{eq_by_cmp_equiv};
    ghost use Rattle.locations.specs.OrderLaws.{location_total};

    ghost laws = { eq_by_cmp_equiv location_total };
}

/// Hashes what a `Location` hashes.
impl Hash for StoredLocation {
    ghost use Rattle.locations.specs.Hashing.{location_input};
    ghost use Rattle.locations.specs.HashLaws.{location_alike};

    ghost hash_input = { location_input };

    ghost respects_eq = { location_alike };

    fn hash<H: Hasher>(&self, state: &mut H) {
        state.write_u8(self.parents);
        for junction in self.interior.as_slice() {
            junction.feed(state);
        }
    }
}
