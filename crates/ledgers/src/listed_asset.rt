//! What a chain lists.
ghost use Rattle.std.specs.Prelude.{◌≡◌};
ghost use Rattle.std.specs.Ordering.{eq_by_cmp, nat_cmp};
ghost use Rattle.asset_lists.specs.Listed.{kind_number};

use asset_lists::Kind;
use indexmap::Equivalent;
use locations::{Location, StoredLocation};
use std::hash::{Hash, Hasher};

/// An asset that a chain lists: a location that has amounts, or a class of instances.
#[derive(Debug, Drop)]
pub(crate) struct ListedAsset {
    pub(crate) id: StoredLocation,
    pub(crate) kind: Kind,
}

impl PartialEq for ListedAsset {
    ghost use Rattle.std.specs.Cmp.{partial_equiv_from_equiv, eq_by_cmp_equiv};
    ghost use Rattle.std.specs.Ordering.{eq_by_cmp};
    ghost use Rattle.ledgers.specs.AssetTable.{row_cmp, rows_total};

    ghost eq = { eq_by_cmp row_cmp };

    ghost laws = { partial_equiv_from_equiv (eq_by_cmp_equiv rows_total) };

    fn eq(&self, other: &ListedAsset) -> bool {
        self.id == other.id && is_same_kind(self.kind, other.kind)
    }
}

impl Eq for ListedAsset {
    ghost use Rattle.std.specs.Cmp.{eq_by_cmp_equiv};
    ghost use Rattle.ledgers.specs.AssetTable.{rows_total};

    ghost laws = { eq_by_cmp_equiv rows_total };
}

impl Hash for ListedAsset {
    ghost use Rattle.locations.specs.Hashing.{location_input};
    ghost use Rattle.ledgers.specs.AssetKeys.{hashed_alike};

    ghost hash_input = { λ a. location_input a.id };

    ghost respects_eq = { hashed_alike };

    fn hash<H: Hasher>(&self, state: &mut H) {
        self.id.hash(state);
    }
}

/// An asset that is looked up in a list, with its location borrowed.
#[derive(Clone, Copy)]
pub(crate) struct Sought<'a> {
    pub(crate) id: &'a Location,
    pub(crate) kind: Kind,
}

impl PartialEq for Sought<'_> {
    ghost use Rattle.std.specs.Cmp.{partial_equiv_from_equiv, eq_by_cmp_equiv, on_equiv};
    ghost use Rattle.std.specs.Ordering.{eq_by_cmp};
    ghost use Rattle.ledgers.specs.AssetTable.{row_cmp, rows_total, listed_asset_of};

    ghost eq = { λ a b. eq_by_cmp row_cmp (listed_asset_of a.id.now a.kind)
        (listed_asset_of b.id.now b.kind) };

    ghost laws = { partial_equiv_from_equiv (on_equiv
        (λ a. listed_asset_of a.id.now a.kind) (eq_by_cmp_equiv rows_total)) };

    fn eq(&self, other: &Self) -> bool {
        *self.id == *other.id && is_same_kind(self.kind, other.kind)
    }
}

impl Eq for Sought<'_> {
    ghost use Rattle.std.specs.Cmp.{eq_by_cmp_equiv, on_equiv};
    ghost use Rattle.ledgers.specs.AssetTable.{rows_total, listed_asset_of};

    ghost laws = { on_equiv (λ a. listed_asset_of a.id.now a.kind) (eq_by_cmp_equiv rows_total) };
}

impl Hash for Sought<'_> {
    ghost use Rattle.locations.specs.Hashing.{location_input};
    ghost use Rattle.ledgers.specs.AssetTable.{listed_asset_of};
    ghost use Rattle.ledgers.specs.AssetKeys.{hashed_alike};

    ghost hash_input = { λ a. location_input a.id.now };

    ghost respects_eq = { λ a b. hashed_alike (listed_asset_of a.id.now a.kind)
        (listed_asset_of b.id.now b.kind) };

    fn hash<H: Hasher>(&self, state: &mut H) {
        self.id.hash(state);
    }
}

impl Equivalent<ListedAsset> for Sought<'_> {
    ghost use Rattle.std.specs.Cmp.{eq_by_cmp_equiv};
    ghost use Rattle.std.specs.Ordering.{eq_by_cmp};
    ghost use Rattle.ledgers.specs.AssetTable.{row_cmp, rows_total, listed_asset_of};
    ghost use Rattle.ledgers.specs.AssetKeys.{hashed_alike};

    ghost equivalent = { λ q k. eq_by_cmp row_cmp (listed_asset_of q.id.now q.kind) k };

    ghost respects_hash = { λ q k. hashed_alike (listed_asset_of q.id.now q.kind) k };

    ghost respects_eq = { λ q. (eq_by_cmp_equiv rows_total).congr
        (listed_asset_of q.id.now q.kind) };

    fn equivalent(&self, key: &ListedAsset) -> bool {
        key.id.is(self.id) && is_same_kind(self.kind, key.kind)
    }
}

/// Whether both are amounts, or both classes.
fn is_same_kind(kind: Kind, other: Kind) -> bool
    ensures { result ≡ eq_by_cmp nat_cmp (kind_number kind) (kind_number other) }
{
    match (kind, other) {
        (Kind::Fungible, Kind::Fungible) => true,
        (Kind::Fungible, Kind::Class) => false,
        (Kind::Class, Kind::Fungible) => false,
        (Kind::Class, Kind::Class) => true,
    }
}
