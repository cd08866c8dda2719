//! What the rows of a chain list.
ghost use Rattle.std.specs.Prelude.{◌≡◌, ◌+◌, ◌<◌, [], ◌∷◌, ◌++◌, length, map, vec_len, vec_capacity, IfOk};
ghost use Rattle.asset_lists.specs.declared.units.AssetId.TheVariants.{Concrete};
ghost use Rattle.ledgers.specs.Ledgers.{listed_pair};
ghost use Rattle.trust_tables.specs.Trust.{listing};
ghost use Rattle.network_steps.specs.Tests.{row_checking};

use asset_lists::{AssetId, Kind};
use ledgers::AssetTable;
use locations::Location;
use std::alloc::{AllocError, Global};
use trust_tables::{AssetRole, AssetRow};

/// The listed assets, by their locations.
pub(crate) fn places(alloc: Global, rows: &[AssetRow]) -> Result<Vec<(Location, Kind)>, AllocError>
    ensures listed { IfOk result (λ list. map listed_pair list.items ≡ listing rows.now) }
    ensures as_many { IfOk result (λ list. length list.items ≡ length rows.now) }
{
    let mut list = Vec::with_capacity(alloc, rows.len())?;
    for row in rows {
        AssetTable::push_listed(&mut list, &row.id, row.kind);
    }
    Ok(list)
}

/// Puts the id of a location with a kind at the end of a list that has room for it.
fn push_id(list: &mut Vec<(AssetId, Kind)>, id: &Location, kind: Kind)
    requires room { vec_len list.old < vec_capacity list.old }
    ensures items { list.new.items ≡ list.old.items ++ (Concrete id.now, kind) ∷ [] }
    ensures len { vec_len list.new ≡ vec_len list.old + 1 }
    ensures capacity { vec_capacity list.new ≡ vec_capacity list.old }
{
    let last = list.len();
    list.push_reserved((AssetId::Concrete(Location::here()), kind));
    let place = &mut list[last];
    place.0.assign_place(id);
    place.1 = kind;
}

/// The listed assets, by their ids.
pub(crate) fn ids(alloc: Global, rows: &[AssetRow]) -> Result<Vec<(AssetId, Kind)>, AllocError>
    ensures { IfOk result (λ list. list.items ≡ listing rows.now) }
{
    let mut list = Vec::with_capacity(alloc, rows.len())?;
    for row in rows {
        push_id(&mut list, &row.id, row.kind);
    }
    Ok(list)
}

/// The row's checking account, if it has one.
fn row_checking(row: &AssetRow) -> Option<u128>
    ensures { result ≡ row_checking row.now }
{
    match &row.role {
        AssetRole::Native { checking, .. } => *checking,
        AssetRole::Derivative { .. } => None,
    }
}

/// The checking accounts, row by row.
pub(crate) fn checking_accounts(
    alloc: Global,
    rows: &[AssetRow],
) -> Result<Vec<Option<u128>>, AllocError>
    ensures { IfOk result (λ list. list.items ≡ map row_checking rows.now) }
{
    let mut list = Vec::with_capacity(alloc, rows.len())?;
    for row in rows {
        list.push(row_checking(row))?;
    }
    Ok(list)
}
