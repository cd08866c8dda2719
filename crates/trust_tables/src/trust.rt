//! Which row of a chain's table an asset has, and which chains are believed about it.
ghost use Rattle.std.specs.Prelude.{◌≡◌, ◌↔◌, [], ◌∷◌, IsTrue, is_some, position};
ghost use Rattle.std.specs.List.{list_any};
ghost use Rattle.std.specs.Option.{option_copied};
ghost use Rattle.locations.specs.declared.grammar.Junction.TheVariants.{Parachain};
ghost use Rattle.trust_tables.specs.Trust as trust;
ghost use Rattle.trust_tables.specs.Trust.{is_row_of, is_reserve_role, is_partner_role};

use crate::{AssetRole, AssetRow, ChainId, Site};
use asset_lists::{Asset, AssetId};
use locations::{Junction, Junctions, Location};

/// The index of the first row whose id is the asset's and whose kind fits. It takes no memory.
pub fn find_row(rows: &[AssetRow], a: &Asset) -> Option<usize>
    ensures { result ≡ position (is_row_of a.now) rows.now }
{
    rows.iter().position(|row| lists(row, a))
}

/// Whether a row has the asset's id, and a kind that fits. The row of index `first` is looked at before all others. It takes no memory.
pub fn has_row(rows: &[AssetRow], first: usize, a: &Asset) -> bool
    ensures { result ≡ is_some (position (is_row_of a.now) rows.now) }
{
    is_listed_at(rows, first, a) || find_row(rows, a).is_some()
}

/// Whether the row of an index has the asset's id and kind.
fn is_listed_at(rows: &[AssetRow], place: usize, a: &Asset) -> bool
    ensures { IsTrue result → IsTrue (is_some (position (is_row_of a.now) rows.now)) }
{
    match rows.get(place) {
        Some(row) => lists(row, a),
        None => false,
    }
}

/// Whether the asset's row is a derivative whose reserve lies at the location. A reserve that is the site's own
/// chain has no location. It takes no memory.
pub fn is_reserve(rows: &[AssetRow], site: &Site, a: &Asset, l: &Location) -> bool
    ensures { result ≡ trust.is_reserve rows.now site.now a.now l.now }
{
    match row_of(rows, a) {
        None => false,
        Some(row) => has_reserve(&row.role, site.chain, l),
    }
}

/// Whether the asset's row is native and has a partner that lies at the location. A partner that is the site's own
/// chain has no location. It takes no memory.
pub fn is_partner(rows: &[AssetRow], site: &Site, a: &Asset, l: &Location) -> bool
    ensures { result ≡ trust.is_partner rows.now site.now a.now l.now }
{
    match row_of(rows, a) {
        None => false,
        Some(row) => has_partner(&row.role, site.chain, l),
    }
}

/// The first row whose id is the asset's and whose kind fits.
fn row_of<'a>(rows: &'a [AssetRow], a: &Asset) -> Option<&'a AssetRow>
    ensures { option_copied result ≡ trust.row_of rows.now a.now }
{
    rows.iter().find(|row| lists(row, a))
}

/// Whether the row has the asset's id and kind.
fn lists(row: &AssetRow, a: &Asset) -> bool
    ensures { result ≡ is_row_of a.now row.now }
{
    match &a.id {
        AssetId::Concrete(id) => *id == row.id && a.kind() == row.kind,
        AssetId::Abstract(_) => false,
    }
}

/// Whether the role is that of a derivative whose reserve lies at the location.
fn has_reserve(role: &AssetRole, here: ChainId, l: &Location) -> bool
    ensures { result ≡ is_reserve_role here l.now role.now }
{
    match role {
        AssetRole::Native { .. } => false,
        AssetRole::Derivative { reserve } => lies_at(*reserve, here, l),
    }
}

/// Whether the role is that of a native asset with a partner that lies at the location.
fn has_partner(role: &AssetRole, here: ChainId, l: &Location) -> bool
    ensures { result ≡ is_partner_role here l.now role.now }
{
    match role {
        AssetRole::Native { partners, .. } => any_lies_at(partners.items(), here, l),
        AssetRole::Derivative { .. } => false,
    }
}

/// Whether the location is how the chain `here` names one of the chains.
fn any_lies_at(chains: &[ChainId], here: ChainId, l: &Location) -> bool
    ensures { result ≡ list_any (λ chain. trust.is_location_of here chain l.now) chains.now }
{
    chains.iter().any(|chain| lies_at(*chain, here, l))
}

/// Whether the location is how the chain `here` names the other; no location is how it names itself. It takes no memory.
pub fn lies_at(chain: ChainId, here: ChainId, l: &Location) -> bool
    ensures { result ≡ trust.is_location_of here chain l.now }
{
    match (here, chain) {
        (ChainId::Relay, ChainId::Relay) => false,
        (ChainId::Relay, ChainId::Para(number)) => l.parents == 0 && is_para(&l.interior, number),
        (ChainId::Para(_), ChainId::Relay) => l.parents == 1 && l.interior.items().is_empty(),
        (ChainId::Para(own), ChainId::Para(number)) => {
            own != number && l.parents == 1 && is_para(&l.interior, number)
        }
    }
}

/// Whether it is a parachain's number alone.
fn is_para(junctions: &Junctions, number: u32) -> bool
    ensures { IsTrue result ↔ (junctions.now ≡ Parachain number ∷ []) }
{
    match junctions.items() {
        [Junction::Parachain(other)] => *other == number,
        _ => false,
    }
}
