//! An asset of a network, wherever it is looked at from.
ghost use Rattle.std.specs.Prelude.{◌≡◌, IsTrue, refl};
ghost use Rattle.std.specs.Cmp.{partial_equiv_from_equiv, eq_by_cmp_equiv, po};
ghost use Rattle.std.specs.Ordering.{nat_cmp, eq_by_cmp, as_partial_cmp};
ghost use Rattle.asset_lists.specs.Listed.{kind_number};
ghost use Rattle.trust_tables.specs.Chains.{path_of_site};
ghost use Rattle.network_steps.specs.Tests.{has_path};
ghost use Rattle.supply_audit.specs.Assets.{universal_asset_cmp, listed_at};
ghost use Rattle.supply_audit.specs.AssetLaws.{universal_assets_total};

use asset_lists::Kind;
use locations::Junctions;
use std::cmp::Ordering;
use std::hash::{Hash, Hasher};
use std::marker::Model;
use trust_tables::{AssetRow, Site};

/// An asset of a network. Contracts see it as its path and its kind.
#[derive(Drop)]
pub struct NetworkAsset {
    path: Junctions,
    kind: Kind,
}

impl Model for NetworkAsset {
    ghost use Rattle.law_coherence.specs.UniversalAssets.{UniversalAsset};

    ghost Value = { UniversalAsset };

    ghost view = { λ a. (a.path, a.kind) };
}

/// Fungible assets come before classes.
fn kind_order(a: Kind, b: Kind) -> Ordering
    ensures { result ≡ nat_cmp (kind_number a) (kind_number b) }
{
    match (a, b) {
        (Kind::Fungible, Kind::Fungible) => Ordering::Equal,
        (Kind::Fungible, Kind::Class) => Ordering::Less,
        (Kind::Class, Kind::Fungible) => Ordering::Greater,
        (Kind::Class, Kind::Class) => Ordering::Equal,
    }
}

impl NetworkAsset {
    /// The asset of a row, which has a path, of the chain at the site.
    pub fn listed_at(site: &Site, row: &AssetRow) -> NetworkAsset
        requires { IsTrue (has_path (path_of_site site.now) row.now) }
        ensures { result ≡ listed_at site.now row.now }
    {
        let context = site.path();
        let chain = context.items();
        let shared = chain.len() - usize::from(row.id.parents);
        // For speed: the path is made where it stays.
        let mut asset = NetworkAsset {
            path: Junctions::from_few(&chain[..shared]),
            kind: row.kind,
        };
        let _ = asset.path.append(&row.id.interior);
        asset
    }

    /// Its path.
    pub fn path(&self) -> &Junctions
        ensures { result.now ≡ self.now.0 }
    {
        &self.path
    }

    /// Whether it has amounts or instances.
    pub fn kind(&self) -> Kind
        ensures { result ≡ self.now.1 }
    {
        self.kind
    }
}

impl PartialEq for NetworkAsset {
    ghost eq = { eq_by_cmp universal_asset_cmp };

    ghost laws = { partial_equiv_from_equiv (eq_by_cmp_equiv universal_assets_total) };

    fn eq(&self, other: &NetworkAsset) -> bool {
        self.cmp(other).is_eq()
    }
}

impl Eq for NetworkAsset {
    ghost laws = { eq_by_cmp_equiv universal_assets_total };
}

impl PartialOrd for NetworkAsset {
    ghost partial_cmp = { as_partial_cmp universal_asset_cmp };

    ghost laws = { po universal_assets_total (λ _ _. refl) };

    fn partial_cmp(&self, other: &NetworkAsset) -> Option<Ordering> {
        Some(self.cmp(other))
    }
}

/// Hashes the path.
impl Hash for NetworkAsset {
    ghost use Rattle.locations.specs.Hashing.{junctions_input};
    ghost use Rattle.supply_audit.specs.AssetLaws.{assets_alike};

    ghost hash_input = { λ a. junctions_input a.0 };

    ghost respects_eq = { assets_alike };

    fn hash<H: Hasher>(&self, state: &mut H) {
        self.path.hash(state);
    }
}

/// By the path (number of junctions, then junction by junction), then fungible assets before classes.
impl Ord for NetworkAsset {
    ghost cmp = { universal_asset_cmp };

    ghost total = { universal_assets_total };

    ghost matches_partial_cmp = { λ _ _. refl };

    ghost matches_eq = { λ _ _. refl };

    fn cmp(&self, other: &NetworkAsset) -> Ordering {
        let paths = self.path.cmp(&other.path);
        paths.then(kind_order(self.kind, other.kind))
    }
}
