//! What there is of each asset, from one pass over the rows of all chains.
ghost use Rattle.std.specs.Prelude.{◌≡◌, ℕ, ◌||◌, map, IfOk, OnOk, IsTrue, if◌then◌else◌};
ghost use Rattle.std.specs.BTreeSet.{contains};
ghost use Rattle.std.specs.Ordering.{eq_by_cmp};
ghost use Rattle.asset_lists.specs.declared.units.AssetId.TheVariants.{Concrete};
ghost use Rattle.trust_tables.specs.Chains.{path_of_site};
ghost use Rattle.law_coherence.specs.UniversalAssets.{UniversalAsset};
ghost use Rattle.law_coherence.specs.Networks.{is_home, is_native_row};
ghost use Rattle.network_steps.specs.Tests.{has_path};
ghost use Rattle.chain_state.specs.PartOf.{part_of};
ghost use Rattle.supply_audit.specs.declared.figures.Figure.{Figure};
ghost use Rattle.supply_audit.specs.Assets.{universal_asset_cmp};
ghost use Rattle.supply_audit.specs.Places as places;
ghost use Rattle.supply_audit.specs.Places.{chain_table};
ghost use Rattle.supply_audit.specs.Supplies.{AreSupplies, HasSums, Raises, row_part, rows_part, supply_by, supply_in};

use crate::figures::Carried;
use crate::messages::sent;
use crate::network_asset::NetworkAsset;
use crate::places::{is_native, named, placed};
use crate::totals::{no_supply, none, sum};
use chain_state::ChainState;
use ledgers::Supply;
use std::alloc::{AllocError, Global};
use std::collections::{BTreeMap, BTreeSet};
use trust_tables::AssetRow;

/// What a network has of each asset, at the moment when the table was made.
#[derive(Drop)]
pub struct Supplies {
    sums: Sums,
}

/// The sums of the assets that have a home.
type Sums = BTreeMap<NetworkAsset, Supply>;

impl Supplies {
    /// What the chains have of each asset, as `supply` finds it of one. It goes once over the rows of all chains, and finds the asset of
    /// each in time in proportion to the logarithm of the number of assets. An `Err` is out of memory.
    pub fn of(alloc: Global, chains: &[ChainState]) -> Result<Supplies, AllocError>
        ensures { IfOk result (λ table. AreSupplies table (map part_of chains.now)) }
    {
        let mut sums = BTreeMap::new(alloc);
        for chain in chains {
            add_chain(alloc, &mut sums, chain)?;
        }
        Ok(Supplies { sums })
    }

    /// What the network has of the asset. It takes time in proportion to the logarithm of the number of assets, and no memory.
    pub fn supply(&self, asset: &NetworkAsset) -> Supply
        ensures { result ≡ supply_by self.now asset.now }
    {
        supply_in(&self.sums, asset)
    }
}

/// What there is of an asset by the sums so far.
fn supply_in(sums: &Sums, asset: &NetworkAsset) -> Supply
    ensures { result ≡ supply_in sums.now.entries asset.now }
{
    sums.get(asset).copied().unwrap_or(no_supply())
}

/// Writes what there is of an asset.
fn write_supply(sums: &mut Sums, asset: NetworkAsset, supply: Supply) -> Result<(), AllocError>
    ensures { OnOk result ((a : UniversalAsset) → supply_in sums.new.entries a
        ≡ (if eq_by_cmp universal_asset_cmp asset a then supply else supply_in sums.old.entries a)) }
{
    sums.insert(asset, supply)?;
    Ok(())
}

/// Adds to what there is of an asset.
fn raise(sums: &mut Sums, asset: NetworkAsset, more: Supply) -> Result<(), AllocError>
    ensures { OnOk result ((has : Figure → ℕ) → HasSums more has
        → Raises sums.old.entries sums.new.entries
        (λ a f. if eq_by_cmp universal_asset_cmp asset a then has f else 0)) }
{
    let found = supply_in(sums, &asset);
    write_supply(sums, asset, sum(found, more))
}

/// What a row of a chain lists: what is there, what was sent as teleports and what was burned.
pub(crate) fn row_supply(chain: &ChainState, row: &AssetRow) -> Supply
    ensures { HasSums result
        (λ f. places.figure f (part_of chain.now) (Concrete row.now.id) row.now.kind) }
{
    let id = named(&row.id);
    let home = placed(chain, &id, row.kind);
    let flight = sent(Carried::Teleports, None, &row.id, row.kind, chain.queues());
    let burned = chain.burns().burned(&id, row.kind);
    Supply {
        home,
        flight,
        burned,
    }
}

/// The assets that are at home at a chain.
pub(crate) type Homes = BTreeSet<NetworkAsset>;

/// Adds the asset of a row, where the row is native.
fn add_home(homes: &mut Homes, chain: &ChainState, row: &AssetRow) -> Result<(), AllocError>
    requires { IsTrue (has_path (path_of_site (part_of chain.now).site) row.now) }
    ensures { OnOk result ((a : UniversalAsset)
        → contains universal_asset_cmp homes.new a
        ≡ (is_native_row (chain_table (part_of chain.now)) a row.now
        || contains universal_asset_cmp homes.old a)) }
{
    if is_native(&row.role) {
        homes.insert(NetworkAsset::listed_at(chain.site(), row))?;
    }
    Ok(())
}

/// The assets of which a row of the chain is native.
pub(crate) fn homes_of(alloc: Global, chain: &ChainState) -> Result<Homes, AllocError>
    ensures { IfOk result (λ homes. (a : UniversalAsset) → contains universal_asset_cmp homes a
        ≡ is_home a (chain_table (part_of chain.now))) }
{
    let mut homes = BTreeSet::new(alloc);
    let rows = chain.rows();
    for row in rows {
        add_home(&mut homes, chain, row)?;
    }
    Ok(homes)
}

/// Adds a row, where its asset is at home at the chain.
fn add_row(
    sums: &mut Sums,
    homes: &Homes,
    chain: &ChainState,
    row: &AssetRow,
) -> Result<(), AllocError>
    requires path { IsTrue (has_path (path_of_site (part_of chain.now).site) row.now) }
    requires homes { (a : UniversalAsset) → contains universal_asset_cmp homes.now a
        ≡ is_home a (chain_table (part_of chain.now)) }
    ensures { OnOk result (Raises sums.old.entries sums.new.entries
        (row_part (part_of chain.now) row.now)) }
{
    let asset = NetworkAsset::listed_at(chain.site(), row);
    if !homes.contains(&asset) {
        return Ok(());
    }
    raise(sums, asset, row_supply(chain, row))
}

/// Adds the rows of a chain.
fn add_rows(sums: &mut Sums, homes: &Homes, chain: &ChainState) -> Result<(), AllocError>
    requires homes { (a : UniversalAsset) → contains universal_asset_cmp homes.now a
        ≡ is_home a (chain_table (part_of chain.now)) }
    ensures { OnOk result (Raises sums.old.entries sums.new.entries
        (rows_part (part_of chain.now) (part_of chain.now).rows)) }
{
    let rows = chain.rows();
    for row in rows {
        add_row(sums, homes, chain, row)?;
    }
    Ok(())
}

/// Adds a chain.
fn add_chain(alloc: Global, sums: &mut Sums, chain: &ChainState) -> Result<(), AllocError>
    ensures { OnOk result (Raises sums.old.entries sums.new.entries
        (rows_part (part_of chain.now) (part_of chain.now).rows)) }
{
    let homes = homes_of(alloc, chain)?;
    add_rows(sums, &homes, chain)
}
