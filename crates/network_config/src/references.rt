//! What entries of a document say of one another.
ghost use Rattle.std.specs.Prelude.{◌≡◌, ◌≤◌, ◌==◌, ◌&&◌, ◌||◌, not, [], length, nat_lt, take};
ghost use Rattle.std.specs.List.{list_any, list_all};
ghost use Rattle.trust_tables.specs.Chains.{path_of_site};
ghost use Rattle.document_entries.specs.Answers.{Answers};
ghost use Rattle.locations.specs.Chains.{path_of};
ghost use Rattle.trust_tables.specs.Trust.{is_row_of};
ghost use Rattle.chain_ids.specs.Chains.{same_chain};
ghost use Rattle.network_config.specs.References as spec;
ghost use Rattle.network_config.specs.References.{is_there, is_other_chain, lists_fungible, names_others, names_two, same_pair, sender_lists_fee, chain_references, chains_references, references};

use crate::checks::{Check, Flaws, check_each, check_flaws};
use crate::holdings::check_accounts;
use crate::names::NamedChains;
use crate::queries::check_queries;
use asset_lists::{Asset, AssetId, Kind};
use asset_pools::Pool;
use chain_ids::ChainId;
use document_entries::{Place, Section, Stop};
use locations::{Location, NetworkId};
use network_spec::{ChainSpec, ChannelSpec, NetworkSpec};
use operands::PalletInfo;
use std::alloc::Global;
use trust_tables::{AssetRole, AssetRow};
use weight_trader::Rate;

/// Whether two names are of one chain.
fn same_chain(a: ChainId, b: ChainId) -> bool
    ensures { result ≡ same_chain a b }
{
    match (a, b) {
        (ChainId::Relay, ChainId::Relay) => true,
        (ChainId::Para(a), ChainId::Para(b)) => a == b,
        _ => false,
    }
}

/// Whether the chain is there, as the relay chain always is.
fn is_there(chains: &NamedChains, chain: ChainId) -> bool
    ensures { result ≡ is_there chains.now chain }
{
    same_chain(chain, ChainId::Relay) || chains.has(chain)
}

/// Whether a chain of the list has this name.
pub(crate) fn has_chain(chains: &[ChainSpec], chain: ChainId) -> bool
    ensures { result ≡ list_any (λ c. same_chain c.chain chain) chains.now }
{
    chains.iter().any(|c| same_chain(c.chain, chain))
}

/// Whether the chain is there, and another than this.
pub(crate) fn is_other(chains: &NamedChains, here: ChainId, chain: ChainId) -> bool
    ensures { result ≡ is_other_chain chains.now here chain }
{
    !same_chain(here, chain) && is_there(chains, chain)
}

/// Whether two locations are the same.
fn same_location(a: &Location, b: &Location) -> bool
    ensures { result ≡ spec.same_location a.now b.now }
{
    a == b
}

/// Whether the row lists the id as an asset that has amounts.
fn lists_fungible(id: &Location, row: &AssetRow) -> bool
    ensures { result ≡ lists_fungible id.now row.now }
{
    same_location(&row.id, id) && matches!(row.kind, Kind::Fungible)
}

/// Whether one of the rates is of the asset.
fn has_rate(rates: &[Rate], asset: &Location) -> bool
    ensures { result ≡ list_any (λ other. spec.same_location other.asset asset.now) rates.now }
{
    rates.iter().any(|other| same_location(&other.asset, asset))
}

/// Whether a row lists the id as an asset that has amounts.
fn has_fungible(rows: &[AssetRow], id: &Location) -> bool
    ensures { result ≡ list_any (λ row. lists_fungible id.now row) rows.now }
{
    rows.iter().any(|row| lists_fungible(id, row))
}

/// The rates of a chain with these assets.
#[derive(Clone, Copy)]
struct RateCheck<'a> {
    assets: &'a [AssetRow],
}

impl Check<Rate> for RateCheck<'_> {
    ghost use Rattle.network_config.specs.References.{rate_flaws};

    ghost flaws = { λ check earlier rate. rate_flaws check.assets.now earlier rate };

    fn flaws_of(&self, earlier: &[Rate], rate: &Rate) -> Flaws {
        Flaws {
            repeated: has_rate(earlier, &rate.asset),
            bad: !has_fungible(self.assets, &rate.asset),
            past: false,
        }
    }
}

/// Whether the chains are there, and others than this.
fn are_others(chains: &NamedChains, here: ChainId, named: &[ChainId]) -> bool
    ensures { result ≡ list_all (λ chain. is_other_chain chains.now here chain) named.now }
{
    named.iter().all(|chain| is_other(chains, here, *chain))
}

/// Whether one of the rows has the id.
fn has_row(rows: &[AssetRow], id: &Location) -> bool
    ensures { result ≡ list_any (λ other. spec.same_location other.id id.now) rows.now }
{
    rows.iter().any(|other| same_location(&other.id, id))
}

/// How many levels there are from the root to the chain.
fn levels_of(network: NetworkId, here: ChainId) -> usize
    ensures levels { result ≡ length (path_of_site (record { network = network; chain = here })) }
    ensures few { result ≤ 2 }
{
    // For the prover alone: the answer is the same in every network, and the contract names it.
    let _ = network;
    match here {
        ChainId::Relay => 1,
        ChainId::Para(_) => 2,
    }
}

/// Whether the path of the id, as seen from the chain, has more than eight junctions.
fn is_long(network: NetworkId, here: ChainId, id: &Location) -> bool
    ensures { result
        ≡ nat_lt 8 (length (path_of (path_of_site (record { network = network; chain = here }))
        id.now)) }
{
    let levels = levels_of(network, here);
    let below = id.interior.items().len();
    levels.saturating_sub(usize::from(id.parents)) + below > 8
}

/// Whether the chains that the role names are there, and others than this.
fn names_others(chains: &NamedChains, here: ChainId, role: &AssetRole) -> bool
    ensures { result ≡ names_others chains.now here role.now }
{
    match role {
        AssetRole::Native { partners, .. } => are_others(chains, here, partners.items()),
        AssetRole::Derivative { reserve } => is_other(chains, here, *reserve),
    }
}

/// Whether the row names a chain that isn't there, or the chain itself, or its id passes the root.
fn is_misplaced(chains: &NamedChains, network: NetworkId, here: ChainId, row: &AssetRow) -> bool
    ensures { result ≡ (not (names_others chains.now here row.now.role)
        || nat_lt (length (path_of_site (record { network = network; chain = here })))
        row.now.id.parents) }
{
    if !names_others(chains, here, &row.role) {
        return true;
    }
    levels_of(network, here) < usize::from(row.id.parents)
}

/// The assets of a chain.
#[derive(Clone, Copy)]
struct AssetCheck<'a> {
    chains: &'a NamedChains<'a>,
    network: NetworkId,
    here: ChainId,
}

impl Check<AssetRow> for AssetCheck<'_> {
    ghost use Rattle.network_config.specs.References.{asset_flaws};

    ghost flaws = { λ check earlier row. asset_flaws check.chains.now check.network check.here
        earlier row };

    fn flaws_of(&self, earlier: &[AssetRow], row: &AssetRow) -> Flaws {
        Flaws {
            repeated: has_row(earlier, &row.id),
            bad: is_misplaced(self.chains, self.network, self.here, row),
            past: is_long(self.network, self.here, &row.id),
        }
    }
}

/// Whether the row lists the asset: its id, and amounts or instances.
fn is_row(row: &AssetRow, asset: &Asset) -> bool
    ensures { result ≡ is_row_of asset.now row.now }
{
    match &asset.id {
        AssetId::Concrete(id) => *id == row.id && asset.kind() == row.kind,
        AssetId::Abstract(_) => false,
    }
}

/// Whether a row lists the asset.
fn is_listed(rows: &[AssetRow], asset: &Asset) -> bool
    ensures { result ≡ list_any (is_row_of asset.now) rows.now }
{
    rows.iter().any(|row| is_row(row, asset))
}

/// Whether one of the pallets has the index.
fn has_pallet(pallets: &[PalletInfo], index: u32) -> bool
    ensures { result ≡ list_any (λ other. other.index == index) pallets.now }
{
    pallets.iter().any(|other| other.index == index)
}

/// The pallets of a chain.
#[derive(Clone, Copy)]
struct PalletCheck;

impl Check<PalletInfo> for PalletCheck {
    ghost use Rattle.network_config.specs.References.{pallet_flaws};

    ghost flaws = { λ _ earlier pallet. pallet_flaws earlier pallet };

    fn flaws_of(&self, earlier: &[PalletInfo], pallet: &PalletInfo) -> Flaws {
        Flaws {
            repeated: has_pallet(earlier, pallet.index),
            bad: false,
            past: false,
        }
    }
}

/// Whether the two pools are of the same two assets, in whichever order.
fn same_pair(a: &Pool, b: &Pool) -> bool
    ensures { result ≡ same_pair a.now b.now }
{
    (same_location(&a.first, &b.first) && same_location(&a.second, &b.second))
        || (same_location(&a.first, &b.second) && same_location(&a.second, &b.first))
}

/// Whether one of the pools has the same two assets.
fn has_pair(pools: &[Pool], pool: &Pool) -> bool
    ensures { result ≡ list_any (λ other. same_pair other pool.now) pools.now }
{
    pools.iter().any(|other| same_pair(other, pool))
}

/// Whether the pool's assets are two, both listed as assets that have amounts.
fn names_two(rows: &[AssetRow], pool: &Pool) -> bool
    ensures { result ≡ names_two rows.now pool.now }
{
    !same_location(&pool.first, &pool.second)
        && has_fungible(rows, &pool.first)
        && has_fungible(rows, &pool.second)
}

/// The pools of a chain with these assets.
#[derive(Clone, Copy)]
struct PoolCheck<'a> {
    assets: &'a [AssetRow],
}

impl Check<Pool> for PoolCheck<'_> {
    ghost use Rattle.network_config.specs.References.{pool_flaws};

    ghost flaws = { λ check earlier pool. pool_flaws check.assets.now earlier pool };

    fn flaws_of(&self, earlier: &[Pool], pool: &Pool) -> Flaws {
        Flaws {
            repeated: has_pair(earlier, pool),
            bad: !names_two(self.assets, pool),
            past: false,
        }
    }
}

/// Whether the sender lists the asset.
fn sender_lists(chains: &[ChainSpec], from: ChainId, fee: &Asset) -> bool
    ensures { result ≡ list_any (λ c. same_chain c.chain from
        && list_any (is_row_of fee.now) c.assets) chains.now }
{
    chains.iter().any(|c| same_chain(c.chain, from) && is_listed(c.assets.items(), fee))
}

/// Whether one of the channels leads from the one chain to the other.
fn has_channel(channels: &[ChannelSpec], from: ChainId, to: ChainId) -> bool
    ensures { result ≡ list_any (λ other. same_chain other.from from
        && same_chain other.channel.to to) channels.now }
{
    channels.iter().any(|other| same_chain(other.from, from) && same_chain(other.channel.to, to))
}

/// Whether the sender lists the asset of the fee.
fn lists_fee(chains: &[ChainSpec], from: ChainId, fee: &Option<Asset>) -> bool
    ensures { result ≡ sender_lists_fee chains.now from fee.now }
{
    match fee {
        None => true,
        Some(fee) => sender_lists(chains, from, fee),
    }
}

/// The channels between these chains.
#[derive(Clone, Copy)]
struct ChannelCheck<'a> {
    chains: &'a NamedChains<'a>,
}

impl Check<ChannelSpec> for ChannelCheck<'_> {
    ghost use Rattle.network_config.specs.References.{channel_flaws};

    ghost flaws = { λ check earlier c. channel_flaws check.chains.now earlier c };

    fn flaws_of(&self, earlier: &[ChannelSpec], c: &ChannelSpec) -> Flaws {
        let (from, to) = (c.from, c.channel.to);
        let between = is_there(self.chains, from) && is_other(self.chains, from, to);
        Flaws {
            repeated: has_channel(earlier, from, to),
            bad: !between || !lists_fee(self.chains.items(), from, &c.channel.fee),
            past: false,
        }
    }
}

/// Refuses a chain by the first of its entries that says something anew, or names what isn't there.
#[tactic(auto, unfolding(crate::specs::References::chain_references))]
fn check_chain(
    alloc: Global,
    chains: &NamedChains,
    network: NetworkId,
    index: u32,
    at: usize,
    chain: &ChainSpec,
) -> Result<(), Stop>
    ensures { Answers result
        (chain_references chains.now network index (take at chains.now) chain.now) }
{
    let here = chain.chain;
    let entry = Some(index);
    let place = Place {
        chain: entry,
        section: Section::Fields,
        index: 0,
    };
    let flaws = Flaws {
        repeated: chains.has_before(at, here),
        bad: false,
        past: false,
    };
    check_flaws(place, flaws)?;
    let assets = chain.assets.items();
    check_each(
        &RateCheck { assets },
        entry,
        Section::Rates,
        chain.rates.items(),
    )?;
    let rows = AssetCheck {
        chains,
        network,
        here,
    };
    check_each(&rows, entry, Section::Assets, assets)?;
    check_accounts(alloc, entry, assets, chain.accounts.items())?;
    check_each(&PalletCheck, entry, Section::Pallets, chain.pallets.items())?;
    check_queries(alloc, entry, chains, here, chain.queries.items())?;
    let pools = PoolCheck { assets };
    check_each(&pools, entry, Section::Pools, chain.pools.items())?;
    Ok(())
}

/// Refuses the chains by the first of their entries.
fn check_chains(alloc: Global, chains: &NamedChains, network: NetworkId) -> Result<(), Stop>
    ensures { Answers result (chains_references chains.now network 0 [] chains.now) }
{
    let mut index: u32 = 0;
    for (at, chain) in chains.items().iter().enumerate() {
        check_chain(alloc, chains, network, index, at, chain)?;
        index = index.saturating_add(1);
    }
    Ok(())
}

/// Refuses a network by the first entry that says something anew, or names what isn't there.
#[tactic(auto, unfolding(crate::specs::References::references))]
pub fn check_references(alloc: Global, spec: &NetworkSpec) -> Result<(), Stop>
    ensures { Answers result (references spec.now) }
{
    let chains = NamedChains::of(alloc, spec.chains.items())?;
    check_chains(alloc, &chains, spec.network)?;
    check_each(
        &ChannelCheck { chains: &chains },
        None,
        Section::Channels,
        spec.channels.items(),
    )?;
    Ok(())
}
