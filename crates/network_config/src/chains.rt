//! The chains of a document.
ghost use Rattle.std.specs.Prelude.{◌≡◌, codes, IfOk};
ghost use Rattle.serde_json.specs.View.{view};
ghost use Rattle.document_entries.specs.Answers.{Answers};
ghost use Rattle.document_entries.specs.Entries.{rate, asset_row, account, pallet, query, pool};
ghost use Rattle.document_entries.specs.declared.fault.Section.TheVariants as sections;
ghost use Rattle.network_config.specs.Chains.{entries_field, barriers_field, default_barriers, fields_of, in_chain};

use crate::lists::{list_field, own_fields};
use asset_pools::Pool;
use barriers::Barrier;
use chain_ids::ChainId;
use document_entries::{
    Entry, Place, Section, Stop, account_of, asset_row_of, barrier_of, pallet_of, pool_of,
    query_of, rate_of, read_entries,
};
use network_spec::{Balance, ChainSpec};
use operands::PalletInfo;
use plain_lists::{Listed, SharedList};
use serde_json::Value;
use std::alloc::{AllocError, Global};
use trust_tables::AssetRow;
use weight_trader::Rate;

/// A list of a chain, by the chain's entry.
#[derive(Clone, Copy)]
struct InChain {
    /// The chain's entry.
    chain: u32,
}

impl InChain {
    /// The position of the chain's own fields.
    fn fields(self) -> Place
        ensures { result ≡ fields_of self.chain }
    {
        self.at(Section::Fields, 0)
    }

    /// The position of an entry of one of its lists.
    fn at(self, section: Section, index: u32) -> Place
        ensures { result ≡ in_chain self.chain section index }
    {
        Place {
            chain: Some(self.chain),
            section,
            index,
        }
    }
}

impl Entry<Barrier> for InChain {
    ghost use Rattle.document_entries.specs.Entries.{barrier};
    ghost use Rattle.network_config.specs.Chains.{in_chain};
    ghost use Rattle.document_entries.specs.declared.fault.Section.TheVariants as sections;

    ghost form = { λ at index value. barrier (in_chain at.chain sections.Barriers index) value };

    fn read(&self, alloc: Global, index: u32, value: &Value) -> Result<Barrier, Stop> {
        let place = self.at(Section::Barriers, index);
        barrier_of(alloc, place, value)
    }
}

impl Entry<Rate> for InChain {
    ghost use Rattle.document_entries.specs.Entries.{rate};
    ghost use Rattle.network_config.specs.Chains.{in_chain};
    ghost use Rattle.document_entries.specs.declared.fault.Section.TheVariants as sections;

    ghost form = { λ at index value. rate (in_chain at.chain sections.Rates index) value };

    fn read(&self, alloc: Global, index: u32, value: &Value) -> Result<Rate, Stop> {
        let place = self.at(Section::Rates, index);
        rate_of(alloc, place, value)
    }
}

impl Entry<AssetRow> for InChain {
    ghost use Rattle.document_entries.specs.Entries.{asset_row};
    ghost use Rattle.network_config.specs.Chains.{in_chain};
    ghost use Rattle.document_entries.specs.declared.fault.Section.TheVariants as sections;

    ghost form = { λ at index value. asset_row (in_chain at.chain sections.Assets index) value };

    fn read(&self, alloc: Global, index: u32, value: &Value) -> Result<AssetRow, Stop> {
        let place = self.at(Section::Assets, index);
        asset_row_of(alloc, place, value)
    }
}

impl Entry<Balance> for InChain {
    ghost use Rattle.document_entries.specs.Entries.{account};
    ghost use Rattle.network_config.specs.Chains.{in_chain};
    ghost use Rattle.document_entries.specs.declared.fault.Section.TheVariants as sections;

    ghost form = { λ at index value. account (in_chain at.chain sections.Accounts index) value };

    fn read(&self, alloc: Global, index: u32, value: &Value) -> Result<Balance, Stop> {
        let place = self.at(Section::Accounts, index);
        account_of(alloc, place, value)
    }
}

impl Entry<PalletInfo> for InChain {
    ghost use Rattle.document_entries.specs.Entries.{pallet};
    ghost use Rattle.network_config.specs.Chains.{in_chain};
    ghost use Rattle.document_entries.specs.declared.fault.Section.TheVariants as sections;

    ghost form = { λ at index value. pallet (in_chain at.chain sections.Pallets index) value };

    fn read(&self, alloc: Global, index: u32, value: &Value) -> Result<PalletInfo, Stop> {
        let place = self.at(Section::Pallets, index);
        pallet_of(alloc, place, value)
    }
}

impl Entry<(u64, ChainId)> for InChain {
    ghost use Rattle.document_entries.specs.Entries.{query};
    ghost use Rattle.network_config.specs.Chains.{in_chain};
    ghost use Rattle.document_entries.specs.declared.fault.Section.TheVariants as sections;

    ghost form = { λ at index value. query (in_chain at.chain sections.Queries index) value };

    fn read(&self, _alloc: Global, index: u32, value: &Value) -> Result<(u64, ChainId), Stop> {
        let place = self.at(Section::Queries, index);
        query_of(place, value)
    }
}

impl Entry<Pool> for InChain {
    ghost use Rattle.document_entries.specs.Entries.{pool};
    ghost use Rattle.network_config.specs.Chains.{in_chain};
    ghost use Rattle.document_entries.specs.declared.fault.Section.TheVariants as sections;

    ghost form = { λ at index value. pool (in_chain at.chain sections.Pools index) value };

    fn read(&self, alloc: Global, index: u32, value: &Value) -> Result<Pool, Stop> {
        let place = self.at(Section::Pools, index);
        pool_of(alloc, place, value)
    }
}

/// The chain's rates.
fn rates_field(alloc: Global, list: InChain, value: &Value) -> Result<Listed<Rate>, Stop>
    ensures { Answers result (entries_field (codes "rates") sections.Rates rate list.chain
        (view value.now)) }
{
    let items = list_field(list.fields(), "rates", value)?;
    read_entries(alloc, &list, items)
}

/// The chain's assets.
fn assets_field(alloc: Global, list: InChain, value: &Value) -> Result<SharedList<AssetRow>, Stop>
    ensures { Answers result (entries_field (codes "assets") sections.Assets asset_row list.chain
        (view value.now)) }
{
    let items = list_field(list.fields(), "assets", value)?;
    let rows: Listed<AssetRow> = read_entries(alloc, &list, items)?;
    let rows = SharedList::from_vec(alloc, rows.into_vec())?;
    Ok(rows)
}

/// The chain's accounts.
fn accounts_field(alloc: Global, list: InChain, value: &Value) -> Result<Listed<Balance>, Stop>
    ensures { Answers result (entries_field (codes "accounts") sections.Accounts account list.chain
        (view value.now)) }
{
    let items = list_field(list.fields(), "accounts", value)?;
    read_entries(alloc, &list, items)
}

/// The chain's pallets.
fn pallets_field(alloc: Global, list: InChain, value: &Value) -> Result<Listed<PalletInfo>, Stop>
    ensures { Answers result (entries_field (codes "pallets") sections.Pallets pallet list.chain
        (view value.now)) }
{
    let items = list_field(list.fields(), "pallets", value)?;
    read_entries(alloc, &list, items)
}

/// The chain's queries.
fn queries_field(
    alloc: Global,
    list: InChain,
    value: &Value,
) -> Result<Listed<(u64, ChainId)>, Stop>
    ensures { Answers result (entries_field (codes "queries") sections.Queries query list.chain
        (view value.now)) }
{
    let items = list_field(list.fields(), "queries", value)?;
    read_entries(alloc, &list, items)
}

/// The chain's pools.
fn pools_field(alloc: Global, list: InChain, value: &Value) -> Result<Listed<Pool>, Stop>
    ensures { Answers result (entries_field (codes "pools") sections.Pools pool list.chain
        (view value.now)) }
{
    let items = list_field(list.fields(), "pools", value)?;
    read_entries(alloc, &list, items)
}

/// The barriers that a chain has where the document doesn't list them: credit, paid, responses.
pub(crate) fn default_barriers(alloc: Global) -> Result<Listed<Barrier>, AllocError>
    ensures { IfOk result (λ barriers. barriers ≡ default_barriers) }
{
    let mut barriers = Vec::with_capacity(alloc, 3)?;
    barriers.push(Barrier::Credit)?;
    barriers.push(Barrier::Paid)?;
    barriers.push(Barrier::Responses)?;
    Ok(Listed::from_vec(barriers))
}

/// The chain's barriers.
#[tactic(auto, unfolding(crate::specs::Chains::barriers_field))]
fn barriers_field(alloc: Global, list: InChain, value: &Value) -> Result<Listed<Barrier>, Stop>
    ensures { Answers result (barriers_field list.chain (view value.now)) }
{
    if value.get("barriers").is_none() {
        return Ok(default_barriers(alloc)?);
    }
    let items = list_field(list.fields(), "barriers", value)?;
    read_entries(alloc, &list, items)
}

/// A reader of the entries of chains, by whether the format has calls, locks and pools.
#[derive(Clone, Copy)]
pub(crate) struct ChainEntries {
    /// Whether the format has calls, locks and pools.
    pub(crate) more: bool,
}

impl Entry<ChainSpec> for ChainEntries {
    ghost use Rattle.network_config.specs.Chains.{chain_entry};

    ghost form = { λ chains. chain_entry chains.more };

    #[tactic(auto, unfolding(crate::specs::Chains::chain_entry))]
    fn read(&self, alloc: Global, index: u32, value: &Value) -> Result<ChainSpec, Stop> {
        let list = InChain { chain: index };
        let (head, served) = own_fields(list.fields(), self.more, value)?;
        let barriers = barriers_field(alloc, list, value)?;
        let rates = rates_field(alloc, list, value)?;
        let assets = assets_field(alloc, list, value)?;
        let accounts = accounts_field(alloc, list, value)?;
        let pallets = pallets_field(alloc, list, value)?;
        let queries = queries_field(alloc, list, value)?;
        let pools = pools_field(alloc, list, value)?;
        let fee_account = head.fee_account;
        Ok(ChainSpec {
            chain: head.chain,
            rules: head.rules,
            limit: head.limit,
            max_holding: head.max_holding,
            fee_account,
            barriers,
            rates,
            assets,
            accounts,
            pallets,
            queries,
            calls: served.calls,
            locks: served.locks,
            pools,
        })
    }
}
