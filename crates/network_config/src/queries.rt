//! The queries of a chain, looked at beside one another: each of a number and a chain.
ghost use Rattle.std.specs.Prelude.{◌≡◌, ◌||◌, [], true, OnOk, if◌then◌else◌};
ghost use Rattle.std.specs.Ordering.{eq_by_cmp};
ghost use Rattle.document_entries.specs.Answers.{Answers};
ghost use Rattle.document_entries.specs.declared.fault.Section.TheVariants as sections;
ghost use Rattle.network_config.specs.References.{flaw_at, each_in, query_flaws};
ghost use Rattle.network_config.specs.Queries.{QueryKey, query_key_cmp, is_asked, query_flaws_beside};
ghost use Rattle.network_config.specs.Queries as spec;

use crate::names::NamedChains;
use crate::references::is_other;
use chain_ids::ChainId;
use document_entries::{NetworkFault, Place, Section, Stop};
use std::alloc::{AllocError, Global};
use std::collections::BTreeSet;

/// A query's number and its chain's number, which the relay chain has not.
type Query = (u64, Option<u32>);

/// A chain's number, which the relay chain has not.
fn number_of(chain: ChainId) -> Option<u32>
    ensures { result ≡ spec.parachain_number chain }
{
    match chain {
        ChainId::Relay => None,
        ChainId::Para(number) => Some(number),
    }
}

/// What a query is of.
fn key_of(query: &(u64, ChainId)) -> Query
    ensures { result ≡ spec.query_key_of query.now }
{
    (query.0, number_of(query.1))
}

/// Whether one of the queries is this one.
fn has(asked: &BTreeSet<Query>, query: &Query) -> bool
    ensures { result ≡ is_asked asked.now.keys query.now }
{
    asked.contains(query)
}

/// Adds a query.
fn add(asked: &mut BTreeSet<Query>, query: Query) -> Result<(), AllocError>
    ensures { OnOk result ((q : QueryKey) → is_asked asked.new.keys q
        ≡ (if eq_by_cmp query_key_cmp query q then true else is_asked asked.old.keys q)) }
{
    asked.insert(query)?;
    Ok(())
}

/// Adds what an entry is of, and refuses one that says anew what an earlier one has said, or whose chain isn't there.
fn add_query(
    asked: &mut BTreeSet<Query>,
    chains: &NamedChains,
    here: ChainId,
    place: Place,
    query: &(u64, ChainId),
) -> Result<(), Stop>
    ensures flaws { Answers result (flaw_at place
        (query_flaws_beside chains.now here asked.old.keys query.now)) }
    ensures added { OnOk result ((q : QueryKey) → is_asked asked.new.keys q
        ≡ (eq_by_cmp query_key_cmp (spec.query_key_of query.now) q || is_asked asked.old.keys q)) }
{
    let key = key_of(query);
    if has(asked, &key) {
        return Err(Stop::Fault(NetworkFault::Repeated(place)));
    }
    if !is_other(chains, here, query.1) {
        return Err(Stop::Fault(NetworkFault::BadValue(place)));
    }
    match add(asked, key) {
        Ok(()) => Ok(()),
        Err(_) => Err(Stop::Memory),
    }
}

/// Refuses the queries of a chain by the first of their entries that has a flaw.
pub(crate) fn check_queries(
    alloc: Global,
    chain: Option<u32>,
    chains: &NamedChains,
    here: ChainId,
    queries: &[(u64, ChainId)],
) -> Result<(), Stop>
    ensures { Answers result (each_in (query_flaws chains.now here) chain sections.Queries 0 []
        queries.now) }
{
    let mut asked: BTreeSet<Query> = BTreeSet::new(alloc);
    let mut index: u32 = 0;
    for query in queries {
        let place = Place {
            chain,
            section: Section::Queries,
            index,
        };
        add_query(&mut asked, chains, here, place, query)?;
        index = index.saturating_add(1);
    }
    Ok(())
}
