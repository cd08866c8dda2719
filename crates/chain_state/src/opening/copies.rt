//! What a network document says of a chain, copied.
ghost use Rattle.std.specs.Prelude.{◌≡◌, map, find, IfOk};
ghost use Rattle.std.specs.Option.{option_copied};
ghost use Rattle.chain_ids.specs.Chains.{same_chain};
ghost use Rattle.network_spec.specs.declared.chain.ChainSpec.{ChainSpec};
ghost use Rattle.network_steps.specs.Steps.{name_at};
ghost use Rattle.network_steps.specs.Genesis.{query_of, channels_from};

use crate::send::naming::location_of_other;
use asset_pools::Pool;
use chain_ids::ChainId;
use channel_parts::Channel;
use locations::{Junctions, Location};
use network_spec::{ChainSpec, ChannelSpec};
use operands::{OpenQuery, PalletInfo};
use std::alloc::{AllocError, Global};

/// The document's entry of a chain: the first of that name; `None` where there is none.
pub(crate) fn entry_of<'a>(chains: &'a [ChainSpec], chain: ChainId) -> Option<&'a ChainSpec>
    ensures { option_copied result ≡ find (λ (c : ChainSpec). same_chain c.chain chain) chains.now }
{
    chains.iter().find(|entry| entry.chain == chain)
}

/// The same pallets.
pub(crate) fn copied_pallets(
    alloc: Global,
    pallets: &[PalletInfo],
) -> Result<Vec<PalletInfo>, AllocError>
    ensures { IfOk result (λ copy. copy.items ≡ pallets.now) }
{
    let mut copy = Vec::with_capacity(alloc, pallets.len())?;
    for pallet in pallets {
        copy.push(pallet.copy()?)?;
    }
    Ok(copy)
}

/// The same pools.
pub(crate) fn copied_pools(alloc: Global, pools: &[Pool]) -> Result<Vec<Pool>, AllocError>
    ensures { IfOk result (λ copy. copy.items ≡ pools.now) }
{
    let mut copy = Vec::with_capacity(alloc, pools.len())?;
    for pool in pools {
        copy.push(Pool {
            first: pool.first.copy(),
            second: pool.second.copy(),
            fee: pool.fee,
        })?;
    }
    Ok(copy)
}

/// How the chain `here` names another one.
fn name_at(here: ChainId, other: ChainId) -> Location
    ensures { result ≡ name_at here other }
{
    match location_of_other(here, other) {
        Some(place) => place,
        None => Location {
            parents: 0,
            interior: Junctions::empty(),
        },
    }
}

/// The open queries of the chain `here`, each by how it names the one that may answer it.
pub(crate) fn open_queries(
    alloc: Global,
    here: ChainId,
    queries: &[(u64, ChainId)],
) -> Result<Vec<OpenQuery>, AllocError>
    ensures { IfOk result (λ list. list.items ≡ map (query_of here) queries.now) }
{
    let mut list = Vec::with_capacity(alloc, queries.len())?;
    for (id, chain) in queries {
        list.push(OpenQuery {
            id: *id,
            from: name_at(here, *chain),
        })?;
    }
    Ok(list)
}

/// The channels that lead from a chain, in listed order.
pub(crate) fn channels_from(
    alloc: Global,
    from: ChainId,
    list: &[ChannelSpec],
) -> Result<Vec<Channel>, AllocError>
    ensures { IfOk result (λ channels. channels.items ≡ channels_from from list.now) }
{
    let mut channels = Vec::new(alloc);
    for entry in list {
        if entry.from == from {
            channels.push(entry.channel.copy())?;
        }
    }
    Ok(channels)
}
