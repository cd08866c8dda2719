//! Whether a network is valid.
ghost use Rattle.std.specs.Prelude.{◌≡◌, IfOk};
ghost use Rattle.network_spec.specs.Networks.{rises, is_in_order};
ghost use Rattle.network_config.specs.Valid as valid;
ghost use Rattle.network_config.specs.Valid.{fits};

use crate::chains::{fit_chains, fit_channels};
use chain_ids::ChainId;
use document_entries::Stop;
use locations::NetworkId;
use network_config::{check_references, check_sums, comes_before};
use network_spec::{ChainSpec, NetworkSpec};
use std::alloc::{AllocError, Global};

/// Whether each chain comes after the one before it.
fn rises(before: ChainId, chains: &[ChainSpec]) -> bool
    ensures { result ≡ rises before chains.now }
{
    let mut last = before;
    for chain in chains {
        if !comes_before(last, chain.chain) {
            return false;
        }
        last = chain.chain;
    }
    true
}

/// Whether the relay chain comes first, and the parachains after it rise by number.
fn is_in_order(chains: &[ChainSpec]) -> bool
    ensures { result ≡ is_in_order chains.now }
{
    match chains {
        [] => false,
        [first, rest @ ..] => match first.chain {
            ChainId::Relay => rises(first.chain, rest),
            ChainId::Para(_) => false,
        },
    }
}

/// Whether all values are in their ranges, and no list is too long.
fn fits(network: &NetworkSpec) -> bool
    ensures { result ≡ fits network.now }
{
    let chains = network.chains.items();
    let channels = network.channels.items();
    chains.len() <= 64 && channels.len() <= 256 && fit_chains(chains) && fit_channels(channels)
}

/// Whether a document can name the network: by its name, or by the hash of its first block.
fn is_named(network: NetworkId) -> bool
    ensures { result ≡ valid.is_named network }
{
    match network {
        NetworkId::ByGenesis(_) => true,
        NetworkId::Polkadot => true,
        NetworkId::Kusama => true,
        NetworkId::Westend => true,
        NetworkId::Rococo => true,
        NetworkId::Wococo => true,
        _ => false,
    }
}

/// Whether a network is one that a document may describe: it can be named, its chains are in order, each value is in its range, and no entry has a
/// fault beside the others. An `Err` is out of memory.
pub fn is_valid(alloc: Global, network: &NetworkSpec) -> Result<bool, AllocError>
    ensures { IfOk result (λ holds. holds ≡ valid.is_valid network.now) }
{
    if !is_named(network.network) || !is_in_order(network.chains.items()) || !fits(network) {
        return Ok(false);
    }
    match check_references(alloc, network) {
        Ok(()) => {}
        Err(Stop::Fault(_)) => return Ok(false),
        Err(Stop::Memory) => return Err(AllocError),
    }
    match check_sums(alloc, network) {
        Ok(()) => Ok(true),
        Err(Stop::Fault(_)) => Ok(false),
        Err(Stop::Memory) => Err(AllocError),
    }
}
