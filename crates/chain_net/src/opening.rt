//! A network as it opens.
ghost use Rattle.std.specs.Prelude.{◌≡◌, false, map, [], IfOk};
ghost use Rattle.network_spec.specs.declared.chain.ChainSpec.{ChainSpec};
ghost use Rattle.network_steps.specs.Genesis as genesis;
ghost use Rattle.network_steps.specs.Genesis.{part_at, first_world};
ghost use Rattle.network_steps.specs.Openable.{IsOpenable};
ghost use Rattle.chain_state.specs.PartOf.{part_of};
ghost use Rattle.chain_net.specs.Nets.{world_of, spec_of, is_stopped, trace_of};
ghost use Rattle.law_steps.specs.Shapes.{AllShaped};
ghost use Rattle.law_steps.specs.Kept.{IsCoherent};
ghost use Rattle.law_nets.specs.Promises.{KeepsAssets, PaysInFull};

use crate::Net;
use crate::links::all_links;
use barriers::Barrier;
use chain_ids::ChainId;
use chain_state::ChainState;
use exec_rules::ChainRules;
use law_nets::{law_of_networks_with_pasts, law_of_pasts_through_steps};
use network_spec::{ChainSpec, NetworkSpec};
use plain_lists::Listed;
use std::alloc::{AllocError, Global};

/// The same barriers.
fn copied_barriers(alloc: Global, barriers: &[Barrier]) -> Result<Vec<Barrier>, AllocError>
    ensures { IfOk result (λ copies. copies.items ≡ barriers.now) }
{
    let mut copies = Vec::with_capacity(alloc, barriers.len())?;
    for barrier in barriers {
        copies.push(barrier.copy(alloc)?)?;
    }
    Ok(copies)
}

/// How the chain runs programs.
fn rules_of(alloc: Global, entry: &ChainSpec) -> Result<ChainRules, AllocError>
    ensures { IfOk result (λ rules. rules ≡ genesis.rules_of entry.now) }
{
    let barriers = copied_barriers(alloc, entry.barriers.items())?;
    Ok(ChainRules {
        weight: entry.rules,
        limit: entry.limit,
        max_holding: entry.max_holding,
        barriers: Listed::from_vec(barriers),
    })
}

/// How each chain runs programs.
fn all_rules(alloc: Global, chains: &[ChainSpec]) -> Result<Vec<ChainRules>, AllocError>
    ensures { IfOk result (λ all. all.items ≡ map genesis.rules_of chains.now) }
{
    let mut all = Vec::with_capacity(alloc, chains.len())?;
    for entry in chains {
        all.push(rules_of(alloc, entry)?)?;
    }
    Ok(all)
}

/// Which chains there are.
fn names(alloc: Global, chains: &[ChainSpec]) -> Result<Vec<ChainId>, AllocError>
    ensures { IfOk result (λ names. names.items ≡ map (λ (c : ChainSpec). c.chain) chains.now) }
{
    let mut names = Vec::with_capacity(alloc, chains.len())?;
    for entry in chains {
        names.push(entry.chain)?;
    }
    Ok(names)
}

/// The states of all chains.
fn all_states(alloc: Global, spec: &NetworkSpec) -> Result<Vec<ChainState>, AllocError>
    requires openable { IsOpenable spec.now }
    ensures { IfOk result (λ states. map part_of states.items
        ≡ map (part_at spec.now) spec.now.chains) }
{
    let chains = spec.chains.items();
    let mut states = Vec::with_capacity(alloc, chains.len())?;
    for entry in chains {
        states.push(ChainState::open(alloc, spec, entry.chain)?)?;
    }
    Ok(states)
}

impl Net {
    /// The network of a document, in which nothing has happened yet: its chains, each with what its accounts hold, and no message.
    pub fn open(alloc: Global, spec: NetworkSpec) -> Result<Net, AllocError>
        requires openable { IsOpenable spec }
        ensures first { IfOk result (λ net. world_of net ≡ first_world spec) }
        ensures spec { IfOk result (λ net. spec_of net ≡ spec) }
        ensures running { IfOk result (λ net. is_stopped net ≡ false) }
        ensures quiet { IfOk result (λ net. trace_of net ≡ []) }
        // A coherent network keeps each asset and backs each derivative, and pays what is to be taken; nothing waits yet.
        ensures kept { IfOk result (λ net. IsCoherent spec → KeepsAssets spec (world_of net)) }
        ensures shaped { IfOk result (λ net. AllShaped (world_of net)) }
        ensures paid { IfOk result (λ net. IsCoherent spec → PaysInFull spec (world_of net)) }
    {
        // For the prover alone.
        law_of_pasts_through_steps();
        law_of_networks_with_pasts();
        let names = names(alloc, spec.chains.items())?;
        let rules = all_rules(alloc, spec.chains.items())?;
        let chains = all_states(alloc, &spec)?;
        let links = all_links(
            alloc,
            names.as_slice(),
            chains.as_slice(),
            spec.channels.items(),
        )?;
        Ok(Net {
            spec,
            names,
            rules,
            chains,
            links,
            acted: None,
            stopped: false,
        })
    }
}
