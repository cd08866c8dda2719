//! The opening of a network.
ghost use Rattle.std.specs.Prelude.{◌≡◌, IfOk, MatchResult, string_bytes};
ghost use Rattle.network_steps.specs.Genesis.{first_world};
ghost use Rattle.chain_net.specs.Nets.{world_of, spec_of};
ghost use Rattle.report_blocks.specs.Blocks as blocks;
ghost use Rattle.report_blocks.specs.Serving.{IsOpened, IsRefused};

use crate::AuditedNet;
use crate::reads::{coherence_line, first_supply_block};
use chain_net::Net;
use document_entries::NetworkFault;
use network_config::read_network;
use network_validity::law_of_valid_networks;
use std::alloc::{AllocError, Global};

/// Opens the network that the bytes describe, or says what is wrong with them. `Err` is out of memory alone.
pub fn open_network(alloc: Global, bytes: &[u8]) -> Result<Result<Net, NetworkFault>, AllocError>
    ensures opened { IfOk result
        (λ answer. MatchResult answer (IsOpened bytes.now) (IsRefused bytes.now)) }
{
    law_of_valid_networks(); // For the prover alone.
    match read_network(alloc, bytes) {
        Ok(spec) => Ok(Ok(Net::open(alloc, spec)?)),
        Err(NetworkFault::Memory) => Err(AllocError),
        Err(fault) => Ok(Err(fault)),
    }
}

/// As `open_network`, with the plan of the network's supply block.
pub fn open_audited(
    alloc: Global,
    bytes: &[u8],
) -> Result<Result<AuditedNet, NetworkFault>, AllocError>
    ensures opened { IfOk result (λ answer. MatchResult answer (IsOpened bytes.now)
        (IsRefused bytes.now)) }
{
    match open_network(alloc, bytes)? {
        Ok(net) => Ok(Ok(AuditedNet::new(alloc, net)?)),
        Err(fault) => Ok(Err(fault)),
    }
}

/// What is written when a network opens: whether it is coherent, and what its assets sum to. `Err` is out of memory alone.
#[tactic(auto, unfolding(crate::specs::Blocks::opening_text))]
pub fn opening_text(alloc: Global, net: &AuditedNet) -> Result<String, AllocError>
    requires first { world_of net.now ≡ first_world (spec_of net.now) }
    ensures text { IfOk result (λ text. string_bytes text ≡ blocks.opening_text (spec_of net.now)) }
{
    let mut text = coherence_line(alloc, &net.net)?;
    let sums = first_supply_block(alloc, &net.net, &net.kept)?;
    text.push_str(&sums)?;
    Ok(text)
}
