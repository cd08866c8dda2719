//! The positions of the channels of a network.
ghost use Rattle.std.specs.Prelude.{◌≡◌, IsTrue, IfOk};
ghost use Rattle.std.specs.List.{position};
ghost use Rattle.chain_queues.specs.Queues.{is_led_to};
ghost use Rattle.chain_net.specs.Order.{are_in_order};
ghost use Rattle.chain_net.specs.Links as links;

use crate::finding::place_in;
use chain_ids::ChainId;
use chain_queues::Queue;
use chain_state::ChainState;
use network_spec::ChannelSpec;
use std::alloc::{AllocError, Global};

/// A channel of a network, with the indices at which it is found.
#[derive(Clone, Copy)]
pub(crate) struct Link {
    /// The chain that sends on it.
    pub(crate) from: ChainId,
    /// The chain that it leads to.
    pub(crate) to: ChainId,
    /// The index of the sender among the chains.
    pub(crate) sender: usize,
    /// The index of the channel among those that lead from the sender.
    pub(crate) channel: usize,
}

/// The index of the first of these channels that leads to the chain.
fn place_to(queues: &[Queue], to: ChainId) -> Option<usize>
    ensures { result ≡ position (is_led_to to) queues.now }
{
    queues.iter().position(|queue| queue.channel.to == to)
}

/// The index of the first channel that leads from the chain to that one.
fn place_towards(chain: &ChainState, to: ChainId) -> Option<usize>
    ensures { result ≡ links.place_towards to (links.channels_of_state chain.now) }
{
    place_to(chain.queues().channels(), to)
}

/// The channel's position; `None` where it doesn't lead from one of these chains to another.
fn link_of(names: &[ChainId], chains: &[ChainState], entry: &ChannelSpec) -> Option<Link>
    requires order { IsTrue (are_in_order names.now) }
    ensures { result ≡ links.link_of names.now chains.now entry.now }
{
    let from = entry.from;
    let to = entry.channel.to;
    let sender = place_in(names, from)?;
    let _ = place_in(names, to)?;
    let chain = chains.get(sender)?;
    let channel = place_towards(chain, to)?;
    Some(Link {
        from,
        to,
        sender,
        channel,
    })
}

/// The positions of the channels, but for those that don't lead from one of these chains to another.
pub(crate) fn all_links(
    alloc: Global,
    names: &[ChainId],
    chains: &[ChainState],
    entries: &[ChannelSpec],
) -> Result<Vec<Link>, AllocError>
    requires order { IsTrue (are_in_order names.now) }
    ensures { IfOk result (λ all. all.items ≡ links.found_links names.now chains.now entries.now) }
{
    let mut all = Vec::with_capacity(alloc, entries.len())?;
    for entry in entries {
        if let Some(link) = link_of(names, chains, entry) {
            all.push(link)?;
        }
    }
    Ok(all)
}
