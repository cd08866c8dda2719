//! What waits in channels.
ghost use Rattle.std.specs.Prelude.{◌≡◌, ◌++◌, map, flat_map, find, IfOk, OnOk, string_bytes};
ghost use Rattle.std.specs.Option.{option_copied};
ghost use Rattle.chain_queues.specs.Queues.{is_led_to};
ghost use Rattle.network_spec.specs.declared.network.ChannelSpec.{ChannelSpec};
ghost use Rattle.chain_state.specs.declared.state.ChainState.{ChainState};
ghost use Rattle.chain_state.specs.PartOf.{part_of};
ghost use Rattle.step_text.specs.Blocks.{is_part_of, link_text, queue_lines};

use chain_ids::ChainId;
use chain_queues::Queue;
use chain_state::ChainState;
use network_spec::ChannelSpec;
use std::alloc::{AllocError, Global};
use step_text::{law_of_queue_lines, queue_text};

/// What waits, channel by channel in the order of these channels; nothing of a channel that isn't there. An `Err` is out of memory.
pub fn queues_text(
    alloc: Global,
    channels: &[ChannelSpec],
    chains: &[ChainState],
) -> Result<String, AllocError>
    ensures { IfOk result (λ text. string_bytes text
        ≡ flat_map (λ (c : ChannelSpec).
        link_text (map part_of chains.now) (c.from, c.channel.to)) channels.now) }
{
    let mut text = String::new(alloc);
    for place in 0..channels.len() {
        push_queue(alloc, &mut text, chains, &channels[place])?;
    }
    Ok(text)
}

/// Appends what waits in a channel.
fn push_queue(
    alloc: Global,
    text: &mut String,
    chains: &[ChainState],
    channel: &ChannelSpec,
) -> Result<(), AllocError>
    ensures { OnOk result (string_bytes text.new
        ≡ string_bytes text.old
        ++ link_text (map part_of chains.now) (channel.now.from, channel.now.channel.to)) }
{
    let lines = link_text(alloc, chains, channel.from, channel.channel.to)?;
    text.push_str(&lines)
}

/// What waits in the channel from one chain to another; nothing where there is no such channel.
fn link_text(
    alloc: Global,
    chains: &[ChainState],
    from: ChainId,
    to: ChainId,
) -> Result<String, AllocError>
    ensures { IfOk result (λ text. string_bytes text
        ≡ link_text (map part_of chains.now) (from, to)) }
{
    match queue_between(chains, from, to) {
        None => Ok(String::new(alloc)),
        Some(queue) => queue_text(alloc, from, queue),
    }
}

/// The channel from one chain to another, whose messages make the lines of what waits there. None where there is no such
/// channel, of which there are no lines.
pub fn queue_between(chains: &[ChainState], from: ChainId, to: ChainId) -> Option<&Queue>
    ensures { queue_lines from (option_copied result)
        ≡ link_text (map part_of chains.now) (from, to) }
{
    law_of_queue_lines(); // For the prover alone.
    match chain_named(chains, from) {
        None => None,
        Some(chain) => queue_named(chain.queues().channels(), to),
    }
}

/// The first chain of that name.
fn chain_named(chains: &[ChainState], name: ChainId) -> Option<&ChainState>
    ensures { option_copied result
        ≡ find (λ (c : ChainState). is_part_of name (part_of c)) chains.now }
{
    chains.iter().find(|chain| chain.site().chain == name)
}

/// The first channel that leads to the chain.
fn queue_named(queues: &[Queue], to: ChainId) -> Option<&Queue>
    ensures { option_copied result ≡ find (is_led_to to) queues.now }
{
    queues.iter().find(|queue| queue.channel.to == to)
}
