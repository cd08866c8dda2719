//! The block of `queues`, which is written a message at a time.

ghost use Rattle.std.specs.Prelude.{◌≡◌, flat_map, map};
ghost use Rattle.network_steps.specs.Genesis.{order_of};
ghost use Rattle.chain_state.specs.PartOf.{part_of};
ghost use Rattle.chain_net.specs.Nets.{world_of, spec_of};
ghost use Rattle.step_text.specs.Blocks.{queued_line, link_text};
ghost use Rattle.report_blocks.specs.Reads.{queues_block};
ghost use Rattle.xcm_cli.specs.Pieces.{WritesInPieces};

use chain_ids::ChainId;
use chain_net::Net;
use chain_queues::{Queue, Queued};
use chain_state::ChainState;
use line_serving::{Status, write_text};
use network_spec::ChannelSpec;
use report_text::queue_between;
use std::alloc::{AllocError, Global};
use step_text::queue_line;
use xcm_io::Sink;

/// Writes what waits, channel by channel in the order of the document.
pub(crate) fn write_channels<O: Sink>(
    alloc: Global,
    net: &Net,
    out: &mut O,
) -> Result<Option<Status>, AllocError>
    ensures { WritesInPieces (queues_block (order_of (spec_of net.now)) (world_of net.now))
        (O.written out.old) (O.written out.new) (O.faults out.old) (O.faults out.new) result }
{
    write_links(alloc, net.spec().channels.items(), net.chains(), out)
}

/// Writes what waits in each of these channels.
fn write_links<O: Sink>(
    alloc: Global,
    channels: &[ChannelSpec],
    chains: &[ChainState],
    out: &mut O,
) -> Result<Option<Status>, AllocError>
    ensures { WritesInPieces
        (flat_map (λ (c : ChannelSpec). link_text (map part_of chains.now) (c.from, c.channel.to))
        channels.now)
        (O.written out.old) (O.written out.new) (O.faults out.old) (O.faults out.new) result }
{
    for channel in channels {
        match write_link(alloc, channel, chains, out) {
            Ok(None) => {}
            Ok(Some(status)) => return Ok(Some(status)),
            Err(refused) => return Err(refused),
        }
    }
    Ok(None)
}

/// Writes what waits in a channel.
fn write_link<O: Sink>(
    alloc: Global,
    channel: &ChannelSpec,
    chains: &[ChainState],
    out: &mut O,
) -> Result<Option<Status>, AllocError>
    ensures { WritesInPieces
        (link_text (map part_of chains.now) (channel.now.from, channel.now.channel.to))
        (O.written out.old) (O.written out.new) (O.faults out.old) (O.faults out.new) result }
{
    match queue_between(chains, channel.from, channel.channel.to) {
        None => Ok(None),
        Some(queue) => write_waiting(alloc, channel.from, queue, out),
    }
}

/// Writes the lines of the messages of a channel, oldest first.
fn write_waiting<O: Sink>(
    alloc: Global,
    from: ChainId,
    queue: &Queue,
    out: &mut O,
) -> Result<Option<Status>, AllocError>
    ensures { WritesInPieces
        (flat_map (queued_line from queue.now.channel.to) queue.now.waiting.items)
        (O.written out.old) (O.written out.new) (O.faults out.old) (O.faults out.new) result }
{
    for place in 0..queue.waiting.len() {
        match write_message(alloc, from, queue.channel.to, &queue.waiting[place], out) {
            Ok(None) => {}
            Ok(Some(status)) => return Ok(Some(status)),
            Err(refused) => return Err(refused),
        }
    }
    Ok(None)
}

/// Writes the line of a message that waits.
fn write_message<O: Sink>(
    alloc: Global,
    from: ChainId,
    to: ChainId,
    queued: &Queued,
    out: &mut O,
) -> Result<Option<Status>, AllocError>
    ensures { WritesInPieces (queued_line from to queued.now)
        (O.written out.old) (O.written out.new) (O.faults out.old) (O.faults out.new) result }
{
    match queue_line(alloc, from, to, queued.number, queued.bytes.as_slice()) {
        Ok(line) => Ok(write_text(out, &line, None)),
        Err(refused) => Err(refused),
    }
}
