//! A message that waits, a channel with its messages, and the channels of a chain.
ghost use Rattle.std.specs.Prelude.{◌≤◌, All, IsTrue, length};
ghost use Rattle.std.specs.VecDeque.{deque_capacity};
ghost use Rattle.chain_queues.specs.Decoded.{decodes, is_spelled_in};

use channel_parts::{Cargo, Channel};
use std::collections::VecDeque;

/// A message that waits in a channel. Its bytes decode.
#[derive(Drop)]
pub struct Queued {
    /// Its number in its channel, from 1 on.
    pub number: u64,
    /// The message, spelled in its channel's version.
    pub bytes: Vec<u8>,
    /// What it carries, under the sender's asset ids.
    pub cargo: Cargo,
    ghost message: { IsTrue (decodes bytes.items) },
}

/// A channel and what waits in it: messages of its version, never more than its capacity, for which there is room from the beginning.
#[derive(Drop)]
pub struct Queue {
    /// The channel.
    pub channel: Channel,
    /// The number of the next message; it saturates at 2^64-1.
    pub next: u64,
    /// The messages, oldest first.
    pub waiting: VecDeque<Queued>,
    ghost room: { channel.capacity ≤ deque_capacity waiting },
    ghost within: { length waiting.items ≤ channel.capacity },
    ghost spelled: { All (λ q. IsTrue (is_spelled_in channel.version q.bytes.items))
        waiting.items },
}

/// The channels that lead from a chain, in the order in which the network document lists them.
#[derive(Drop)]
pub struct Queues {
    pub(crate) list: Vec<Queue>,
}
