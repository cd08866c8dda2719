//! The channels of a chain.
ghost use Rattle.std.specs.Prelude.{◌≡◌, None, Some, IfOk, IfErr, OnOk, OnErr, IsTrue, length, map, option_map};
ghost use Rattle.std.specs.List.{position};
ghost use Rattle.channel_parts.specs.Channels.{Outgoing, opened};
ghost use Rattle.versioned_xcm.specs.Reading.{message_of};
ghost use Rattle.chain_queues.specs.Decoded.{decodes, is_spelled_in, program_read};
ghost use Rattle.chain_queues.specs.Queues.{waiting_of, outgoing_of, channels_of, is_led_to, channel_to, is_spelled_for, push_refusal, pushed, oldest_to, popped};

use crate::faults::PushFault;
use crate::queues::{Queue, Queued, Queues};
use asset_wire::Version;
use chain_ids::ChainId;
use channel_parts::{Cargo, Channel};
use std::alloc::{AllocError, Global};
use std::collections::VecDeque;

/// Whether the bytes begin with the byte of the version.
fn is_spelled_in(version: Version, bytes: &[u8]) -> bool
    ensures { result ≡ is_spelled_in version bytes.now }
{
    match (version, bytes.first()) {
        (_, None) => false,
        (Version::V3, Some(byte)) => *byte == 3,
        (Version::V4, Some(byte)) => *byte == 4,
    }
}

impl Queues {
    /// These channels, without messages. There is room for the capacity of each, so that a push takes no memory.
    pub fn open(alloc: Global, list: Vec<Channel>) -> Result<Queues, AllocError>
        ensures { IfOk result (λ queues. channels_of queues ≡ map opened list.items) }
    {
        let mut queues = Vec::with_capacity(alloc, list.len())?;
        for channel in list {
            let queue = Queue::open(alloc, channel)?;
            queues.push(queue)?;
        }
        Ok(Queues { list: queues })
    }

    /// The channels in listed order, each with what waits in it.
    pub fn channels(&self) -> &[Queue]
        ensures { map outgoing_of result.now ≡ channels_of self.now }
    {
        self.list.as_slice()
    }

    /// The index of the first channel that leads to the chain.
    fn place_to(&self, to: ChainId) -> Option<usize>
        ensures { result ≡ position (is_led_to to) self.now.list.items }
    {
        self.list.iter().position(|queue| queue.channel.to == to)
    }

    /// The messages that wait for the chain, oldest first; `None` where no channel leads there.
    pub fn messages(&self, to: ChainId) -> Option<&VecDeque<Queued>>
        ensures { option_map (λ messages. map waiting_of messages.now.items) result
            ≡ option_map (λ (c : Outgoing). c.queue) (channel_to to (channels_of self.now)) }
    {
        let place = self.place_to(to)?;
        Some(&self.list[place].waiting)
    }

    /// Whether a message of so many bytes would be taken. It takes no memory.
    pub fn check(&self, to: ChainId, size: usize) -> Result<(), PushFault>
        ensures taken { OnOk result (push_refusal size (channel_to to (channels_of self.now))
            ≡ None) }
        ensures refused { IfErr result
            (λ fault. push_refusal size (channel_to to (channels_of self.now)) ≡ Some fault) }
    {
        match self.place_to(to) {
            None => Err(PushFault::NoChannel),
            Some(place) => self.list[place].check(size),
        }
    }

    /// Whether the bytes begin with the byte of the version of the channel that leads to the chain; where none does, any do.
    pub fn is_spelled_for(&self, to: ChainId, bytes: &[u8]) -> bool
        ensures { result ≡ is_spelled_for (channel_to to (channels_of self.now)) bytes.now }
    {
        match self.place_to(to) {
            None => true,
            Some(place) => is_spelled_in(self.list[place].channel.version, bytes),
        }
    }

    /// Puts a message last in the channel that leads to the chain, and answers its number; or hands the cargo back. The bytes must
    /// decode and be of the channel's version. It takes no memory, and no time in proportion to what waits.
    pub fn push(
        &mut self,
        to: ChainId,
        bytes: Vec<u8>,
        cargo: Cargo,
    ) -> Result<u64, (Cargo, PushFault)>
        requires message { IsTrue (decodes bytes.items) }
        requires spelled { IsTrue (is_spelled_for (channel_to to (channels_of self.old))
            bytes.items) }
        ensures taken { OnOk result (push_refusal (length bytes.items)
            (channel_to to (channels_of self.old)) ≡ None) }
        ensures number { IfOk result (λ number. option_map
            (λ (c : Outgoing). c.next) (channel_to to (channels_of self.old)) ≡ Some number) }
        ensures queued { OnOk result (channels_of self.new
            ≡ pushed to (program_read (message_of bytes.items)) cargo (channels_of self.old)) }
        ensures refused { IfErr result
            (λ refusal. push_refusal (length bytes.items) (channel_to to (channels_of self.old))
            ≡ Some refusal.1) }
        ensures handed_back { IfErr result (λ refusal. refusal.0 ≡ cargo) }
        ensures kept { OnErr result (channels_of self.new ≡ channels_of self.old) }
    {
        let Some(place) = self.place_to(to) else {
            return Err((cargo, PushFault::NoChannel));
        };
        let queue = &mut self.list[place];
        if let Err(fault) = queue.check(bytes.len()) {
            return Err((cargo, fault));
        }
        Ok(queue.push(bytes, cargo))
    }

    /// Takes the oldest message that waits for the chain; `None` where no channel leads there, or where none waits. It takes no memory,
    /// and no time in proportion to what waits.
    pub fn pop(&mut self, to: ChainId) -> Option<Queued>
        ensures oldest { option_map waiting_of result ≡ oldest_to to (channels_of self.old) }
        ensures rest { channels_of self.new ≡ popped to (channels_of self.old) }
    {
        let place = self.place_to(to)?;
        self.list[place].pop()
    }
}
