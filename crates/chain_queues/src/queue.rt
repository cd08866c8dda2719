//! One channel.
ghost use Rattle.std.specs.Prelude.{◌≡◌, ◌<◌, ◌==◌, None, Some, IfOk, IfErr, OnOk, IsTrue, length, option_map};
ghost use Rattle.channel_parts.specs.Channels.{opened, with_waiting};
ghost use Rattle.versioned_xcm.specs.Reading.{message_of};
ghost use Rattle.chain_queues.specs.Decoded.{decodes, is_spelled_in, program_read};
ghost use Rattle.chain_queues.specs.Queues.{waiting_of, outgoing_of, push_refusal, oldest, without_oldest};

use crate::faults::PushFault;
use crate::queues::{Queue, Queued};
use channel_parts::{Cargo, Channel};
use std::alloc::{AllocError, Global};
use std::collections::VecDeque;

impl Queue {
    /// The channel without messages, with room for its capacity.
    pub(crate) fn open(alloc: Global, channel: Channel) -> Result<Queue, AllocError>
        ensures { IfOk result (λ queue. outgoing_of queue ≡ opened channel) }
    {
        let waiting = VecDeque::with_capacity(alloc, channel.capacity as usize)?;
        Ok(Queue {
            channel,
            next: 1,
            waiting,
        })
    }

    /// Whether as many messages wait as the channel holds.
    pub fn is_full(&self) -> bool
        ensures { result ≡ (length self.now.waiting.items == self.now.channel.capacity) }
    {
        self.waiting.len() == self.channel.capacity as usize
    }

    /// Whether a message of so many bytes would be taken. It takes no memory.
    pub fn check(&self, size: usize) -> Result<(), PushFault>
        ensures taken { OnOk result (push_refusal size (Some (outgoing_of self.now)) ≡ None) }
        ensures refused { IfErr result
            (λ fault. push_refusal size (Some (outgoing_of self.now)) ≡ Some fault) }
    {
        if (self.channel.max_size as usize) < size {
            return Err(PushFault::TooLarge);
        }
        if self.is_full() {
            return Err(PushFault::Full);
        }
        Ok(())
    }

    /// Puts a message last and answers its number. It takes no memory.
    pub(crate) fn push(&mut self, bytes: Vec<u8>, cargo: Cargo) -> u64
        requires message { IsTrue (decodes bytes.items) }
        requires spelled { IsTrue (is_spelled_in self.old.channel.version bytes.items) }
        requires room { length self.old.waiting.items < self.old.channel.capacity }
        ensures number { result ≡ self.old.next }
        ensures queue { outgoing_of self.new
            ≡ with_waiting (program_read (message_of bytes.items)) cargo (outgoing_of self.old) }
    {
        let number = self.next;
        self.next = number.saturating_add(1);
        self.waiting.push_back_reserved(Queued {
            number,
            bytes,
            cargo,
        });
        number
    }

    /// Takes the oldest message. It takes no memory.
    pub(crate) fn pop(&mut self) -> Option<Queued>
        ensures oldest { option_map waiting_of result ≡ oldest (outgoing_of self.old) }
        ensures rest { outgoing_of self.new ≡ without_oldest (outgoing_of self.old) }
    {
        self.waiting.pop_front()
    }
}
