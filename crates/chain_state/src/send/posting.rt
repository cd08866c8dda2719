//! Claims: messages that the chain sends in its own name.
ghost use Rattle.std.specs.Prelude.{◌≡◌, None, Some, IsTrue, true, MatchResult, find, length, option_copied};
ghost use Rattle.std.specs.Option.{option_map, option_map_or};
ghost use Rattle.channel_parts.specs.Channels.{Outgoing};
ghost use Rattle.channel_parts.specs.declared.cargo.Cargo.TheVariants.{Nothing};
ghost use Rattle.versioned_xcm.specs.Reading.{message_of};
ghost use Rattle.chain_queues.specs.Decoded.{decodes, program_read};
ghost use Rattle.chain_queues.specs.Queues.{channels_of, outgoing_of, is_led_to, is_spelled_for, push_refusal, channel_to, pushed};
ghost use Rattle.exec_base.specs.Answers.{AnswersOrRefuses};
ghost use Rattle.exec_base.specs.Sending.{channel_refusal, IsForwardable};
ghost use Rattle.chain_state.specs.PartOf.{part_of};
ghost use Rattle.chain_state.specs.Sends.{IsSendFault};
ghost use Rattle.chain_state.specs.Claims.{IsClaimTaken};

use crate::ChainState;
use crate::send::sending::accepted;
use chain_ids::ChainId;
use chain_queues::{Cargo, Queue, Queues};
use exec_base::HostFault;
use operands::XcmError;
use versioned_xcm::encode_message;
use xcm_program::Program;

/// Puts a message, which the channel takes, last in it. The answer is its number.
fn put(queues: &mut Queues, to: ChainId, bytes: Vec<u8>) -> u64
    requires message { IsTrue (decodes bytes.items) }
    requires spelled { IsTrue (is_spelled_for (channel_to to (channels_of queues.old))
        bytes.items) }
    requires free { push_refusal (length bytes.items) (channel_to to (channels_of queues.old))
        ≡ None }
    ensures number { option_map (λ (c : Outgoing). c.next) (channel_to to (channels_of queues.old))
        ≡ Some result }
    ensures queued { channels_of queues.new
        ≡ pushed to (program_read (message_of bytes.items)) Nothing (channels_of queues.old) }
{
    match queues.push(to, bytes, Cargo::Nothing) {
        Ok(number) => number,
        Err(_) => unreachable!(),
    }
}

/// The first channel that leads to the chain.
fn queue_named(queues: &[Queue], to: ChainId) -> Option<&Queue>
    ensures { option_copied result ≡ find (is_led_to to) queues.now }
{
    queues.iter().find(|queue| queue.channel.to == to)
}

impl ChainState {
    /// The channel that leads to the chain, with what waits in it.
    fn queue_for(&self, to: ChainId) -> Option<&Queue>
        ensures { option_map outgoing_of (option_copied result)
            ≡ channel_to to (part_of self.now).channels }
    {
        queue_named(self.queues.channels(), to)
    }

    /// The program as the channel to that chain takes it, or why it doesn't.
    fn claim_bytes(&self, to: ChainId, program: &Program) -> Result<Vec<u8>, HostFault>
        requires forwardable { IsForwardable program.now }
        ensures taken { MatchResult result
            (λ bytes. IsClaimTaken (channel_to to (part_of self.now).channels) program.now
            bytes.items)
            (IsSendFault (channel_refusal (channel_to to (part_of self.now).channels) true
            program.now)) }
    {
        let Some(queue) = self.queue_for(to) else {
            return Err(HostFault::Xcm(XcmError::Unroutable));
        };
        let alloc = *self.events.allocator();
        match accepted(queue, encode_message(alloc, program, queue.channel.version)) {
            Ok((_, bytes)) => Ok(bytes),
            Err(fault) => Err(fault),
        }
    }

    /// Puts a program that carries nothing last in the channel to that chain, and tells nothing. The answer is its number, or why the
    /// channel doesn't take it.
    pub fn send(&mut self, to: ChainId, program: &Program) -> Result<u64, HostFault>
        requires forwardable { IsForwardable program.now }
        ensures step { AnswersOrRefuses
            (channel_refusal (channel_to to (part_of self.old).channels) true
            program.now) (option_map_or (λ (c : Outgoing). c.next)
            (channel_to to (part_of self.old).channels) 0)
            (record (part_of self.old) {
              channels = pushed to program.now Nothing
                  (part_of self.old).channels;
            }) (part_of self.old) result (part_of self.new) }
    {
        let bytes = match self.claim_bytes(to, program) {
            Ok(bytes) => bytes,
            Err(fault) => return Err(fault),
        };
        Ok(put(&mut self.queues, to, bytes))
    }
}
