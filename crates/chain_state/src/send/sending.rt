//! Messages that are sent.
ghost use Rattle.std.specs.Prelude.{◌≡◌, ◌+◌, ◌≤◌, ◌++◌, [], ◌∷◌, List, None, Some, length, true, IsTrue, MatchResult, vec_len, vec_capacity};
ghost use Rattle.std.specs.Option.{option_map};
ghost use Rattle.xcm_program.specs.declared.instruction.Instruction.{Instruction};
ghost use Rattle.xcm_program.specs.Conversions.{is_convertible};
ghost use Rattle.xcm_format.specs.Messages.{IsMessageIn};
ghost use Rattle.channel_parts.specs.Channels.{Outgoing};
ghost use Rattle.channel_parts.specs.declared.cargo.Cargo.{Cargo};
ghost use Rattle.versioned_xcm.specs.Reading.{message_of};
ghost use Rattle.versioned_xcm.specs.Message.{IsEncodeCause};
ghost use Rattle.chain_queues.specs.Decoded.{decodes, program_read};
ghost use Rattle.chain_queues.specs.Queues as queues;
ghost use Rattle.chain_queues.specs.Queues.{outgoing_of, is_spelled_for, push_refusal, pushed};
ghost use Rattle.exec_base.specs.declared.event.Event.{Event};
ghost use Rattle.exec_base.specs.Answers.{AnswersOrRefuses};
ghost use Rattle.exec_base.specs.Sending.{channel_refusal, send_refusal, number_to, sent, IsForwardable};
ghost use Rattle.chain_state.specs.PartOf.{part_of};
ghost use Rattle.chain_state.specs.Sends.{push_error, IsAccepted, IsAcceptedByChannel, IsSendFault};

use crate::ChainState;
use chain_ids::ChainId;
use chain_queues::{Cargo, PushFault, Queue};
use exec_base::{Event, HostFault};
use locations::Location;
use operands::XcmError;
use versioned_xcm::{EncodeFault, encode_message, law_of_round_trip};
use xcm_program::Program;

/// The error of a message that its channel doesn't take.
fn push_error(fault: PushFault) -> XcmError
    ensures { result ≡ push_error fault }
{
    match fault {
        PushFault::NoChannel => XcmError::Unroutable,
        PushFault::TooLarge => XcmError::ExceedsMaxMessageSize,
        PushFault::Full => XcmError::Transport,
    }
}

/// What was encoded for the channel, where the channel takes it, with the chain that it leads to; or why it isn't sent.
pub(crate) fn accepted(
    queue: &Queue,
    encoded: Result<Vec<u8>, EncodeFault>,
) -> Result<(ChainId, Vec<u8>), HostFault>
    ensures { (program : List Instruction) → is_convertible program ≡ true
        → MatchResult encoded (λ bytes. IsMessageIn queue.now.channel.version bytes.items program)
        (IsEncodeCause queue.now.channel.version program)
        → MatchResult result (λ ready. IsAccepted (outgoing_of queue.now) program ready.0
        ready.1.items) (IsSendFault (channel_refusal (Some (outgoing_of queue.now)) true
        program)) }
{
    // For the prover alone: what was encoded means its program alone.
    law_of_round_trip();
    let bytes = match encoded {
        Ok(bytes) => bytes,
        Err(EncodeFault::ExceedsLimits) => {
            return Err(HostFault::Xcm(XcmError::ExceedsMaxMessageSize));
        }
        Err(EncodeFault::Memory) => return Err(HostFault::Memory),
    };
    if let Err(fault) = queue.check(bytes.len()) {
        return Err(HostFault::Xcm(push_error(fault)));
    }
    Ok((queue.channel.to, bytes))
}

impl ChainState {
    /// The program as it is sent to that location, and the chain that the channel leads to; or why it isn't sent.
    pub(crate) fn encoded_to(
        &self,
        dest: &Location,
        program: &Program,
    ) -> Result<(ChainId, Vec<u8>), HostFault>
        requires forwardable { IsForwardable program.now }
        ensures ready { MatchResult result
            (λ ready. IsAcceptedByChannel (part_of self.now) dest.now program.now ready.0 ready.1.items)
            (IsSendFault (send_refusal (part_of self.now) dest.now true program.now)) }
    {
        let Some(queue) = self.queue_to(dest) else {
            return Err(HostFault::Xcm(XcmError::Unroutable));
        };
        let alloc = *self.events.allocator();
        accepted(queue, encode_message(alloc, program, queue.channel.version))
    }

    /// Puts the message last in the channel, which takes it, and keeps its line back, for which there is room. It takes no memory.
    pub(crate) fn post(&mut self, to: ChainId, bytes: Vec<u8>, cargo: Cargo) -> u64
        requires message { IsTrue (decodes bytes.items) }
        requires spelled { IsTrue (is_spelled_for (queues.channel_to to (part_of self.old).channels)
            bytes.items) }
        requires free { push_refusal (length bytes.items)
            (queues.channel_to to (part_of self.old).channels) ≡ None }
        requires room { vec_len self.old.pending_events + 1 ≤ vec_capacity self.old.pending_events }
        ensures number { option_map (λ (c : Outgoing). c.next)
            (queues.channel_to to (part_of self.old).channels) ≡ Some result }
        ensures posted { part_of self.new ≡ record (part_of self.old) {
          channels = pushed to (program_read (message_of bytes.items)) cargo
              (part_of self.old).channels;
          pending_events = (part_of self.old).pending_events ++ Event.Sent (part_of self.old).site.chain to
              result ∷ [];
        } }
    {
        match self.queues.push(to, bytes, cargo) {
            Ok(number) => {
                self.pending_events.push_reserved(Event::Sent {
                    from: self.settings.site.chain,
                    to,
                    number,
                });
                number
            }
            Err(_) => unreachable!(),
        }
    }

    /// Sends a program that carries nothing.
    pub(crate) fn send_to(&mut self, dest: &Location, program: &Program) -> Result<u64, HostFault>
        requires forwardable { IsForwardable program.now }
        ensures step { AnswersOrRefuses (send_refusal (part_of self.old) dest.now true program.now)
            (number_to (part_of self.old) dest.now)
            (sent (part_of self.old) dest.now program.now Cargo.Nothing) (part_of self.old) result
            (part_of self.new) }
    {
        let (to, bytes) = self.encoded_to(dest, program)?;
        self.pending_events.reserve(1)?;
        Ok(self.post(to, bytes, Cargo::Nothing))
    }
}
