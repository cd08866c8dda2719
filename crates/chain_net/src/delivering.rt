//! Deliveries.
ghost use Rattle.std.specs.Prelude.{◌≡◌, ◌≢◌, ◌<◌, false, true, None, Some, IfOk, OnOk, OnErr, is_some, length};
ghost use Rattle.chain_ids.specs.declared.chain.ChainId.{ChainId};
ghost use Rattle.std.specs.Option.{option_map};
ghost use Rattle.channel_parts.specs.Channels.{Outgoing};
ghost use Rattle.chain_queues.specs.Queues.{waiting_of, oldest, channel_to};
ghost use Rattle.network_steps.specs.Steps.{deliver, Deliver};
ghost use Rattle.chain_state.specs.PartOf.{part_of};
ghost use Rattle.chain_net.specs.Nets.{world_of, spec_of, is_stopped, trace_of, stepped};
ghost use Rattle.chain_net.specs.Sound.{AreBetweenSteps};
ghost use Rattle.law_steps.specs.Shapes.{AllShaped};
ghost use Rattle.law_steps.specs.Kept.{IsCoherent};
ghost use Rattle.law_nets.specs.Promises.{KeepsAssets, PaysInFull};
ghost use Rattle.law_authority.specs.Speakers.{HasAuthority};
ghost use Rattle.law_nets.specs.Stops.{DeliverStops};
ghost use Rattle.chain_net.specs.Answers.{HasNoMessageFault};
ghost use Rattle.chain_net.specs.Passing.{IsOtherChain, IsCarried, IsPassed, IsPassStopped};

use crate::Net;
use crate::laws::law_of_reached_nets;
use crate::losing::{lines_of_loss, lose};
use crate::running::run_message;
use chain_ids::ChainId;
use chain_queues::Queued;
use chain_state::ChainState;
use exec_rules::ChainRules;
use law_nets::{
    law_of_networks_with_pasts, law_of_pasts_through_steps, law_of_stopped_messages,
    law_of_stopped_nets,
};
use network_steps::StepResult;
use std::alloc::{AllocError, Global};
use xcm_program::Outcome;

/// Runs a message, which has left its channel, at its receiver; what no instruction took of its cargo is lost at its sender.
fn pass(
    alloc: Global,
    rules: &ChainRules,
    from: ChainId,
    queued: Queued,
    sender: usize,
    receiver: usize,
    chains: &mut Vec<ChainState>,
) -> Result<Outcome, AllocError>
    requires apart { sender ≢ receiver }
    requires sender { sender < length chains.old.items }
    requires receiver { receiver < length chains.old.items }
    requires between { AreBetweenSteps chains.old.items }
    requires other { IsOtherChain chains.old.items receiver from }
    requires carried { IsCarried chains.old.items sender queued.cargo }
    ensures passed { IfOk result (λ outcome. IsPassed rules.now from (waiting_of queued) sender
        receiver outcome chains.old.items chains.new.items) }
    ensures stopped { OnErr result (IsPassStopped rules.now from (waiting_of queued) sender receiver
        chains.old.items chains.new.items) }
{
    let (ran, left) = run_message(alloc, rules, from, queued, &mut chains[receiver]);
    let lines = lines_of_loss(alloc, &chains[sender], &left);
    lose(&mut chains[sender], left);
    let outcome = ran?;
    chains[receiver].tell_lines(lines?)?;
    Ok(outcome)
}

/// Whether a message waits at the chain for that one; `None` where no channel leads there.
pub(crate) fn has_waiting(chain: &ChainState, to: ChainId) -> Option<bool>
    ensures { result ≡ option_map (λ (c : Outgoing). is_some (oldest c))
        (channel_to to (part_of chain.now).channels) }
{
    let messages = chain.queues().messages(to)?;
    Some(!messages.is_empty())
}

impl Net {
    /// Delivers the oldest message of a channel: its receiver runs it for the sender's location, without credit, and what no instruction
    /// took of a teleport is lost. NoSuchChain; NoSuchChannel; Empty, where no message waits; or Ran. `Err` is out of memory: then the
    /// network is stopped.
    pub fn deliver(&mut self, from: ChainId, to: ChainId) -> Result<StepResult, AllocError>
        requires running { is_stopped self.old ≡ false }
        ensures answer { IfOk result (λ answer. answer
            ≡ (deliver (world_of self.old) from to).answer) }
        ensures world { OnOk result (world_of self.new
            ≡ (deliver (world_of self.old) from to).world) }
        ensures trace { OnOk result (trace_of self.new
            ≡ (deliver (world_of self.old) from to).trace) }
        ensures read { IfOk result (λ answer. HasNoMessageFault answer) }
        ensures running { OnOk result (is_stopped self.new ≡ false) }
        ensures stopped { OnErr result (is_stopped self.new ≡ true) }
        ensures stops { OnErr result (DeliverStops (world_of self.old) from to
            (world_of self.new)) }
        ensures spec { spec_of self.new ≡ spec_of self.old }
        // Whether the call answers or is out of memory: a coherent network keeps each asset, backs each derivative and
        // burns nothing in excess, and in every network each message that waits has one of the seven shapes.
        ensures kept { IsCoherent (spec_of self.old)
            → KeepsAssets (spec_of self.old) (world_of self.new) }
        ensures shaped { AllShaped (world_of self.new) }
        // No account has less but the sending chain's at the receiver, or a pool's, whose product doesn't fall.
        ensures authorized { HasAuthority (world_of self.old) (Deliver from to)
            (world_of self.new) }
        // In a coherent network what a delivery would take is paid, now and in the next drain.
        ensures paid { OnOk result (IsCoherent (spec_of self.old)
            → PaysInFull (spec_of self.old) (world_of self.new)) }
    {
        // For the prover alone.
        law_of_pasts_through_steps();
        law_of_reached_nets();
        law_of_networks_with_pasts();
        law_of_stopped_nets();
        law_of_stopped_messages();
        self.stopped = true;
        self.acted = None;
        let answer = self.try_deliver(from, to)?;
        self.stopped = false;
        Ok(answer)
    }

    /// The same on a network that counts as stopped until it is done.
    fn try_deliver(&mut self, from: ChainId, to: ChainId) -> Result<StepResult, AllocError>
        requires stopped { self.old.stopped ≡ true }
        requires idle { self.old.acted ≡ None }
        requires between { AreBetweenSteps self.old.chains.items }
        ensures step { IfOk result (λ answer. deliver (world_of self.old) from to
            ≡ stepped answer self.new) }
        ensures read { IfOk result (λ answer. HasNoMessageFault answer) }
        ensures between { OnOk result (AreBetweenSteps self.new.chains.items) }
        ensures stops { OnErr result (DeliverStops (world_of self.old) from to
            (world_of self.new)) }
        ensures stopped { self.new.stopped ≡ true }
        ensures spec { self.new.spec ≡ self.old.spec }
    {
        let Some(sender) = self.place(from) else {
            return Ok(StepResult::NoSuchChain);
        };
        let Some(receiver) = self.place(to) else {
            return Ok(StepResult::NoSuchChain);
        };
        let Some(waits) = has_waiting(&self.chains[sender], to) else {
            return Ok(StepResult::NoSuchChannel);
        };
        if !waits {
            return Ok(StepResult::Empty);
        }
        let Some(queued) = self.chains[sender].take(to) else {
            unreachable!();
        };
        self.acted = Some(receiver);
        let alloc = *self.chains.allocator();
        let rules = &self.rules[receiver];
        let outcome = pass(
            alloc,
            rules,
            from,
            queued,
            sender,
            receiver,
            &mut self.chains,
        )?;
        Ok(StepResult::Ran(outcome))
    }
}
