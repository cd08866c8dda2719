//! Local executions.
ghost use Rattle.std.specs.Prelude.{◌≡◌, ◌≢◌, false, true, IfOk, OnOk, OnErr, None};
ghost use Rattle.versioned_xcm.specs.declared.faults.MessageFault.TheVariants.{Memory};
ghost use Rattle.network_steps.specs.declared.step_result.StepResult.{StepResult};
ghost use Rattle.network_steps.specs.Steps as steps;
ghost use Rattle.network_steps.specs.Steps.{exec, Exec};
ghost use Rattle.chain_net.specs.Nets.{world_of, spec_of, is_stopped, trace_of, stepped};
ghost use Rattle.chain_net.specs.Sound.{AreBetweenSteps};
ghost use Rattle.law_steps.specs.Shapes.{AllShaped};
ghost use Rattle.law_steps.specs.Kept.{IsCoherent};
ghost use Rattle.law_nets.specs.Promises.{KeepsAssets, PaysInFull};
ghost use Rattle.law_authority.specs.Speakers.{HasAuthority};
ghost use Rattle.law_nets.specs.Stops.{ExecStops};

use crate::Net;
use crate::laws::law_of_reached_nets;
use crate::running::run_here;
use chain_ids::ChainId;
use law_nets::{
    law_of_networks_with_pasts, law_of_pasts_through_steps, law_of_stopped_messages,
    law_of_stopped_nets,
};
use network_steps::{StepResult, law_of_decoded_programs};
use std::alloc::AllocError;
use trust_tables::is_sovereign;
use versioned_xcm::{MessageFault, decode_message};

/// Whether the account is that of a whole chain.
fn is_chain_account(account: &[u8; 32]) -> bool
    ensures { result ≡ steps.is_sovereign account.now }
{
    is_sovereign(account)
}

/// What a step answers to bytes that are no message; `Err` is out of memory.
pub(crate) fn answer_to(fault: MessageFault) -> Result<StepResult, AllocError>
    ensures answer { IfOk result (λ answer. answer ≡ StepResult.Message fault) }
    ensures other { OnOk result (fault ≢ Memory) }
{
    match fault {
        MessageFault::TooLong
        | MessageFault::UnknownVersion
        | MessageFault::NotAMessage
        | MessageFault::NotConvertible => Ok(StepResult::Message(fault)),
        MessageFault::Memory => Err(AllocError),
    }
}

impl Net {
    /// Has a message executed for a local account of the chain, with the chain's limit as its credit: NoSuchChain; SovereignCaller, where
    /// the account is that of a whole chain or of one of the chain's pools; Message, where the bytes are no message; or Ran. `Err` is out of
    /// memory: then the network is stopped.
    pub fn exec(
        &mut self,
        chain: ChainId,
        account: &[u8; 32],
        bytes: &[u8],
    ) -> Result<StepResult, AllocError>
        requires running { is_stopped self.old ≡ false }
        ensures answer { IfOk result (λ answer. answer
            ≡ (exec (world_of self.old) chain account.now bytes.now).answer) }
        ensures world { OnOk result (world_of self.new
            ≡ (exec (world_of self.old) chain account.now bytes.now).world) }
        ensures trace { OnOk result (trace_of self.new
            ≡ (exec (world_of self.old) chain account.now bytes.now).trace) }
        ensures running { OnOk result (is_stopped self.new ≡ false) }
        ensures stopped { OnErr result (is_stopped self.new ≡ true) }
        ensures stops { OnErr result (ExecStops (world_of self.old) chain account.now bytes.now
            (world_of self.new)) }
        ensures spec { spec_of self.new ≡ spec_of self.old }
        // Whether the call answers or is out of memory: a coherent network keeps each asset, backs each derivative and
        // burns nothing in excess, and in every network each message that waits has one of the seven shapes.
        ensures kept { IsCoherent (spec_of self.old)
            → KeepsAssets (spec_of self.old) (world_of self.new) }
        ensures shaped { AllShaped (world_of self.new) }
        // No account has less but the caller's on this chain, or a pool's, whose product doesn't fall.
        ensures authorized { HasAuthority (world_of self.old)
            (Exec chain account.now bytes.now) (world_of self.new) }
        // In a coherent network what a delivery would take is paid, now and in the next drain.
        ensures paid { OnOk result (IsCoherent (spec_of self.old)
            → PaysInFull (spec_of self.old) (world_of self.new)) }
    {
        // For the prover alone.
        law_of_pasts_through_steps();
        law_of_reached_nets();
        law_of_networks_with_pasts();
        law_of_stopped_nets();
        law_of_stopped_messages();
        self.stopped = true;
        self.acted = None;
        let answer = self.try_exec(chain, account, bytes)?;
        self.stopped = false;
        Ok(answer)
    }

    /// The same on a network that counts as stopped until it is done.
    fn try_exec(
        &mut self,
        chain: ChainId,
        account: &[u8; 32],
        bytes: &[u8],
    ) -> Result<StepResult, AllocError>
        requires stopped { self.old.stopped ≡ true }
        requires idle { self.old.acted ≡ None }
        requires between { AreBetweenSteps self.old.chains.items }
        ensures step { IfOk result (λ answer. exec (world_of self.old) chain account.now bytes.now
            ≡ stepped answer self.new) }
        ensures between { OnOk result (AreBetweenSteps self.new.chains.items) }
        ensures stops { OnErr result (ExecStops (world_of self.old) chain account.now bytes.now
            (world_of self.new)) }
        ensures stopped { self.new.stopped ≡ true }
        ensures spec { self.new.spec ≡ self.old.spec }
    {
        law_of_decoded_programs(); // For the prover alone.
        let Some(place) = self.place(chain) else {
            return Ok(StepResult::NoSuchChain);
        };
        if is_chain_account(account) {
            return Ok(StepResult::SovereignCaller);
        }
        let rules = &self.rules[place];
        let here = &self.chains[place];
        if here.has_pool_account(account) {
            return Ok(StepResult::SovereignCaller);
        }
        let alloc = *self.chains.allocator();
        let program = match decode_message(alloc, bytes) {
            Ok(program) => program,
            Err(fault) => return answer_to(fault),
        };
        self.acted = Some(place);
        let outcome = run_here(alloc, rules, account, program, &mut self.chains[place])?;
        Ok(StepResult::Ran(outcome))
    }
}
