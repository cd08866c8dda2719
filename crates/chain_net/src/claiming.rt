//! Claims.
ghost use Rattle.std.specs.Prelude.{◌≡◌, false, true, None, IfOk, OnOk, OnErr};
ghost use Rattle.network_steps.specs.Steps as steps;
ghost use Rattle.network_steps.specs.Steps.{claim, Claim};
ghost use Rattle.chain_net.specs.Nets.{world_of, spec_of, is_stopped, trace_of, stepped};
ghost use Rattle.chain_net.specs.Sound.{AreBetweenSteps};
ghost use Rattle.law_steps.specs.Shapes.{AllShaped};
ghost use Rattle.law_steps.specs.Kept.{IsCoherent};
ghost use Rattle.law_nets.specs.Promises.{KeepsAssets, PaysInFull};
ghost use Rattle.law_authority.specs.Speakers.{HasAuthority};

use crate::Net;
use crate::delivering::has_waiting;
use crate::executing::answer_to;
use crate::laws::law_of_reached_nets;
use chain_ids::ChainId;
use exec_base::HostFault;
use law_nets::{law_of_networks_with_pasts, law_of_pasts_through_steps, law_of_stopped_messages};
use network_steps::{StepResult, law_of_decoded_programs};
use std::alloc::AllocError;
use versioned_xcm::decode_message;
use xcm_program::{Instruction, Program};

/// Whether the program begins with ClaimAsset and ClearOrigin.
fn is_claim(program: &Program) -> bool
    ensures { result ≡ steps.is_claim program.now }
{
    matches!(
        program.items(),
        [Instruction::ClaimAsset { .. }, Instruction::ClearOrigin, ..]
    )
}

impl Net {
    /// Has a chain send a claim in its own name: NoSuchChain; NoSuchChannel; Message, where the bytes are no message; NotAClaim, where the
    /// message doesn't begin with ClaimAsset and ClearOrigin; Unsent, where the channel doesn't take it; or Sent. `Err` is out of memory:
    /// then the network is stopped.
    pub fn claim(
        &mut self,
        from: ChainId,
        to: ChainId,
        bytes: &[u8],
    ) -> Result<StepResult, AllocError>
        requires running { is_stopped self.old ≡ false }
        ensures answer { IfOk result (λ answer. answer
            ≡ (claim (world_of self.old) from to bytes.now).answer) }
        ensures world { OnOk result (world_of self.new
            ≡ (claim (world_of self.old) from to bytes.now).world) }
        ensures trace { OnOk result (trace_of self.new
            ≡ (claim (world_of self.old) from to bytes.now).trace) }
        ensures running { OnOk result (is_stopped self.new ≡ false) }
        ensures stopped { OnErr result (is_stopped self.new ≡ true) }
        ensures stops { OnErr result (world_of self.new ≡ world_of self.old) }
        ensures spec { spec_of self.new ≡ spec_of self.old }
        // Whether the call answers or is out of memory: a coherent network keeps each asset, backs each derivative and
        // burns nothing in excess, and in every network each message that waits has one of the seven shapes.
        ensures kept { IsCoherent (spec_of self.old)
            → KeepsAssets (spec_of self.old) (world_of self.new) }
        ensures shaped { AllShaped (world_of self.new) }
        // No account has less.
        ensures authorized { HasAuthority (world_of self.old) (Claim from to bytes.now)
            (world_of self.new) }
        // In a coherent network what a delivery would take is paid, now and in the next drain.
        ensures paid { OnOk result (IsCoherent (spec_of self.old)
            → PaysInFull (spec_of self.old) (world_of self.new)) }
    {
        // For the prover alone.
        law_of_pasts_through_steps();
        law_of_reached_nets();
        law_of_networks_with_pasts();
        law_of_stopped_messages();
        self.stopped = true;
        self.acted = None;
        let answer = self.try_claim(from, to, bytes)?;
        self.stopped = false;
        Ok(answer)
    }

    /// The same on a network that counts as stopped until it is done.
    fn try_claim(
        &mut self,
        from: ChainId,
        to: ChainId,
        bytes: &[u8],
    ) -> Result<StepResult, AllocError>
        requires stopped { self.old.stopped ≡ true }
        requires idle { self.old.acted ≡ None }
        requires between { AreBetweenSteps self.old.chains.items }
        ensures step { IfOk result (λ answer. claim (world_of self.old) from to bytes.now
            ≡ stepped answer self.new) }
        ensures between { OnOk result (AreBetweenSteps self.new.chains.items) }
        ensures stops { OnErr result (world_of self.new ≡ world_of self.old) }
        ensures stopped { self.new.stopped ≡ true }
        ensures spec { self.new.spec ≡ self.old.spec }
    {
        law_of_decoded_programs(); // For the prover alone.
        let Some(sender) = self.place(from) else {
            return Ok(StepResult::NoSuchChain);
        };
        let Some(_) = self.place(to) else {
            return Ok(StepResult::NoSuchChain);
        };
        let Some(_) = has_waiting(&self.chains[sender], to) else {
            return Ok(StepResult::NoSuchChannel);
        };
        let alloc = *self.chains.allocator();
        let program = match decode_message(alloc, bytes) {
            Ok(program) => program,
            Err(fault) => return answer_to(fault),
        };
        if !is_claim(&program) {
            return Ok(StepResult::NotAClaim);
        }
        match self.chains[sender].send(to, &program) {
            Ok(number) => Ok(StepResult::Sent(number)),
            Err(HostFault::Xcm(error)) => Ok(StepResult::Unsent(error)),
            Err(HostFault::Memory) => Err(AllocError),
        }
    }
}
