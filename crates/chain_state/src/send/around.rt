//! Programs around assets, as they are sent.
ghost use Rattle.std.specs.Prelude.{◌≡◌, ◌≤◌, None, length, nat_le, true, false, MatchResult};
ghost use Rattle.asset_lists.specs.Lists.{has_zero, is_rising};
ghost use Rattle.xcm_program.specs.declared.instruction.Instruction.{roll-Instruction};
ghost use Rattle.xcm_program.specs.Conversions.{have_concrete_ids};
ghost use Rattle.exec_base.specs.Host.{seen_from};
ghost use Rattle.exec_base.specs.Sending.{send_refusal, listed_refusal, listed_program, IsForwardable};
ghost use Rattle.chain_state.specs.PartOf.{part_of};
ghost use Rattle.chain_state.specs.Sends.{IsAcceptedByChannel, IsSendFault, first_by, program_by};

use crate::ChainState;
use crate::send::arrivals::ArrivalKind;
use crate::send::naming::named;
use crate::send::sending::accepted;
use asset_lists::{Asset, Assets};
use chain_ids::ChainId;
use exec_base::HostFault;
use locations::Location;
use operands::XcmError;
use versioned_xcm::encode_forwarded;
use xcm_program::{Instruction, Program};

/// The instruction by which these assets arrive.
fn first_instruction(call: ArrivalKind, list: Assets) -> Instruction
    ensures { result ≡ roll-Instruction (first_by call list) }
{
    match call {
        ArrivalKind::Withdrawal => Instruction::WithdrawAsset { assets: list },
        ArrivalKind::Deposit => Instruction::ReserveAssetDeposited { assets: list },
        ArrivalKind::Teleport => Instruction::ReceiveTeleportedAsset { assets: list },
    }
}

impl ChainState {
    /// The program around a list that the destination can name, encoded, and the chain that the channel leads to; or why it isn't sent.
    fn encoded_with(
        &self,
        seen: Vec<Asset>,
        dest: &Location,
        call: ArrivalKind,
        xcm: &Program,
    ) -> Result<(ChainId, Vec<u8>), HostFault>
        requires forwardable { IsForwardable xcm.now }
        requires places { have_concrete_ids seen.items ≡ true }
        requires some { has_zero seen.items ≡ false }
        requires rising { is_rising seen.items ≡ true }
        ensures ready { MatchResult result
            (λ ready. IsAcceptedByChannel (part_of self.now) dest.now (program_by call xcm.now seen.items)
            ready.0 ready.1.items × (length seen.items ≤ 20))
            (IsSendFault (send_refusal (part_of self.now) dest.now (nat_le (length seen.items) 20)
            (program_by call xcm.now seen.items))) }
    {
        let Some(queue) = self.queue_to(dest) else {
            return Err(HostFault::Xcm(XcmError::Unroutable));
        };
        let Ok(list) = Assets::from_sorted(seen) else {
            return Err(HostFault::Xcm(XcmError::ExceedsMaxMessageSize));
        };
        let alloc = *self.events.allocator();
        let first = first_instruction(call, list);
        accepted(
            queue,
            encode_forwarded(alloc, &first, xcm, queue.channel.version),
        )
    }

    /// The program around these assets, as the destination names them, encoded, and the chain that the channel leads to; or why it isn't
    /// sent.
    pub(crate) fn encoded_around(
        &self,
        list: &[Asset],
        dest: &Location,
        call: ArrivalKind,
        xcm: &Program,
    ) -> Result<(ChainId, Vec<u8>), HostFault>
        requires forwardable { IsForwardable xcm.now }
        requires some { has_zero list.now ≡ false }
        ensures ready { MatchResult result
            (λ ready. IsAcceptedByChannel (part_of self.now) dest.now
            (listed_program (program_by call xcm.now)
            (seen_from (part_of self.now) dest.now list.now)) ready.0 ready.1.items
            × (listed_refusal (part_of self.now) dest.now (program_by call xcm.now)
            (seen_from (part_of self.now) dest.now list.now) ≡ None)
            × (length list.now ≤ 20))
            (IsSendFault (listed_refusal (part_of self.now) dest.now (program_by call xcm.now)
            (seen_from (part_of self.now) dest.now list.now))) }
    {
        let alloc = *self.events.allocator();
        let Some(seen) = named(alloc, list, dest, &self.settings.site.path())? else {
            return Err(HostFault::Xcm(XcmError::ReanchorFailed));
        };
        self.encoded_with(seen, dest, call, xcm)
    }
}
