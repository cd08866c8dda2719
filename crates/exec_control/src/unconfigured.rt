//! Instructions that nothing serves on these chains: channels by request, versions, other consensus systems, and aliases.
ghost use Rattle.std.specs.Prelude.{IfOk, OnErr};
ghost use Rattle.xcm_program.specs.declared.instruction.Instruction.TheOpen.{Instruction-F};
ghost use Rattle.exec_rules.specs.Machine.{machine};
ghost use Rattle.exec_rules.specs.Functions.{Ran, IsReadyFor};
ghost use Rattle.exec_rules.specs.Stopping.{LeftOnOom};

use crate::comparing::{is_original, is_own_network};
use exec_base::{Host, Registers};
use locations::{Junction, Junctions, Location, NetworkId};
use operands::{Weight, XcmError};
use std::alloc::AllocError;
use xcm_program::Program;

/// 7 HrmpNewChannelOpenRequest: unimplemented.
pub fn hrmp_new_channel_open_request<H: Host>(
    r: &mut Registers,
    h: &mut H,
    sender: u32,
    max_message_size: u32,
    max_capacity: u32,
) -> Result<Result<(), XcmError>, AllocError>
    requires ready { IsReadyFor (Instruction-F.HrmpNewChannelOpenRequest sender max_message_size
        max_capacity) (machine r.old (H.part h.old)) }
    ensures ok { IfOk result
        (λ answer. Ran (Instruction-F.HrmpNewChannelOpenRequest sender max_message_size
        max_capacity) (machine r.old (H.part h.old)) answer
        (machine r.new (H.part h.new))) }
    ensures err { OnErr result (LeftOnOom (Instruction-F.HrmpNewChannelOpenRequest sender
        max_message_size max_capacity) (machine r.old (H.part h.old))
        (machine r.new (H.part h.new))) }
{
    Ok(Err(XcmError::Unimplemented))
}

/// 8 HrmpChannelAccepted: unimplemented.
pub fn hrmp_channel_accepted<H: Host>(
    r: &mut Registers,
    h: &mut H,
    recipient: u32,
) -> Result<Result<(), XcmError>, AllocError>
    requires ready { IsReadyFor (Instruction-F.HrmpChannelAccepted recipient)
        (machine r.old (H.part h.old)) }
    ensures ok { IfOk result (λ answer. Ran (Instruction-F.HrmpChannelAccepted recipient)
        (machine r.old (H.part h.old)) answer (machine r.new (H.part h.new))) }
    ensures err { OnErr result (LeftOnOom (Instruction-F.HrmpChannelAccepted recipient)
        (machine r.old (H.part h.old)) (machine r.new (H.part h.new))) }
{
    Ok(Err(XcmError::Unimplemented))
}

/// 9 HrmpChannelClosing: unimplemented.
pub fn hrmp_channel_closing<H: Host>(
    r: &mut Registers,
    h: &mut H,
    initiator: u32,
    sender: u32,
    recipient: u32,
) -> Result<Result<(), XcmError>, AllocError>
    requires ready { IsReadyFor (Instruction-F.HrmpChannelClosing initiator sender recipient)
        (machine r.old (H.part h.old)) }
    ensures ok { IfOk result
        (λ answer. Ran (Instruction-F.HrmpChannelClosing initiator sender recipient)
        (machine r.old (H.part h.old)) answer (machine r.new (H.part h.new))) }
    ensures err { OnErr result (LeftOnOom (Instruction-F.HrmpChannelClosing initiator sender
        recipient) (machine r.old (H.part h.old)) (machine r.new (H.part h.new))) }
{
    Ok(Err(XcmError::Unimplemented))
}

/// 26 SubscribeVersion: unimplemented, and refused but for the original origin.
pub fn subscribe_version<H: Host>(
    r: &mut Registers,
    h: &mut H,
    query_id: u64,
    max_response_weight: Weight,
) -> Result<Result<(), XcmError>, AllocError>
    requires ready { IsReadyFor (Instruction-F.SubscribeVersion query_id max_response_weight)
        (machine r.old (H.part h.old)) }
    ensures ok { IfOk result
        (λ answer. Ran (Instruction-F.SubscribeVersion query_id max_response_weight)
        (machine r.old (H.part h.old)) answer (machine r.new (H.part h.new))) }
    ensures err { OnErr result (LeftOnOom (Instruction-F.SubscribeVersion query_id
        max_response_weight) (machine r.old (H.part h.old))
        (machine r.new (H.part h.new))) }
{
    if !is_original(r) {
        return Ok(Err(XcmError::BadOrigin));
    }
    Ok(Err(XcmError::Unimplemented))
}

/// 27 UnsubscribeVersion: unimplemented, and refused but for the original origin.
pub fn unsubscribe_version<H: Host>(
    r: &mut Registers,
    h: &mut H,
) -> Result<Result<(), XcmError>, AllocError>
    requires ready { IsReadyFor Instruction-F.UnsubscribeVersion (machine r.old (H.part h.old)) }
    ensures ok { IfOk result (λ answer. Ran Instruction-F.UnsubscribeVersion
        (machine r.old (H.part h.old)) answer (machine r.new (H.part h.new))) }
    ensures err { OnErr result (LeftOnOom Instruction-F.UnsubscribeVersion
        (machine r.old (H.part h.old)) (machine r.new (H.part h.new))) }
{
    if !is_original(r) {
        return Ok(Err(XcmError::BadOrigin));
    }
    Ok(Err(XcmError::Unimplemented))
}

/// 37 UniversalOrigin: no junction may be claimed; the chain's own first junction is refused before the origin is asked.
pub fn universal_origin<H: Host>(
    r: &mut Registers,
    h: &mut H,
    junction: &Junction,
) -> Result<Result<(), XcmError>, AllocError>
    requires ready { IsReadyFor (Instruction-F.UniversalOrigin junction.now)
        (machine r.old (H.part h.old)) }
    ensures ok { IfOk result (λ answer. Ran (Instruction-F.UniversalOrigin junction.now)
        (machine r.old (H.part h.old)) answer (machine r.new (H.part h.new))) }
    ensures err { OnErr result (LeftOnOom (Instruction-F.UniversalOrigin junction.now)
        (machine r.old (H.part h.old)) (machine r.new (H.part h.new))) }
{
    if is_own_network(h.site(), junction) {
        return Ok(Err(XcmError::InvalidLocation));
    }
    if r.origin.is_none() {
        return Ok(Err(XcmError::BadOrigin));
    }
    Ok(Err(XcmError::InvalidLocation))
}

/// 38 ExportMessage: no way leads to another consensus system.
pub fn export_message<H: Host>(
    r: &mut Registers,
    h: &mut H,
    network: &NetworkId,
    destination: &Junctions,
    xcm: &Program,
) -> Result<Result<(), XcmError>, AllocError>
    requires ready { IsReadyFor (Instruction-F.ExportMessage network.now destination.now xcm.now)
        (machine r.old (H.part h.old)) }
    ensures ok { IfOk result (λ answer. Ran (Instruction-F.ExportMessage network.now destination.now
        xcm.now) (machine r.old (H.part h.old)) answer (machine r.new (H.part h.new))) }
    ensures err { OnErr result (LeftOnOom (Instruction-F.ExportMessage network.now destination.now
        xcm.now) (machine r.old (H.part h.old)) (machine r.new (H.part h.new))) }
{
    if r.origin.is_none() {
        return Ok(Err(XcmError::BadOrigin));
    }
    Ok(Err(XcmError::Unroutable))
}

/// 46 AliasOrigin: no origin may act as another.
pub fn alias_origin<H: Host>(
    r: &mut Registers,
    h: &mut H,
    target: &Location,
) -> Result<Result<(), XcmError>, AllocError>
    requires ready { IsReadyFor (Instruction-F.AliasOrigin target.now)
        (machine r.old (H.part h.old)) }
    ensures ok { IfOk result (λ answer. Ran (Instruction-F.AliasOrigin target.now)
        (machine r.old (H.part h.old)) answer (machine r.new (H.part h.new))) }
    ensures err { OnErr result (LeftOnOom (Instruction-F.AliasOrigin target.now)
        (machine r.old (H.part h.old)) (machine r.new (H.part h.new))) }
{
    if r.origin.is_none() {
        return Ok(Err(XcmError::BadOrigin));
    }
    Ok(Err(XcmError::NoPermission))
}
