//! Locks that another chain holds, and lets fall.
ghost use Rattle.std.specs.Prelude.{IfOk, OnErr};
ghost use Rattle.xcm_program.specs.declared.instruction.Instruction.TheOpen.{Instruction-F};
ghost use Rattle.exec_rules.specs.Machine.{machine};
ghost use Rattle.exec_rules.specs.Functions.{Ran, IsReadyFor};
ghost use Rattle.exec_rules.specs.Stopping.{LeftOnOom};

use asset_lists::Asset;
use exec_base::{Host, HostFault, Registers};
use locations::Location;
use operands::XcmError;
use std::alloc::AllocError;

/// 40 UnlockAsset: lets a lock on the target's account fall, of which the origin is the unlocker.
pub fn unlock_asset<H: Host>(
    r: &mut Registers,
    h: &mut H,
    asset: &Asset,
    target: &Location,
) -> Result<Result<(), XcmError>, AllocError>
    requires ready { IsReadyFor (Instruction-F.UnlockAsset asset.now target.now)
        (machine r.old (H.part h.old)) }
    ensures ok { IfOk result (λ answer. Ran (Instruction-F.UnlockAsset asset.now target.now)
        (machine r.old (H.part h.old)) answer (machine r.new (H.part h.new))) }
    ensures err { OnErr result (LeftOnOom (Instruction-F.UnlockAsset asset.now target.now)
        (machine r.old (H.part h.old)) (machine r.new (H.part h.new))) }
{
    let Some(who) = &r.origin else {
        return Ok(Err(XcmError::BadOrigin));
    };
    match h.unlock(asset, target, who) {
        Ok(()) => Ok(Ok(())),
        Err(HostFault::Xcm(e)) => Ok(Err(e)),
        Err(HostFault::Memory) => Err(AllocError),
    }
}

/// 41 NoteUnlockable: notes a lock that the origin holds.
pub fn note_unlockable<H: Host>(
    r: &mut Registers,
    h: &mut H,
    asset: &Asset,
    owner: &Location,
) -> Result<Result<(), XcmError>, AllocError>
    requires ready { IsReadyFor (Instruction-F.NoteUnlockable asset.now owner.now)
        (machine r.old (H.part h.old)) }
    ensures ok { IfOk result (λ answer. Ran (Instruction-F.NoteUnlockable asset.now owner.now)
        (machine r.old (H.part h.old)) answer (machine r.new (H.part h.new))) }
    ensures err { OnErr result (LeftOnOom (Instruction-F.NoteUnlockable asset.now owner.now)
        (machine r.old (H.part h.old)) (machine r.new (H.part h.new))) }
{
    let Some(who) = &r.origin else {
        return Ok(Err(XcmError::BadOrigin));
    };
    match h.note(asset, owner, who) {
        Ok(()) => Ok(Ok(())),
        Err(HostFault::Xcm(e)) => Ok(Err(e)),
        Err(HostFault::Memory) => Err(AllocError),
    }
}
