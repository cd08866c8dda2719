//! Locks of which another chain is told.
ghost use Rattle.std.specs.Prelude.{◌≡◌, [], ◌∷◌, OnErr, IfOk};
ghost use Rattle.xcm_program.specs.declared.instruction.Instruction.{roll-Instruction};
ghost use Rattle.xcm_program.specs.declared.instruction.Instruction.TheOpen.{Instruction-F};
ghost use Rattle.exec_rules.specs.Machine.{machine};
ghost use Rattle.exec_rules.specs.Functions.{Ran, IsReadyFor};
ghost use Rattle.exec_rules.specs.Stopping.{LeftOnOom};
ghost use Rattle.exec_base.specs.Sending.{IsForwardable};
ghost use Rattle.exec_base.specs.Host.{lock_refusal, asset_locked, request_refusal, asset_requested};
ghost use Rattle.exec_holding.specs.Holding.{RanTo};

use asset_lists::Asset;
use exec_base::{Host, Registers};
use exec_holding::{answer_of, begin_sending, end_sending};
use locations::Location;
use operands::XcmError;
use std::alloc::{AllocError, Global};

/// Locks the asset on the owner's account, and tells the unlocker.
fn lock<H: Host>(
    r: &mut Registers,
    h: &mut H,
    asset: &Asset,
    owner: &Location,
    unlocker: &Location,
) -> Result<Result<(), XcmError>, AllocError>
    requires forwardable { IsForwardable
        (roll-Instruction (Instruction-F.LockAsset asset.now unlocker.now) ∷ []) }
    ensures ok { IfOk result
        (λ answer. RanTo (lock_refusal (H.part h.old) asset.now owner.now unlocker.now)
        (machine r.old (asset_locked (H.part h.old) asset.now owner.now unlocker.now))
        (machine r.old (H.part h.old)) answer (machine r.new (H.part h.new))) }
    ensures err { OnErr result (machine r.new (H.part h.new) ≡ machine r.old (H.part h.old)) }
{
    match h.lock(asset, owner, unlocker) {
        Ok(_) => Ok(Ok(())),
        Err(fault) => answer_of(fault),
    }
}

/// 39 LockAsset: locks the asset on the origin's account, and tells the unlocker.
pub fn lock_asset<H: Host>(
    alloc: Global,
    r: &mut Registers,
    h: &mut H,
    asset: &Asset,
    unlocker: &Location,
) -> Result<Result<(), XcmError>, AllocError>
    requires ready { IsReadyFor (Instruction-F.LockAsset asset.now unlocker.now)
        (machine r.old (H.part h.old)) }
    ensures ok { IfOk result (λ answer. Ran (Instruction-F.LockAsset asset.now unlocker.now)
        (machine r.old (H.part h.old)) answer (machine r.new (H.part h.new))) }
    ensures err { OnErr result (LeftOnOom (Instruction-F.LockAsset asset.now unlocker.now)
        (machine r.old (H.part h.old)) (machine r.new (H.part h.new))) }
{
    let Some(who) = &r.origin else {
        return Ok(Err(XcmError::BadOrigin));
    };
    if !h.locks() {
        return Ok(Err(XcmError::LockError));
    }
    let who = who.copy();
    match begin_sending(alloc, r, h, unlocker)? {
        Ok(charged) => {
            let answer = lock(r, h, asset, &who, unlocker)?;
            end_sending(r, h, charged, answer)
        }
        Err(e) => Ok(Err(e)),
    }
}

/// Asks the locker to let a lock fall that is noted, and lowers the note.
fn request<H: Host>(
    r: &mut Registers,
    h: &mut H,
    asset: &Asset,
    owner: &Location,
    locker: &Location,
) -> Result<Result<(), XcmError>, AllocError>
    requires forwardable { IsForwardable
        (roll-Instruction (Instruction-F.RequestUnlock asset.now locker.now) ∷ []) }
    ensures ok { IfOk result
        (λ answer. RanTo (request_refusal (H.part h.old) asset.now owner.now locker.now)
        (machine r.old (asset_requested (H.part h.old) asset.now owner.now locker.now))
        (machine r.old (H.part h.old)) answer (machine r.new (H.part h.new))) }
    ensures err { OnErr result (machine r.new (H.part h.new) ≡ machine r.old (H.part h.old)) }
{
    match h.request(asset, owner, locker) {
        Ok(_) => Ok(Ok(())),
        Err(fault) => answer_of(fault),
    }
}

/// 42 RequestUnlock: asks the locker to let the lock fall that is noted for the origin, and lowers the note.
pub fn request_unlock<H: Host>(
    alloc: Global,
    r: &mut Registers,
    h: &mut H,
    asset: &Asset,
    locker: &Location,
) -> Result<Result<(), XcmError>, AllocError>
    requires ready { IsReadyFor (Instruction-F.RequestUnlock asset.now locker.now)
        (machine r.old (H.part h.old)) }
    ensures ok { IfOk result (λ answer. Ran (Instruction-F.RequestUnlock asset.now locker.now)
        (machine r.old (H.part h.old)) answer (machine r.new (H.part h.new))) }
    ensures err { OnErr result (LeftOnOom (Instruction-F.RequestUnlock asset.now locker.now)
        (machine r.old (H.part h.old)) (machine r.new (H.part h.new))) }
{
    let Some(who) = &r.origin else {
        return Ok(Err(XcmError::BadOrigin));
    };
    if !h.locks() {
        return Ok(Err(XcmError::LockError));
    }
    let who = who.copy();
    match begin_sending(alloc, r, h, locker)? {
        Ok(charged) => {
            let answer = request(r, h, asset, &who, locker)?;
            end_sending(r, h, charged, answer)
        }
        Err(e) => Ok(Err(e)),
    }
}
