//! Calls of the chain that are dispatched.
ghost use Rattle.std.specs.Prelude.{◌≡◌, ◌<◌, [], if◌then◌else◌, Some, None, IfOk, OnErr, vec_capacity};
ghost use Rattle.operands.specs.Weights.{is_within};
ghost use Rattle.trust_tables.specs.Accounts.{account_of};
ghost use Rattle.xcm_program.specs.declared.instruction.Instruction.TheOpen.{Instruction-F};
ghost use Rattle.exec_rules.specs.Machine.{machine};
ghost use Rattle.exec_rules.specs.Calls.{account_by, call_weight, spare_weight, status_of};
ghost use Rattle.exec_rules.specs.Functions.{Ran, IsReadyFor};
ghost use Rattle.exec_rules.specs.Stopping.{LeftOnOom};

use crate::programs::added;
use call_dispatch::{Call, CallEnd, CallFault, call_units, read_call};
use exec_base::{Host, Registers};
use locations::Location;
use operands::{BoundedVec, LongBytes, MaybeError, OriginKind, Weight, XcmError};
use std::alloc::{AllocError, Global};
use trust_tables::{Site, account_of};
use xcm_program::WeightRule;

/// With which account a call is dispatched.
fn caller_of(kind: OriginKind, who: &Location, site: &Site) -> Option<[u8; 32]>
    ensures { result ≡ account_by kind (account_of who.now site.now) }
{
    match kind {
        OriginKind::SovereignAccount => account_of(who, site),
        _ => None,
    }
}

/// What the call spares of the weight that was required, or nothing where it weighs more.
fn spared(rule: WeightRule, most: Weight, call: &Call) -> Option<Weight>
    ensures { result ≡ (if is_within (call_weight rule call.now) most
        then Some (spare_weight rule most call.now) else None) }
{
    let units = u128::from(call_units(call));
    let ref_time = units * u128::from(rule.unit.ref_time);
    let proof_size = units * u128::from(rule.unit.proof_size);
    if ref_time > u128::from(most.ref_time) || proof_size > u128::from(most.proof_size) {
        return None;
    }
    Some(Weight {
        ref_time: most.ref_time - ref_time as u64,
        proof_size: most.proof_size - proof_size as u64,
    })
}

/// The status of a call that ended so, in room for one byte.
fn status(end: CallEnd, mut room: Vec<u8>) -> MaybeError
    requires empty { room.items ≡ [] }
    requires room { 0 < vec_capacity room }
    ensures { result ≡ status_of end }
{
    match end {
        CallEnd::Success => MaybeError::Success,
        CallEnd::Error(code) => {
            room.push_reserved(code);
            MaybeError::Error(BoundedVec::from_vec(room))
        }
    }
}

/// 6 Transact: the call is dispatched for the account of the origin. How it ends is the status, and what it spares of the weight is
/// surplus.
pub fn transact<H: Host>(
    alloc: Global,
    r: &mut Registers,
    h: &mut H,
    origin_kind: OriginKind,
    require_weight_at_most: Weight,
    call: &LongBytes,
) -> Result<Result<(), XcmError>, AllocError>
    requires ready { IsReadyFor (Instruction-F.Transact origin_kind require_weight_at_most call.now)
        (machine r.old (H.part h.old)) }
    ensures ok { IfOk result
        (λ answer. Ran (Instruction-F.Transact origin_kind require_weight_at_most call.now)
        (machine r.old (H.part h.old)) answer (machine r.new (H.part h.new))) }
    ensures err { OnErr result (LeftOnOom (Instruction-F.Transact origin_kind require_weight_at_most
        call.now)
        (machine r.old (H.part h.old)) (machine r.new (H.part h.new))) }
{
    let Some(who) = &r.origin else {
        return Ok(Err(XcmError::BadOrigin));
    };
    if !h.calls() {
        return Ok(Err(XcmError::FailedToDecode));
    }
    let found = match read_call(alloc, call.items()) {
        Ok(found) => found,
        Err(CallFault::NotACall) => return Ok(Err(XcmError::FailedToDecode)),
        Err(CallFault::Memory) => return Err(AllocError),
    };
    let Some(account) = caller_of(origin_kind, who, h.site()) else {
        return Ok(Err(XcmError::BadOrigin));
    };
    let Some(spare) = spared(r.rule, require_weight_at_most, &found) else {
        return Ok(Err(XcmError::MaxWeightInvalid));
    };
    let room = Vec::with_capacity(alloc, 1)?;
    let end = h.dispatch(&account, &found)?;
    r.status = status(end, room);
    r.surplus = added(r.surplus, spare);
    Ok(Ok(()))
}
