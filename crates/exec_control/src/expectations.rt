//! Instructions that compare, and change nothing.
ghost use Rattle.std.specs.Prelude.{IfOk, OnErr};
ghost use Rattle.xcm_program.specs.declared.instruction.Instruction.TheOpen.{Instruction-F};
ghost use Rattle.exec_rules.specs.Machine.{machine};
ghost use Rattle.exec_rules.specs.Functions.{Ran, IsReadyFor};
ghost use Rattle.exec_rules.specs.Stopping.{LeftOnOom};

use crate::comparing::{has_names, has_version, pallet_at, same_failure, same_origin, same_status};
use exec_base::{Host, Registers};
use locations::Location;
use operands::{LongBytes, MaybeError, WeightLimit, XcmError};
use std::alloc::AllocError;

/// 30 ExpectOrigin: fails unless the origin register is this.
pub fn expect_origin<H: Host>(
    r: &mut Registers,
    h: &mut H,
    origin: &Option<Location>,
) -> Result<Result<(), XcmError>, AllocError>
    requires ready { IsReadyFor (Instruction-F.ExpectOrigin origin.now)
        (machine r.old (H.part h.old)) }
    ensures ok { IfOk result (λ answer. Ran (Instruction-F.ExpectOrigin origin.now)
        (machine r.old (H.part h.old)) answer (machine r.new (H.part h.new))) }
    ensures err { OnErr result (LeftOnOom (Instruction-F.ExpectOrigin origin.now)
        (machine r.old (H.part h.old)) (machine r.new (H.part h.new))) }
{
    if !same_origin(&r.origin, origin) {
        return Ok(Err(XcmError::ExpectationFalse));
    }
    Ok(Ok(()))
}

/// 31 ExpectError: fails unless the error register is this.
pub fn expect_error<H: Host>(
    r: &mut Registers,
    h: &mut H,
    error: &Option<(u32, XcmError)>,
) -> Result<Result<(), XcmError>, AllocError>
    requires ready { IsReadyFor (Instruction-F.ExpectError error.now)
        (machine r.old (H.part h.old)) }
    ensures ok { IfOk result (λ answer. Ran (Instruction-F.ExpectError error.now)
        (machine r.old (H.part h.old)) answer (machine r.new (H.part h.new))) }
    ensures err { OnErr result (LeftOnOom (Instruction-F.ExpectError error.now)
        (machine r.old (H.part h.old)) (machine r.new (H.part h.new))) }
{
    if !same_failure(&r.error, error) {
        return Ok(Err(XcmError::ExpectationFalse));
    }
    Ok(Ok(()))
}

/// 32 ExpectTransactStatus: fails unless the status of the last Transact is this.
pub fn expect_transact_status<H: Host>(
    r: &mut Registers,
    h: &mut H,
    status: &MaybeError,
) -> Result<Result<(), XcmError>, AllocError>
    requires ready { IsReadyFor (Instruction-F.ExpectTransactStatus status.now)
        (machine r.old (H.part h.old)) }
    ensures ok { IfOk result (λ answer. Ran (Instruction-F.ExpectTransactStatus status.now)
        (machine r.old (H.part h.old)) answer (machine r.new (H.part h.new))) }
    ensures err { OnErr result (LeftOnOom (Instruction-F.ExpectTransactStatus status.now)
        (machine r.old (H.part h.old)) (machine r.new (H.part h.new))) }
{
    if !same_status(&r.status, status) {
        return Ok(Err(XcmError::ExpectationFalse));
    }
    Ok(Ok(()))
}

/// 34 ExpectPallet: fails unless the chain has a pallet of this index, with these names, of this major version and at least this minor one.
pub fn expect_pallet<H: Host>(
    r: &mut Registers,
    h: &mut H,
    index: u32,
    name: &LongBytes,
    module_name: &LongBytes,
    crate_major: u32,
    min_crate_minor: u32,
) -> Result<Result<(), XcmError>, AllocError>
    requires ready { IsReadyFor (Instruction-F.ExpectPallet index name.now module_name.now
        crate_major min_crate_minor) (machine r.old (H.part h.old)) }
    ensures ok { IfOk result
        (λ answer. Ran (Instruction-F.ExpectPallet index name.now module_name.now crate_major
        min_crate_minor) (machine r.old (H.part h.old)) answer
        (machine r.new (H.part h.new))) }
    ensures err { OnErr result (LeftOnOom (Instruction-F.ExpectPallet index name.now module_name.now
        crate_major min_crate_minor) (machine r.old (H.part h.old))
        (machine r.new (H.part h.new))) }
{
    let Some(info) = pallet_at(h.pallets(), index) else {
        return Ok(Err(XcmError::PalletNotFound));
    };
    if !has_names(info, name, module_name) {
        return Ok(Err(XcmError::NameMismatch));
    }
    if !has_version(info, crate_major, min_crate_minor) {
        return Ok(Err(XcmError::VersionIncompatible));
    }
    Ok(Ok(()))
}

/// 47 UnpaidExecution: fails where an origin is given that isn't in the register. The limit plays no part.
pub fn unpaid_execution<H: Host>(
    r: &mut Registers,
    h: &mut H,
    limit: WeightLimit,
    check_origin: &Option<Location>,
) -> Result<Result<(), XcmError>, AllocError>
    requires ready { IsReadyFor (Instruction-F.UnpaidExecution limit check_origin.now)
        (machine r.old (H.part h.old)) }
    ensures ok { IfOk result (λ answer. Ran (Instruction-F.UnpaidExecution limit check_origin.now)
        (machine r.old (H.part h.old)) answer (machine r.new (H.part h.new))) }
    ensures err { OnErr result (LeftOnOom (Instruction-F.UnpaidExecution limit check_origin.now)
        (machine r.old (H.part h.old)) (machine r.new (H.part h.new))) }
{
    if check_origin.is_some() && !same_origin(&r.origin, check_origin) {
        return Ok(Err(XcmError::BadOrigin));
    }
    Ok(Ok(()))
}
