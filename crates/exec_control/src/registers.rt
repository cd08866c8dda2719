//! Registers that are set and emptied, and an error on purpose.
ghost use Rattle.std.specs.Prelude.{IfOk, OnErr};
ghost use Rattle.xcm_program.specs.declared.instruction.Instruction.TheOpen.{Instruction-F};
ghost use Rattle.exec_rules.specs.Machine.{machine};
ghost use Rattle.exec_rules.specs.Functions.{Ran, IsReadyFor};
ghost use Rattle.exec_rules.specs.Stopping.{LeftOnOom};

use exec_base::{Host, Registers};
use operands::{MaybeError, XcmError};
use std::alloc::AllocError;

/// 23 ClearError: the error register becomes empty.
pub fn clear_error<H: Host>(
    r: &mut Registers,
    h: &mut H,
) -> Result<Result<(), XcmError>, AllocError>
    requires ready { IsReadyFor Instruction-F.ClearError (machine r.old (H.part h.old)) }
    ensures ok { IfOk result (λ answer. Ran Instruction-F.ClearError (machine r.old (H.part h.old))
        answer (machine r.new (H.part h.new))) }
    ensures err { OnErr result (LeftOnOom Instruction-F.ClearError (machine r.old (H.part h.old))
        (machine r.new (H.part h.new))) }
{
    r.error = None;
    Ok(Ok(()))
}

/// 36 ClearTransactStatus: the status of the last Transact becomes success.
pub fn clear_transact_status<H: Host>(
    r: &mut Registers,
    h: &mut H,
) -> Result<Result<(), XcmError>, AllocError>
    requires ready { IsReadyFor Instruction-F.ClearTransactStatus (machine r.old (H.part h.old)) }
    ensures ok { IfOk result (λ answer. Ran Instruction-F.ClearTransactStatus
        (machine r.old (H.part h.old)) answer (machine r.new (H.part h.new))) }
    ensures err { OnErr result (LeftOnOom Instruction-F.ClearTransactStatus
        (machine r.old (H.part h.old)) (machine r.new (H.part h.new))) }
{
    r.status = MaybeError::Success;
    Ok(Ok(()))
}

/// 43 SetFeesMode: sets whether delivery fees come from the origin's account, instead of the holding register.
pub fn set_fees_mode<H: Host>(
    r: &mut Registers,
    h: &mut H,
    jit_withdraw: bool,
) -> Result<Result<(), XcmError>, AllocError>
    requires ready { IsReadyFor (Instruction-F.SetFeesMode jit_withdraw)
        (machine r.old (H.part h.old)) }
    ensures ok { IfOk result (λ answer. Ran (Instruction-F.SetFeesMode jit_withdraw)
        (machine r.old (H.part h.old)) answer (machine r.new (H.part h.new))) }
    ensures err { OnErr result (LeftOnOom (Instruction-F.SetFeesMode jit_withdraw)
        (machine r.old (H.part h.old)) (machine r.new (H.part h.new))) }
{
    r.fees_mode = jit_withdraw;
    Ok(Ok(()))
}

/// 44 SetTopic: sets the topic register.
pub fn set_topic<H: Host>(
    r: &mut Registers,
    h: &mut H,
    topic: &[u8; 32],
) -> Result<Result<(), XcmError>, AllocError>
    requires ready { IsReadyFor (Instruction-F.SetTopic topic.now) (machine r.old (H.part h.old)) }
    ensures ok { IfOk result (λ answer. Ran (Instruction-F.SetTopic topic.now)
        (machine r.old (H.part h.old)) answer (machine r.new (H.part h.new))) }
    ensures err { OnErr result (LeftOnOom (Instruction-F.SetTopic topic.now)
        (machine r.old (H.part h.old)) (machine r.new (H.part h.new))) }
{
    r.topic = Some(*topic);
    Ok(Ok(()))
}

/// 45 ClearTopic: the topic register becomes empty.
pub fn clear_topic<H: Host>(
    r: &mut Registers,
    h: &mut H,
) -> Result<Result<(), XcmError>, AllocError>
    requires ready { IsReadyFor Instruction-F.ClearTopic (machine r.old (H.part h.old)) }
    ensures ok { IfOk result (λ answer. Ran Instruction-F.ClearTopic (machine r.old (H.part h.old))
        answer (machine r.new (H.part h.new))) }
    ensures err { OnErr result (LeftOnOom Instruction-F.ClearTopic (machine r.old (H.part h.old))
        (machine r.new (H.part h.new))) }
{
    r.topic = None;
    Ok(Ok(()))
}

/// 25 Trap: fails with this code.
pub fn trap<H: Host>(
    r: &mut Registers,
    h: &mut H,
    code: u64,
) -> Result<Result<(), XcmError>, AllocError>
    requires ready { IsReadyFor (Instruction-F.Trap code) (machine r.old (H.part h.old)) }
    ensures ok { IfOk result (λ answer. Ran (Instruction-F.Trap code) (machine r.old (H.part h.old))
        answer (machine r.new (H.part h.new))) }
    ensures err { OnErr result (LeftOnOom (Instruction-F.Trap code) (machine r.old (H.part h.old))
        (machine r.new (H.part h.new))) }
{
    Ok(Err(XcmError::Trap(code)))
}
