//! The programs that a run keeps.
ghost use Rattle.std.specs.Prelude.{◌≡◌, ◌+◌, ◌<◌, ◌^◌, Some, IfOk, OnErr};
ghost use Rattle.xcm_program.specs.declared.instruction.Instruction.TheOpen.{Instruction-F};
ghost use Rattle.exec_rules.specs.Machine.{machine};
ghost use Rattle.exec_rules.specs.Functions.{Ran, IsReadyFor};
ghost use Rattle.exec_rules.specs.Stopping.{LeftOnOom};
ghost use Rattle.weight_trader.specs.Sums.{weight_sum};
ghost use Rattle.exec_rules.specs.Machine.{weight_added};
ghost use Rattle.exec_rules.specs.Accounts.{HasWeight};

use exec_base::{Host, Registers};
use operands::{Weight, XcmError};
use std::alloc::AllocError;
use weight_trader::weigh;
use xcm_program::{Program, WeightRule};

/// What a program weighs that has a weight.
fn weight_of(program: &Program, rule: WeightRule) -> Weight
    requires { HasWeight rule (Some program.now) }
    ensures { result ≡ weight_sum rule program.now }
{
    match weigh(program, &rule) {
        Ok(weight) => weight,
        Err(_) => unreachable!(),
    }
}

/// The sum of two weights, which fits.
pub(crate) fn added(a: Weight, b: Weight) -> Weight
    requires short { a.ref_time + b.ref_time < 2 ^ 64 }
    requires small { a.proof_size + b.proof_size < 2 ^ 64 }
    ensures { result ≡ weight_added a b }
{
    Weight {
        ref_time: a.ref_time + b.ref_time,
        proof_size: a.proof_size + b.proof_size,
    }
}

/// 21 SetErrorHandler: the weight of the handler before is surplus, and this one is set with its weight.
pub fn set_error_handler<H: Host>(
    r: &mut Registers,
    h: &mut H,
    xcm: Program,
) -> Result<Result<(), XcmError>, AllocError>
    requires ready { IsReadyFor (Instruction-F.SetErrorHandler xcm) (machine r.old (H.part h.old)) }
    ensures ok { IfOk result (λ answer. Ran (Instruction-F.SetErrorHandler xcm)
        (machine r.old (H.part h.old)) answer (machine r.new (H.part h.new))) }
    ensures err { OnErr result (LeftOnOom (Instruction-F.SetErrorHandler xcm)
        (machine r.old (H.part h.old)) (machine r.new (H.part h.new))) }
{
    let weight = weight_of(&xcm, r.rule);
    r.surplus = added(r.surplus, r.handler_weight);
    r.handler = xcm;
    r.handler_weight = weight;
    Ok(Ok(()))
}

/// 22 SetAppendix: the weight of the appendix before is surplus, and this one is set with its weight.
pub fn set_appendix<H: Host>(
    r: &mut Registers,
    h: &mut H,
    xcm: Program,
) -> Result<Result<(), XcmError>, AllocError>
    requires ready { IsReadyFor (Instruction-F.SetAppendix xcm) (machine r.old (H.part h.old)) }
    ensures ok { IfOk result (λ answer. Ran (Instruction-F.SetAppendix xcm)
        (machine r.old (H.part h.old)) answer (machine r.new (H.part h.new))) }
    ensures err { OnErr result (LeftOnOom (Instruction-F.SetAppendix xcm)
        (machine r.old (H.part h.old)) (machine r.new (H.part h.new))) }
{
    let weight = weight_of(&xcm, r.rule);
    r.surplus = added(r.surplus, r.appendix_weight);
    r.appendix = xcm;
    r.appendix_weight = weight;
    Ok(Ok(()))
}
