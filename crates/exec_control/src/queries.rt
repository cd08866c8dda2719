//! The answer to a query of this chain.
ghost use Rattle.std.specs.Prelude.{IfOk, OnErr};
ghost use Rattle.xcm_program.specs.declared.instruction.Instruction.TheOpen.{Instruction-F};
ghost use Rattle.exec_rules.specs.Machine.{machine};
ghost use Rattle.exec_rules.specs.Functions.{Ran, IsReadyFor};
ghost use Rattle.exec_rules.specs.Stopping.{LeftOnOom};

use exec_base::{Host, Registers};
use locations::Location;
use operands::{Response, Weight, XcmError};
use std::alloc::AllocError;

/// 3 QueryResponse: a query with this number that is open for the origin is closed and told as answered; another is told as ignored.
/// The response, its weight and the querier play no part.
pub fn query_response<H: Host>(
    r: &mut Registers,
    h: &mut H,
    query_id: u64,
    response: &Response,
    max_weight: Weight,
    querier: &Option<Location>,
) -> Result<Result<(), XcmError>, AllocError>
    requires ready { IsReadyFor (Instruction-F.QueryResponse query_id response.now max_weight
        querier.now) (machine r.old (H.part h.old)) }
    ensures ok { IfOk result
        (λ answer. Ran (Instruction-F.QueryResponse query_id response.now max_weight querier.now)
        (machine r.old (H.part h.old)) answer (machine r.new (H.part h.new))) }
    ensures err { OnErr result (LeftOnOom (Instruction-F.QueryResponse query_id response.now
        max_weight querier.now) (machine r.old (H.part h.old))
        (machine r.new (H.part h.new))) }
{
    let Some(who) = &r.origin else {
        return Ok(Err(XcmError::BadOrigin));
    };
    h.answer(who, query_id)?;
    Ok(Ok(()))
}
