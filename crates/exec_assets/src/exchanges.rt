//! Assets that are exchanged with the chain's pools.
ghost use Rattle.std.specs.Prelude.{◌≡◌, OnErr, IfOk};
ghost use Rattle.xcm_program.specs.declared.instruction.Instruction.TheOpen.{Instruction-F};
ghost use Rattle.exec_rules.specs.Machine.{machine};
ghost use Rattle.exec_rules.specs.Functions.{Ran, IsReadyFor};
ghost use Rattle.exec_rules.specs.Stopping.{LeftOnOom};

use asset_lists::{Assets, Filter};
use exec_base::{Host, Registers};
use exec_holding::{answer_of, has_room, hold, put_back};
use exec_rules::law_of_readiness;
use operands::XcmError;
use std::alloc::AllocError;

/// 15 ExchangeAsset: exchanges what the filter takes for what is wanted, with a pool of the chain.
pub fn exchange_asset<H: Host>(
    r: &mut Registers,
    h: &mut H,
    give: &Filter,
    want: &Assets,
    maximal: bool,
) -> Result<Result<(), XcmError>, AllocError>
    requires ready { IsReadyFor (Instruction-F.ExchangeAsset give.now want.now maximal)
        (machine r.old (H.part h.old)) }
    ensures ok { IfOk result (λ answer. Ran (Instruction-F.ExchangeAsset give.now want.now maximal)
        (machine r.old (H.part h.old)) answer (machine r.new (H.part h.new))) }
    ensures err { OnErr result (LeftOnOom (Instruction-F.ExchangeAsset give.now want.now maximal)
        (machine r.old (H.part h.old)) (machine r.new (H.part h.new))) }
{
    if !has_room(&r.holding, r.max_holding, want.items().len()) {
        return Ok(Err(XcmError::HoldingWouldOverflow));
    }
    let goods = r.holding.take(give)?;
    match h.exchange(goods, want, maximal) {
        Ok(got) => {
            // For the prover alone: what comes of an exchange is listed.
            law_of_readiness();
            hold(&mut r.holding, h, got)?;
            Ok(Ok(()))
        }
        Err((goods, fault)) => {
            put_back(&mut r.holding, h, goods)?;
            answer_of(fault)
        }
    }
}
