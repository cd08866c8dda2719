//! Weight that is bought, and given back.
ghost use Rattle.std.specs.Prelude.{◌≡◌, ◌+◌, ◌*◌, ◌||◌, nat_lt, nat_le, length, None, OnErr, IfOk};
ghost use Rattle.amounts.specs.Amounts.{amount, rows};
ghost use Rattle.asset_lists.specs.declared.units.AssetId.TheVariants.{Concrete};
ghost use Rattle.xcm_program.specs.declared.instruction.Instruction.TheOpen.{Instruction-F};
ghost use Rattle.exec_rules.specs.Machine.{machine};
ghost use Rattle.exec_rules.specs.Functions.{Ran, IsReadyFor};
ghost use Rattle.exec_rules.specs.Stopping.{LeftOnOom};
ghost use Rattle.weight_trader.specs.Refunds.{weight_minus};

use asset_lists::{Asset, AssetId};
use exec_base::{Host, Registers};
use exec_holding::{answer_of, has_room, hold, put_back, take_asset};
use exec_rules::law_of_readiness;
use locations::Location;
use operands::{Weight, WeightLimit, XcmError};
use std::alloc::{AllocError, Global};

/// 19 BuyExecution: pays for the weight with the fees, which are held in full; what is unspent goes back.
pub fn buy_execution<H: Host>(
    alloc: Global,
    r: &mut Registers,
    h: &mut H,
    fees: &Asset,
    limit: WeightLimit,
) -> Result<Result<(), XcmError>, AllocError>
    requires ready { IsReadyFor (Instruction-F.BuyExecution fees.now limit)
        (machine r.old (H.part h.old)) }
    ensures ok { IfOk result (λ answer. Ran (Instruction-F.BuyExecution fees.now limit)
        (machine r.old (H.part h.old)) answer (machine r.new (H.part h.new))) }
    ensures err { OnErr result (LeftOnOom (Instruction-F.BuyExecution fees.now limit)
        (machine r.old (H.part h.old)) (machine r.new (H.part h.new))) }
{
    let WeightLimit::Limited(weight) = limit else {
        return Ok(Ok(()));
    };
    let Some(payment) = take_asset(alloc, &mut r.holding, fees)? else {
        return Ok(Err(XcmError::NotHoldingFees));
    };
    match h.buy(weight, payment) {
        Ok(unspent) => {
            // For the prover alone: what is held stays listed.
            law_of_readiness();
            hold(&mut r.holding, h, unspent)?;
            Ok(Ok(()))
        }
        Err((payment, fault)) => {
            put_back(&mut r.holding, h, payment)?;
            answer_of(fault)
        }
    }
}

/// The surplus that wasn't refunded yet.
fn not_refunded(r: &Registers) -> Weight
    ensures { result ≡ weight_minus r.now.surplus r.now.refunded }
{
    Weight {
        ref_time: r.surplus.ref_time.saturating_sub(r.refunded.ref_time),
        proof_size: r.surplus.proof_size.saturating_sub(r.refunded.proof_size),
    }
}

/// Whether the holding has this asset, or room for one kind more.
fn takes_in(r: &Registers, coin: Location) -> bool
    ensures { result ≡ (nat_lt 0 (amount r.now.holding (Concrete coin, None))
        || nat_le (length (rows r.now.holding) + 1) (2 * r.now.max_holding)) }
{
    r.holding.amount(&AssetId::Concrete(coin)) > 0 || has_room(&r.holding, r.max_holding, 1)
}

/// 20 RefundSurplus: gives back what was paid for the surplus that wasn't refunded yet.
pub fn refund_surplus<H: Host>(
    r: &mut Registers,
    h: &mut H,
) -> Result<Result<(), XcmError>, AllocError>
    requires ready { IsReadyFor Instruction-F.RefundSurplus (machine r.old (H.part h.old)) }
    ensures ok { IfOk result (λ answer. Ran Instruction-F.RefundSurplus
        (machine r.old (H.part h.old)) answer (machine r.new (H.part h.new))) }
    ensures err { OnErr result (LeftOnOom Instruction-F.RefundSurplus (machine r.old (H.part h.old))
        (machine r.new (H.part h.new))) }
{
    let weight = not_refunded(r);
    let Some((coin, _)) = h.refund_of(weight) else {
        return Ok(Ok(()));
    };
    if !takes_in(r, coin) {
        return Ok(Err(XcmError::HoldingWouldOverflow));
    }
    let goods = h.refund(weight)?;
    // For the prover alone: what is given back is listed.
    law_of_readiness();
    hold(&mut r.holding, h, goods)?;
    r.refunded = r.surplus;
    Ok(Ok(()))
}
