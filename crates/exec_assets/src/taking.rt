//! Assets that leave the holding, or an account.
ghost use Rattle.std.specs.Prelude.{◌≡◌, OnErr, IfOk};
ghost use Rattle.xcm_program.specs.declared.instruction.Instruction.TheOpen.{Instruction-F};
ghost use Rattle.exec_rules.specs.Machine.{machine};
ghost use Rattle.exec_rules.specs.Functions.{Ran, IsReadyFor};
ghost use Rattle.exec_rules.specs.Stopping.{LeftOnOom};

use asset_lists::{Assets, Filter};
use exec_base::{Host, Registers};
use exec_holding::{answer_of, put_back};
use locations::Location;
use operands::XcmError;
use std::alloc::AllocError;

/// 4 TransferAsset: moves the assets from the origin's account to the beneficiary's.
pub fn transfer_asset<H: Host>(
    r: &mut Registers,
    h: &mut H,
    assets: &Assets,
    beneficiary: &Location,
) -> Result<Result<(), XcmError>, AllocError>
    requires ready { IsReadyFor (Instruction-F.TransferAsset assets.now beneficiary.now)
        (machine r.old (H.part h.old)) }
    ensures ok { IfOk result (λ answer. Ran (Instruction-F.TransferAsset assets.now beneficiary.now)
        (machine r.old (H.part h.old)) answer (machine r.new (H.part h.new))) }
    ensures err { OnErr result (LeftOnOom (Instruction-F.TransferAsset assets.now beneficiary.now)
        (machine r.old (H.part h.old)) (machine r.new (H.part h.new))) }
{
    let Some(who) = &r.origin else {
        return Ok(Err(XcmError::BadOrigin));
    };
    match h.transfer(assets, who, beneficiary) {
        Ok(()) => Ok(Ok(())),
        Err(fault) => answer_of(fault),
    }
}

/// 13 DepositAsset: puts what the filter takes into the beneficiary's account.
pub fn deposit_asset<H: Host>(
    r: &mut Registers,
    h: &mut H,
    assets: &Filter,
    beneficiary: &Location,
) -> Result<Result<(), XcmError>, AllocError>
    requires ready { IsReadyFor (Instruction-F.DepositAsset assets.now beneficiary.now)
        (machine r.old (H.part h.old)) }
    ensures ok { IfOk result (λ answer. Ran (Instruction-F.DepositAsset assets.now beneficiary.now)
        (machine r.old (H.part h.old)) answer (machine r.new (H.part h.new))) }
    ensures err { OnErr result (LeftOnOom (Instruction-F.DepositAsset assets.now beneficiary.now)
        (machine r.old (H.part h.old)) (machine r.new (H.part h.new))) }
{
    let goods = r.holding.take(assets)?;
    match h.deposit(goods, beneficiary) {
        Ok(()) => Ok(Ok(())),
        Err((goods, fault)) => {
            put_back(&mut r.holding, h, goods)?;
            answer_of(fault)
        }
    }
}

/// 28 BurnAsset: burns the assets as far as they are held, and books them.
#[tactic(auto, using(asset_bundles::proofs::Lemmas::listed_taken))]
pub fn burn_asset<H: Host>(
    r: &mut Registers,
    h: &mut H,
    assets: &Assets,
) -> Result<Result<(), XcmError>, AllocError>
    requires ready { IsReadyFor (Instruction-F.BurnAsset assets.now)
        (machine r.old (H.part h.old)) }
    ensures ok { IfOk result (λ answer. Ran (Instruction-F.BurnAsset assets.now)
        (machine r.old (H.part h.old)) answer (machine r.new (H.part h.new))) }
    ensures err { OnErr result (LeftOnOom (Instruction-F.BurnAsset assets.now)
        (machine r.old (H.part h.old)) (machine r.new (H.part h.new))) }
{
    let goods = r.holding.take_listed(assets)?;
    match h.burn(goods) {
        Ok(()) => Ok(Ok(())),
        Err(goods) => {
            put_back(&mut r.holding, h, goods)?;
            Err(AllocError)
        }
    }
}
