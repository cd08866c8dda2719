//! Assets that go to other chains.
ghost use Rattle.std.specs.Prelude.{◌≡◌, ◌⊎◌, [], OnErr, IfOk};
ghost use Rattle.xcm_program.specs.declared.instruction.Instruction.TheOpen.{Instruction-F};
ghost use Rattle.exec_rules.specs.Machine.{machine};
ghost use Rattle.exec_rules.specs.Functions.{Ran, IsReadyFor};
ghost use Rattle.exec_rules.specs.Stopping.{LeftOnOom};
ghost use Rattle.asset_bundles.specs.Filters.{Taken};
ghost use Rattle.exec_base.specs.Sending.{IsForwardable};
ghost use Rattle.exec_base.specs.Host.{transfer_out_refusal, transferred_out, deposit_out_refusal, deposited_out, ship_refusal, shipped};
ghost use Rattle.exec_rules.specs.Holdings.{holding_left};
ghost use Rattle.exec_rules.specs.Stopping.{NotPutBack};
ghost use Rattle.exec_holding.specs.Holding.{RanTo};
ghost use Rattle.exec_transfers.specs.Leaving.{leaving};

use asset_bundles::Way;
use asset_lists::{Assets, Filter};
use exec_base::{Host, Registers};
use exec_holding::{answer_of, begin_sending, end_sending, put_back};
use locations::Location;
use operands::XcmError;
use std::alloc::{AllocError, Global};
use xcm_program::Program;

/// Moves the assets to the account of another chain, and tells it.
fn transfer_out<H: Host>(
    r: &mut Registers,
    h: &mut H,
    assets: &Assets,
    from: &Location,
    dest: &Location,
    xcm: &Program,
) -> Result<Result<(), XcmError>, AllocError>
    requires forwardable { IsForwardable xcm.now }
    ensures ok { IfOk result
        (λ answer. RanTo (transfer_out_refusal (H.part h.old) assets.now from.now dest.now xcm.now)
        (machine r.old (transferred_out (H.part h.old) assets.now from.now dest.now xcm.now))
        (machine r.old (H.part h.old)) answer (machine r.new (H.part h.new))) }
    ensures err { OnErr result (machine r.new (H.part h.new) ≡ machine r.old (H.part h.old)) }
{
    match h.transfer_out(assets, from, dest, xcm) {
        Ok(_) => Ok(Ok(())),
        Err(fault) => answer_of(fault),
    }
}

/// 5 TransferReserveAsset: moves the assets from the origin's account to that of the destination, and tells it.
pub fn transfer_reserve_asset<H: Host>(
    alloc: Global,
    r: &mut Registers,
    h: &mut H,
    assets: &Assets,
    dest: &Location,
    xcm: &Program,
) -> Result<Result<(), XcmError>, AllocError>
    requires ready { IsReadyFor (Instruction-F.TransferReserveAsset assets.now dest.now xcm.now)
        (machine r.old (H.part h.old)) }
    ensures ok { IfOk result (λ answer. Ran (Instruction-F.TransferReserveAsset assets.now dest.now
        xcm.now) (machine r.old (H.part h.old)) answer (machine r.new (H.part h.new))) }
    ensures err { OnErr result (LeftOnOom (Instruction-F.TransferReserveAsset assets.now dest.now
        xcm.now) (machine r.old (H.part h.old)) (machine r.new (H.part h.new))) }
{
    let Some(who) = &r.origin else {
        return Ok(Err(XcmError::BadOrigin));
    };
    // Made where it stays: a location is 800 bytes.
    let mut owner = Location::here();
    owner.assign(who);
    match begin_sending(alloc, r, h, dest)? {
        Ok(charged) => {
            let answer = transfer_out(r, h, assets, &owner, dest, xcm)?;
            end_sending(r, h, charged, answer)
        }
        Err(e) => Ok(Err(e)),
    }
}

/// Puts what a filter takes into the account of another chain, and tells it.
fn deposit_out<H: Host>(
    r: &mut Registers,
    h: &mut H,
    assets: &Filter,
    dest: &Location,
    xcm: &Program,
) -> Result<Result<(), XcmError>, AllocError>
    requires unparked { (H.part h.old).parked ≡ [] }
    requires forwardable { IsForwardable xcm.now }
    ensures ok { IfOk result
        (λ answer. RanTo (deposit_out_refusal (H.part h.old) (Taken assets.now r.old.holding)
        dest.now xcm.now) (holding_left (machine r.old (H.part h.old)) assets.now
        (deposited_out (H.part h.old) (Taken assets.now r.old.holding) dest.now xcm.now))
        (machine r.old (H.part h.old)) answer (machine r.new (H.part h.new))) }
    ensures err { OnErr result ((machine r.new (H.part h.new) ≡ machine r.old (H.part h.old))
        ⊎ NotPutBack (machine r.old (H.part h.old)) assets.now (machine r.new (H.part h.new))) }
{
    let goods = r.holding.take(assets)?;
    match h.deposit_out(goods, dest, xcm) {
        Ok(_) => Ok(Ok(())),
        Err((goods, fault)) => {
            put_back(&mut r.holding, h, goods)?;
            answer_of(fault)
        }
    }
}

/// 14 DepositReserveAsset: puts what the filter takes into the account of the destination, and tells it.
pub fn deposit_reserve_asset<H: Host>(
    alloc: Global,
    r: &mut Registers,
    h: &mut H,
    assets: &Filter,
    dest: &Location,
    xcm: &Program,
) -> Result<Result<(), XcmError>, AllocError>
    requires ready { IsReadyFor (Instruction-F.DepositReserveAsset assets.now dest.now xcm.now)
        (machine r.old (H.part h.old)) }
    ensures ok { IfOk result
        (λ answer. Ran (Instruction-F.DepositReserveAsset assets.now dest.now xcm.now)
        (machine r.old (H.part h.old)) answer (machine r.new (H.part h.new))) }
    ensures err { OnErr result (LeftOnOom (Instruction-F.DepositReserveAsset assets.now dest.now
        xcm.now) (machine r.old (H.part h.old)) (machine r.new (H.part h.new))) }
{
    match begin_sending(alloc, r, h, dest)? {
        Ok(charged) => {
            let answer = deposit_out(r, h, assets, dest, xcm)?;
            end_sending(r, h, charged, answer)
        }
        Err(e) => Ok(Err(e)),
    }
}

/// Ships what a filter takes.
fn ship_out<H: Host>(
    r: &mut Registers,
    h: &mut H,
    way: Way,
    assets: &Filter,
    dest: &Location,
    xcm: &Program,
) -> Result<Result<(), XcmError>, AllocError>
    requires unparked { (H.part h.old).parked ≡ [] }
    requires forwardable { IsForwardable xcm.now }
    ensures ok { IfOk result
        (λ answer. RanTo (ship_refusal (H.part h.old) (Taken assets.now r.old.holding) way dest.now
        xcm.now) (holding_left (machine r.old (H.part h.old)) assets.now
        (shipped (H.part h.old) (Taken assets.now r.old.holding) way dest.now xcm.now))
        (machine r.old (H.part h.old)) answer (machine r.new (H.part h.new))) }
    ensures err { OnErr result ((machine r.new (H.part h.new) ≡ machine r.old (H.part h.old))
        ⊎ NotPutBack (machine r.old (H.part h.old)) assets.now (machine r.new (H.part h.new))) }
{
    let goods = r.holding.take(assets)?;
    match h.ship_out(goods, way, dest, xcm) {
        Ok(_) => Ok(Ok(())),
        Err((back, fault)) => {
            put_back(&mut r.holding, h, back)?;
            answer_of(fault)
        }
    }
}

/// Ships what the filter takes, by its way.
fn send_away<H: Host>(
    alloc: Global,
    r: &mut Registers,
    h: &mut H,
    way: Way,
    assets: &Filter,
    dest: &Location,
    xcm: &Program,
) -> Result<Result<(), XcmError>, AllocError>
    requires ready { IsReadyFor (leaving way assets.now dest.now xcm.now)
        (machine r.old (H.part h.old)) }
    ensures ok { IfOk result (λ answer. Ran (leaving way assets.now dest.now xcm.now)
        (machine r.old (H.part h.old)) answer (machine r.new (H.part h.new))) }
    ensures err { OnErr result (LeftOnOom (leaving way assets.now dest.now xcm.now)
        (machine r.old (H.part h.old)) (machine r.new (H.part h.new))) }
{
    match begin_sending(alloc, r, h, dest)? {
        Ok(charged) => {
            let answer = ship_out(r, h, way, assets, dest, xcm)?;
            end_sending(r, h, charged, answer)
        }
        Err(e) => Ok(Err(e)),
    }
}

/// 16 InitiateReserveWithdraw: ships what the filter takes to the reserve of each asset, which withdraws it there.
pub fn initiate_reserve_withdraw<H: Host>(
    alloc: Global,
    r: &mut Registers,
    h: &mut H,
    assets: &Filter,
    reserve: &Location,
    xcm: &Program,
) -> Result<Result<(), XcmError>, AllocError>
    requires ready { IsReadyFor (Instruction-F.InitiateReserveWithdraw assets.now reserve.now
        xcm.now) (machine r.old (H.part h.old)) }
    ensures ok { IfOk result
        (λ answer. Ran (Instruction-F.InitiateReserveWithdraw assets.now reserve.now xcm.now)
        (machine r.old (H.part h.old)) answer (machine r.new (H.part h.new))) }
    ensures err { OnErr result (LeftOnOom (Instruction-F.InitiateReserveWithdraw assets.now
        reserve.now xcm.now) (machine r.old (H.part h.old))
        (machine r.new (H.part h.new))) }
{
    send_away(alloc, r, h, Way::Withdrawal, assets, reserve, xcm)
}

/// 17 InitiateTeleport: ships what the filter takes to a partner of each asset.
pub fn initiate_teleport<H: Host>(
    alloc: Global,
    r: &mut Registers,
    h: &mut H,
    assets: &Filter,
    dest: &Location,
    xcm: &Program,
) -> Result<Result<(), XcmError>, AllocError>
    requires ready { IsReadyFor (Instruction-F.InitiateTeleport assets.now dest.now xcm.now)
        (machine r.old (H.part h.old)) }
    ensures ok { IfOk result
        (λ answer. Ran (Instruction-F.InitiateTeleport assets.now dest.now xcm.now)
        (machine r.old (H.part h.old)) answer (machine r.new (H.part h.new))) }
    ensures err { OnErr result
        (LeftOnOom (Instruction-F.InitiateTeleport assets.now dest.now xcm.now)
        (machine r.old (H.part h.old)) (machine r.new (H.part h.new))) }
{
    send_away(alloc, r, h, Way::Teleport, assets, dest, xcm)
}
