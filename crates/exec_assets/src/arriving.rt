//! Assets that come into the holding.
ghost use Rattle.std.specs.Prelude.{◌≡◌, OnErr, IfOk};
ghost use Rattle.xcm_program.specs.declared.instruction.Instruction.TheOpen.{Instruction-F};
ghost use Rattle.exec_rules.specs.Machine.{machine};
ghost use Rattle.exec_rules.specs.Functions.{Ran, IsReadyFor};
ghost use Rattle.exec_rules.specs.Stopping.{LeftOnOom};
ghost use Rattle.exec_rules.specs.Holdings.{is_ticket};
ghost use Rattle.exec_assets.specs.Arriving.{arrival_instruction};

use asset_lists::Assets;
use exec_base::{Host, Registers};
use exec_holding::{answer_of, has_room, hold};
use exec_rules::law_of_readiness;
use locations::{Junction, Location};
use operands::XcmError;
use std::alloc::AllocError;

/// 0 WithdrawAsset: takes the assets out of the origin's account.
pub fn withdraw_asset<H: Host>(
    r: &mut Registers,
    h: &mut H,
    assets: &Assets,
) -> Result<Result<(), XcmError>, AllocError>
    requires ready { IsReadyFor (Instruction-F.WithdrawAsset assets.now)
        (machine r.old (H.part h.old)) }
    ensures ok { IfOk result (λ answer. Ran (Instruction-F.WithdrawAsset assets.now)
        (machine r.old (H.part h.old)) answer (machine r.new (H.part h.new))) }
    ensures err { OnErr result (LeftOnOom (Instruction-F.WithdrawAsset assets.now)
        (machine r.old (H.part h.old)) (machine r.new (H.part h.new))) }
{
    let Some(who) = &r.origin else {
        return Ok(Err(XcmError::BadOrigin));
    };
    if !has_room(&r.holding, r.max_holding, assets.items().len()) {
        return Ok(Err(XcmError::HoldingWouldOverflow));
    }
    match h.withdraw(assets, who) {
        Ok(goods) => {
            hold(&mut r.holding, h, goods)?;
            Ok(Ok(()))
        }
        Err(fault) => answer_of(fault),
    }
}

/// Takes in what another chain deposited for this one, or teleported here.
fn receive<H: Host>(
    r: &mut Registers,
    h: &mut H,
    assets: &Assets,
    teleport: bool,
) -> Result<Result<(), XcmError>, AllocError>
    requires ready { IsReadyFor (arrival_instruction teleport assets.now)
        (machine r.old (H.part h.old)) }
    ensures ok { IfOk result (λ answer. Ran (arrival_instruction teleport assets.now)
        (machine r.old (H.part h.old)) answer (machine r.new (H.part h.new))) }
    ensures err { OnErr result (LeftOnOom (arrival_instruction teleport assets.now)
        (machine r.old (H.part h.old)) (machine r.new (H.part h.new))) }
{
    let Some(who) = &r.origin else {
        return Ok(Err(XcmError::BadOrigin));
    };
    if !has_room(&r.holding, r.max_holding, assets.items().len()) {
        return Ok(Err(XcmError::HoldingWouldOverflow));
    }
    match h.receive(assets, who, teleport) {
        Ok(goods) => {
            hold(&mut r.holding, h, goods)?;
            Ok(Ok(()))
        }
        Err(fault) => answer_of(fault),
    }
}

/// 1 ReserveAssetDeposited: takes in what the origin, which is the reserve of each asset, keeps for this chain.
pub fn reserve_asset_deposited<H: Host>(
    r: &mut Registers,
    h: &mut H,
    assets: &Assets,
) -> Result<Result<(), XcmError>, AllocError>
    requires ready { IsReadyFor (Instruction-F.ReserveAssetDeposited assets.now)
        (machine r.old (H.part h.old)) }
    ensures ok { IfOk result (λ answer. Ran (Instruction-F.ReserveAssetDeposited assets.now)
        (machine r.old (H.part h.old)) answer (machine r.new (H.part h.new))) }
    ensures err { OnErr result (LeftOnOom (Instruction-F.ReserveAssetDeposited assets.now)
        (machine r.old (H.part h.old)) (machine r.new (H.part h.new))) }
{
    receive(r, h, assets, false)
}

/// 2 ReceiveTeleportedAsset: takes in what the origin, which is a partner of each asset, teleported here.
pub fn receive_teleported_asset<H: Host>(
    r: &mut Registers,
    h: &mut H,
    assets: &Assets,
) -> Result<Result<(), XcmError>, AllocError>
    requires ready { IsReadyFor (Instruction-F.ReceiveTeleportedAsset assets.now)
        (machine r.old (H.part h.old)) }
    ensures ok { IfOk result (λ answer. Ran (Instruction-F.ReceiveTeleportedAsset assets.now)
        (machine r.old (H.part h.old)) answer (machine r.new (H.part h.new))) }
    ensures err { OnErr result (LeftOnOom (Instruction-F.ReceiveTeleportedAsset assets.now)
        (machine r.old (H.part h.old)) (machine r.new (H.part h.new))) }
{
    receive(r, h, assets, true)
}

/// Whether the ticket is one that claims have: none, or that of version 3 or 4.
fn is_ticket(ticket: &Location) -> bool
    ensures { result ≡ is_ticket ticket.now }
{
    if ticket.parents != 0 {
        return false;
    }
    match ticket.interior.items() {
        [] => true,
        [Junction::GeneralIndex(n)] => *n == 3 || *n == 4,
        _ => false,
    }
}

/// 24 ClaimAsset: takes the assets out of a trap that has this origin and this list.
pub fn claim_asset<H: Host>(
    r: &mut Registers,
    h: &mut H,
    assets: &Assets,
    ticket: &Location,
) -> Result<Result<(), XcmError>, AllocError>
    requires ready { IsReadyFor (Instruction-F.ClaimAsset assets.now ticket.now)
        (machine r.old (H.part h.old)) }
    ensures ok { IfOk result (λ answer. Ran (Instruction-F.ClaimAsset assets.now ticket.now)
        (machine r.old (H.part h.old)) answer (machine r.new (H.part h.new))) }
    ensures err { OnErr result (LeftOnOom (Instruction-F.ClaimAsset assets.now ticket.now)
        (machine r.old (H.part h.old)) (machine r.new (H.part h.new))) }
{
    let Some(who) = &r.origin else {
        return Ok(Err(XcmError::BadOrigin));
    };
    if !has_room(&r.holding, r.max_holding, assets.items().len()) {
        return Ok(Err(XcmError::HoldingWouldOverflow));
    }
    if !is_ticket(ticket) {
        return Ok(Err(XcmError::UnknownClaim));
    }
    match h.claim(assets, who) {
        Ok(goods) => {
            // For the prover alone: what is trapped is listed.
            law_of_readiness();
            hold(&mut r.holding, h, goods)?;
            Ok(Ok(()))
        }
        Err(fault) => answer_of(fault),
    }
}
