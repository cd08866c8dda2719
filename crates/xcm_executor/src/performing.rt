//! One instruction: each is handed to its function.
ghost use Rattle.std.specs.Prelude.{IfOk, OnErr};
ghost use Rattle.exec_rules.specs.Machine.{machine, Performed};
ghost use Rattle.exec_rules.specs.Instructions.{xcm};
ghost use Rattle.exec_rules.specs.Readiness.{IsReady};
ghost use Rattle.exec_rules.specs.Stopping.{leaves_on_oom};

use crate::taking::no_program;
use exec_assets::{
    burn_asset, buy_execution, claim_asset, deposit_asset, exchange_asset, expect_asset,
    receive_teleported_asset, refund_surplus, reserve_asset_deposited, transfer_asset,
    withdraw_asset,
};
use exec_base::{Host, Registers};
use exec_control::{
    alias_origin, clear_error, clear_origin, clear_topic, clear_transact_status, descend_origin,
    expect_error, expect_origin, expect_pallet, expect_transact_status, export_message,
    hrmp_channel_accepted, hrmp_channel_closing, hrmp_new_channel_open_request, note_unlockable,
    query_response, set_appendix, set_error_handler, set_fees_mode, set_topic, subscribe_version,
    transact, trap, universal_origin, unlock_asset, unpaid_execution, unsubscribe_version,
};
use exec_transfers::{
    deposit_reserve_asset, initiate_reserve_withdraw, initiate_teleport, lock_asset, query_pallet,
    report_error, report_holding, report_transact_status, request_unlock, transfer_reserve_asset,
};
use operands::XcmError;
use std::alloc::{AllocError, Global};
use std::mem;
use xcm_program::Instruction;

/// Executes an instruction, borrowed since it is more than 1,600 bytes. A program that becomes a register is moved out of it.
pub(crate) fn perform<H: Host>(
    alloc: Global,
    instruction: &mut Instruction,
    r: &mut Registers,
    h: &mut H,
) -> Result<Result<(), XcmError>, AllocError>
    requires ready { IsReady instruction.old (machine r.old (H.part h.old)) }
    ensures ok { IfOk result (λ answer. Performed xcm instruction.old (machine r.old (H.part h.old))
        answer (machine r.new (H.part h.new))) }
    ensures err { OnErr result (leaves_on_oom instruction.old (machine r.old (H.part h.old))
        (machine r.new (H.part h.new))) }
{
    match instruction {
        Instruction::WithdrawAsset { assets } => withdraw_asset(r, h, assets),
        Instruction::ReserveAssetDeposited { assets } => reserve_asset_deposited(r, h, assets),
        Instruction::ReceiveTeleportedAsset { assets } => receive_teleported_asset(r, h, assets),
        Instruction::QueryResponse {
            query_id,
            response,
            max_weight,
            querier,
        } => query_response(r, h, *query_id, response, *max_weight, querier.value()),
        Instruction::TransferAsset {
            assets,
            beneficiary,
        } => transfer_asset(r, h, assets, beneficiary.value()),
        Instruction::TransferReserveAsset { assets, dest, xcm } => transfer_reserve_asset(
            alloc,
            r,
            h,
            assets,
            dest.value(),
            xcm,
        ),
        Instruction::Transact {
            origin_kind,
            require_weight_at_most,
            call,
        } => transact(alloc, r, h, *origin_kind, *require_weight_at_most, call),
        Instruction::HrmpNewChannelOpenRequest {
            sender,
            max_message_size,
            max_capacity,
        } => hrmp_new_channel_open_request(r, h, *sender, *max_message_size, *max_capacity),
        Instruction::HrmpChannelAccepted { recipient } => hrmp_channel_accepted(r, h, *recipient),
        Instruction::HrmpChannelClosing {
            initiator,
            sender,
            recipient,
        } => hrmp_channel_closing(r, h, *initiator, *sender, *recipient),
        Instruction::ClearOrigin => clear_origin(r, h),
        Instruction::DescendOrigin { interior } => descend_origin(r, h, interior.value()),
        Instruction::ReportError { info } => report_error(alloc, r, h, info.value()),
        Instruction::DepositAsset {
            assets,
            beneficiary,
        } => deposit_asset(r, h, assets, beneficiary.value()),
        Instruction::DepositReserveAsset { assets, dest, xcm } => deposit_reserve_asset(
            alloc,
            r,
            h,
            assets,
            dest.value(),
            xcm,
        ),
        Instruction::ExchangeAsset {
            give,
            want,
            maximal,
        } => exchange_asset(r, h, give, want, *maximal),
        Instruction::InitiateReserveWithdraw {
            assets,
            reserve,
            xcm,
        } => initiate_reserve_withdraw(alloc, r, h, assets, reserve.value(), xcm),
        Instruction::InitiateTeleport { assets, dest, xcm } => initiate_teleport(
            alloc,
            r,
            h,
            assets,
            dest.value(),
            xcm,
        ),
        Instruction::ReportHolding { info, assets } => report_holding(
            alloc,
            r,
            h,
            info.value(),
            assets,
        ),
        Instruction::BuyExecution { fees, limit } => buy_execution(
            alloc,
            r,
            h,
            fees.value(),
            *limit,
        ),
        Instruction::RefundSurplus => refund_surplus(r, h),
        Instruction::SetErrorHandler { xcm } => set_error_handler(
            r,
            h,
            mem::replace(xcm, no_program(alloc)),
        ),
        Instruction::SetAppendix { xcm } => set_appendix(
            r,
            h,
            mem::replace(xcm, no_program(alloc)),
        ),
        Instruction::ClearError => clear_error(r, h),
        Instruction::ClaimAsset { assets, ticket } => claim_asset(r, h, assets, ticket.value()),
        Instruction::Trap { code } => trap(r, h, *code),
        Instruction::SubscribeVersion {
            query_id,
            max_response_weight,
        } => subscribe_version(r, h, *query_id, *max_response_weight),
        Instruction::UnsubscribeVersion => unsubscribe_version(r, h),
        Instruction::BurnAsset { assets } => burn_asset(r, h, assets),
        Instruction::ExpectAsset { assets } => expect_asset(r, h, assets),
        Instruction::ExpectOrigin { origin } => expect_origin(r, h, origin.value()),
        Instruction::ExpectError { error } => expect_error(r, h, error),
        Instruction::ExpectTransactStatus { status } => expect_transact_status(r, h, status),
        Instruction::QueryPallet { module_name, info } => query_pallet(
            alloc,
            r,
            h,
            module_name,
            info.value(),
        ),
        Instruction::ExpectPallet {
            index,
            name,
            module_name,
            crate_major,
            min_crate_minor,
        } => expect_pallet(
            r,
            h,
            *index,
            name,
            module_name,
            *crate_major,
            *min_crate_minor,
        ),
        Instruction::ReportTransactStatus { info } => report_transact_status(
            alloc,
            r,
            h,
            info.value(),
        ),
        Instruction::ClearTransactStatus => clear_transact_status(r, h),
        Instruction::UniversalOrigin { junction } => universal_origin(r, h, junction),
        Instruction::ExportMessage {
            network,
            destination,
            xcm,
        } => export_message(r, h, network, destination.value(), xcm),
        Instruction::LockAsset { asset, unlocker } => lock_asset(
            alloc,
            r,
            h,
            asset.value(),
            unlocker.value(),
        ),
        Instruction::UnlockAsset { asset, target } => unlock_asset(
            r,
            h,
            asset.value(),
            target.value(),
        ),
        Instruction::NoteUnlockable { asset, owner } => note_unlockable(
            r,
            h,
            asset.value(),
            owner.value(),
        ),
        Instruction::RequestUnlock { asset, locker } => request_unlock(
            alloc,
            r,
            h,
            asset.value(),
            locker.value(),
        ),
        Instruction::SetFeesMode { jit_withdraw } => set_fees_mode(r, h, *jit_withdraw),
        Instruction::SetTopic { topic } => set_topic(r, h, topic),
        Instruction::ClearTopic => clear_topic(r, h),
        Instruction::AliasOrigin { target } => alias_origin(r, h, target.value()),
        Instruction::UnpaidExecution {
            limit,
            check_origin,
        } => unpaid_execution(r, h, *limit, check_origin.value()),
    }
}
