//! Reports to other chains.
ghost use Rattle.std.specs.Prelude.{◌≡◌, Some, OnErr, IfOk};
ghost use Rattle.std.specs.Option.{option_map};
ghost use Rattle.xcm_program.specs.declared.instruction.Instruction.TheOpen.{Instruction-F};
ghost use Rattle.exec_rules.specs.Machine.{machine};
ghost use Rattle.exec_rules.specs.Functions.{Ran, IsReadyFor};
ghost use Rattle.exec_rules.specs.Stopping.{LeftOnOom};
ghost use Rattle.exec_base.specs.Sending.{IsForwardable};
ghost use Rattle.exec_base.specs.Host.{report_program};
ghost use Rattle.exec_rules.specs.Reports.{report_refused, report_done, reported_list, too_many_refused, holding_report_refused, holding_report_done};
ghost use Rattle.exec_transfers.specs.Naming.{IsTellable, TellsList};
ghost use Rattle.exec_holding.specs.Holding.{RanTo};

use crate::naming::named_list;
use crate::pallets::told_pallets;
use asset_lists::{Asset, Assets, Filter, MAX_ASSETS};
use exec_base::{Host, Registers};
use exec_holding::{answer_of, begin_sending, end_sending};
use operands::{LongBytes, QueryInfo, Response, XcmError};
use std::alloc::{AllocError, Global};

/// Sends a response to where the query's info says, for the origin register.
fn report<H: Host>(
    r: &mut Registers,
    h: &mut H,
    info: &QueryInfo,
    response: Response,
) -> Result<Result<(), XcmError>, AllocError>
    requires forwardable { IsForwardable (report_program info.now response r.old.origin) }
    ensures ok { IfOk result
        (λ answer. RanTo (report_refused (machine r.old (H.part h.old)) info.now response)
        (report_done (machine r.old (H.part h.old)) info.now response)
        (machine r.old (H.part h.old)) answer (machine r.new (H.part h.new))) }
    ensures err { OnErr result (machine r.new (H.part h.new) ≡ machine r.old (H.part h.old)) }
{
    match h.respond(info, response, r.origin.as_ref()) {
        Ok(_) => Ok(Ok(())),
        Err(fault) => answer_of(fault),
    }
}

/// 12 ReportError: reports the error register.
pub fn report_error<H: Host>(
    alloc: Global,
    r: &mut Registers,
    h: &mut H,
    info: &QueryInfo,
) -> Result<Result<(), XcmError>, AllocError>
    requires ready { IsReadyFor (Instruction-F.ReportError info.now)
        (machine r.old (H.part h.old)) }
    ensures ok { IfOk result (λ answer. Ran (Instruction-F.ReportError info.now)
        (machine r.old (H.part h.old)) answer (machine r.new (H.part h.new))) }
    ensures err { OnErr result (LeftOnOom (Instruction-F.ReportError info.now)
        (machine r.old (H.part h.old)) (machine r.new (H.part h.new))) }
{
    match begin_sending(alloc, r, h, &info.destination)? {
        Ok(charged) => {
            let response = Response::ExecutionResult(r.error);
            let answer = report(r, h, info, response)?;
            end_sending(r, h, charged, answer)
        }
        Err(e) => Ok(Err(e)),
    }
}

/// 35 ReportTransactStatus: reports how the last call of Transact ended.
pub fn report_transact_status<H: Host>(
    alloc: Global,
    r: &mut Registers,
    h: &mut H,
    info: &QueryInfo,
) -> Result<Result<(), XcmError>, AllocError>
    requires ready { IsReadyFor (Instruction-F.ReportTransactStatus info.now)
        (machine r.old (H.part h.old)) }
    ensures ok { IfOk result (λ answer. Ran (Instruction-F.ReportTransactStatus info.now)
        (machine r.old (H.part h.old)) answer (machine r.new (H.part h.new))) }
    ensures err { OnErr result (LeftOnOom (Instruction-F.ReportTransactStatus info.now)
        (machine r.old (H.part h.old)) (machine r.new (H.part h.new))) }
{
    match begin_sending(alloc, r, h, &info.destination)? {
        Ok(charged) => {
            let status = r.status.copy()?;
            let answer = report(r, h, info, Response::DispatchResult(status))?;
            end_sending(r, h, charged, answer)
        }
        Err(e) => Ok(Err(e)),
    }
}

/// Why a report of more assets than a list has is refused.
fn too_many<H: Host>(r: &Registers, h: &H, info: &QueryInfo) -> XcmError
    ensures { too_many_refused (machine r.now (H.part h.now)) info.now ≡ Some result }
{
    if let Some(who) = &r.origin {
        if who.reanchored(&info.destination, &h.site().path()).is_err() {
            return XcmError::ReanchorFailed;
        }
    }
    if !h.routes(&info.destination) {
        return XcmError::Unroutable;
    }
    XcmError::ExceedsMaxMessageSize
}

/// Reports assets that the destination can name, however many.
fn report_assets<H: Host>(
    r: &mut Registers,
    h: &mut H,
    info: &QueryInfo,
    named: Vec<Asset>,
) -> Result<Result<(), XcmError>, AllocError>
    requires tellable { IsTellable named.items }
    ensures ok { IfOk result (λ answer. RanTo (holding_report_refused (machine r.old (H.part h.old))
        info.now (Some named.items)) (holding_report_done (machine r.old (H.part h.old))
        info.now (Some named.items)) (machine r.old (H.part h.old)) answer
        (machine r.new (H.part h.new))) }
    ensures err { OnErr result (machine r.new (H.part h.new) ≡ machine r.old (H.part h.old)) }
{
    if named.len() > MAX_ASSETS {
        return Ok(Err(too_many(r, h, info)));
    }
    match Assets::from_sorted(named) {
        Ok(list) => report(r, h, info, Response::Assets(list)),
        Err(_) => unreachable!(),
    }
}

/// What the filter would take of the holding, as the destination names it; none where two assets become the same.
fn told_list<H: Host>(
    alloc: Global,
    r: &Registers,
    h: &H,
    info: &QueryInfo,
    assets: &Filter,
) -> Result<Option<Vec<Asset>>, AllocError>
    ensures { IfOk result (λ named. TellsList (reported_list (machine r.now (H.part h.now)) info.now
        assets.now) (option_map (λ list. list.items) named)) }
{
    let held = r.holding.min(assets)?;
    let context = h.site().path();
    let told = named_list(alloc, held.as_slice(), &info.destination, &context)?;
    Ok(told)
}

/// Reports what the filter would take of the holding, which keeps it.
fn report_held<H: Host>(
    alloc: Global,
    r: &mut Registers,
    h: &mut H,
    info: &QueryInfo,
    assets: &Filter,
) -> Result<Result<(), XcmError>, AllocError>
    ensures ok { IfOk result (λ answer. RanTo (holding_report_refused (machine r.old (H.part h.old))
        info.now (reported_list (machine r.old (H.part h.old)) info.now assets.now))
        (holding_report_done (machine r.old (H.part h.old)) info.now
        (reported_list (machine r.old (H.part h.old)) info.now assets.now))
        (machine r.old (H.part h.old)) answer (machine r.new (H.part h.new))) }
    ensures err { OnErr result (machine r.new (H.part h.new) ≡ machine r.old (H.part h.old)) }
{
    match told_list(alloc, r, h, info, assets)? {
        Some(named) => report_assets(r, h, info, named),
        None => Ok(Err(XcmError::ReanchorFailed)),
    }
}

/// 18 ReportHolding: reports what the filter would take of the holding; an asset that the destination can't name is left out.
pub fn report_holding<H: Host>(
    alloc: Global,
    r: &mut Registers,
    h: &mut H,
    info: &QueryInfo,
    assets: &Filter,
) -> Result<Result<(), XcmError>, AllocError>
    requires ready { IsReadyFor (Instruction-F.ReportHolding info.now assets.now)
        (machine r.old (H.part h.old)) }
    ensures ok { IfOk result (λ answer. Ran (Instruction-F.ReportHolding info.now assets.now)
        (machine r.old (H.part h.old)) answer (machine r.new (H.part h.new))) }
    ensures err { OnErr result (LeftOnOom (Instruction-F.ReportHolding info.now assets.now)
        (machine r.old (H.part h.old)) (machine r.new (H.part h.new))) }
{
    match begin_sending(alloc, r, h, &info.destination)? {
        Ok(charged) => {
            let answer = report_held(alloc, r, h, info, assets)?;
            end_sending(r, h, charged, answer)
        }
        Err(e) => Ok(Err(e)),
    }
}

/// 33 QueryPallet: reports the chain's pallets with that module name.
pub fn query_pallet<H: Host>(
    alloc: Global,
    r: &mut Registers,
    h: &mut H,
    module_name: &LongBytes,
    info: &QueryInfo,
) -> Result<Result<(), XcmError>, AllocError>
    requires ready { IsReadyFor (Instruction-F.QueryPallet module_name.now info.now)
        (machine r.old (H.part h.old)) }
    ensures ok { IfOk result (λ answer. Ran (Instruction-F.QueryPallet module_name.now info.now)
        (machine r.old (H.part h.old)) answer (machine r.new (H.part h.new))) }
    ensures err { OnErr result (LeftOnOom (Instruction-F.QueryPallet module_name.now info.now)
        (machine r.old (H.part h.old)) (machine r.new (H.part h.new))) }
{
    match begin_sending(alloc, r, h, &info.destination)? {
        Ok(charged) => {
            let told = told_pallets(alloc, h, module_name)?;
            let answer = report(r, h, info, Response::PalletsInfo(told))?;
            end_sending(r, h, charged, answer)
        }
        Err(e) => Ok(Err(e)),
    }
}
