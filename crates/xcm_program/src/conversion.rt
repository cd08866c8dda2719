//! Which programs both versions can say.

ghost use Rattle.std.specs.Prelude.{◌≡◌};
ghost use Rattle.xcm_program.specs.declared.instruction.Instruction.{out-Instruction};
ghost use Rattle.xcm_program.specs.Conversions.{is_concrete_id, have_concrete_ids, filter_is_concrete, response_is_concrete, names_concrete_ids, is_convertible_one, is_convertible};

use crate::instruction::{Instruction, Program};
use crate::nested::inner;
use asset_lists::{AssetId, Assets, Filter, Wild};
use operands::Response;

fn is_concrete_id(id: &AssetId) -> bool
    ensures { result ≡ is_concrete_id id.now }
{
    matches!(id, AssetId::Concrete(_))
}

fn have_concrete_ids(list: &Assets) -> bool
    ensures { result ≡ have_concrete_ids list.now }
{
    list.items().iter().all(|asset| is_concrete_id(&asset.id))
}

fn filter_is_concrete(filter: &Filter) -> bool
    ensures { result ≡ filter_is_concrete filter.now }
{
    match filter {
        Filter::Definite(list) => have_concrete_ids(list),
        Filter::Wild(Wild::AllOf { id, .. } | Wild::AllOfCounted { id, .. }) => {
            is_concrete_id(id.value())
        }
        Filter::Wild(Wild::All | Wild::AllCounted(_)) => true,
    }
}

fn response_is_concrete(response: &Response) -> bool
    ensures { result ≡ response_is_concrete response.now }
{
    match response {
        Response::Assets(list) => have_concrete_ids(list),
        _ => true,
    }
}

/// Whether no asset id of the instruction is bytes, the program inside left out.
fn names_concrete_ids(instruction: &Instruction) -> bool
    ensures { result ≡ names_concrete_ids (out-Instruction instruction.now) }
{
    match instruction {
        Instruction::WithdrawAsset { assets }
        | Instruction::ReserveAssetDeposited { assets }
        | Instruction::ReceiveTeleportedAsset { assets }
        | Instruction::TransferAsset { assets, .. }
        | Instruction::TransferReserveAsset { assets, .. }
        | Instruction::ClaimAsset { assets, .. }
        | Instruction::BurnAsset { assets }
        | Instruction::ExpectAsset { assets } => have_concrete_ids(assets),
        Instruction::QueryResponse { response, .. } => response_is_concrete(response),
        Instruction::DepositAsset { assets, .. }
        | Instruction::DepositReserveAsset { assets, .. }
        | Instruction::InitiateReserveWithdraw { assets, .. }
        | Instruction::InitiateTeleport { assets, .. }
        | Instruction::ReportHolding { assets, .. } => filter_is_concrete(assets),
        Instruction::BuyExecution { fees, .. } => is_concrete_id(&fees.value().id),
        Instruction::LockAsset { asset, .. }
        | Instruction::UnlockAsset { asset, .. }
        | Instruction::NoteUnlockable { asset, .. }
        | Instruction::RequestUnlock { asset, .. } => is_concrete_id(&asset.value().id),
        Instruction::ExchangeAsset { give, want, .. } => filter_is_concrete(give)
            && have_concrete_ids(want),
        _ => true,
    }
}

/// Whether no asset id of the instruction is bytes, at any depth.
#[cycle(convertible)]
fn is_convertible_one(instruction: &Instruction) -> bool
    ensures { result ≡ is_convertible_one instruction.now }
{
    if !names_concrete_ids(instruction) {
        return false;
    }
    match inner(instruction) {
        Some(nested) => is_convertible(nested),
        None => true,
    }
}

/// Whether both versions can say the program: no asset id is bytes, at any depth.
#[cycle(convertible)]
pub fn is_convertible(program: &Program) -> bool
    ensures { result ≡ is_convertible program.now }
{
    for instruction in program.items() {
        if !is_convertible_one(instruction) {
            return false;
        }
    }
    true
}
