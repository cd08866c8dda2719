//! The paid barrier's purchase of weight.
ghost use Rattle.std.specs.Prelude.{◌≡◌, ◌<◌, if◌then◌else◌, length, Some, None, IfSome};
ghost use Rattle.xcm_program.specs.declared.instruction.Instruction.{out-Instruction};
ghost use Rattle.barriers.specs.Barriers as barriers;
ghost use Rattle.barriers.specs.Barriers.{holds_at, is_paid_execution, purchase_index, with_limit};

use operands::{Weight, WeightLimit};
use xcm_program::{Instruction, Program};

/// The most assets that a program which pays may bring.
const MOST_ASSETS: usize = 2;

/// The last index at which a program may buy its weight.
const LAST_INDEX: usize = 4;

/// Whether a limit leaves room for a weight.
pub(crate) fn fits(weight: Weight, limit: WeightLimit) -> bool
    ensures { result ≡ barriers.is_within_limit weight limit }
{
    match limit {
        WeightLimit::Unlimited => true,
        WeightLimit::Limited(most) => weight.is_within(most),
    }
}

/// The index of the BuyExecution by which a program pays for its weight.
pub(crate) fn purchase(program: &[Instruction], weight: Weight) -> Option<usize>
    ensures place { result ≡
        (if is_paid_execution weight program.now then Some (purchase_index program.now) else None) }
    ensures within { IfSome result (λ index. index < length program.now) }
{
    let index = purchase_index(program);
    if begins_with_few(program) && index <= LAST_INDEX && buys_at(program, index, weight) {
        Some(index)
    } else {
        None
    }
}

/// Where a purchase has to be.
fn purchase_index(program: &[Instruction]) -> usize
    ensures { result ≡ purchase_index program.now }
{
    let clears = program
        .iter()
        .skip(1)
        .take_while(|instruction| clears_origin(instruction))
        .count();
    1 + clears
}

/// Whether a program begins by bringing assets, at most two.
fn begins_with_few(program: &[Instruction]) -> bool
    ensures { result ≡ holds_at barriers.brings_few program.now 0 }
{
    match program.first() {
        Some(instruction) => brings_few(instruction),
        None => false,
    }
}

/// Whether a program buys at least this weight at the index.
fn buys_at(program: &[Instruction], index: usize, weight: Weight) -> bool
    ensures { result ≡ holds_at (barriers.buys weight) program.now index }
{
    match program.get(index) {
        Some(instruction) => buys(instruction, weight),
        None => false,
    }
}

/// Whether an instruction brings assets into the holding register, at most two.
fn brings_few(instruction: &Instruction) -> bool
    ensures { result ≡ barriers.brings_few (out-Instruction instruction.now) }
{
    match instruction {
        Instruction::WithdrawAsset { assets }
        | Instruction::ReserveAssetDeposited { assets }
        | Instruction::ReceiveTeleportedAsset { assets }
        | Instruction::ClaimAsset { assets, .. } => assets.items().len() <= MOST_ASSETS,
        _ => false,
    }
}

fn clears_origin(instruction: &Instruction) -> bool
    ensures { result ≡ barriers.clears_origin (out-Instruction instruction.now) }
{
    matches!(instruction, Instruction::ClearOrigin)
}

/// Whether an instruction buys at least this weight.
fn buys(instruction: &Instruction, weight: Weight) -> bool
    ensures { result ≡ barriers.buys weight (out-Instruction instruction.now) }
{
    match instruction {
        Instruction::BuyExecution { limit, .. } => fits(weight, *limit),
        _ => false,
    }
}

/// Sets the limit of the BuyExecution at the index to the weight.
pub(crate) fn set_limit(program: &mut Program, index: usize, weight: Weight)
    requires { index < length program.old }
    ensures { program.new ≡ barriers.with_limit_at (WeightLimit.Limited weight) index program.old }
{
    let bought = program.replace(index, Instruction::ClearOrigin);
    drop(program.replace(index, with_limit(bought, WeightLimit::Limited(weight))));
}

/// A BuyExecution with this limit instead of its own.
fn with_limit(instruction: Instruction, limit: WeightLimit) -> Instruction
    ensures { out-Instruction result ≡ with_limit limit (out-Instruction instruction) }
{
    match instruction {
        Instruction::BuyExecution { fees, limit: _old } => {
            Instruction::BuyExecution { fees, limit }
        }
        other => other,
    }
}
