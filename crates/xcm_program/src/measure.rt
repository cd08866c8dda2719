//! How large programs are.

ghost use Rattle.std.specs.Prelude.{◌≡◌, ◌<◌, ◌≤◌, ◌+◌, ◌^◌, max};
ghost use Rattle.xcm_program.specs.declared.instruction.Instruction.{out-Instruction};
ghost use Rattle.xcm_program.specs.Measure.{deep_count_one, deep_count, depth_one, depth, sending, sends_one, sends};

use crate::instruction::{Instruction, Program};
use crate::nested::inner;

/// The instruction and those of the program inside, through all nested programs. They must be fewer than 2^32.
#[cycle(deep_count)]
#[tactic(auto, using(crate::proofs::Lemmas::counted_inside))]
pub fn deep_count_one(instruction: &Instruction) -> u32
    requires { deep_count_one instruction.now < 2 ^ 32 }
    ensures { result ≡ deep_count_one instruction.now }
{
    match inner(instruction) {
        Some(nested) => 1 + deep_count(nested),
        None => 1,
    }
}

/// The instructions of a program through all nested programs, which must be fewer than 2^32.
#[cycle(deep_count)]
pub fn deep_count(program: &Program) -> u32
    requires { deep_count program.now < 2 ^ 32 }
    ensures { result ≡ deep_count program.now }
{
    let mut count = 0;
    for instruction in program.items() {
        count += deep_count_one(instruction);
    }
    count
}

fn larger(a: u32, b: u32) -> u32
    ensures { result ≡ max a b }
{
    if a < b { b } else { a }
}

/// The depth of the program inside, 0 where there is none. The instruction and those inside must be fewer than 2^32.
#[cycle(depth)]
#[tactic(auto, using(crate::proofs::Lemmas::counted_inside, crate::proofs::Measures::deep_inside))]
pub fn depth_one(instruction: &Instruction) -> u32
    requires { deep_count_one instruction.now < 2 ^ 32 }
    ensures exact { result ≡ depth_one instruction.now }
    ensures bound { result ≤ deep_count_one instruction.now }
{
    match inner(instruction) {
        Some(nested) => depth(nested),
        None => 0,
    }
}

/// One, and the greatest depth of a nested program. The program must hold fewer than 2^32 - 1 instructions, nested ones counted.
#[cycle(depth)]
pub fn depth(program: &Program) -> u32
    requires { deep_count program.now + 1 < 2 ^ 32 }
    ensures exact { result ≡ depth program.now }
    ensures bound { result ≤ deep_count program.now + 1 }
{
    let mut deepest = 0;
    for instruction in program.items() {
        deepest = larger(deepest, depth_one(instruction));
    }
    deepest + 1
}

/// 1 where the instruction sends a message if it succeeds.
fn sending(instruction: &Instruction) -> u32
    ensures exact { result ≡ sending (out-Instruction instruction.now) }
    ensures bound { result ≤ 1 }
{
    match instruction {
        Instruction::TransferReserveAsset { .. }
        | Instruction::ReportError { .. }
        | Instruction::DepositReserveAsset { .. }
        | Instruction::InitiateReserveWithdraw { .. }
        | Instruction::InitiateTeleport { .. }
        | Instruction::ReportHolding { .. }
        | Instruction::QueryPallet { .. }
        | Instruction::ReportTransactStatus { .. } => 1,
        _ => 0,
    }
}

/// The instruction itself and those of the program inside that send a message.
#[cycle(sends)]
#[tactic(auto, using(crate::proofs::Lemmas::counted_inside, crate::proofs::Measures::sent_inside))]
fn sends_one(instruction: &Instruction) -> u32
    requires { deep_count_one instruction.now < 2 ^ 32 }
    ensures exact { result ≡ sends_one instruction.now }
    ensures bound { result ≤ deep_count_one instruction.now }
{
    match inner(instruction) {
        Some(nested) => sending(instruction) + sends(nested),
        None => sending(instruction),
    }
}

/// The instructions of a program that send a message, through all nested programs. Fewer than 2^32 instructions may be held.
#[cycle(sends)]
pub fn sends(program: &Program) -> u32
    requires { deep_count program.now < 2 ^ 32 }
    ensures exact { result ≡ sends program.now }
    ensures bound { result ≤ deep_count program.now }
{
    let mut count = 0;
    for instruction in program.items() {
        count += sends_one(instruction);
    }
    count
}
