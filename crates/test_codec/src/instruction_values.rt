//! Instructions: their indices, their names, the programs inside; and the texts of outcomes.

use operands::{LongBytes, OriginKind, Weight, XcmError};
use std::alloc::{AllocError, Global};
use std::test::Fail;
use xcm_program::{Instruction, OutcomeError, Program, inner, kept, required, set_program};

/// Errors of outcomes, and their texts.
const ERRORS: &[(OutcomeError, &str)] = &[
    (OutcomeError::Xcm(XcmError::Trap(5)), "Trap(5)"),
    (OutcomeError::Xcm(XcmError::Unroutable), "Unroutable"),
    (OutcomeError::Barrier, "Barrier"),
    (OutcomeError::WeightNotComputable, "WeightNotComputable"),
    (OutcomeError::WeightLimitReached, "WeightLimitReached"),
];

/// Whether this is the text of the error.
fn has_text(alloc: Global, error: &OutcomeError, want: &str) -> Result<bool, Fail> {
    let text = format!(in alloc; "{error}")?;
    Ok(text.as_str() == want)
}

/// A program of one trap.
fn trap(alloc: Global, code: u64) -> Result<Program, AllocError> {
    let items = vec![in alloc; Instruction::Trap { code }]?;
    Ok(Program::from_vec(items))
}

/// Whether the instruction has this index and this name.
fn is_named(instruction: Instruction, index: u8, name: &str) -> bool {
    instruction.index() == index && instruction.name() == name
}

/// Whether instructions have their indices and names.
fn are_named() -> bool {
    is_named(Instruction::ClearOrigin, 10, "ClearOrigin")
        && is_named(Instruction::RefundSurplus, 20, "RefundSurplus")
        && is_named(Instruction::UnsubscribeVersion, 27, "UnsubscribeVersion")
        && is_named(Instruction::Trap { code: 5 }, 25, "Trap")
        && is_named(Instruction::SetTopic { topic: [7; 32] }, 44, "SetTopic")
}

/// The instruction that sets a handler.
fn handler(xcm: Program) -> Instruction {
    Instruction::SetErrorHandler { xcm }
}

/// Whether there is a program inside, and is one that a run keeps.
fn has_program(instruction: &Instruction) -> bool {
    inner(instruction).is_some() && kept(instruction).is_some()
}

/// Whether there is no program inside.
fn has_none(instruction: &Instruction) -> bool {
    inner(instruction).is_none() && kept(instruction).is_none()
}

/// Whether the instruction is another with this program inside. Both end here, so that each test need not drop them.
fn becomes(mut instruction: Instruction, xcm: Program, other: Instruction) -> bool {
    set_program(&mut instruction, xcm);
    instruction == other
}

/// Whether the program inside is replaced.
fn is_replaced(alloc: Global) -> Result<bool, AllocError> {
    let (one, two) = (trap(alloc, 1)?, trap(alloc, 2)?);
    let xcm = trap(alloc, 2)?;
    let first = handler(one);
    let has = has_program(&first);
    Ok(becomes(first, xcm, handler(two)) && has)
}

/// Whether an instruction without a program stays.
fn stays(alloc: Global) -> Result<bool, AllocError> {
    let xcm = trap(alloc, 1)?;
    let has = has_none(&Instruction::ClearTopic);
    Ok(becomes(Instruction::ClearTopic, xcm, Instruction::ClearTopic) && has)
}

/// A call that takes this much.
fn call(alloc: Global, require_weight_at_most: Weight) -> Instruction {
    Instruction::Transact {
        origin_kind: OriginKind::Native,
        require_weight_at_most,
        call: LongBytes::from_vec(Vec::new(alloc)),
    }
}

/// What a call may take at most here.
const MOST: Weight = Weight {
    ref_time: 5,
    proof_size: 7,
};

/// Whether a call may take what it says, and no other instruction takes weight of its own.
fn takes(alloc: Global) -> bool {
    required(&call(alloc, MOST)) == MOST && required(&Instruction::ClearOrigin) == Weight::ZERO
}

#[test]
fn instructions_say_what_they_are(rt: HostRuntime) -> Result<(), Fail> {
    for (error, want) in ERRORS {
        assert!(rt; has_text(rt.alloc(), error, want)?, "{want}");
    }
    assert!(rt; are_named());
    assert!(rt; is_replaced(rt.alloc())? && stays(rt.alloc())?);
    assert!(rt; takes(rt.alloc()));
    Ok(())
}
