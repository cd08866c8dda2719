//! One program of a run.
ghost use Rattle.std.specs.Prelude.{◌≡◌, ◌+◌, ◌<◌, ◌^◌, [], length, IfOk, OnErr};
ghost use Rattle.exec_rules.specs.Machine.{machine};
ghost use Rattle.exec_rules.specs.Run.{without_appendix, without_handler, handler_dropped, failed_with, appendix_of, next_program, begin, begins_well, IsTaken, Halted, GoesOnTo, StoppedIn};
ghost use Rattle.exec_rules.specs.Instructions.{xcm};
ghost use Rattle.exec_rules.specs.Readiness.{IsReady};
ghost use Rattle.exec_rules.specs.Stopping.{leaves_on_oom};
ghost use Rattle.xcm_executor.specs.Running.{IsReadyToRun};

use crate::performing::perform;
use crate::weights::added;
use exec_base::{Event, Host, Part, Registers};
use exec_rules::law_of_orderly_instructions;
use operands::{Weight, XcmError};
use plain_lists::Listed;
use std::alloc::{AllocError, Global};
use std::mem;
use weight_trader::weigh_rest;
use xcm_program::{Instruction, Program};

/// A program of no instructions.
pub(crate) fn no_program(alloc: Global) -> Program
    ensures { result ≡ [] }
{
    Listed::from_vec(Vec::new(alloc))
}

/// Takes the appendix out.
fn take_appendix(alloc: Global, r: &mut Registers) -> Program
    ensures program { result ≡ r.old.appendix }
    ensures registers { r.new ≡ without_appendix r.old }
{
    r.appendix_weight = Weight::ZERO;
    mem::replace(&mut r.appendix, no_program(alloc))
}

/// Takes the handler out.
fn take_handler(alloc: Global, r: &mut Registers) -> Program
    ensures program { result ≡ r.old.handler }
    ensures registers { r.new ≡ without_handler r.old }
{
    r.handler_weight = Weight::ZERO;
    mem::replace(&mut r.handler, no_program(alloc))
}

/// What is next where a program's instructions all ran: its handler is dropped, and the handler's weight is surplus.
fn succeed(alloc: Global, r: &mut Registers) -> (Part, Program)
    requires short { r.old.surplus.ref_time + r.old.handler_weight.ref_time < 2 ^ 64 }
    requires small { r.old.surplus.proof_size + r.old.handler_weight.proof_size < 2 ^ 64 }
    ensures { (result.0, result.1, r.new) ≡ appendix_of (handler_dropped r.old) }
{
    r.surplus = added(r.surplus, r.handler_weight);
    take_handler(alloc, r);
    (Part::Appendix, take_appendix(alloc, r))
}

/// What is next where an instruction failed and so much weight won't be used.
fn fail(
    alloc: Global,
    r: &mut Registers,
    place: u32,
    error: XcmError,
    unused: Weight,
) -> (Part, Program)
    requires short { r.old.surplus.ref_time + unused.ref_time < 2 ^ 64 }
    requires small { r.old.surplus.proof_size + unused.proof_size < 2 ^ 64 }
    ensures { (result.0, result.1, r.new)
        ≡ next_program r.old.handler (failed_with place error unused r.old) }
{
    r.error = Some((place, error));
    r.surplus = added(r.surplus, unused);
    if r.handler.items().is_empty() {
        (Part::Appendix, take_appendix(alloc, r))
    } else {
        (Part::Handler, take_handler(alloc, r))
    }
}

/// Executes one instruction and tells of it.
fn take<H: Host>(
    alloc: Global,
    part: Part,
    place: u32,
    instruction: &mut Instruction,
    r: &mut Registers,
    h: &mut H,
) -> Result<Option<XcmError>, AllocError>
    requires ready { IsReady instruction.old (machine r.old (H.part h.old)) }
    ensures ok { IfOk result (λ error. IsTaken xcm part place instruction.old
        (machine r.old (H.part h.old)) error (machine r.new (H.part h.new))) }
    ensures err { OnErr result
        (Halted xcm leaves_on_oom instruction.old (machine r.old (H.part h.old))
        (machine r.new (H.part h.new))) }
{
    let number = instruction.index();
    let error = match perform(alloc, instruction, r, h)? {
        Ok(()) => None,
        Err(error) => Some(error),
    };
    h.event(Event::Ran {
        part,
        index: place,
        instruction: number,
        error,
    })?;
    Ok(error)
}

/// Takes the instructions of a program in turn until one fails. The answer is the program that is next, and whether the first instruction
/// succeeded.
pub(crate) fn take_program<H: Host>(
    alloc: Global,
    part: Part,
    program: Program,
    r: &mut Registers,
    h: &mut H,
) -> Result<(Part, Program, bool), AllocError>
    requires some { 0 < length program }
    requires runnable { IsReadyToRun part program (machine r.old (H.part h.old)) }
    ensures ok { IfOk result
        (λ next. GoesOnTo xcm (begin part program (machine r.old (H.part h.old)))
        (begin next.0 next.1 (machine r.new (H.part h.new)))) }
    ensures began { IfOk result (λ next. next.2
        ≡ begins_well xcm program (machine r.old (H.part h.old))) }
    ensures err { OnErr result (StoppedIn xcm leaves_on_oom
        (begin part program (machine r.old (H.part h.old))) (machine r.new (H.part h.new))) }
{
    law_of_orderly_instructions(); // For the prover alone.
    let mut instructions = program.into_vec();
    for place in 0..instructions.len() {
        let at = place as u32;
        if let Some(error) = take(alloc, part, at, &mut instructions[place], r, h)? {
            let unused = weigh_rest(&instructions[place + 1..], &r.rule);
            let (next_part, next) = fail(alloc, r, at, error, unused);
            return Ok((next_part, next, place > 0));
        }
    }
    let (next_part, next) = succeed(alloc, r);
    Ok((next_part, next, true))
}
