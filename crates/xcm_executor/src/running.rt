//! A whole run.
ghost use Rattle.std.specs.Prelude.{◌≡◌, OnOk, OnErr, IfOk};
ghost use Rattle.exec_rules.specs.Machine.{machine};
ghost use Rattle.exec_rules.specs.Run.{begin, run, begins_well, Ended, StoppedIn};
ghost use Rattle.exec_rules.specs.Instructions.{xcm};
ghost use Rattle.exec_rules.specs.Stopping.{leaves_on_oom};
ghost use Rattle.xcm_executor.specs.Running.{IsReadyToRun};

use crate::taking::take_program;
use exec_base::{Host, Part, Registers};
use exec_rules::law_of_orderly_instructions;
use std::alloc::{AllocError, Global};
use xcm_program::Program;

/// Runs a program, its handlers and its appendices. The answer is whether the first instruction ran and succeeded.
pub(crate) fn run_all<H: Host>(
    alloc: Global,
    program: Program,
    r: &mut Registers,
    h: &mut H,
) -> Result<bool, AllocError>
    requires runnable { IsReadyToRun Part.Program program (machine r.old (H.part h.old)) }
    ensures ok { OnOk result (run xcm (begin Part.Program program (machine r.old (H.part h.old)))
        ≡ Ended (machine r.new (H.part h.new))) }
    ensures began { IfOk result (λ began. began
        ≡ begins_well xcm program (machine r.old (H.part h.old))) }
    ensures err { OnErr result (StoppedIn xcm leaves_on_oom
        (begin Part.Program program (machine r.old (H.part h.old)))
        (machine r.new (H.part h.new))) }
{
    law_of_orderly_instructions(); // For the prover alone.
    if program.items().is_empty() {
        return Ok(false);
    }
    let (mut part, mut program, began) = take_program(alloc, Part::Program, program, r, h)?;
    'programs: while !program.items().is_empty() {
        let (next_part, next, _) = take_program(alloc, part, program, r, h)?;
        part = next_part;
        program = next;
    }
    Ok(began)
}
