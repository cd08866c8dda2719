//! The execution of a program: admission, the run, and its end.
ghost use Rattle.std.specs.Prelude.{◌≡◌, [], Ok, IfOk, OnOk, OnErr};
ghost use Rattle.exec_base.specs.Sending.{IsForwardable};
ghost use Rattle.exec_rules.specs.Readiness.{IsAtRest};
ghost use Rattle.exec_rules.specs.Admission.{IsWeighed};
ghost use Rattle.exec_rules.specs.Execution.{started, executed_by, AbandonedIn, executed, IsAbandoned};

use crate::ending::{abandon, close, let_go};
use crate::running::run_all;
use crate::taking::no_program;
use asset_bundles::AssetBundle;
use exec_base::{Host, Registers};
use exec_rules::{
    Admitted, ChainRules, admit, law_of_admission, law_of_orderly_instructions, law_of_readiness,
};
use locations::Location;
use operands::{MaybeError, Weight};
use std::alloc::{AllocError, Global};
use xcm_program::{Outcome, Program};

/// The registers as a run begins, but for whom it runs.
#[inline(always)]
fn blank_registers(alloc: Global, rules: &ChainRules) -> Registers
    ensures { result ≡ started rules.now (record { parents = 0; interior = [] }) }
{
    Registers {
        holding: AssetBundle::empty(alloc),
        origin: Some(Location::here()),
        original: Location::here(),
        error: None,
        handler: no_program(alloc),
        handler_weight: Weight::ZERO,
        appendix: no_program(alloc),
        appendix_weight: Weight::ZERO,
        topic: None,
        status: MaybeError::Success,
        surplus: Weight::ZERO,
        refunded: Weight::ZERO,
        fees_mode: false,
        rule: rules.weight,
        max_holding: rules.max_holding,
    }
}

/// Writes into the registers for whom the run begins.
fn set_origin(r: &mut Registers, rules: &ChainRules, origin: &Location)
    requires { r.old ≡ started rules.now (record { parents = 0; interior = [] }) }
    ensures { r.new ≡ started rules.now origin.now }
{
    r.original.assign(origin);
    if let Some(place) = &mut r.origin {
        place.assign(origin);
    }
}

/// Runs an admitted program to its end.
fn run_admitted<H: Host>(
    alloc: Global,
    rules: &ChainRules,
    origin: &Location,
    admitted: Admitted,
    h: &mut H,
) -> Result<(Outcome, bool), AllocError>
    requires weighed { IsWeighed rules.now.weight admitted }
    requires forwardable { IsForwardable admitted.program }
    requires rest { IsAtRest (H.part h.old) }
    ensures ok { IfOk result (λ answer. (answer, H.part h.new)
        ≡ executed_by rules.now origin.now (Ok admitted) (H.part h.old)) }
    ensures rests { OnOk result (IsAtRest (H.part h.new)) }
    ensures err { OnErr result (AbandonedIn rules.now origin.now admitted (H.part h.old)
        (H.part h.new)) }
{
    law_of_admission(); // For the prover alone, as the next two lines.
    law_of_readiness();
    law_of_orderly_instructions();
    let Admitted { program, weight } = admitted;
    let mut registers = blank_registers(alloc, rules);
    set_origin(&mut registers, rules, origin);
    match run_all(alloc, program, &mut registers, h) {
        Ok(began) => {
            let closed = close(alloc, weight, &mut registers, h);
            let_go(registers);
            let outcome = closed?;
            Ok((outcome, began))
        }
        Err(fault) => {
            abandon(alloc, &mut registers, h);
            let_go(registers);
            Err(fault)
        }
    }
}

/// Executes a program for an origin, on a chain between two runs; its instructions must be such as may be sent. The answer is the outcome,
/// and whether the first instruction ran and succeeded. `Err` is out of memory alone: then the chain is left where the run was stopped, and
/// what was held is parked.
pub fn execute<H: Host>(
    alloc: Global,
    origin: &Location,
    program: Program,
    rules: &ChainRules,
    credit: Weight,
    h: &mut H,
) -> Result<(Outcome, bool), AllocError>
    requires forwardable { IsForwardable program }
    requires rest { IsAtRest (H.part h.old) }
    ensures ok { IfOk result (λ answer. (answer, H.part h.new)
        ≡ executed rules.now origin.now credit program (H.part h.old)) }
    ensures rests { OnOk result (IsAtRest (H.part h.new)) }
    ensures err { OnErr result (IsAbandoned rules.now origin.now credit program (H.part h.old)
        (H.part h.new)) }
{
    law_of_admission(); // For the prover alone.
    match admit(rules, origin, program, credit, h.open()) {
        Err(outcome) => Ok((outcome, false)),
        Ok(admitted) => run_admitted(alloc, rules, origin, admitted, h),
    }
}
