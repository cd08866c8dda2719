//! Lines of the input, served in a network.
ghost use Rattle.std.specs.Prelude.{◌≡◌, IfOk, OnOk, false, string_bytes};
ghost use Rattle.chain_net.specs.Nets.{world_of, spec_of, is_stopped};
ghost use Rattle.report_blocks.specs.Asked.{asked_of, line_step, world_step};
ghost use Rattle.step_text.specs.Steps.{heading};
ghost use Rattle.report_blocks.specs.Serving.{IsServed};

use crate::reads::supply_block;
use crate::steps::step_lines;
use crate::{AuditedNet, LineOutcome};
use input_lines::{Line, Step};
use std::alloc::{AllocError, Global};
use step_text::heading;

/// The heading of a line's step, as the network's step says it.
#[tactic(auto, using(crate::proofs::Telling::told_back))]
fn step_heading(alloc: Global, number: u64, step: &Step) -> Result<String, AllocError>
    ensures { IfOk result (λ text. string_bytes text
        ≡ heading number (line_step (world_step step.now))) }
{
    heading(alloc, number, step)
}

/// Serves a line of the input: runs the step that it asks for, and gives its block in the report, with the audit after it where that is
/// asked for. A line that asks for no step changes nothing. `Err` is out of memory, or a drain of more than 2^64-1 deliveries.
#[tactic(auto, unfolding(crate::specs::Asked::asked_of, crate::specs::Blocks::step_block))]
pub fn serve(
    alloc: Global,
    net: &mut AuditedNet,
    audit: bool,
    number: u64,
    line: &Line,
) -> Result<LineOutcome, AllocError>
    requires running { is_stopped net.old ≡ false }
    ensures served { IfOk result
        (λ served. IsServed audit (spec_of net.old) (world_of net.old) number
        (asked_of line.now) served (world_of net.new)) }
    ensures running { OnOk result (is_stopped net.new ≡ false) }
    ensures spec { spec_of net.new ≡ spec_of net.old }
{
    let step = match line {
        Line::NoStep => return Ok(LineOutcome::Nothing),
        Line::Refused => return Ok(LineOutcome::Unknown),
        Line::Step(step) => step,
    };
    let mut text = step_heading(alloc, number, step)?;
    let mut kept = net.kept.take();
    let lines = step_lines(alloc, &mut net.net, &mut kept, step)?;
    text.push_str(&lines)?;
    if audit {
        let sums = supply_block(alloc, &net.net, &mut kept)?;
        text.push_str(&sums)?;
    }
    net.kept = kept;
    Ok(LineOutcome::Block(text))
}
