//! Steps whose blocks are written in pieces, so that no text is as long as all chains or channels make it.

ghost use Rattle.std.specs.Prelude.{◌≡◌, ◌++◌, MatchOption, ⊤};
ghost use Rattle.report_blocks.specs.Asked.{Asks, asked_of, world_step, line_step};
ghost use Rattle.step_text.specs.Steps.{heading};
ghost use Rattle.chain_net.specs.Nets.{world_of, spec_of};
ghost use Rattle.report_blocks.specs.Blocks.{audit_lines, step_block, step_lines};
ghost use Rattle.xcm_cli.specs.Pieces.{WritesInPieces, step_of_block};

use crate::chains::{write_balances, write_traps};
use crate::queues::write_channels;
use chain_net::Net;
use input_lines::{Line, Step};
use line_serving::{Status, write_text};
use report_blocks::AuditedNet;
use std::alloc::{AllocError, Global};
use step_text::heading;
use xcm_io::Sink;

/// A step whose block is written in pieces.
#[derive(Clone, Copy)]
pub(crate) enum LongBlock {
    /// What accounts hold.
    Balances,
    /// What is trapped.
    Traps,
    /// What waits.
    Queues,
}

impl LongBlock {
    /// The step of a line that asks for it.
    fn step(self) -> Step
        ensures { result ≡ line_step (step_of_block self) }
    {
        match self {
            LongBlock::Balances => Step::Balances,
            LongBlock::Traps => Step::Traps,
            LongBlock::Queues => Step::Queues,
        }
    }
}

/// What the line asks for, where its block is written in pieces.
pub(crate) fn long_block(line: &Line) -> Option<LongBlock>
    ensures { MatchOption result ⊤ (λ block. asked_of line.now ≡ Asks (step_of_block block)) }
{
    match line {
        Line::Step(step) => block_of(step),
        Line::NoStep => None,
        Line::Refused => None,
    }
}

/// The block of a step, where it is written in pieces.
fn block_of(step: &Step) -> Option<LongBlock>
    ensures { MatchOption result ⊤ (λ block. world_step step.now ≡ step_of_block block) }
{
    match step {
        Step::Balances => Some(LongBlock::Balances),
        Step::Traps => Some(LongBlock::Traps),
        Step::Queues => Some(LongBlock::Queues),
        _ => None,
    }
}

/// Writes the block of a step: its heading, its lines, and the audit where it is asked for.
pub(crate) fn write_block<O: Sink>(
    alloc: Global,
    net: &mut AuditedNet,
    audit: bool,
    number: u64,
    block: LongBlock,
    out: &mut O,
) -> Result<Option<Status>, AllocError>
    ensures written { WritesInPieces
        (step_block audit (spec_of net.old) (world_of net.old) number (step_of_block block))
        (O.written out.old) (O.written out.new) (O.faults out.old) (O.faults out.new) result }
    ensures same { net.new ≡ net.old }
{
    match write_heading(alloc, number, block, out) {
        Ok(None) => write_below(alloc, net, audit, block, out),
        Ok(Some(status)) => Ok(Some(status)),
        Err(refused) => Err(refused),
    }
}

/// Writes the heading of the step.
fn write_heading<O: Sink>(
    alloc: Global,
    number: u64,
    block: LongBlock,
    out: &mut O,
) -> Result<Option<Status>, AllocError>
    ensures { WritesInPieces (heading number (line_step (step_of_block block)))
        (O.written out.old) (O.written out.new) (O.faults out.old) (O.faults out.new) result }
{
    let step = block.step();
    let head = heading(alloc, number, &step)?;
    Ok(write_text(out, &head, None))
}

/// Writes what stands below the heading: the lines of the step, and the audit where it is asked for.
fn write_below<O: Sink>(
    alloc: Global,
    net: &mut AuditedNet,
    audit: bool,
    block: LongBlock,
    out: &mut O,
) -> Result<Option<Status>, AllocError>
    ensures written { WritesInPieces
        (step_lines (spec_of net.old) (world_of net.old) (step_of_block block)
        ++ audit_lines audit (world_of net.old))
        (O.written out.old) (O.written out.new) (O.faults out.old) (O.faults out.new) result }
    ensures same { net.new ≡ net.old }
{
    match write_lines(alloc, net.net(), block, out) {
        Ok(None) => write_audit(alloc, net, audit, out),
        Ok(Some(status)) => Ok(Some(status)),
        Err(refused) => Err(refused),
    }
}

/// Writes the lines of the step.
fn write_lines<O: Sink>(
    alloc: Global,
    net: &Net,
    block: LongBlock,
    out: &mut O,
) -> Result<Option<Status>, AllocError>
    ensures { WritesInPieces
        (step_lines (spec_of net.now) (world_of net.now) (step_of_block block))
        (O.written out.old) (O.written out.new) (O.faults out.old) (O.faults out.new) result }
{
    match block {
        LongBlock::Balances => write_balances(alloc, net, out),
        LongBlock::Traps => write_traps(alloc, net, out),
        LongBlock::Queues => write_channels(alloc, net, out),
    }
}

/// Writes the audit, where it is asked for.
fn write_audit<O: Sink>(
    alloc: Global,
    net: &mut AuditedNet,
    audit: bool,
    out: &mut O,
) -> Result<Option<Status>, AllocError>
    ensures written { WritesInPieces (audit_lines audit (world_of net.old))
        (O.written out.old) (O.written out.new) (O.faults out.old) (O.faults out.new) result }
    ensures same { net.new ≡ net.old }
{
    if !audit {
        return Ok(None);
    }
    let sums = net.supply_text(alloc)?;
    Ok(write_text(out, &sums, None))
}
