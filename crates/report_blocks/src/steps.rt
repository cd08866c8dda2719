//! Steps, run in a network.
ghost use Rattle.std.specs.Prelude.{◌≡◌, IfOk, OnOk, false, string_bytes};
ghost use Rattle.chain_net.specs.Nets.{world_of, spec_of, is_stopped};
ghost use Rattle.network_steps.specs.Genesis.{order_of};
ghost use Rattle.network_steps.specs.Steps.{next_world};
ghost use Rattle.report_blocks.specs.Asked.{world_step};
ghost use Rattle.report_blocks.specs.Blocks.{step_lines};
ghost use Rattle.report_blocks.specs.Tables.{IsKeptOf};

use crate::marked_steps::{claim_step, deliver_step, drain_step, exec_step};
use crate::reads::{balances_block, queues_block, supply_block, traps_block};
use chain_net::Net;
use input_lines::Step;
use report_text::SupplySheet;
use std::alloc::{AllocError, Global};

/// Runs the step of a line, and gives the lines that are below its heading.
#[tactic(auto, unfolding(crate::specs::Blocks::step_lines))]
pub(crate) fn step_lines(
    alloc: Global,
    net: &mut Net,
    kept: &mut Option<SupplySheet>,
    step: &Step,
) -> Result<String, AllocError>
    requires running { is_stopped net.old ≡ false }
    requires kept { IsKeptOf kept.old (world_of net.old) }
    ensures lines { IfOk result (λ text. string_bytes text
        ≡ step_lines (spec_of net.old) (world_of net.old) (world_step step.now)) }
    ensures world { OnOk result (world_of net.new
        ≡ next_world (order_of (spec_of net.old)) (world_of net.old) (world_step step.now)) }
    ensures kept { OnOk result (IsKeptOf kept.new (world_of net.new)) }
    ensures running { OnOk result (is_stopped net.new ≡ false) }
    ensures spec { spec_of net.new ≡ spec_of net.old }
{
    match step {
        Step::Exec {
            chain,
            account,
            message,
        } => exec_step(alloc, net, kept, *chain, account, message.items()),
        Step::Deliver { from, to } => deliver_step(alloc, net, kept, *from, *to),
        Step::Claim { from, to, message } => {
            claim_step(alloc, net, kept, *from, *to, message.items())
        }
        Step::Drain => drain_step(alloc, net, kept),
        Step::Balances => balances_block(alloc, net),
        Step::Traps => traps_block(alloc, net),
        Step::Queues => queues_block(alloc, net),
        Step::Supply => supply_block(alloc, net, kept),
    }
}
