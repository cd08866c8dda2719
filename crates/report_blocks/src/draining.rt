//! Drains.
ghost use Rattle.std.specs.Prelude.{◌≡◌, IfOk, OnOk, false, string_bytes};
ghost use Rattle.chain_net.specs.Nets.{world_of, spec_of, is_stopped};
ghost use Rattle.report_blocks.specs.Blocks.{drain_lines, lines_of_step};
ghost use Rattle.network_steps.specs.Steps.{drain, next_world, deliver};
ghost use Rattle.network_steps.specs.Steps as steps;
ghost use Rattle.network_steps.specs.Genesis.{order_of};

use chain_ids::ChainId;
use chain_net::{Net, law_of_reached_nets};
use law_steps::law_of_drains_that_end;
use std::alloc::{AllocError, Global};
use step_text::{drained_line, step_text};

/// Delivers until no message waits, and gives the lines of all deliveries. `Err` is out of memory, or more than 2^64-1 deliveries.
pub(crate) fn drained(alloc: Global, net: &mut Net) -> Result<String, AllocError>
    requires running { is_stopped net.old ≡ false }
    ensures lines { IfOk result (λ text. string_bytes text
        ≡ drain_lines (drain (order_of (spec_of net.old)) (world_of net.old))) }
    ensures world { OnOk result (world_of net.new
        ≡ next_world (order_of (spec_of net.old)) (world_of net.old) steps.Drain) }
    ensures running { OnOk result (is_stopped net.new ≡ false) }
    ensures spec { spec_of net.new ≡ spec_of net.old }
{
    // For the prover alone.
    law_of_drains_that_end();
    law_of_reached_nets();
    let mut text = String::new(alloc);
    let mut count: u64 = 0;
    'deliveries: while let Some((from, to)) = net.next_channel() {
        let lines = delivered(alloc, net, from, to)?;
        text.push_str(&lines)?;
        let Some(more) = count.checked_add(1) else {
            return Err(AllocError);
        };
        count = more;
    }
    let last = drained_line(alloc, count)?;
    text.push_str(&last)?;
    Ok(text)
}

/// Delivers the oldest message of a channel, and gives the lines of the delivery.
fn delivered(alloc: Global, net: &mut Net, from: ChainId, to: ChainId) -> Result<String, AllocError>
    requires running { is_stopped net.old ≡ false }
    ensures lines { IfOk result (λ text. string_bytes text
        ≡ lines_of_step (deliver (world_of net.old) from to)) }
    ensures world { OnOk result (world_of net.new ≡ (deliver (world_of net.old) from to).world) }
    ensures running { OnOk result (is_stopped net.new ≡ false) }
    ensures spec { spec_of net.new ≡ spec_of net.old }
{
    let answer = net.deliver(from, to)?;
    step_text(alloc, net.trace(), &answer)
}
