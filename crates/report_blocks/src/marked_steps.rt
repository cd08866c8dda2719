//! Steps that change chains, with what is kept of the supply block: chains that a step may change count as changed from then on.
ghost use Rattle.std.specs.Prelude.{◌≡◌, IfOk, OnOk, false, string_bytes};
ghost use Rattle.chain_net.specs.Nets.{world_of, spec_of, is_stopped};
ghost use Rattle.report_blocks.specs.Blocks.{drain_lines, lines_of_step};
ghost use Rattle.report_blocks.specs.Tables.{IsKeptOf};
ghost use Rattle.network_steps.specs.Steps.{drain, next_world, exec, deliver, claim};
ghost use Rattle.network_steps.specs.Steps as steps;
ghost use Rattle.network_steps.specs.Genesis.{order_of};

use crate::draining::drained;
use crate::marking::{mark, mark_all};
use chain_ids::ChainId;
use chain_net::Net;
use network_steps::{law_of_constant_settings, law_of_no_change_elsewhere};
use report_text::SupplySheet;
use std::alloc::{AllocError, Global};
use step_text::step_text;

/// Runs a message at a chain, which counts as changed from then on, and gives the lines of the run.
pub(crate) fn exec_step(
    alloc: Global,
    net: &mut Net,
    kept: &mut Option<SupplySheet>,
    chain: ChainId,
    account: &[u8; 32],
    message: &[u8],
) -> Result<String, AllocError>
    requires running { is_stopped net.old ≡ false }
    requires kept { IsKeptOf kept.old (world_of net.old) }
    ensures lines { IfOk result (λ text. string_bytes text
        ≡ lines_of_step (exec (world_of net.old) chain account.now message.now)) }
    ensures world { OnOk result (world_of net.new
        ≡ (exec (world_of net.old) chain account.now message.now).world) }
    ensures kept { OnOk result (IsKeptOf kept.new (world_of net.new)) }
    ensures running { OnOk result (is_stopped net.new ≡ false) }
    ensures spec { spec_of net.new ≡ spec_of net.old }
{
    // For the prover alone.
    law_of_no_change_elsewhere();
    law_of_constant_settings();
    mark(kept, net, chain);
    let answer = net.exec(chain, account, message)?;
    step_text(alloc, net.trace(), &answer)
}

/// Delivers the oldest message of a channel, and gives the lines of the delivery. Both chains count as changed from then on.
pub(crate) fn deliver_step(
    alloc: Global,
    net: &mut Net,
    kept: &mut Option<SupplySheet>,
    from: ChainId,
    to: ChainId,
) -> Result<String, AllocError>
    requires running { is_stopped net.old ≡ false }
    requires kept { IsKeptOf kept.old (world_of net.old) }
    ensures lines { IfOk result (λ text. string_bytes text
        ≡ lines_of_step (deliver (world_of net.old) from to)) }
    ensures world { OnOk result (world_of net.new ≡ (deliver (world_of net.old) from to).world) }
    ensures kept { OnOk result (IsKeptOf kept.new (world_of net.new)) }
    ensures running { OnOk result (is_stopped net.new ≡ false) }
    ensures spec { spec_of net.new ≡ spec_of net.old }
{
    // For the prover alone.
    law_of_no_change_elsewhere();
    law_of_constant_settings();
    mark(kept, net, from);
    mark(kept, net, to);
    let answer = net.deliver(from, to)?;
    step_text(alloc, net.trace(), &answer)
}

/// Lets a chain send a claim in its own name, and gives the lines of that. The sender counts as changed from then on.
pub(crate) fn claim_step(
    alloc: Global,
    net: &mut Net,
    kept: &mut Option<SupplySheet>,
    from: ChainId,
    to: ChainId,
    message: &[u8],
) -> Result<String, AllocError>
    requires running { is_stopped net.old ≡ false }
    requires kept { IsKeptOf kept.old (world_of net.old) }
    ensures lines { IfOk result (λ text. string_bytes text
        ≡ lines_of_step (claim (world_of net.old) from to message.now)) }
    ensures world { OnOk result (world_of net.new
        ≡ (claim (world_of net.old) from to message.now).world) }
    ensures kept { OnOk result (IsKeptOf kept.new (world_of net.new)) }
    ensures running { OnOk result (is_stopped net.new ≡ false) }
    ensures spec { spec_of net.new ≡ spec_of net.old }
{
    // For the prover alone.
    law_of_no_change_elsewhere();
    law_of_constant_settings();
    mark(kept, net, from);
    let answer = net.claim(from, to, message)?;
    step_text(alloc, net.trace(), &answer)
}

/// Delivers until no message waits, and gives the lines of all deliveries. Every chain counts as changed from then on.
pub(crate) fn drain_step(
    alloc: Global,
    net: &mut Net,
    kept: &mut Option<SupplySheet>,
) -> Result<String, AllocError>
    requires running { is_stopped net.old ≡ false }
    requires kept { IsKeptOf kept.old (world_of net.old) }
    ensures lines { IfOk result (λ text. string_bytes text
        ≡ drain_lines (drain (order_of (spec_of net.old)) (world_of net.old))) }
    ensures world { OnOk result (world_of net.new
        ≡ next_world (order_of (spec_of net.old)) (world_of net.old) steps.Drain) }
    ensures kept { OnOk result (IsKeptOf kept.new (world_of net.new)) }
    ensures running { OnOk result (is_stopped net.new ≡ false) }
    ensures spec { spec_of net.new ≡ spec_of net.old }
{
    law_of_constant_settings(); // For the prover alone.
    mark_all(kept);
    drained(alloc, net)
}
