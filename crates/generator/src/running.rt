//! Steps that are drawn and run.
ghost use Rattle.std.specs.Prelude.{◌≡◌, IfOk, OnOk, false};
ghost use Rattle.network_steps.specs.Genesis.{order_of};
ghost use Rattle.network_steps.specs.Steps.{next_world, last_world};
ghost use Rattle.chain_net.specs.Nets.{world_of, spec_of, is_stopped};
ghost use Rattle.generator.specs.Turns.{step_of_turn, steps_from};
ghost use Rattle.generator.specs.Generated.{answer_to_step, answers, counts_of};

use crate::counts::Counts;
use crate::draws::Draws;
use crate::messages::{return_message, send_message};
use crate::turns::{Turn, draw};
use chain_ids::ChainId;
use chain_net::Net;
use network_steps::StepResult;
use std::alloc::{AllocError, Global};

/// The account at the relay chain that sends.
const SENDER: [u8; 32] = [1; 32];

/// The account at each parachain that sends back.
const RETURNER: [u8; 32] = [2; 32];

/// Runs a turn's step in the network.
fn perform(alloc: Global, net: &mut Net, turn: Turn) -> Result<StepResult, AllocError>
    requires running { is_stopped net.old ≡ false }
    ensures answer { IfOk result (λ answer. answer
        ≡ answer_to_step (world_of net.old) (step_of_turn turn)) }
    ensures world { OnOk result (world_of net.new
        ≡ next_world (order_of (spec_of net.old)) (world_of net.old) (step_of_turn turn)) }
    ensures running { OnOk result (is_stopped net.new ≡ false) }
    ensures spec { spec_of net.new ≡ spec_of net.old }
{
    match turn {
        Turn::Send { value, para } => {
            let message = send_message(alloc, value, para)?;
            net.exec(ChainId::Relay, &SENDER, &message)
        }
        Turn::Return { value, para } => {
            let message = return_message(alloc, value)?;
            net.exec(ChainId::Para(para), &RETURNER, &message)
        }
        Turn::Down { para } => net.deliver(ChainId::Relay, ChainId::Para(para)),
        Turn::Up { para } => net.deliver(ChainId::Para(para), ChainId::Relay),
    }
}

/// Draws so many steps after the number, runs them in the network, and counts how they ended.
pub(crate) fn run_steps(
    alloc: Global,
    net: &mut Net,
    number: u64,
    steps: u64,
) -> Result<Counts, AllocError>
    requires running { is_stopped net.old ≡ false }
    ensures counts { IfOk result (λ counts. counts
        ≡ counts_of (answers (order_of (spec_of net.old)) (world_of net.old)
        (steps_from steps number))) }
    ensures world { OnOk result (world_of net.new
        ≡ last_world (order_of (spec_of net.old)) (world_of net.old)
        (steps_from steps number)) }
    ensures spec { spec_of net.new ≡ spec_of net.old }
{
    let mut draws = Draws { state: number };
    let mut counts = Counts::none();
    let mut done: u64 = 0;
    'steps: while done < steps {
        let turn = draw(&mut draws);
        let answer = perform(alloc, net, turn)?;
        counts.add(&answer);
        done += 1;
    }
    Ok(counts)
}
