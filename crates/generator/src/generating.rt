//! The whole run, and its report.
ghost use Rattle.std.specs.Prelude.{◌≡◌, ◌++◌, false, IfOk, string_bytes};
ghost use Rattle.network_steps.specs.Genesis.{first_world};
ghost use Rattle.chain_net.specs.Nets.{world_of, spec_of, is_stopped};
ghost use Rattle.network_steps.specs.Worlds.{parts_of};
ghost use Rattle.report_text.specs.Block as supply;
ghost use Rattle.generator.specs.Generated as generated;
ghost use Rattle.generator.specs.Generated.{asked_line, counts_line, generated};

use crate::counts::Counts;
use crate::document::document_bytes;
use crate::network_laws::law_of_document;
use crate::running::run_steps;
use chain_net::Net;
use document_entries::NetworkFault;
use network_config::read_network;
use network_validity::law_of_valid_networks;
use std::alloc::{AllocError, Global};

/// What was asked for.
fn asked_line(alloc: Global, number: u64, steps: u64) -> Result<String, AllocError>
    ensures { IfOk result (λ text. string_bytes text ≡ asked_line number steps) }
{
    format!(in alloc; "gen {number} {steps}\n")
}

/// How many steps ended in which way.
fn counts_line(alloc: Global, counts: &Counts) -> Result<String, AllocError>
    ensures { IfOk result (λ text. string_bytes text ≡ counts_line counts.now) }
{
    let complete = counts.complete;
    let incomplete = counts.incomplete;
    let error = counts.error;
    let empty = counts.empty;
    format!(in alloc; "complete {complete} incomplete {incomplete} error {error} empty {empty}\n")
}

/// What the network has of each asset that is native somewhere, and what backs each derivative.
fn supply_block(alloc: Global, net: &Net) -> Result<String, AllocError>
    ensures { IfOk result (λ text. string_bytes text
        ≡ supply.supply_block (parts_of (world_of net.now))) }
{
    report_text::supply_block(alloc, net.chains())
}

/// Draws steps and runs them in a network in which nothing has happened yet, and reports what came of them.
#[tactic(auto, unfolding(crate::specs::Generated::summary))]
fn summary(alloc: Global, net: &mut Net, number: u64, steps: u64) -> Result<String, AllocError>
    requires running { is_stopped net.old ≡ false }
    requires first { world_of net.old ≡ first_world (spec_of net.old) }
    ensures { IfOk result (λ text. string_bytes text
        ≡ generated.summary (spec_of net.old) number steps) }
{
    let counts = run_steps(alloc, net, number, steps)?;
    let mut text = asked_line(alloc, number, steps)?;
    let ends = counts_line(alloc, &counts)?;
    text.push_str(&ends)?;
    let sums = supply_block(alloc, net)?;
    text.push_str(&sums)?;
    Ok(text)
}

/// Draws so many steps after the number, runs them in the generator's network, and reports how many of them ended in which way, and what the
/// network then has of each asset. It reads nothing else. `Err` is out of memory alone.
#[tactic(auto, unfolding(crate::specs::Generated::generated))]
pub fn generate(alloc: Global, number: u64, steps: u64) -> Result<String, AllocError>
    ensures report { IfOk result (λ text. string_bytes text ≡ generated number steps) }
{
    // For the prover alone: the document is accepted, and a network that was read can open.
    law_of_document();
    law_of_valid_networks();
    match read_network(alloc, document_bytes()) {
        Ok(spec) => {
            let mut net = Net::open(alloc, spec)?;
            summary(alloc, &mut net, number, steps)
        }
        Err(NetworkFault::Memory) => Err(AllocError),
        Err(_) => unreachable!(),
    }
}
