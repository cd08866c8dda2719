//! Networks that are opened and stepped, and what is told of it.
use chain_net::{Net, StepResult};
use input_lines::{Line, Step, read_line};
use network_coherence::coherent;
use network_config::read_network;
use network_validity::law_of_valid_networks;
use report_text::{balances_text, queues_text, step_text, supply_block, traps_text};
use std::alloc::{AllocError, Global};
use std::process::Abort;
use std::test::Fail;
use step_text::{drained_line, opening_line};

/// Short words of the tables, and what they mean: accounts, their bytes within a message, the account of a chain's first pool, and that
/// of parachain 2000 at the relay chain.
const WORDS: &[(&str, &str)] = &[
    (
        "A0",
        "0x0000000000000000000000000000000000000000000000000000000000000000",
    ),
    (
        "A1",
        "0x0101010101010101010101010101010101010101010101010101010101010101",
    ),
    (
        "A2",
        "0x0202020202020202020202020202020202020202020202020202020202020202",
    ),
    (
        "A3",
        "0x0303030303030303030303030303030303030303030303030303030303030303",
    ),
    (
        "B1",
        "0101010101010101010101010101010101010101010101010101010101010101",
    ),
    (
        "B2",
        "0202020202020202020202020202020202020202020202020202020202020202",
    ),
    (
        "B3",
        "0303030303030303030303030303030303030303030303030303030303030303",
    ),
    (
        "POOL",
        "0x706f6f6c00000000000000000000000000000000000000000000000000000000",
    ),
    (
        "PARA",
        "0x70617261d0070000000000000000000000000000000000000000000000000000",
    ),
];

/// The text, with what its short words mean.
fn spelled(alloc: Global, text: &str) -> Result<String, AllocError> {
    let mut spelled = String::from_str(alloc, text)?;
    for (word, meaning) in WORDS {
        spelled = spelled.replace(alloc, word, meaning)?;
    }
    Ok(spelled)
}

/// The network of a document.
pub(crate) fn opened(alloc: Global, document: &str) -> Result<Net, Fail> {
    law_of_valid_networks(); // For the prover alone.
    let text = spelled(alloc, document)?;
    let spec = read_network(alloc, text.as_bytes())?;
    Ok(Net::open(alloc, spec)?)
}

/// What is told of an answer, and of what the step told.
fn told(alloc: Global, net: &Net, answer: StepResult) -> Result<String, Fail> {
    Ok(step_text(alloc, net.trace(), &answer)?)
}

/// Takes a step in the network, or reads it: what is told of it.
fn take(alloc: Global, net: &mut Net, step: Step) -> Result<String, Fail> {
    if net.stopped() {
        return Err(Fail::new("the network is stopped"));
    }
    match step {
        Step::Exec {
            chain,
            account,
            message,
        } => {
            let answer = net.exec(chain, &account, message.items())?;
            told(alloc, net, answer)
        }
        Step::Deliver { from, to } => {
            let answer = net.deliver(from, to)?;
            told(alloc, net, answer)
        }
        Step::Claim { from, to, message } => {
            let answer = net.claim(from, to, message.items())?;
            told(alloc, net, answer)
        }
        Step::Drain => Ok(drained_line(alloc, net.drain()?)?),
        Step::Balances => Ok(balances_text(alloc, net.chains())?),
        Step::Traps => Ok(traps_text(alloc, net.chains())?),
        Step::Queues => {
            let channels = net.spec().channels.items();
            Ok(queues_text(alloc, channels, net.chains())?)
        }
        Step::Supply => Ok(supply_block(alloc, net.chains())?),
    }
}

/// The step of a line, in short words.
pub(crate) fn stepped(alloc: Global, net: &mut Net, line: &str) -> Result<String, Fail> {
    let text = spelled(alloc, line)?;
    let Line::Step(step) = read_line(alloc, text.as_bytes())? else {
        return Err(Fail::new("no step"));
    };
    take(alloc, net, step)
}

/// Whether the network is coherent, or why it isn't.
pub(crate) fn coherence(alloc: Global, net: &Net) -> Result<String, Fail> {
    Ok(opening_line(alloc, coherent(net.spec()).err())?)
}

/// Opens the network of a document, of whose coherence this is said, and takes steps in it. Each step has the lines that are beside it.
pub(crate) fn check(
    rt: &impl Abort,
    alloc: Global,
    document: &str,
    opening: &str,
    steps: &[(&str, &str)],
) -> Result<(), Fail> {
    let mut net = opened(alloc, document)?;
    let said = coherence(alloc, &net)?;
    assert!(rt; said.as_str() == opening, "{said}");
    for (line, lines) in steps {
        let text = stepped(alloc, &mut net, line)?;
        let wanted = spelled(alloc, lines)?;
        assert!(rt; text.as_str() == wanted.as_str(), "behind {line}");
    }
    Ok(())
}
