//! Steps and deposits to be timed. Steps: assets go from the relay chain to a parachain and come back, again and again. The words are `STEPS
//! PARACHAINS ACCOUNTS DEPOSITS`: how many steps are taken, and how many parachains the network has, from 1 to 63; how many accounts a ledger
//! has, and how many deposits more are made to the first. What is written is how many of the steps ended complete, which are all, and in the
//! next line how many of the later sums are right: after the k-th of them all accounts have ACCOUNTS + k.
#![tactic(auto)]

mod deposits;

use crate::deposits::deposited;
use chain_ids::ChainId;
use chain_net::Net;
use network_steps::StepResult;
use report_blocks::open_network;
use std::alloc::{AllocError, Global};
use std::fmt::Write;
use std::process::ExitCode;
use std::{env, io};
use xcm_program::Outcome;

/// The parachain that the assets go to.
const PARACHAIN: u32 = 2000;

/// Sends 1000 of the relay chain's asset to parachain 2000, where weight is paid of it, for the second account.
const THERE: &str =
    "04040504000000a10f000100411f08130100009101000d010204000101000202020202020202020202020202020202020202020202020202020202020202";

/// Sends what came, less what was paid, back to the relay chain, for the first account.
const BACK: &str =
    "04080004010000910f100100010008130000009101000d010204000101000101010101010101010101010101010101010101010101010101010101010101";

/// Appends what the document says of a parachain.
fn push_parachain(text: &mut String, number: u32) -> Result<(), AllocError> {
    write!(
        text,
        ",{{\"para\":{number},\"assets\":[{{\"id\":\"1\",\"reserve\":\"relay\"}}],\"rates\":[{{\"asset\":\"1\",\"per_second\":\"1000000000\",\"per_mb\":\"0\"}}]}}"
    )
}

/// Appends the channels between the relay chain and a parachain.
fn push_channels(text: &mut String, number: u32) -> Result<(), AllocError> {
    write!(
        text,
        "{{\"from\":\"relay\",\"to\":{number}}},{{\"from\":{number},\"to\":\"relay\"}}"
    )
}

/// The document of a relay chain and so many parachains more than the one that the assets go to.
fn document(alloc: Global, others: u32) -> Result<String, AllocError> {
    let mut text = String::from_str(
        alloc,
        r#"{"chains":[{"assets":[{"id":"0","native":[]}],"rates":[{"asset":"0","per_second":"1000000000","per_mb":"0"}],
"accounts":[{"who":"0x0101010101010101010101010101010101010101010101010101010101010101","asset":"0","amount":"1000000000000000000000000"}]}"#,
    )?;
    for number in 0..others {
        push_parachain(&mut text, number)?;
    }
    push_parachain(&mut text, PARACHAIN)?;
    text.push_str("],\"channels\":[")?;
    for number in 0..others {
        push_channels(&mut text, number)?;
        text.push_str(",")?;
    }
    push_channels(&mut text, PARACHAIN)?;
    text.push_str("]}")?;
    Ok(text)
}

/// The network of a relay chain and so many parachains more than the one that the assets go to.
fn opened(alloc: Global, others: u32) -> Result<Option<Net>, AllocError> {
    let text = document(alloc, others)?;
    Ok(open_network(alloc, text.as_bytes())?.ok())
}

/// Takes the next step: whether it ended complete.
fn step(net: &mut Net, number: u64, there: &[u8], back: &[u8]) -> Result<bool, AllocError> {
    if net.stopped() {
        return Ok(false);
    }
    let parachain = ChainId::Para(PARACHAIN);
    let answer = match number % 4 {
        0 => net.exec(ChainId::Relay, &[1; 32], there)?,
        1 => net.deliver(ChainId::Relay, parachain)?,
        2 => net.exec(parachain, &[2; 32], back)?,
        _ => net.deliver(parachain, ChainId::Relay)?,
    };
    Ok(matches!(answer, StepResult::Ran(Outcome::Complete { .. })))
}

/// Takes so many steps: how many of them ended complete.
fn stepped(net: &mut Net, steps: u64, there: &[u8], back: &[u8]) -> Result<u64, AllocError> {
    let mut complete: u64 = 0;
    for number in 0..steps {
        if step(net, number, there, back)? {
            complete = complete.saturating_add(1);
        }
    }
    Ok(complete)
}

/// Opens the network and takes the steps: how many of them ended complete.
fn timed(alloc: Global, steps: u64, others: u32) -> Result<u64, AllocError> {
    let Some(mut net) = opened(alloc, others)? else {
        return Ok(0);
    };
    let Ok(there) = hex::decode(alloc, THERE) else {
        return Ok(0);
    };
    let Ok(back) = hex::decode(alloc, BACK) else {
        return Ok(0);
    };
    stepped(&mut net, steps, &there, &back)
}

/// How much is timed.
#[derive(Clone, Copy, Debug)]
struct Counts {
    steps: u64,
    parachains: u32,
    accounts: u64,
    deposits: u64,
}

/// The four numbers.
fn parsed(words: &[String]) -> Option<Counts> {
    match words {
        [_, steps, parachains, accounts, deposits] => Some(Counts {
            steps: steps.parse().ok()?,
            parachains: parachains.parse().ok()?,
            accounts: accounts.parse().ok()?,
            deposits: deposits.parse().ok()?,
        }),
        _ => None,
    }
}

fn main(rt: HostRuntime) -> io::Result<ExitCode> {
    let alloc = rt.alloc();
    let words: Vec<String> = env::args(&rt)?.collect(alloc)?;
    match parsed(&words) {
        Some(counts) if counts.parachains > 0 => {
            println!(rt; "{}", timed(alloc, counts.steps, counts.parachains - 1)?)?;
            println!(rt; "{}", deposited(alloc, counts.accounts, counts.deposits)?)?;
            Ok(ExitCode::SUCCESS)
        }
        _ => {
            println!(rt; "usage: bench_net STEPS PARACHAINS ACCOUNTS DEPOSITS")?;
            Ok(ExitCode::from(2))
        }
    }
}
