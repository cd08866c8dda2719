//! The headings of steps.

ghost use Rattle.std.specs.Prelude.{◌≡◌, ◌++◌, OnOk, IfOk, codes, string_bytes};
ghost use Rattle.chain_ids.specs.Texts.{chain_text};
ghost use Rattle.input_lines.specs.Words.{step_words};
ghost use Rattle.step_text.specs.Steps.{heading};

use crate::steps::{push_chain, push_number};
use chain_ids::ChainId;
use input_lines::Step;
use std::alloc::{AllocError, Global};

/// Bytes for a heading with the lines of most steps after it.
const ROOM: usize = 512;

/// The first line of a step: its number, from 1, and its words, as `#3 deliver relay 2000`.
pub fn heading(alloc: Global, number: u64, step: &Step) -> Result<String, AllocError>
    ensures { IfOk result (λ text. string_bytes text ≡ heading number step.now) }
{
    let mut text = String::with_capacity(alloc, ROOM)?;
    text.push_str("#")?;
    push_number(&mut text, number)?;
    text.push_str(" ")?;
    push_step(&mut text, step)?;
    text.push_str("\n")?;
    Ok(text)
}

/// Appends the words of a step.
fn push_step(text: &mut String, step: &Step) -> Result<(), AllocError>
    ensures { OnOk result (string_bytes text.new ≡ string_bytes text.old ++ step_words step.now) }
{
    match step {
        Step::Exec { chain, .. } => {
            text.push_str("exec ")?;
            push_chain(text, *chain)
        }
        Step::Deliver { from, to } => {
            text.push_str("deliver ")?;
            push_channel(text, *from, *to)
        }
        Step::Claim { from, to, .. } => {
            text.push_str("claim ")?;
            push_channel(text, *from, *to)
        }
        Step::Drain => text.push_str("drain"),
        Step::Balances => text.push_str("balances"),
        Step::Traps => text.push_str("traps"),
        Step::Queues => text.push_str("queues"),
        Step::Supply => text.push_str("supply"),
    }
}

/// Appends a channel: its two chains.
fn push_channel(text: &mut String, from: ChainId, to: ChainId) -> Result<(), AllocError>
    ensures { OnOk result (string_bytes text.new
        ≡ string_bytes text.old ++ (chain_text from ++ codes " " ++ chain_text to)) }
{
    push_chain(text, from)?;
    text.push_str(" ")?;
    push_chain(text, to)
}
