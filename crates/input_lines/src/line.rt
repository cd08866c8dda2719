//! What a line after the network asks for.

ghost use Rattle.std.specs.Prelude.{◌≡◌, IfOk};
ghost use Rattle.input_lines.specs.Step.{read_line, exec_words, deliver_words, claim_words, lone_word, split_word};

use crate::step::Step;
use crate::words::{account_word, chain_word, message_word, split_word};
use plain_lists::Listed;
use std::alloc::{AllocError, Global};

/// What a line after the network asks for.
#[derive(Debug, Drop)]
pub enum Line {
    /// Nothing: an empty line or a comment.
    NoStep,
    /// This step.
    Step(Step),
    /// No line of the list.
    Refused,
}

/// Reads what a line asks for, of the text without its line feed and the carriage return before it.
/// `Err` is out of memory alone.
#[tactic(auto, unfolding(crate::specs::Step::read_line))]
pub fn read_line(alloc: Global, text: &[u8]) -> Result<Line, AllocError>
    ensures { IfOk result (λ line. line ≡ read_line text.now) }
{
    if text.is_empty() || text[0] == b'#' {
        return Ok(Line::NoStep);
    }
    if text.starts_with(b"exec ") {
        return read_exec(alloc, &text[5..]);
    }
    if text.starts_with(b"deliver ") {
        return Ok(read_delivery(&text[8..]));
    }
    if text.starts_with(b"claim ") {
        return read_claim(alloc, &text[6..]);
    }
    Ok(read_lone_word(text))
}

/// Reads a line of one word.
fn read_lone_word(text: &[u8]) -> Line
    ensures { result ≡ lone_word text.now }
{
    if text == b"drain".as_slice() {
        return Line::Step(Step::Drain);
    }
    if text == b"balances".as_slice() {
        return Line::Step(Step::Balances);
    }
    if text == b"traps".as_slice() {
        return Line::Step(Step::Traps);
    }
    if text == b"queues".as_slice() {
        return Line::Step(Step::Queues);
    }
    if text == b"supply".as_slice() {
        return Line::Step(Step::Supply);
    }
    Line::Refused
}

/// Reads the words of a delivery.
fn read_delivery(words: &[u8]) -> Line
    ensures { result ≡ deliver_words (split_word words.now) }
{
    let Some((from, to)) = split_word(words) else {
        return Line::Refused;
    };
    let Some(from) = chain_word(from) else {
        return Line::Refused;
    };
    let Some(to) = chain_word(to) else {
        return Line::Refused;
    };
    Line::Step(Step::Deliver { from, to })
}

/// Reads the words of a claim.
fn read_claim(alloc: Global, words: &[u8]) -> Result<Line, AllocError>
    ensures { IfOk result (λ line. line ≡ claim_words (split_word words.now)) }
{
    let Some((from, words)) = split_word(words) else {
        return Ok(Line::Refused);
    };
    let Some((to, message)) = split_word(words) else {
        return Ok(Line::Refused);
    };
    let Some(from) = chain_word(from) else {
        return Ok(Line::Refused);
    };
    let Some(to) = chain_word(to) else {
        return Ok(Line::Refused);
    };
    match message_word(alloc, message)? {
        Some(message) => Ok(Line::Step(Step::Claim {
            from,
            to,
            message: Listed::from_vec(message),
        })),
        None => Ok(Line::Refused),
    }
}

/// Reads the words of an execution.
fn read_exec(alloc: Global, words: &[u8]) -> Result<Line, AllocError>
    ensures { IfOk result (λ line. line ≡ exec_words (split_word words.now)) }
{
    let Some((chain, words)) = split_word(words) else {
        return Ok(Line::Refused);
    };
    let Some((account, message)) = split_word(words) else {
        return Ok(Line::Refused);
    };
    let Some(chain) = chain_word(chain) else {
        return Ok(Line::Refused);
    };
    let Some(account) = account_word(account) else {
        return Ok(Line::Refused);
    };
    match message_word(alloc, message)? {
        Some(message) => Ok(Line::Step(Step::Exec {
            chain,
            account,
            message: Listed::from_vec(message),
        })),
        None => Ok(Line::Refused),
    }
}
