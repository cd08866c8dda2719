//! What is answered to a tree.

ghost use Rattle.std.specs.Prelude.{◌≡◌, ◌≢◌, ◌≤◌, List, ℕ, IfOk, MatchOption, IsTrue, IsFalse, string_bytes};
ghost use Rattle.xcm_program.specs.declared.instruction.Instruction.{Instruction};
ghost use Rattle.xcm_program.specs.Measure.{deep_count};
ghost use Rattle.message_text.specs.Messages.{program_text};
ghost use Rattle.xcm_explain.specs.Blocks.{message_tree};
ghost use Rattle.versioned_xcm.specs.Message.{IsDecoded};
ghost use Rattle.xcm_compose.specs.Answers.{IsAnswer, IsJudged, IsTreeRefused, IsExplained, IsOnly, HasNoMessage, refused_line, message_line};

use message_text::{hex_text, message_text};
use std::alloc::{AllocError, Global};
use tree_reading::{Expected, Numbered, TreeFault, bytes_of_tree};
use versioned_xcm::{MessageFault, decode_message, law_of_round_trip};
use xcm_program::Program;

/// The tree of a program under a heading of this number and version.
fn headed_tree(
    alloc: Global,
    number: u64,
    version: u8,
    program: &Program,
) -> Result<String, AllocError>
    requires { deep_count program.now ≤ 100 }
    ensures { IfOk result (λ text. string_bytes text
        ≡ message_tree number version (program_text 1 program.now)) }
{
    let tree = message_text(alloc, 1, program)?;
    format!(in alloc; "message {number} version {version}\n{tree}")
}

/// The tree of a message under a heading of this number, or `None` where the bytes are no message.
fn explained(alloc: Global, number: u64, bytes: &[u8]) -> Result<Option<String>, AllocError>
    ensures { IfOk result (λ o. MatchOption o
        ((program : List Instruction) → IsDecoded bytes.now program → ⊥)
        (λ text. IsExplained number bytes.now (string_bytes text))) }
{
    // For the prover alone: what is refused is the message of no program.
    law_of_round_trip();
    match decode_message(alloc, bytes) {
        Ok(program) => match headed_tree(alloc, number, bytes[0], &program) {
            Ok(text) => Ok(Some(text)),
            Err(refused) => Err(refused),
        },
        Err(fault) => match fault {
            MessageFault::Memory => Err(AllocError),
            _ => Ok(None),
        },
    }
}

/// The row in which two texts differ first.
fn differing_row(one: &[u8], other: &[u8]) -> usize {
    one.iter()
        .zip(other)
        .take_while(|(a, b)| a == b)
        .filter(|(a, _)| **a == b'\n')
        .count()
}

/// The line of a message.
fn message_line(alloc: Global, bytes: &[u8]) -> Result<String, AllocError>
    ensures { IfOk result (λ text. string_bytes text ≡ message_line bytes.now) }
{
    let digits = hex_text(alloc, bytes)?;
    format!(in alloc; "{digits}\n")
}

/// The line instead of a message: in a line, something else was expected.
fn refused_line(alloc: Global, line: u64, expected: Expected) -> Result<String, AllocError>
    ensures { IfOk result (λ text. string_bytes text ≡ refused_line line expected) }
{
    format!(in alloc; "line {line} refused, expected {expected}\n")
}

/// As `refused_line`, by what it is to a tree that no message has.
fn refusal(alloc: Global, line: u64, expected: Expected) -> Result<String, AllocError>
    ensures { (tree : List ℕ) → HasNoMessage tree
        → IfOk result (λ text. IsTreeRefused tree (string_bytes text)) }
{
    refused_line(alloc, line, expected)
}

/// Whether the two are the same bytes.
fn is_same(one: &[u8], other: &[u8]) -> bool
    ensures same { IsTrue result → one.now ≡ other.now }
    ensures other { IsFalse result → one.now ≢ other.now }
{
    one == other
}

/// The line instead of a message: the first in which a tree isn't as it is written.
fn differing_line(
    alloc: Global,
    start: u64,
    tree: &[u8],
    shown: &[u8],
) -> Result<String, AllocError>
    ensures { HasNoMessage tree.now
        → IfOk result (λ text. IsTreeRefused tree.now (string_bytes text)) }
{
    let row = differing_row(shown, tree);
    refusal(alloc, start.saturating_add(row as u64), Expected::Same)
}

/// What is answered to a tree where this text is the tree of the bytes that were made of it: they are its message where the two are the same, and else it
/// has none.
fn compared(
    alloc: Global,
    start: u64,
    tree: &[u8],
    made: &Numbered,
    text: &str,
) -> Result<String, AllocError>
    requires explained { IsExplained made.now.number made.now.bytes.items text.now }
    requires only { IsOnly made.now.number made.now.bytes.items tree.now }
    ensures { IfOk result (λ answer. IsJudged tree.now (string_bytes answer)) }
{
    let shown = text.as_bytes();
    if is_same(shown, tree) {
        return message_line(alloc, made.bytes.as_slice());
    }
    differing_line(alloc, start, tree, shown)
}

/// What is answered to a tree from which these bytes were made, where no others can have it.
fn judged(alloc: Global, start: u64, tree: &[u8], made: &Numbered) -> Result<String, AllocError>
    requires { IsOnly made.now.number made.now.bytes.items tree.now }
    ensures { IfOk result (λ text. IsJudged tree.now (string_bytes text)) }
{
    match explained(alloc, made.number, made.bytes.as_slice()) {
        Ok(Some(text)) => compared(alloc, start, tree, made, text.as_str()),
        Ok(None) => refusal(alloc, start, Expected::Message),
        Err(refused) => Err(refused),
    }
}

/// What is answered to a tree, of which there is one: its message, or the line in which something else was expected.
fn tree_answer(alloc: Global, start: u64, tree: &[u8]) -> Result<String, AllocError>
    ensures { IfOk result (λ text. IsJudged tree.now (string_bytes text)) }
{
    match bytes_of_tree(alloc, tree) {
        Ok(made) => judged(alloc, start, tree, &made),
        Err(TreeFault::Row(row, expected)) => {
            refusal(alloc, start.saturating_add(row as u64), expected)
        }
        Err(TreeFault::Memory) => Err(AllocError),
    }
}

/// What is answered to a tree that begins in this line, and nothing where there is none.
pub(crate) fn answer(alloc: Global, start: u64, tree: &[u8]) -> Result<String, AllocError>
    ensures { IfOk result (λ text. IsAnswer tree.now (string_bytes text)) }
{
    if tree.is_empty() {
        return Ok(String::new(alloc));
    }
    tree_answer(alloc, start, tree)
}
