//! What is said of a message.

ghost use Rattle.std.specs.Prelude.{◌≡◌, ◌≤◌, IfOk, string_bytes};
ghost use Rattle.xcm_program.specs.Measure.{deep_count};
ghost use Rattle.message_text.specs.Messages.{program_text};
ghost use Rattle.xcm_explain.specs.Stops.{stop_text};
ghost use Rattle.xcm_explain.specs.Blocks.{message_block, message_tree, message_refused_line, refusal_place, not_hex_line};

use crate::stop::{ReadingStop, find_stop};
use message_text::message_text;
use std::alloc::{AllocError, Global};
use versioned_xcm::{MessageFault, decode_message};
use xcm_program::Program;

/// What is said of these bytes, which are in this line: a heading and the tree of the program, or why they are no message. `Err` is out of
/// memory alone.
pub(crate) fn message_block(alloc: Global, line: u64, bytes: &[u8]) -> Result<String, AllocError>
    ensures { IfOk result (λ text. string_bytes text ≡ message_block line bytes.now) }
{
    match decode_message(alloc, bytes) {
        Ok(program) => message_tree(alloc, line, bytes[0], &program),
        Err(MessageFault::Memory) => Err(AllocError),
        Err(fault) => message_refused_line(alloc, line, bytes, fault),
    }
}

/// A heading, and the tree of a program below it.
fn message_tree(
    alloc: Global,
    line: u64,
    version: u8,
    program: &Program,
) -> Result<String, AllocError>
    requires { deep_count program.now ≤ 100 }
    ensures { IfOk result (λ text. string_bytes text
        ≡ message_tree line version (program_text 1 program.now)) }
{
    let tree = message_text(alloc, 1, program)?;
    format!(in alloc; "message {line} version {version}\n{tree}")
}

/// The line instead of a tree: the cause, and where reading stopped.
fn message_refused_line(
    alloc: Global,
    line: u64,
    bytes: &[u8],
    fault: MessageFault,
) -> Result<String, AllocError>
    ensures { IfOk result (λ text. string_bytes text ≡ message_refused_line line bytes.now fault) }
{
    let place = refusal_place(alloc, bytes, fault)?;
    format!(in alloc; "message {line} refused: {fault}{place}\n")
}

/// Where reading stopped, unless the message is too long or all of it was read.
fn refusal_place(alloc: Global, bytes: &[u8], fault: MessageFault) -> Result<String, AllocError>
    ensures { IfOk result (λ text. string_bytes text ≡ refusal_place bytes.now fault) }
{
    match fault {
        MessageFault::UnknownVersion | MessageFault::NotAMessage => {
            let stop = find_stop(alloc, bytes)?;
            stop_text(alloc, stop)
        }
        MessageFault::TooLong | MessageFault::NotConvertible | MessageFault::Memory => {
            Ok(String::new(alloc))
        }
    }
}

/// The position, and what was expected there.
fn stop_text(alloc: Global, stop: ReadingStop) -> Result<String, AllocError>
    ensures { IfOk result (λ text. string_bytes text ≡ stop_text stop) }
{
    let ReadingStop { at, expected } = stop;
    format!(in alloc; " at {at}, expected {expected}")
}

/// The line that ends an explanation at a line that is no hex; lines count from 1.
pub(crate) fn not_hex_line(alloc: Global, line: u64) -> Result<String, AllocError>
    ensures { IfOk result (λ text. string_bytes text ≡ not_hex_line line) }
{
    format!(in alloc; "line {line} refused\n")
}
