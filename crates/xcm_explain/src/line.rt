//! What a line asks for.

ghost use Rattle.std.specs.Prelude.{◌≡◌, IfOk};
ghost use Rattle.xcm_explain.specs.Lines.{hex_line};

use input_lines::message_word;
use plain_lists::Listed;
use std::alloc::{AllocError, Global};

/// What a line asks for.
#[derive(Debug, Drop)]
pub(crate) enum HexLine {
    /// Nothing: an empty line or a comment.
    Blank,
    /// What the message of these bytes says. Contracts see them as their list.
    Bytes(Listed<u8>),
    /// No bytes in hex.
    NotHex,
}

/// Reads what a line asks for, of the text without its line feed and the carriage return before it. `Err` is out of memory alone.
#[tactic(auto, unfolding(crate::specs::Lines::hex_line))]
pub(crate) fn read_hex_line(alloc: Global, text: &[u8]) -> Result<HexLine, AllocError>
    ensures { IfOk result (λ line. line ≡ hex_line text.now) }
{
    if text.is_empty() || text[0] == b'#' {
        return Ok(HexLine::Blank);
    }
    match message_word(alloc, text)? {
        Some(bytes) => Ok(HexLine::Bytes(Listed::from_vec(bytes))),
        None => Ok(HexLine::NotHex),
    }
}
