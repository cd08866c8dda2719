//! What takes the lines.

ghost use Rattle.std.specs.Prelude.{◌≡◌};

use crate::block::{message_block, not_hex_line};
use crate::line::{HexLine, read_hex_line};
use input_lines::text_of;
use line_serving::{LineMachine, Status, fits_limits, passes_limits, write_text};
use std::alloc::{AllocError, Global};
use xcm_io::Sink;

/// What says of each line what its message says: so many lines have come, of so many bytes.
#[derive(Debug, Drop)]
pub(crate) struct Explainer {
    lines: u64,
    taken: u64,
}

impl Explainer {
    /// An explainer to which no line has come.
    pub(crate) fn new() -> Explainer
        ensures lines { result.lines ≡ 0 }
        ensures taken { result.taken ≡ 0 }
    {
        Explainer { lines: 0, taken: 0 }
    }
}

impl LineMachine for Explainer {
    ghost use Rattle.xcm_explain.specs.Explanations.{explainer_replies, line_room, IsCounted};
    ghost use Rattle.xcm_explain.specs.Laws.{nothing_explained, room_to_begin};

    ghost replies = { explainer_replies };

    ghost rooms = { λ it. line_room it.taken };

    ghost taken = { λ it. it.taken };

    ghost is_ready = { IsCounted };

    ghost nothing_yet = { nothing_explained };

    ghost room_to_begin = { room_to_begin };

    fn take_line<O: Sink>(
        &mut self,
        alloc: Global,
        line: &[u8],
        out: &mut O,
    ) -> Result<Option<Status>, AllocError> {
        if !fits_limits(self.taken, line) {
            return Ok(Some(Status::TooLong));
        }
        self.lines += 1;
        self.taken += line.len() as u64;
        match read_hex_line(alloc, text_of(line)) {
            Ok(HexLine::Blank) => Ok(None),
            Ok(HexLine::Bytes(bytes)) => {
                let text = message_block(alloc, self.lines, bytes.items())?;
                Ok(write_text(out, &text, None))
            }
            Ok(HexLine::NotHex) => {
                let text = not_hex_line(alloc, self.lines)?;
                Ok(write_text(out, &text, Some(Status::LineRefused)))
            }
            Err(refused) => Err(refused),
        }
    }

    fn is_over(&self, pending: &[u8]) -> bool {
        passes_limits(self.taken, pending)
    }

    fn finish<O: Sink>(&self, _alloc: Global, _out: &mut O) -> Result<Status, AllocError> {
        Ok(Status::Done)
    }

    fn is_long(&self, _line: &[u8]) -> bool {
        false
    }
}
