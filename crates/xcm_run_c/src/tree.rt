//! The tree of a message.

ghost use Rattle.std.specs.Prelude.{◌≡◌, ◌≢◌, IfOk, string_bytes};
ghost use Rattle.xcm_run_c.specs.Buffers.{Tells, TellsFront};
ghost use Rattle.xcm_run_c.specs.Trees.{told_of_bytes};

use crate::NO_MEMORY;
use crate::buffer::tell;
use message_text::message_text;
use std::alloc::{AllocError, Global};
use versioned_xcm::{MessageFault, decode_message};

/// The tree of a message and 0, or why the bytes are no message and 4.
fn told(alloc: Global, message: &[u8]) -> Result<(u8, String), AllocError>
    ensures number { IfOk result (λ told. told.0 ≡ (told_of_bytes message.now).number) }
    ensures text { IfOk result (λ told.
        string_bytes told.1 ≡ (told_of_bytes message.now).text) }
{
    match decode_message(alloc, message) {
        Ok(program) => Ok((0, message_text(alloc, 0, &program)?)),
        Err(MessageFault::Memory) => Err(AllocError),
        Err(fault) => Ok((4, format!(in alloc; "{fault}\n")?)),
    }
}

/// Writes a message, as bytes of the XCM format of version 3 or 4, as an indented tree, and answers 0; or why the bytes are no
/// message, and answers 4. The text is at the front of `text`, as far as there is room, and `needed` says how many bytes it has. The
/// answer is 6 where the text doesn't fit, and 8 where memory was refused; then nothing is told.
#[unsafe(no_mangle)]
pub extern "C" fn xcm_message_text(
    alloc: Global,
    message: &[u8],
    text: &mut [u8],
    needed: &mut usize,
) -> u8
    ensures told { result ≢ 8 → Tells (told_of_bytes message.now).text
        (told_of_bytes message.now).number text.old text.new needed.new result }
    ensures front { TellsFront (told_of_bytes message.now).text text.old text.new needed.new }
{
    match told(alloc, message) {
        Ok((number, tree)) => tell(number, tree.as_bytes(), text, needed),
        Err(_) => tell(NO_MEMORY, &[], text, needed),
    }
}
