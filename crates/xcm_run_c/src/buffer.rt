//! A caller's buffer.

ghost use Rattle.std.specs.Prelude.{◌≡◌, ◌≢◌, length};
ghost use Rattle.xcm_run_c.specs.Buffers.{filled, call_status};

use crate::{NO_MEMORY, NO_ROOM};

/// Puts a text at the front of the buffer, as far as there is room. What is after it stays.
fn fill(buffer: &mut [u8], text: &[u8])
    ensures { buffer.new ≡ filled text.now buffer.old }
{
    let count = buffer.len().min(text.len());
    buffer[..count].copy_from_slice(&text[..count]);
}

/// Tells a text and a number, and answers the number; with out of memory the text is a prefix of what there was to tell.
pub(crate) fn tell(number: u8, text: &[u8], buffer: &mut [u8], needed: &mut usize) -> u8
    ensures buffer { buffer.new ≡ filled text.now buffer.old }
    ensures count { needed.new ≡ length text.now }
    ensures memory { number ≡ 8 → result ≡ 8 }
    ensures answered { number ≢ 8 → result ≡ call_status buffer.old text.now number }
{
    fill(buffer, text);
    *needed = text.len();
    if number != NO_MEMORY && text.len() > buffer.len() {
        return NO_ROOM;
    }
    number
}
