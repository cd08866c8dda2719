//! From bytes to programs.

ghost use Rattle.std.specs.Prelude.{◌≡◌, ◌⊎◌, Err, MatchResult};
ghost use Rattle.operands.specs.declared.version.Version.{Version};
ghost use Rattle.versioned_xcm.specs.Reading.{program_in, message_of};
ghost use Rattle.versioned_xcm.specs.Message.{IsDecoded, IsCause};

use crate::faults::MessageFault;
use crate::{WireFault, read_program};
use scale_codec::Cursor;
use std::alloc::Global;
use xcm_format::Version;
use xcm_program::{Program, is_convertible};

/// The most bytes of a message.
pub const MAX_BYTES: usize = 65_536;

/// The program of a message (SCALE codec, XCM format). A refusal names the first cause that holds; out of memory may come
/// before any of them.
pub fn decode_message(alloc: Global, bytes: &[u8]) -> Result<Program, MessageFault>
    ensures read { (result ≡ Err MessageFault.Memory) ⊎ (result ≡ message_of bytes.now) }
    ensures message { MatchResult result (IsDecoded bytes.now) (IsCause bytes.now) }
{
    read_message(alloc, bytes)
}

#[tactic(auto, unfolding(crate::specs::Reading::message_of))]
fn read_message(alloc: Global, bytes: &[u8]) -> Result<Program, MessageFault>
    ensures { (result ≡ Err MessageFault.Memory) ⊎ (result ≡ message_of bytes.now) }
{
    if bytes.len() > MAX_BYTES {
        return Err(MessageFault::TooLong);
    }
    if bytes.is_empty() {
        return Err(MessageFault::NotAMessage);
    }
    match bytes[0] {
        3 => program_of(alloc, &bytes[1..], Version::V3),
        4 => program_of(alloc, &bytes[1..], Version::V4),
        _ => Err(MessageFault::UnknownVersion),
    }
}

/// The program that the bytes spell, all of them.
fn program_of(alloc: Global, bytes: &[u8], v: Version) -> Result<Program, MessageFault>
    ensures { (result ≡ Err MessageFault.Memory) ⊎ (result ≡ program_in v bytes.now) }
{
    let mut c = Cursor::new(bytes);
    match read_program(alloc, &mut c, v) {
        Ok(program) => {
            if !c.rest().is_empty() {
                return Err(MessageFault::NotAMessage);
            }
            if !is_convertible(&program) {
                return Err(MessageFault::NotConvertible);
            }
            Ok(program)
        }
        Err(WireFault::NoSpelling) => Err(MessageFault::NotAMessage),
        Err(WireFault::Memory) => Err(MessageFault::Memory),
    }
}
