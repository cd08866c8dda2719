//! The words of a line.

ghost use Rattle.std.specs.Prelude.{◌≡◌, IfOk};
ghost use Rattle.std.specs.Option.{option_map};
ghost use Rattle.input_lines.specs.Step.{split_word, without_prefix, chain_word, account_word, message_word, split_values};

use crate::number::read_number;
use chain_ids::ChainId;
use hex::{FromHex, FromHexError};
use memchr::memchr;
use std::alloc::{AllocError, Global};

/// The bytes before the first space, and those after it.
pub(crate) fn split_word(words: &[u8]) -> Option<(&[u8], &[u8])>
    ensures { split_values result ≡ split_word words.now }
{
    match memchr(b' ', words) {
        Some(at) => Some((&words[..at], &words[at + 1..])),
        None => None,
    }
}

/// The digits after the `0x` that may come before.
fn without_prefix(text: &[u8]) -> &[u8]
    ensures { result.now ≡ without_prefix text.now }
{
    if text.starts_with(b"0x") {
        return &text[2..];
    }
    text
}

/// The chain that the text names: `relay`, or a number below 2^32 in decimal.
pub(crate) fn chain_word(text: &[u8]) -> Option<ChainId>
    ensures { result ≡ chain_word text.now }
{
    if text == b"relay".as_slice() {
        return Some(ChainId::Relay);
    }
    read_number(text).map(ChainId::Para)
}

/// The account of 64 hex digits.
pub(crate) fn account_word(text: &[u8]) -> Option<[u8; 32]>
    ensures { result ≡ account_word text.now }
{
    <[u8; 32] as FromHex>::from_hex(without_prefix(text)).ok()
}

/// The bytes of a message in hex: an even number of digits, either case, with `0x` before or without; `None` for other texts and for
/// no text. `Err` is out of memory alone.
pub fn message_word(alloc: Global, text: &[u8]) -> Result<Option<Vec<u8>>, AllocError>
    ensures { IfOk result (λ bytes. option_map (λ v. v.items) bytes ≡ message_word text.now) }
{
    if text.is_empty() {
        return Ok(None);
    }
    match hex::decode(alloc, without_prefix(text)) {
        Ok(bytes) => Ok(Some(bytes)),
        Err(FromHexError::OutOfMemory) => Err(AllocError),
        Err(_) => Ok(None),
    }
}
