//! Bytes, and how calls ended.

ghost use Rattle.std.specs.Prelude.{◌≡◌, ◌∷◌, ◌++◌, List, ℕ, IfOk, OnOk, MatchOption, length, ⊤};
ghost use Rattle.hex.specs.Hex.{encode_lower};
ghost use Rattle.location_wire.specs.Texts.{hex_text};
ghost use Rattle.xcm_format.specs.Parts.{bytes, maybe_error, FitsMaybeError};
ghost use Rattle.message_text.specs.Words.{status_text};
ghost use Rattle.tree_reading.specs.Puts.{AreBytes, FitsCallError, PutsWords};

use crate::splits::after;
use hex::FromHexError;
use scale_codec::Out;
use std::alloc::{AllocError, Global};

/// The bytes of hex.
fn decoded(alloc: Global, digits: &str) -> Result<Option<Vec<u8>>, AllocError>
    ensures { IfOk result (λ o. (b : List ℕ) → AreBytes b → digits.now ≡ encode_lower b
        → MatchOption o ⊥ (λ x. x.items ≡ b)) }
{
    match hex::decode(alloc, digits) {
        Ok(bytes) => Ok(Some(bytes)),
        Err(fault) => match fault {
            FromHexError::OutOfMemory => Err(AllocError),
            _ => Ok(None),
        },
    }
}

/// The bytes of hex after `0x`.
pub(crate) fn bytes_of(alloc: Global, text: &str) -> Result<Option<Vec<u8>>, AllocError>
    ensures { IfOk result (λ o. (b : List ℕ) → AreBytes b → text.now ≡ hex_text b
        → MatchOption o ⊥ (λ x. x.items ≡ b)) }
{
    match after(text, "0x") {
        Some(digits) => decoded(alloc, digits),
        None => Ok(None),
    }
}

/// Appends bytes after their number.
fn put_counted(out: &mut Out, items: &[u8]) -> Result<(), AllocError>
    ensures { OnOk result (out.new ≡ out.old ++ bytes items.now) }
{
    out.put_compact(items.len() as u128)?;
    out.put_bytes(items)
}

/// Appends the bytes that hex is of, after their number.
pub(crate) fn put_hex(alloc: Global, out: &mut Out, text: &str) -> Result<bool, AllocError>
    ensures { PutsWords (λ _. ⊤) hex_text bytes text.now result out.old out.new }
{
    let Some(bytes) = bytes_of(alloc, text)? else {
        return Ok(false);
    };
    put_counted(out, bytes.as_slice())?;
    Ok(true)
}

/// Appends bytes without their number, of which there are 32.
pub(crate) fn put_topic(alloc: Global, out: &mut Out, text: &str) -> Result<bool, AllocError>
    ensures { PutsWords (λ (b : List ℕ). length b ≡ 32) hex_text (λ b. b) text.now result out.old
        out.new }
{
    let Some(bytes) = bytes_of(alloc, text)? else {
        return Ok(false);
    };
    if bytes.len() != 32 {
        return Ok(false);
    }
    out.put_bytes(bytes.as_slice())?;
    Ok(true)
}

/// Appends the error of a call after its index.
fn put_call_error(alloc: Global, out: &mut Out, index: u8, digits: &str) -> Result<bool, AllocError>
    ensures { PutsWords (λ _. ⊤) hex_text (λ b. index ∷ bytes b) digits.now result out.old out.new }
{
    out.put_u8(index)?;
    put_hex(alloc, out, digits)
}

/// Appends how a call failed.
fn put_failed(alloc: Global, out: &mut Out, text: &str) -> Result<bool, AllocError>
    ensures { PutsWords FitsCallError status_text maybe_error text.now result out.old out.new }
{
    if let Some(digits) = after(text, "Error ") {
        return put_call_error(alloc, out, 1, digits);
    }
    match after(text, "TruncatedError ") {
        Some(digits) => put_call_error(alloc, out, 2, digits),
        None => Ok(false),
    }
}

/// Appends how a call ended.
pub(crate) fn put_status(alloc: Global, out: &mut Out, text: &str) -> Result<bool, AllocError>
    ensures { PutsWords FitsMaybeError status_text maybe_error text.now result out.old out.new }
{
    match text {
        "Success" => {
            out.put_u8(0)?;
            Ok(true)
        }
        _ => put_failed(alloc, out, text),
    }
}
