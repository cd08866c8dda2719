//! The whole lines of some bytes.

ghost use Rattle.std.specs.Prelude.{◌≡◌, ◌≢◌, ◌+◌, ◌^◌, ◌<◌, ◌≤◌, ◌++◌, ◌∷◌, List, ℕ, length, drop, false, None, Ok, IfOk, IsTrue};
ghost use Rattle.xcm_io.specs.Causes.{Rose};
ghost use Rattle.input_lines.specs.Lines.{lines_of, HasNoFeed};
ghost use Rattle.line_serving.specs.Replies.{fits_limits, max_input};
ghost use Rattle.line_serving.specs.Calls.{HasWriteCause};
ghost use Rattle.xcm_compose.specs.Replies.{IsReplyOf, IsInBounds};
ghost use Rattle.xcm_compose.specs.Runs.{Proceeds, Concludes};

use crate::composer::Composer;
use input_lines::line_len;
use line_serving::{Status, passes_limits};
use std::alloc::{AllocError, Global};
use xcm_io::Sink;

/// Hands each whole line of the bytes to the composer, and tells how many bytes these are.
pub(crate) fn take_lines<O: Sink>(
    alloc: Global,
    composer: &mut Composer,
    bytes: &[u8],
    used: &mut usize,
    out: &mut O,
) -> Result<Option<Status>, AllocError>
    requires ready { IsInBounds composer.old }
    requires few { length bytes.now < 2 ^ 40 }
    ensures run { Proceeds
        (λ (more : List ℕ). IsReplyOf composer.old (lines_of (bytes.now ++ more)))
        (λ more. IsReplyOf composer.new (lines_of (drop used.new bytes.now ++ more)))
        (O.written out.old) (O.written out.new) result }
    ensures cause { HasWriteCause (O.faults out.old) (O.faults out.new) result }
    ensures used { used.new ≤ length bytes.now }
    ensures rest { result ≡ Ok None → HasNoFeed (drop used.new bytes.now) }
    ensures taken { result ≡ Ok None → composer.new.taken ≡ composer.old.taken + used.new }
    ensures ready { result ≡ Ok None → IsInBounds composer.new }
{
    let mut at = 0;
    while let Some(len) = line_len(&bytes[at..]) {
        match composer.take_line(alloc, &bytes[at..at + len], out) {
            Ok(None) => at += len,
            Ok(Some(status)) => {
                *used = at;
                return Ok(Some(status));
            }
            Err(refused) => {
                *used = at;
                return Err(refused);
            }
        }
    }
    *used = at;
    Ok(None)
}

/// What is left after the first bytes, so many.
fn rest_of(alloc: Global, bytes: &Vec<u8>, used: usize) -> Result<Vec<u8>, AllocError>
    requires { used ≤ length bytes.now.items }
    ensures { IfOk result (λ rest. rest.items ≡ drop used bytes.now.items) }
{
    Vec::from_slice(alloc, &bytes[used..])
}

/// Whether the line that begins with what is pending passes a limit, whatever comes.
pub(crate) fn is_over(composer: &Composer, pending: &Vec<u8>) -> bool
    requires ready { IsInBounds composer.now }
    requires open { HasNoFeed pending.now.items }
    requires few { length pending.now.items < 2 ^ 40 }
    ensures over { IsTrue result → (more : List ℕ) → (tail : List ℕ) × (lines : List (List ℕ))
        × (lines_of (pending.now.items ++ more) ≡ (pending.now.items ++ tail) ∷ lines)
        × (fits_limits composer.now.taken (pending.now.items ++ tail) ≡ false) }
    ensures total { result ≡ false
        → composer.now.taken + length pending.now.items ≤ max_input }
{
    passes_limits(composer.taken, pending.as_slice())
}

/// Hands on each line of what is pending that is whole, and leaves what is pending after them.
fn take_pending<O: Sink>(
    alloc: Global,
    composer: &mut Composer,
    pending: &mut Vec<u8>,
    out: &mut O,
) -> Result<Option<Status>, AllocError>
    requires ready { IsInBounds composer.old }
    requires few { length pending.old.items < 2 ^ 40 }
    ensures run { Proceeds
        (λ (more : List ℕ). IsReplyOf composer.old (lines_of (pending.old.items ++ more)))
        (λ more. IsReplyOf composer.new (lines_of (pending.new.items ++ more)))
        (O.written out.old) (O.written out.new) result }
    ensures cause { HasWriteCause (O.faults out.old) (O.faults out.new) result }
    ensures rest { result ≡ Ok None → HasNoFeed pending.new.items }
    ensures size { result ≡ Ok None
        → composer.new.taken + length pending.new.items
        ≡ composer.old.taken + length pending.old.items }
    ensures ready { result ≡ Ok None → IsInBounds composer.new }
{
    let mut used = 0;
    match take_lines(alloc, composer, pending.as_slice(), &mut used, out) {
        Ok(None) => match rest_of(alloc, pending, used) {
            Ok(rest) => {
                *pending = rest;
                Ok(None)
            }
            Err(refused) => Err(refused),
        },
        Ok(Some(status)) => Ok(Some(status)),
        Err(refused) => Err(refused),
    }
}

/// Takes the next bytes after those of a line that isn't whole, hands on each line that is, and leaves what is pending after them.
pub(crate) fn take_piece<O: Sink>(
    alloc: Global,
    composer: &mut Composer,
    pending: &mut Vec<u8>,
    piece: &[u8],
    out: &mut O,
) -> Result<Option<Status>, AllocError>
    requires ready { IsInBounds composer.old }
    requires short { length pending.old.items ≤ max_input }
    requires few { length piece.now ≤ 65536 }
    ensures run { Proceeds (λ (more : List ℕ). IsReplyOf composer.old
        (lines_of ((pending.old.items ++ piece.now) ++ more)))
        (λ more. IsReplyOf composer.new (lines_of (pending.new.items ++ more)))
        (O.written out.old) (O.written out.new) result }
    ensures cause { HasWriteCause (O.faults out.old) (O.faults out.new) result }
    ensures rest { result ≡ Ok None → HasNoFeed pending.new.items }
    ensures size { result ≡ Ok None
        → composer.new.taken + length pending.new.items
        ≡ composer.old.taken + length pending.old.items + length piece.now }
    ensures ready { result ≡ Ok None → IsInBounds composer.new }
{
    match pending.extend_from_slice(piece) {
        Ok(()) => take_pending(alloc, composer, pending, out),
        Err(refused) => Err(refused),
    }
}

/// Ends the run where the input ends: what is pending is a line too.
pub(crate) fn finish<O: Sink>(
    alloc: Global,
    composer: &mut Composer,
    pending: &Vec<u8>,
    out: &mut O,
) -> Result<Status, AllocError>
    requires ready { IsInBounds composer.old }
    requires open { HasNoFeed pending.now.items }
    requires few { length pending.now.items < 2 ^ 40 }
    ensures run { Concludes (IsReplyOf composer.old (lines_of pending.now.items))
        (O.written out.old) (O.written out.new) result }
    ensures cause { result ≡ Ok Status.WriteFault → Rose (O.faults out.old) (O.faults out.new) }
    ensures read { result ≢ Ok Status.ReadFault }
    ensures usage { result ≢ Ok Status.Usage }
{
    if pending.is_empty() {
        return composer.finish(alloc, out);
    }
    match composer.take_line(alloc, pending.as_slice(), out) {
        Ok(None) => composer.finish(alloc, out),
        Ok(Some(status)) => Ok(status),
        Err(refused) => Err(refused),
    }
}
