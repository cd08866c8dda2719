//! The whole lines of some bytes.

ghost use Rattle.std.specs.Prelude.{◌≡◌, ◌+◌, ◌^◌, ◌<◌, ◌≤◌, ℕ, List, [], ◌∷◌, length, drop, Bool, false, None, Ok};
ghost use Rattle.input_lines.specs.Lines.{HasNoFeed};
ghost use Rattle.line_serving.specs.Calls.{HasWriteCause};
ghost use Rattle.line_serving.specs.Feeding.{TakesLines};
ghost use Rattle.line_serving.specs.Gathering.{Hands};

use crate::machine::LineMachine;
use crate::page::Page;
use crate::status::Status;
use input_lines::line_len;
use std::alloc::{AllocError, Global};
use xcm_io::Sink;

/// Hands a line to the machine, whose reply is gathered.
fn gather_line<M: LineMachine, O: Sink>(
    alloc: Global,
    machine: &mut M,
    line: &[u8],
    page: &mut Page,
    out: &mut O,
) -> Result<Option<Status>, AllocError>
    requires ready { M.is_ready machine.old }
    requires some { 0 < length line.now }
    requires few { length line.now < 2 ^ 40 }
    ensures run { Hands (λ (x : Bool × List (List ℕ)). M.replies machine.old x.0 (line.now ∷ x.1))
        (λ x. M.replies machine.new x.0 x.1) (M.replies machine.old false (line.now ∷ [])).text
        page.old.bytes.items page.new.bytes.items (O.written out.old) (O.written out.new) result }
    ensures cause { HasWriteCause (O.faults out.old) (O.faults out.new) result }
    ensures taken { result ≡ Ok None
        → M.taken machine.new ≡ M.taken machine.old + length line.now }
    ensures room { result ≡ Ok None → (lines : List (List ℕ)) (begun : ℕ)
        → M.rooms machine.new lines begun → M.rooms machine.old (line.now ∷ lines) begun }
    ensures ready { result ≡ Ok None → M.is_ready machine.new }
{
    match machine.take_line(alloc, line, page) {
        Ok(None) => match page.turn(out) {
            Ok(()) => Ok(None),
            Err(_) => Ok(Some(Status::WriteFault)),
        },
        Ok(Some(status)) => page.ends(out, status),
        Err(refused) => {
            // The answer is out of memory whether or not what is gathered can be written.
            let _ = page.hand_on(out);
            Err(refused)
        }
    }
}

/// Hands a line to the machine, whose reply is gathered unless it is too long.
fn hand_line<M: LineMachine, O: Sink>(
    alloc: Global,
    machine: &mut M,
    line: &[u8],
    page: &mut Page,
    out: &mut O,
) -> Result<Option<Status>, AllocError>
    requires ready { M.is_ready machine.old }
    requires some { 0 < length line.now }
    requires few { length line.now < 2 ^ 40 }
    ensures run { Hands (λ (x : Bool × List (List ℕ)). M.replies machine.old x.0 (line.now ∷ x.1))
        (λ x. M.replies machine.new x.0 x.1) (M.replies machine.old false (line.now ∷ [])).text
        page.old.bytes.items page.new.bytes.items (O.written out.old) (O.written out.new) result }
    ensures cause { HasWriteCause (O.faults out.old) (O.faults out.new) result }
    ensures taken { result ≡ Ok None
        → M.taken machine.new ≡ M.taken machine.old + length line.now }
    ensures room { result ≡ Ok None → (lines : List (List ℕ)) (begun : ℕ)
        → M.rooms machine.new lines begun → M.rooms machine.old (line.now ∷ lines) begun }
    ensures ready { result ≡ Ok None → M.is_ready machine.new }
{
    if !machine.is_long(line) {
        return gather_line(alloc, machine, line, page, out);
    }
    match page.hand_on(out) {
        Ok(()) => machine.take_line(alloc, line, out),
        Err(_) => Ok(Some(Status::WriteFault)),
    }
}

/// Hands each whole line of the bytes to the machine, and tells how many bytes these are.
pub(crate) fn take_lines<M: LineMachine, O: Sink>(
    alloc: Global,
    machine: &mut M,
    bytes: &[u8],
    used: &mut usize,
    out: &mut O,
) -> Result<Option<Status>, AllocError>
    requires ready { M.is_ready machine.old }
    requires few { length bytes.now < 2 ^ 40 }
    ensures run { TakesLines M.replies M.rooms machine.old machine.new bytes.now
        (drop used.new bytes.now) (O.written out.old) (O.written out.new) result }
    ensures cause { HasWriteCause (O.faults out.old) (O.faults out.new) result }
    ensures used { used.new ≤ length bytes.now }
    ensures rest { result ≡ Ok None → HasNoFeed (drop used.new bytes.now) }
    ensures taken { result ≡ Ok None → M.taken machine.new ≡ M.taken machine.old + used.new }
    ensures ready { result ≡ Ok None → M.is_ready machine.new }
{
    let mut page = Page::new(alloc);
    let mut at = 0;
    while let Some(len) = line_len(&bytes[at..]) {
        match hand_line(alloc, machine, &bytes[at..at + len], &mut page, out) {
            Ok(None) => at += len,
            Ok(Some(status)) => {
                *used = at;
                return Ok(Some(status));
            }
            Err(refused) => {
                *used = at;
                return Err(refused);
            }
        }
    }
    *used = at;
    match page.hand_on(out) {
        Ok(()) => Ok(None),
        Err(_) => Ok(Some(Status::WriteFault)),
    }
}
