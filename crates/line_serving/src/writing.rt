//! Texts that are written with an answer.

ghost use Rattle.std.specs.Prelude.{◌≡◌, ◌≢◌, ◌⊎◌, ◌≤◌, Some, Ok};
ghost use Rattle.std.specs.declared.alloc.AllocError.{AllocError};
ghost use Rattle.xcm_io.specs.Causes.{Rose};
ghost use Rattle.line_serving.specs.Replies.{ends};
ghost use Rattle.line_serving.specs.Calls.{Writes, Finishes};

use crate::status::Status;
use xcm_io::{Sink, write_whole};

/// Writes a text. The answer is the one handed in, or a write fault.
pub fn write_text<O: Sink>(out: &mut O, text: &str, answer: Option<Status>) -> Option<Status>
    ensures text { Writes text.now answer (O.written out.old) (O.written out.new) result }
    ensures later { O.faults out.old ≤ O.faults out.new }
    ensures cause { (result ≡ answer)
        ⊎ ((result ≡ Some Status.WriteFault) × Rose (O.faults out.old) (O.faults out.new)) }
{
    match write_whole(out, text.as_bytes()) {
        Ok(()) => answer,
        Err(_) => Some(Status::WriteFault),
    }
}

/// Writes a text, after which the run is over with this answer. The answer is the one handed in, or a write fault.
pub fn write_reply<O: Sink>(out: &mut O, text: &str, answer: Status) -> Status
    requires read { answer ≢ Status.ReadFault }
    requires write { answer ≢ Status.WriteFault }
    requires long { answer ≢ Status.TooLong }
    ensures run { Finishes {E = AllocError} (ends text.now answer) (O.written out.old)
        (O.written out.new) (Ok result) }
    ensures answer { (result ≡ answer) ⊎ (result ≡ Status.WriteFault) }
    ensures cause { result ≡ Status.WriteFault → Rose (O.faults out.old) (O.faults out.new) }
{
    match write_whole(out, text.as_bytes()) {
        Ok(()) => answer,
        Err(_) => Status::WriteFault,
    }
}
