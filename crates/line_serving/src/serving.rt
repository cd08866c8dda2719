//! The run over a source and a sink.

ghost use Rattle.std.specs.Prelude.{◌≡◌, ◌≢◌, Ok};
ghost use Rattle.std.specs.Io.KnownBytes.{IsAtEnd};
ghost use Rattle.xcm_io.specs.Causes.{Rose};
ghost use Rattle.line_serving.specs.Serving.{Serves};

use crate::feeder::Feeder;
use crate::limits::PIECE;
use crate::machine::LineMachine;
use crate::status::Status;
use std::alloc::{AllocError, Global};
use xcm_io::{Sink, Source};

/// Reads the source by pieces and hands its lines to the machine, which replies to each before more is read. `Err` is out of memory alone.
pub fn serve<M: LineMachine + Drop, I: Source, O: Sink>(
    alloc: Global,
    machine: M,
    input: &mut I,
    out: &mut O,
) -> Result<Status, AllocError>
    requires { M.is_ready machine }
    // What is written is a prefix of the report of what was taken, and which: whatever happens.
    ensures run { Serves (M.replies machine) (M.rooms machine) (I.left input.old) (I.left input.new)
        (O.written out.old) (O.written out.new) result }

    // Done leaves the source at its end; a fault is answered only where the source, the sink failed in this call.
    ensures end { result ≡ Ok Status.Done → IsAtEnd (I.left input.new) }
    ensures read { result ≡ Ok Status.ReadFault → Rose (I.faults input.old) (I.faults input.new) }
    ensures write { result ≡ Ok Status.WriteFault → Rose (O.faults out.old) (O.faults out.new) }
    ensures usage { result ≢ Ok Status.Usage }
{
    let mut feeder = Feeder::new(alloc, machine);
    let mut piece = [0u8; PIECE];
    'pieces: while !feeder.is_over() {
        match input.read(&mut piece) {
            Err(_) => return Ok(Status::ReadFault),
            Ok(count) => {
                if count == 0 {
                    return feeder.finish(alloc, out);
                }
                match feeder.take_piece(alloc, &piece[..count], out) {
                    Ok(None) => {}
                    Ok(Some(status)) => return Ok(status),
                    Err(refused) => return Err(refused),
                }
            }
        }
    }
    Ok(Status::TooLong)
}
