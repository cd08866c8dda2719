//! The run over the pieces of an input.

ghost use Rattle.std.specs.Prelude.{◌≡◌, ◌≢◌, [], Ok};
ghost use Rattle.std.specs.Io.KnownBytes.{IsAtEnd};
ghost use Rattle.xcm_io.specs.Causes.{Rose};
ghost use Rattle.xcm_compose.specs.Runs.{Composes};

use crate::composer::Composer;
use crate::lines::{finish, is_over, take_piece};
use line_serving::Status;
use std::alloc::{AllocError, Global};
use xcm_io::{Sink, Source};

/// The most bytes that are read at once.
const PIECE: usize = 65_536;

/// No bytes.
fn no_bytes(alloc: Global) -> Vec<u8>
    ensures { result.items ≡ [] }
{
    Vec::new(alloc)
}

/// Reads the source by pieces and answers each tree of it before more is read. `Err` is out of memory alone.
pub(crate) fn run<I: Source, O: Sink>(
    alloc: Global,
    input: &mut I,
    out: &mut O,
) -> Result<Status, AllocError>
    ensures run { Composes (I.left input.old) (O.written out.old) (O.written out.new) result }
    ensures end { result ≡ Ok Status.Done → IsAtEnd (I.left input.new) }
    ensures read { result ≡ Ok Status.ReadFault → Rose (I.faults input.old) (I.faults input.new) }
    ensures write { result ≡ Ok Status.WriteFault → Rose (O.faults out.old) (O.faults out.new) }
    ensures usage { result ≢ Ok Status.Usage }
{
    let mut composer = Composer::new(alloc);
    let mut pending = no_bytes(alloc);
    let mut piece = [0u8; PIECE];
    'pieces: while !is_over(&composer, &pending) {
        match input.read(&mut piece) {
            Err(_) => return Ok(Status::ReadFault),
            Ok(count) => {
                if count == 0 {
                    return finish(alloc, &mut composer, &pending, out);
                }
                match take_piece(alloc, &mut composer, &mut pending, &piece[..count], out) {
                    Ok(None) => {}
                    Ok(Some(status)) => return Ok(status),
                    Err(refused) => return Err(refused),
                }
            }
        }
    }
    Ok(Status::TooLong)
}
