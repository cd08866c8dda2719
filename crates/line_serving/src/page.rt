//! Replies that are gathered before they are written.

ghost use Rattle.std.specs.Prelude.{◌≡◌, ◌≤◌, [], Some, Ok, OnOk};
ghost use Rattle.xcm_io.specs.Bytes.{AppendsWhole};
ghost use Rattle.xcm_io.specs.Causes.{HasCause, Rose};
ghost use Rattle.line_serving.specs.Gathering.{HandsOn, HandsOver};

use crate::status::Status;
use std::alloc::{AllocError, Global};
use xcm_io::{Failed, Sink, write_whole};

/// So many bytes are gathered before they are written.
const FULL: usize = 65_536;

/// Replies in memory that aren't written yet. As a sink it takes all that is handed to it, and fails where memory is refused.
#[derive(Drop)]
pub(crate) struct Page {
    pub(crate) bytes: Vec<u8>,
    faults: u64,
}

impl Page {
    /// An empty page.
    pub(crate) fn new(alloc: Global) -> Page
        ensures { result.bytes.items ≡ [] }
    {
        Page {
            bytes: Vec::new(alloc),
            faults: 0,
        }
    }

    /// Writes what is gathered. After `Failed` a proper prefix of it is written.
    pub(crate) fn hand_on<O: Sink>(&mut self, out: &mut O) -> Result<(), Failed>
        ensures bytes { AppendsWhole (O.written out.old) (O.written out.new) result
            self.old.bytes.items }
        ensures empty { OnOk result (self.new.bytes.items ≡ []) }
        ensures cause { HasCause (O.faults out.old) (O.faults out.new) result }
    {
        match write_whole(out, &self.bytes) {
            Ok(()) => {
                self.bytes.clear();
                Ok(())
            }
            Err(failed) => Err(failed),
        }
    }

    /// Writes what is gathered once there is enough.
    pub(crate) fn turn<O: Sink>(&mut self, out: &mut O) -> Result<(), Failed>
        ensures bytes { HandsOn self.old.bytes.items self.new.bytes.items (O.written out.old)
            (O.written out.new) result }
        ensures cause { HasCause (O.faults out.old) (O.faults out.new) result }
    {
        if self.bytes.len() < FULL {
            return Ok(());
        }
        self.hand_on(out)
    }

    /// Writes what is gathered, after which the run is over with this answer. Where the answer is that a write failed, it was the page that
    /// failed: memory was refused.
    pub(crate) fn ends<O: Sink>(
        &mut self,
        out: &mut O,
        answer: Status,
    ) -> Result<Option<Status>, AllocError>
        ensures run { HandsOver self.old.bytes.items answer (O.written out.old)
            (O.written out.new) result }
        ensures later { O.faults out.old ≤ O.faults out.new }
        ensures cause { result ≡ Ok (Some Status.WriteFault)
            → Rose (O.faults out.old) (O.faults out.new) }
    {
        match self.hand_on(out) {
            Ok(()) => match answer {
                Status::WriteFault => Err(AllocError),
                _ => Ok(Some(answer)),
            },
            Err(_) => match answer {
                Status::WriteFault => Err(AllocError),
                _ => Ok(Some(Status::WriteFault)),
            },
        }
    }
}

impl Sink for Page {
    ghost written = { λ p. Some p.bytes.items };

    ghost faults = { λ p. p.faults };

    fn write(&mut self, bytes: &[u8]) -> Result<usize, Failed> {
        match self.bytes.extend_from_slice(bytes) {
            Ok(()) => Ok(bytes.len()),
            Err(_) => {
                self.faults = self.faults.saturating_add(1);
                Err(Failed)
            }
        }
    }
}
