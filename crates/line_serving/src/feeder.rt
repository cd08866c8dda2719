//! A machine over pieces of its input.

ghost use Rattle.std.specs.Prelude.{◌≡◌, ◌≢◌, ◌+◌, ◌≤◌, ℕ, List, [], ◌++◌, length, Bool, None, Ok, false, IsTrue};
ghost use Rattle.xcm_io.specs.Causes.{Rose};
ghost use Rattle.input_lines.specs.Lines.{lines_of, HasNoFeed};
ghost use Rattle.line_serving.specs.Replies.{ends, max_input};
ghost use Rattle.line_serving.specs.Calls.{HasWriteCause};
ghost use Rattle.line_serving.specs.Feeding.{TakesLines, EndsRun, IsFed};

use crate::lines::take_lines;
use crate::machine::LineMachine;
use crate::status::Status;
use std::alloc::{AllocError, Global};
use xcm_io::Sink;

/// A machine, and what has come of a line that is not whole.
#[derive(Drop)]
pub(crate) struct Feeder<M> {
    pub(crate) machine: M,
    pub(crate) pending: Vec<u8>,
}

impl<M: LineMachine> Feeder<M> {
    /// A machine at the start of its input.
    pub(crate) fn new(alloc: Global, machine: M) -> Feeder<M>
        requires { M.is_ready machine }
        ensures machine { result.machine ≡ machine }
        ensures none { result.pending.items ≡ [] }
        ensures fed { IsFed M.is_ready result }
    {
        Feeder {
            machine,
            pending: Vec::new(alloc),
        }
    }

    /// Takes the next bytes, and hands on each line that is whole.
    pub(crate) fn take_piece<O: Sink>(
        &mut self,
        alloc: Global,
        piece: &[u8],
        out: &mut O,
    ) -> Result<Option<Status>, AllocError>
        requires fed { IsFed M.is_ready self.old }
        requires few { length piece.now ≤ 65536 }
        ensures run { TakesLines M.replies M.rooms self.old.machine self.new.machine
            (self.old.pending.items ++ piece.now) self.new.pending.items (O.written out.old)
            (O.written out.new) result }
        ensures cause { HasWriteCause (O.faults out.old) (O.faults out.new) result }
        ensures ready { result ≡ Ok None → M.is_ready self.new.machine }
        ensures open { result ≡ Ok None → HasNoFeed self.new.pending.items }
        ensures size { result ≡ Ok None
            → M.taken self.new.machine + length self.new.pending.items
            ≡ M.taken self.old.machine + length self.old.pending.items + length piece.now }
    {
        self.pending.extend_from_slice(piece)?;
        let mut used = 0;
        match take_lines(alloc, &mut self.machine, &self.pending, &mut used, out) {
            Ok(None) => {
                // For speed: a long line that goes on is not copied.
                if used == 0 {
                    return Ok(None);
                }
                match Vec::from_slice(alloc, &self.pending[used..]) {
                    Ok(rest) => {
                        self.pending = rest;
                        Ok(None)
                    }
                    Err(refused) => Err(refused),
                }
            }
            Ok(Some(status)) => Ok(Some(status)),
            Err(refused) => Err(refused),
        }
    }

    /// Whether the line that is pending passes a limit, whatever comes.
    pub(crate) fn is_over(&self) -> bool
        requires ready { M.is_ready self.now.machine }
        requires open { HasNoFeed self.now.pending.items }
        requires few { length self.now.pending.items ≤ max_input + 65536 }
        ensures over { IsTrue result → (at_end : Bool) (more : List ℕ)
            → M.replies self.now.machine at_end (lines_of (self.now.pending.items ++ more))
            ≡ ends [] Status.TooLong }
        ensures short { result ≡ false
            → M.taken self.now.machine + length self.now.pending.items ≤ max_input }
        ensures room { result ≡ false
            → M.rooms self.now.machine [] (length self.now.pending.items) }
    {
        self.machine.is_over(&self.pending)
    }

    /// Ends the run where the input ends: what is pending is a line too.
    pub(crate) fn finish<O: Sink>(
        &mut self,
        alloc: Global,
        out: &mut O,
    ) -> Result<Status, AllocError>
        requires fed { IsFed M.is_ready self.old }
        ensures run { EndsRun (M.replies self.old.machine) self.old.pending.items
            (O.written out.old) (O.written out.new) result }
        ensures later { O.faults out.old ≤ O.faults out.new }
        ensures cause { result ≡ Ok Status.WriteFault → Rose (O.faults out.old) (O.faults out.new) }
        ensures usage { result ≢ Ok Status.Usage }
    {
        if self.pending.is_empty() {
            return self.machine.finish(alloc, out);
        }
        match self.machine.take_line(alloc, &self.pending, out) {
            Ok(None) => self.machine.finish(alloc, out),
            Ok(Some(status)) => Ok(status),
            Err(refused) => Err(refused),
        }
    }
}
