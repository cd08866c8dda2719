//! A run, a line at a time.

ghost use Rattle.std.specs.Prelude.{◌≡◌, ◌+◌, ◌<◌, ◌≤◌, ◌^◌, ℕ, List, [], ◌∷◌, length, Bool, false, None, Ok};
ghost use Rattle.xcm_io.specs.Causes.{Rose};
ghost use Rattle.chain_net.specs.Nets.{world_of, spec_of, is_stopped};
ghost use Rattle.line_serving.specs.Replies.{max_input};
ghost use Rattle.line_serving.specs.Calls.{Advances, HasWriteCause};
ghost use Rattle.xcm_cli.specs.Report.{lines_reply, steps_reply};
ghost use Rattle.xcm_cli.specs.Session.{IsReadySession, Opens, reply_at, runs_steps};

use crate::limits::MAX_NETWORK;
use crate::long_blocks::{long_block, write_block};
use crate::phase::{Opened, Phase, Session};
use input_lines::{ends_network, read_line, text_of};
use line_serving::{LineMachine, Status, fits_limits, passes_limits, write_text};
use report_blocks::{AuditedNet, LineOutcome, open_audited, opening_text, serve};
use std::alloc::{AllocError, Global};
use step_text::{line_refused_line, network_refused_line};
use xcm_io::Sink;

/// What the line that ends the network part may begin with, before its line feed.
const MARK: &[u8] = b"---\r";

impl Session {
    /// A run at the start of its input.
    pub(crate) fn new(alloc: Global, audit: bool) -> Session
        ensures start { (at_end : Bool) (lines : List (List ℕ))
            → reply_at result at_end lines ≡ lines_reply audit at_end lines }
        ensures ready { IsReadySession result }
        ensures taken { result.taken ≡ 0 }
        ensures phase { runs_steps result.phase ≡ false }
    {
        Session {
            audit,
            phase: Phase::Network(Vec::new(alloc)),
            lines: 0,
            taken: 0,
        }
    }
}

impl LineMachine for Session {
    ghost use Rattle.xcm_cli.specs.Session.{reply_at, session_rooms, IsReadySession};
    ghost use Rattle.xcm_cli.specs.Laws.{nothing_yet, room_at_first};

    ghost replies = { reply_at };

    ghost rooms = { session_rooms };

    ghost taken = { λ s. s.taken };

    ghost is_ready = { IsReadySession };

    ghost nothing_yet = { nothing_yet };

    ghost room_to_begin = { room_at_first };

    fn take_line<O: Sink>(
        &mut self,
        alloc: Global,
        line: &[u8],
        out: &mut O,
    ) -> Result<Option<Status>, AllocError> {
        let before = self.lines;
        let taken = self.taken;
        self.lines += 1;
        self.taken += line.len() as u64;
        match &mut self.phase {
            Phase::Steps { net, done } => {
                take_step(alloc, self.audit, net, done, before, taken, line, out)
            }
            Phase::Network(part) => {
                if ends_network(line) {
                    return match opened(alloc, part, out) {
                        Ok(Opened::Runs(net)) => {
                            self.phase = Phase::Steps { net, done: 0 };
                            Ok(None)
                        }
                        Ok(Opened::Over(status)) => Ok(Some(status)),
                        Err(refused) => Err(refused),
                    };
                }
                if part.len() + line.len() > MAX_NETWORK {
                    return Ok(Some(Status::TooLong));
                }
                part.extend_from_slice(line)?;
                Ok(None)
            }
        }
    }

    fn is_over(&self, pending: &[u8]) -> bool {
        match &self.phase {
            Phase::Steps { .. } => passes_limits(self.taken, pending),
            Phase::Network(part) => {
                !MARK.starts_with(pending) && part.len() + pending.len() > MAX_NETWORK
            }
        }
    }

    fn finish<O: Sink>(&self, alloc: Global, out: &mut O) -> Result<Status, AllocError> {
        match &self.phase {
            Phase::Steps { .. } => Ok(Status::Done),
            Phase::Network(part) => match opened(alloc, part, out) {
                Ok(Opened::Over(status)) => Ok(status),
                Ok(Opened::Runs(_)) => Ok(Status::Done),
                Err(refused) => Err(refused),
            },
        }
    }

    /// These blocks say what is at all chains or in all channels, and are written in pieces.
    fn is_long(&self, line: &[u8]) -> bool {
        line.starts_with(b"queues") || line.starts_with(b"balances") || line.starts_with(b"traps")
    }
}

/// Reads the network, and opens the report or refuses the network.
fn opened<O: Sink>(alloc: Global, part: &[u8], out: &mut O) -> Result<Opened, AllocError>
    ensures opened { Opens part.now (O.written out.old) (O.written out.new) result }
    ensures later { O.faults out.old ≤ O.faults out.new }
    ensures cause { result ≡ Ok (Opened.Over Status.WriteFault)
        → Rose (O.faults out.old) (O.faults out.new) }
{
    match open_audited(alloc, part) {
        Ok(Ok(net)) => {
            let text = opening_text(alloc, &net)?;
            match write_text(out, &text, None) {
                None => Ok(Opened::Runs(net)),
                Some(status) => Ok(Opened::Over(status)),
            }
        }
        Err(refused) => Err(refused),
        Ok(Err(fault)) => {
            let text = network_refused_line(alloc, fault)?;
            match write_text(out, &text, Some(Status::NetworkRefused)) {
                None => unreachable!(),
                Some(status) => Ok(Opened::Over(status)),
            }
        }
    }
}

/// Takes a line after the network, with so many lines and bytes before it.
fn take_step<O: Sink>(
    alloc: Global,
    audit: bool,
    net: &mut AuditedNet,
    done: &mut u64,
    before: u64,
    taken: u64,
    line: &[u8],
    out: &mut O,
) -> Result<Option<Status>, AllocError>
    requires lines { before + 1 < 2 ^ 64 }
    requires bytes { taken + length line.now < 2 ^ 64 }
    requires steps { done.old ≤ before }
    requires running { is_stopped net.old ≡ false }
    ensures run { Advances
        (λ lines. steps_reply audit (spec_of net.old) (world_of net.old) done.old before taken
        (line.now ∷ lines))
        (steps_reply audit (spec_of net.new) (world_of net.new) done.new (before + 1)
        (taken + length line.now))
        (steps_reply audit (spec_of net.old) (world_of net.old) done.old before taken
        (line.now ∷ [])).text
        (O.written out.old) (O.written out.new) result }
    ensures cause { HasWriteCause (O.faults out.old) (O.faults out.new) result }
    ensures steps { done.new ≤ before + 1 }
    ensures within { result ≡ Ok None → taken + length line.now ≤ max_input }
    ensures running { result ≡ Ok None → is_stopped net.new ≡ false }
{
    if !fits_limits(taken, line) {
        return Ok(Some(Status::TooLong));
    }
    let asked = match read_line(alloc, text_of(line)) {
        Ok(asked) => asked,
        Err(refused) => return Err(refused),
    };
    if let Some(block) = long_block(&asked) {
        *done += 1;
        return write_block(alloc, net, audit, *done, block, out);
    }
    match serve(alloc, net, audit, *done + 1, &asked) {
        Ok(LineOutcome::Nothing) => Ok(None),
        Ok(LineOutcome::Block(text)) => {
            *done += 1;
            Ok(write_text(out, &text, None))
        }
        Ok(LineOutcome::Unknown) => {
            let text = line_refused_line(alloc, before + 1)?;
            Ok(write_text(out, &text, Some(Status::LineRefused)))
        }
        Err(refused) => Err(refused),
    }
}
