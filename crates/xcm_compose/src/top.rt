//! The run over a source and a sink.

ghost use Rattle.std.specs.Prelude.{◌≡◌, ◌≢◌, ◌⊎◌, [], Ok, IfOk};
ghost use Rattle.std.specs.Io.KnownBytes.{IsAtEnd};
ghost use Rattle.xcm_io.specs.Causes.{Rose};
ghost use Rattle.line_serving.specs.Replies.{ends};
ghost use Rattle.line_serving.specs.Calls.{Finishes};
ghost use Rattle.xcm_compose.specs.Runs.{Composes, compose_usage};

use crate::running::run;
use line_serving::{Status, write_reply};
use std::alloc::{AllocError, Global};
use xcm_io::{Sink, Source};

/// How the program is called.
const USAGE: &str = "usage: compose < FILE\n";

/// Writes the messages of trees. Without words it reads the input by pieces, answers each tree once the line after it has come, and says how the run
/// ended; with words it writes the usage line. `Err` is out of memory alone.
pub fn compose<I: Source, O: Sink>(
    alloc: Global,
    words: &[String],
    input: &mut I,
    out: &mut O,
) -> Result<Status, AllocError>
    // Whatever happens, a prefix of what may be written for the input is written; and all of it, with the answer for it, unless source or sink failed
    // or memory was refused. Of a line with hex that is written for a tree, the tree is what an explanation says of it.
    ensures run { words.now ≡ [] → Composes (I.left input.old) (O.written out.old)
        (O.written out.new) result }

    // With words nothing is read, and a prefix of the usage line is written.
    ensures unread { words.now ≢ [] → input.new ≡ input.old }
    ensures other { words.now ≢ [] → Finishes (ends compose_usage Status.Usage) (O.written out.old)
        (O.written out.new) result }

    // Where the input is read, Done leaves the source at its end.
    ensures end { result ≡ Ok Status.Done → IsAtEnd (I.left input.new) }

    // A fault is answered only where the source, the sink failed in this call.
    ensures read { result ≡ Ok Status.ReadFault → Rose (I.faults input.old) (I.faults input.new) }
    ensures write { result ≡ Ok Status.WriteFault → Rose (O.faults out.old) (O.faults out.new) }

    // Words are answered by the usage, and only they.
    ensures usage { words.now ≢ []
        → IfOk result (λ status. (status ≡ Status.Usage) ⊎ (status ≡ Status.WriteFault)) }
    ensures only { result ≡ Ok Status.Usage → words.now ≢ [] }
{
    if words.is_empty() {
        return run(alloc, input, out);
    }
    Ok(write_reply(out, USAGE, Status::Usage))
}
