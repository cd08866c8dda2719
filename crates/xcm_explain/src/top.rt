//! The run over a source and a sink.

ghost use Rattle.std.specs.Prelude.{◌≡◌, ◌≢◌, ◌⊎◌, [], Ok, IfOk, IfSome};
ghost use Rattle.std.specs.Io.KnownBytes.{Appends, IsAtEnd};
ghost use Rattle.xcm_io.specs.Causes.{Rose};
ghost use Rattle.line_serving.specs.Replies.{IsFault, ends};
ghost use Rattle.line_serving.specs.Calls.{Finishes};
ghost use Rattle.line_serving.specs.Serving.{Serves};
ghost use Rattle.xcm_explain.specs.Explanations.{explanation, explained, line_room, explain_usage};

use crate::explainer::Explainer;
use line_serving::{Status, serve, write_reply};
use std::alloc::{AllocError, Global};
use xcm_io::{Sink, Source};

/// How the program is called.
const USAGE: &str = "usage: explain < FILE\n";

/// Says what messages say. Without words it reads the input by pieces, answers each line before it reads on, and says how the run ended; with
/// words it writes the usage line. `Err` is out of memory alone.
pub fn explain<I: Source, O: Sink>(
    alloc: Global,
    words: &[String],
    input: &mut I,
    out: &mut O,
) -> Result<Status, AllocError>
    // The answer and what is written are those of the words and the input, unless source or sink failed.
    ensures answer { IfOk result (λ status. ¬ IsFault status → IfSome (I.left input.old) (λ bytes.
        (status ≡ (explanation words.now bytes).status)
        × Appends (O.written out.old) (O.written out.new) (explanation words.now bytes).text)) }

    // Whatever happens, a prefix of what is said of the lines that were taken is written, which is one of the whole input's; and which prefix, after
    // a fault or past a limit.
    ensures front { words.now ≡ [] → Serves explained (line_room 0) (I.left input.old)
        (I.left input.new) (O.written out.old) (O.written out.new) result }

    // With words nothing is read, and a prefix of the usage line is written.
    ensures unread { words.now ≢ [] → input.new ≡ input.old }
    ensures other { words.now ≢ [] → Finishes (ends explain_usage Status.Usage) (O.written out.old)
        (O.written out.new) result }

    // Where the input is read, Done leaves the source at its end.
    ensures end { result ≡ Ok Status.Done → IsAtEnd (I.left input.new) }

    // A fault is answered only where the source, the sink failed in this call.
    ensures read { result ≡ Ok Status.ReadFault → Rose (I.faults input.old) (I.faults input.new) }
    ensures write { result ≡ Ok Status.WriteFault → Rose (O.faults out.old) (O.faults out.new) }

    // Words are answered by the usage, and only they.
    ensures usage { words.now ≢ []
        → IfOk result (λ status. (status ≡ Status.Usage) ⊎ (status ≡ Status.WriteFault)) }
    ensures only { result ≡ Ok Status.Usage → words.now ≢ [] }
{
    if words.is_empty() {
        return serve(alloc, Explainer::new(), input, out);
    }
    Ok(write_reply(out, USAGE, Status::Usage))
}
