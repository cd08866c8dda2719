//! The run of the program.

ghost use Rattle.std.specs.Prelude.{◌≡◌, ◌≢◌, ◌⊎◌, ℕ, true, false, [], Ok, IfOk, IfSome};
ghost use Rattle.std.specs.Io.KnownBytes.{Appends, IsAtEnd};
ghost use Rattle.std.specs.declared.alloc.AllocError.{AllocError};
ghost use Rattle.xcm_io.specs.Causes.{Rose};
ghost use Rattle.xcm_cli.specs.Report.{report, fate, usage_reply, generated_reply};
ghost use Rattle.xcm_cli.specs.Promise.{ReadNetworksAreLawful, CoherentNetworksAreSecure, DrawnStepsAreLawful, DrawnStepsAreSecure};
ghost use Rattle.xcm_cli.specs.Told.{ReportsTellOfSteps};
ghost use Rattle.xcm_cli.specs.Words.{task_of, reads};
ghost use Rattle.xcm_cli.specs.declared.words.Task.TheVariants.{Generate, Usage};
ghost use Rattle.line_serving.specs.Replies.{IsFault};
ghost use Rattle.line_serving.specs.Calls.{Finishes};
ghost use Rattle.xcm_cli.specs.Serving.{ServesWords};

use crate::laws::law_of_inputs;
use crate::phase::Session;
use crate::texts::USAGE;
use crate::words::{Task, task_of};
use generator::generate;
use line_serving::{Status, serve, write_reply};
use std::alloc::{AllocError, Global};
use xcm_io::{Sink, Source};

/// Runs the program. With the words `run` or `run --audit` it reads the input by pieces, runs and reports each line before it reads on, and
/// answers how the run ended. With `gen`, a number and a number of steps it reports the run of steps that are drawn from the number. With
/// other words it writes the usage line. Only `run` reads. `Err` is out of memory alone.
pub fn run<I: Source, O: Sink>(
    alloc: Global,
    words: &[String],
    input: &mut I,
    out: &mut O,
) -> Result<Status, AllocError>
    // The answer is the fate of the words and the input, and what is written is their report, unless source or sink failed.
    ensures answer { IfOk result (λ status. ¬ IsFault status → IfSome (I.left input.old) (λ bytes.
        (status ≡ fate words.now bytes)
        × Appends (O.written out.old) (O.written out.new) (report words.now bytes))) }

    // With other words than those of a run that is so whatever the source tells.
    ensures unread { reads (task_of words.now) ≡ false → IfOk result (λ status. ¬ IsFault status
        → (status ≡ fate words.now [])
        × Appends (O.written out.old) (O.written out.new) (report words.now [])) }

    // Whatever happens, a prefix of the report of what was taken is written, which is one of the whole input's; and which prefix, after a fault or
    // past a limit.
    ensures front { ServesWords words.now (I.left input.old) (I.left input.new) (O.written out.old)
        (O.written out.new) result }

    // Where the input is read, Done leaves the source at its end.
    ensures end { reads (task_of words.now) ≡ true → result ≡ Ok Status.Done
        → IsAtEnd (I.left input.new) }

    // A fault is answered only where the source, the sink failed in this call.
    ensures read { result ≡ Ok Status.ReadFault → Rose (I.faults input.old) (I.faults input.new) }
    ensures write { result ≡ Ok Status.WriteFault → Rose (O.faults out.old) (O.faults out.new) }

    // Other words are answered by their usage, whatever the source tells, and only they.
    ensures usage { task_of words.now ≡ Usage
        → IfOk result (λ status. (status ≡ Status.Usage) ⊎ (status ≡ Status.WriteFault)) }
    ensures other { result ≡ Ok Status.Usage → task_of words.now ≡ Usage }

    // A run of drawn steps is done, unless the sink failed: their network is accepted.
    ensures drawn { (number steps : ℕ) → task_of words.now ≡ Generate number steps
        → IfOk result (λ status. (status ≡ Status.Done) ⊎ (status ≡ Status.WriteFault)) }

    // Whatever document is read as a network and whatever the steps, as those of an input (`steps_of`), those with each drain as the deliveries
    // it makes or those that are drawn: an account falls only by its own executions, by a message of its chain or as a pool's, so one that is
    // left alone never has less; no pool's product falls, no burn is undone, each account keeps what is locked there, each message that waits
    // has its shape, and each checking account stays below its maximum.
    ensures lawful { ReadNetworksAreLawful }

    // Where moreover none of the seven causes is found in it, every world keeps each asset, backs each derivative and has right checking
    // accounts, inside each local execution and, after its first instruction, each delivery too, and from world to world no derivative's cover
    // shrinks; what is admitted is paid and received; no joining of bundles burns what would pass an amount's maximum or is there already; and
    // in every world the sums which the supply block prints are conserved and covered.
    ensures kept { CoherentNetworksAreSecure }

    // In the network of drawn steps both hold without a premise.
    ensures drawn_lawful { DrawnStepsAreLawful }
    ensures drawn_kept { DrawnStepsAreSecure }

    // The report of an input is the opening, and then the blocks of its steps, each in the world to which those before it lead.
    ensures told { ReportsTellOfSteps }
{
    law_of_inputs(); // For the prover alone.
    match task_of(alloc, words)? {
        Task::Run { audit } => serve(alloc, Session::new(alloc, audit), input, out),
        Task::Generate { number, steps } => write_generated(alloc, number, steps, out),
        Task::Usage => Ok(write_usage(out)),
    }
}

/// Writes the usage line.
fn write_usage<O: Sink>(out: &mut O) -> Status
    ensures run { Finishes {E = AllocError} usage_reply (O.written out.old) (O.written out.new)
        (Ok result) }
    ensures answer { (result ≡ Status.Usage) ⊎ (result ≡ Status.WriteFault) }
    ensures cause { result ≡ Status.WriteFault → Rose (O.faults out.old) (O.faults out.new) }
{
    write_reply(out, USAGE, Status::Usage)
}

/// Runs so many steps that are drawn from the number, and reports how they ended.
fn write_generated<O: Sink>(
    alloc: Global,
    number: u64,
    steps: u64,
    out: &mut O,
) -> Result<Status, AllocError>
    ensures run { Finishes (generated_reply number steps) (O.written out.old)
        (O.written out.new) result }
    ensures answer { IfOk result (λ status. (status ≡ Status.Done) ⊎ (status ≡ Status.WriteFault)) }
    ensures cause { result ≡ Ok Status.WriteFault → Rose (O.faults out.old) (O.faults out.new) }
    ensures usage { result ≢ Ok Status.Usage }
{
    let text = generate(alloc, number, steps)?;
    Ok(write_reply(out, &text, Status::Done))
}
