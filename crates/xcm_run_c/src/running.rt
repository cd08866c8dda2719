//! Runs of the program over memory.

ghost use Rattle.std.specs.Prelude.{◌≡◌, ◌≢◌, IfOk, [], map, string_bytes};
ghost use Rattle.xcm_io.specs.Bytes.{IsFront};
ghost use Rattle.line_serving.specs.Replies.{IsFault, code_of};
ghost use Rattle.xcm_run_c.specs.Buffers.{Tells, TellsFront};
ghost use Rattle.xcm_run_c.specs.Words.{run_words, run_reply};

use crate::NO_MEMORY;
use crate::buffer::tell;
use crate::kept::Kept;
use crate::source::Bytes;
use std::alloc::{AllocError, Global};
use xcm_cli::{Status, run};

/// The words of a run, with the audit after each step or without.
fn words_of(alloc: Global, audit: bool) -> Result<Vec<String>, AllocError>
    ensures { IfOk result (λ words. map string_bytes words.items ≡ run_words audit) }
{
    let mut words = Vec::new(alloc);
    words.push(String::from_str(alloc, "run")?)?;
    if audit {
        words.push(String::from_str(alloc, "--audit")?)?;
    }
    Ok(words)
}

/// The number of a run that ended so. No read of memory fails, and a write fails only where memory is refused.
fn number_of(status: Status) -> u8
    ensures fault { IsFault status → result ≡ 8 }
    ensures other { (IsFault status → ⊥) → result ≡ code_of status }
{
    match status {
        Status::ReadFault | Status::WriteFault => NO_MEMORY,
        _ => status.code(),
    }
}

/// Runs the program over an input into an empty sink, and answers the number that it ends with, or the one for out of memory.
fn run_into(alloc: Global, audit: bool, input: &[u8], out: &mut Kept) -> u8
    requires { out.old.bytes.items ≡ [] }
    ensures front { IsFront out.new.bytes.items (run_reply audit input.now).text }
    ensures text { result ≢ 8 → out.new.bytes.items ≡ (run_reply audit input.now).text }
    ensures number { result ≢ 8 → result ≡ code_of (run_reply audit input.now).status }
{
    let Ok(words) = words_of(alloc, audit) else {
        return NO_MEMORY;
    };
    match run(alloc, &words, &mut Bytes::new(input), out) {
        Ok(status) => number_of(status),
        Err(_) => NO_MEMORY,
    }
}

/// Runs the program over an input: a network document, `---`, and lines of steps. The report is at the front of `report`, as far as
/// there is room, and `needed` says how many bytes it has. The answer is the number that the program ends with, 0, 3, 4 or 7 by the input;
/// 6 where the report doesn't fit; or 8 where memory was refused, and then a prefix of the report is told instead of it.
#[unsafe(no_mangle)]
pub extern "C" fn xcm_run(
    alloc: Global,
    audit: bool,
    input: &[u8],
    report: &mut [u8],
    needed: &mut usize,
) -> u8
    ensures told { result ≢ 8 → Tells (run_reply audit input.now).text
        (code_of (run_reply audit input.now).status) report.old report.new needed.new result }
    ensures front { TellsFront (run_reply audit input.now).text report.old report.new needed.new }
{
    let mut out = Kept::new(alloc);
    let number = run_into(alloc, audit, input, &mut out);
    tell(number, out.bytes(), report, needed)
}
