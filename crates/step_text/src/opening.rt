//! The lines that open and end a report.

ghost use Rattle.std.specs.Prelude.{◌≡◌, IfOk, string_bytes};
ghost use Rattle.step_text.specs.Lines.{opening_line, network_refused_line, line_refused_line};

use document_entries::NetworkFault;
use network_coherence::Incoherent;
use std::alloc::{AllocError, Global};
use std::fmt::Write;

/// The first line of a report: `coherent`, or why the network isn't, as `not coherent: PartnerUnlisted relay 1000`.
pub fn opening_line(alloc: Global, incoherent: Option<Incoherent>) -> Result<String, AllocError>
    ensures { IfOk result (λ text. string_bytes text ≡ opening_line incoherent) }
{
    let mut text = String::new(alloc);
    match incoherent {
        None => write!(text, "coherent\n")?,
        Some(incoherent) => write!(text, "not coherent: {incoherent}\n")?,
    }
    Ok(text)
}

/// The one line of a report on a network that is refused.
pub fn network_refused_line(alloc: Global, fault: NetworkFault) -> Result<String, AllocError>
    ensures { IfOk result (λ text. string_bytes text ≡ network_refused_line fault) }
{
    format!(in alloc; "network refused: {fault}\n")
}

/// The line that ends a report at a line that is refused; lines count from 1, over the whole input.
pub fn line_refused_line(alloc: Global, line: u64) -> Result<String, AllocError>
    ensures { IfOk result (λ text. string_bytes text ≡ line_refused_line line) }
{
    format!(in alloc; "line {line} refused\n")
}
