//! Runs of the programs over memory: what they answer and write.

ghost use Rattle.std.specs.Prelude.{◌<◌};

use std::alloc::Global;
use std::process::Abort;
use std::test::Fail;
use xcm_cli::{Status, run};
use xcm_compose::compose;
use xcm_explain::explain;
use xcm_io::{MemSink, MemSource};

/// One of the programs.
#[derive(Clone, Copy)]
pub(crate) enum Program {
    /// It runs networks.
    Rudderrusset,
    /// It writes messages as trees.
    Explain,
    /// It writes trees as messages.
    Compose,
}

/// The word that runs a network.
pub(crate) const RUN: &[&str] = &["run"];

/// The words that run a network, with the sums after each step.
pub(crate) const AUDIT: &[&str] = &["run", "--audit"];

/// How many bytes may be written here.
const ROOM: usize = 1_048_576;

/// A whole input, its answer and its report.
pub(crate) struct Row {
    /// What it shows.
    pub(crate) name: &'static str,
    /// The network document.
    pub(crate) network: &'static str,
    /// The lines after the line `---`.
    pub(crate) steps: &'static str,
    pub(crate) status: Status,
    pub(crate) report: &'static str,
}

/// What is answered and written.
#[derive(Drop)]
pub(crate) struct Ran {
    pub(crate) status: Status,
    pub(crate) bytes: Vec<u8>,
}

impl Ran {
    /// Whether this is what is answered and written.
    pub(crate) fn has(&self, status: Status, text: &[u8]) -> bool {
        self.status == status && self.bytes.as_slice() == text
    }
}

/// The words of the command line.
fn words_of(alloc: Global, words: &[&str]) -> Result<Vec<String>, Fail> {
    let mut list = Vec::new(alloc);
    for word in words {
        list.push(String::from_str(alloc, word)?)?;
    }
    Ok(list)
}

/// A run of the program with these words over an input, by pieces of at most so many bytes, with the numbers of the reads and writes that
/// fail.
pub(crate) fn ran_of(
    program: Program,
    alloc: Global,
    words: &[&str],
    input: &[u8],
    piece: usize,
    reads: &[u64],
    writes: &[u64],
) -> Result<Ran, Fail>
    requires { 0 < piece }
{
    let words = words_of(alloc, words)?;
    let mut source = MemSource::new(input.to_vec(alloc)?, piece, reads.to_vec(alloc)?);
    let mut sink = MemSink::new(alloc, ROOM, piece, writes.to_vec(alloc)?)?;
    let status = match program {
        Program::Rudderrusset => run(alloc, &words, &mut source, &mut sink)?,
        Program::Explain => explain(alloc, &words, &mut source, &mut sink)?,
        Program::Compose => compose(alloc, &words, &mut source, &mut sink)?,
    };
    Ok(Ran {
        status,
        bytes: sink.bytes().to_vec(alloc)?,
    })
}

/// How many bytes are read and written at once.
pub(crate) const PIECES: &[usize] = &[1, 2, 3, 7, 64, 65_535, 65_536];

/// Whether the program answers this and writes this text where so many bytes are read and written at once.
fn answers_by(
    program: Program,
    alloc: Global,
    words: &[&str],
    input: &[u8],
    piece: usize,
    status: Status,
    text: &[u8],
) -> Result<bool, Fail> {
    // for the prover: each piece has at least one byte
    if piece == 0 {
        return Ok(false);
    }
    let ran = ran_of(program, alloc, words, input, piece, &[], &[])?;
    Ok(ran.has(status, text))
}

/// Whether the program answers this and writes this text, in whichever of these pieces its bytes are read and written.
pub(crate) fn answers(
    program: Program,
    alloc: Global,
    words: &[&str],
    pieces: &[usize],
    input: &[u8],
    status: Status,
    text: &[u8],
) -> Result<bool, Fail> {
    for piece in pieces {
        if !answers_by(program, alloc, words, input, *piece, status, text)? {
            return Ok(false);
        }
    }
    Ok(true)
}

/// Whether the row has its answer and its report, however the bytes are cut.
fn is_right(alloc: Global, words: &[&str], row: &Row) -> Result<bool, Fail> {
    let input = format!(in alloc; "{}\n---\n{}", row.network, row.steps)?;
    let (input, report) = (input.as_bytes(), row.report.as_bytes());
    let program = Program::Rudderrusset;
    answers(program, alloc, words, PIECES, input, row.status, report)
}

/// Each row has its answer and its report.
pub(crate) fn check_rows(
    rt: &impl Abort,
    alloc: Global,
    words: &[&str],
    rows: &[Row],
) -> Result<(), Fail> {
    for row in rows {
        assert!(rt; is_right(alloc, words, row)?, "{}", row.name);
    }
    Ok(())
}
