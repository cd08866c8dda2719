//! Inputs and reports that are written from parts, with what is repeated and counted.

use crate::running::{Program, RUN, answers};
use std::alloc::Global;
use std::fmt::Write;
use std::process::Abort;
use std::test::Fail;
use xcm_cli::Status;

/// What is written in a repetition.
pub(crate) enum Piece {
    Text(&'static str),
    /// A text so many times.
    Times(&'static str, u32),
    /// A comma before each repetition but the first.
    Comma,
    /// The index of the repetition, counted from 0, so many times, and so much more.
    Count(u32, u32),
    /// The index so many times, in two hexadecimal digits.
    Hex(u32),
    /// The index divided by `each`, modulo `of`, plus `from`.
    Share { each: u32, of: u32, from: u32 },
    /// As many of these bytes as the index and 2 more, in hexadecimal digits.
    Front(&'static [u8]),
}

/// A text, or pieces that are repeated so many times.
pub(crate) enum Part {
    Text(&'static str),
    Each(u32, &'static [Piece]),
}

/// All bytes of an input at once.
pub(crate) const ONCE: &[usize] = &[65_536];

/// An input, its answer and its report.
pub(crate) struct Grown {
    /// What it shows.
    pub(crate) name: &'static str,
    pub(crate) input: &'static [Part],
    pub(crate) status: Status,
    pub(crate) report: &'static [Part],
    /// How many bytes are read and written at once.
    pub(crate) pieces: &'static [usize],
}

/// Writes a text so many times.
fn write_times(text: &mut String, repeated: &str, times: u32) -> Result<(), Fail> {
    for _ in 0..times {
        text.push_str(repeated)?;
    }
    Ok(())
}

/// Writes the first bytes, so many.
fn write_front(text: &mut String, bytes: &[u8], count: usize) -> Result<(), Fail> {
    for byte in bytes.iter().take(count) {
        write!(text, "{byte:02x}")?;
    }
    Ok(())
}

/// What `Share` writes at an index.
fn shared(place: u32, each: u32, of: u32, from: u32) -> u32 {
    // for the prover: no row divides by 0
    if each == 0 || of == 0 {
        return from;
    }
    (place / each % of).saturating_add(from)
}

/// Writes a piece of the repetition at this index.
fn write_piece(text: &mut String, piece: &Piece, place: u32) -> Result<(), Fail> {
    let number = match piece {
        Piece::Text(piece) => return Ok(text.push_str(piece)?),
        Piece::Times(piece, times) => return write_times(text, piece, *times),
        Piece::Front(bytes) => {
            return write_front(text, bytes, (place as usize).saturating_add(2));
        }
        Piece::Comma => return Ok(text.push_str(if place == 0 { "" } else { "," })?),
        Piece::Hex(times) => return Ok(write!(text, "{:02x}", place.saturating_mul(*times))?),
        Piece::Count(times, from) => place.saturating_mul(*times).saturating_add(*from),
        Piece::Share { each, of, from } => shared(place, *each, *of, *from),
    };
    Ok(write!(text, "{number}")?)
}

/// Writes the repetition at this index.
fn write_pieces(text: &mut String, pieces: &[Piece], place: u32) -> Result<(), Fail> {
    for piece in pieces {
        write_piece(text, piece, place)?;
    }
    Ok(())
}

/// Writes each repetition of the pieces.
fn write_each(text: &mut String, times: u32, pieces: &[Piece]) -> Result<(), Fail> {
    for place in 0..times {
        write_pieces(text, pieces, place)?;
    }
    Ok(())
}

/// The text of the parts.
fn written(alloc: Global, parts: &[Part]) -> Result<String, Fail> {
    let mut text = String::new(alloc);
    for part in parts {
        match part {
            Part::Text(part) => text.push_str(part)?,
            Part::Each(times, pieces) => write_each(&mut text, *times, pieces)?,
        }
    }
    Ok(text)
}

/// Whether the input has its answer and its report.
fn is_right(alloc: Global, row: &Grown) -> Result<bool, Fail> {
    let input = written(alloc, row.input)?;
    let report = written(alloc, row.report)?;
    let (input, report) = (input.as_bytes(), report.as_bytes());
    answers(
        Program::Rudderrusset,
        alloc,
        RUN,
        row.pieces,
        input,
        row.status,
        report,
    )
}

/// Each row has its answer and its report.
pub(crate) fn check_grown(rt: &impl Abort, alloc: Global, rows: &[Grown]) -> Result<(), Fail> {
    for row in rows {
        assert!(rt; is_right(alloc, row)?, "{}", row.name);
    }
    Ok(())
}
