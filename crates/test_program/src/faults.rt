//! Limits, and sources and sinks that fail.

use crate::documents::THREE_CHAINS;
use crate::parts::{Grown, ONCE, Part, Piece};
use crate::running::{Program, RUN, Ran, ran_of};
use std::alloc::Global;
use std::test::Fail;
use xcm_cli::Status;

/// What is written where the network part is read.
const OPENED: &[Part] = &[Part::Text("coherent\n")];

/// Network parts of a mebibyte and of a byte more, and lines of a quarter of a mebibyte and of a byte more, with each end.
pub(crate) const LIMITS: &[Grown] = &[
    Grown {
        name: "a mebibyte and a line",
        input: &[
            Part::Text("{}"),
            Part::Each(1, &[Piece::Times(" ", 1_048_573)]),
            Part::Text("\n---\n"),
        ],
        status: Status::Done,
        report: OPENED,
        pieces: ONCE,
    },
    Grown {
        name: "a mebibyte and a line without an end",
        input: &[
            Part::Text("{}"),
            Part::Each(1, &[Piece::Times(" ", 1_048_573)]),
            Part::Text("\n---"),
        ],
        status: Status::Done,
        report: OPENED,
        pieces: ONCE,
    },
    Grown {
        name: "a mebibyte",
        input: &[
            Part::Text("{}"),
            Part::Each(1, &[Piece::Times(" ", 1_048_573)]),
            Part::Text("\n"),
        ],
        status: Status::Done,
        report: OPENED,
        pieces: ONCE,
    },
    Grown {
        name: "a mebibyte and a byte",
        input: &[
            Part::Text("{}"),
            Part::Each(1, &[Piece::Times(" ", 1_048_573)]),
            Part::Text("\n-"),
        ],
        status: Status::TooLong,
        report: &[],
        pieces: ONCE,
    },
    Grown {
        name: "more than a mebibyte, and a line",
        input: &[
            Part::Text("{}"),
            Part::Each(1, &[Piece::Times(" ", 1_048_574)]),
            Part::Text("\n---\n"),
        ],
        status: Status::TooLong,
        report: &[],
        pieces: ONCE,
    },
    Grown {
        name: "more than a mebibyte",
        input: &[
            Part::Text("{}"),
            Part::Each(1, &[Piece::Times(" ", 1_048_574)]),
            Part::Text("\n"),
        ],
        status: Status::TooLong,
        report: &[],
        pieces: ONCE,
    },
    Grown {
        name: "more than a mebibyte of spaces",
        input: &[Part::Each(1, &[Piece::Times(" ", 1_048_577)])],
        status: Status::TooLong,
        report: &[],
        pieces: ONCE,
    },
    Grown {
        name: "a line at the limit",
        input: &[
            Part::Text("{}\n---\n"),
            Part::Each(1, &[Piece::Times("#", 262_144)]),
            Part::Text("\n"),
        ],
        status: Status::Done,
        report: OPENED,
        pieces: ONCE,
    },
    Grown {
        name: "a line at the limit with its return",
        input: &[
            Part::Text("{}\n---\n"),
            Part::Each(1, &[Piece::Times("#", 262_143)]),
            Part::Text("\r\n"),
        ],
        status: Status::Done,
        report: OPENED,
        pieces: ONCE,
    },
    Grown {
        name: "a line whose return is past the limit",
        input: &[
            Part::Text("{}\n---\n"),
            Part::Each(1, &[Piece::Times("#", 262_144)]),
            Part::Text("\r\n"),
        ],
        status: Status::TooLong,
        report: OPENED,
        pieces: ONCE,
    },
    Grown {
        name: "a last line at the limit",
        input: &[
            Part::Text("{}\n---\n"),
            Part::Each(1, &[Piece::Times("#", 262_144)]),
            Part::Text(""),
        ],
        status: Status::Done,
        report: OPENED,
        pieces: ONCE,
    },
    Grown {
        name: "a last line past the limit",
        input: &[
            Part::Text("{}\n---\n"),
            Part::Each(1, &[Piece::Times("#", 262_145)]),
            Part::Text(""),
        ],
        status: Status::TooLong,
        report: OPENED,
        pieces: ONCE,
    },
    Grown {
        name: "a line past the limit",
        input: &[
            Part::Text("{}\n---\n"),
            Part::Each(1, &[Piece::Times("#", 262_145)]),
            Part::Text("\n"),
        ],
        status: Status::TooLong,
        report: OPENED,
        pieces: ONCE,
    },
];

/// Whether a run, read by pieces of so many bytes, ends at the read of this number with this report.
fn ends_at(
    alloc: Global,
    input: &[u8],
    piece: usize,
    failing: u64,
    report: &[u8],
) -> Result<bool, Fail> {
    // for the prover: each piece has at least one byte
    if piece == 0 {
        return Ok(false);
    }
    let ran = ran_of(
        Program::Rudderrusset,
        alloc,
        RUN,
        input,
        piece,
        &[failing],
        &[],
    )?;
    Ok(ran.has(Status::ReadFault, report))
}

/// Whether a source that fails leaves the report of the whole lines.
fn source_fails(alloc: Global, input: &str, whole: &[u8]) -> Result<bool, Fail> {
    let bytes = input.as_bytes();
    // the eighth byte is the first one after the line `---`
    Ok(
        ends_at(alloc, bytes, bytes.len(), 2, whole)?
            && ends_at(alloc, bytes, bytes.len(), 1, b"")?
            && ends_at(alloc, bytes, 1, 8, b"coherent\n")?,
    )
}

/// Whether a run is done, with the whole report, or ends in a failing write, with a shorter prefix of it.
fn is_cut(ran: &Ran, whole: &[u8]) -> bool {
    if ran.status == Status::Done {
        return ran.bytes.as_slice() == whole;
    }
    ran.status == Status::WriteFault
        && ran.bytes.len() < whole.len()
        && whole.starts_with(&ran.bytes)
}

/// Whether a run in which the write of this number fails leaves a prefix of the report.
fn sink_fails(alloc: Global, input: &str, failing: u64, whole: &[u8]) -> Result<bool, Fail> {
    let ran = ran_of(
        Program::Rudderrusset,
        alloc,
        RUN,
        input.as_bytes(),
        16,
        &[],
        &[failing],
    )?;
    Ok(is_cut(&ran, whole))
}

#[test]
fn failing_sources_and_sinks_leave_a_front_of_the_report(rt: HostRuntime) -> Result<(), Fail> {
    let alloc = rt.alloc();
    let input =
        "{}\n---\nexec relay 0x0101010101010101010101010101010101010101010101010101010101010101 04041914\n";
    let whole = ran_of(
        Program::Rudderrusset,
        alloc,
        RUN,
        input.as_bytes(),
        4096,
        &[],
        &[],
    )?;
    assert!(&rt; source_fails(alloc, input, &whole.bytes)?);
    for failing in 1u64..20 {
        assert!(&rt;
            sink_fails(alloc, input, failing, &whole.bytes)?,
            "at write {failing}"
        );
    }
    Ok(())
}

#[test]
fn a_sink_that_fails_at_its_second_write_has_the_first_eight_bytes(
    rt: HostRuntime,
) -> Result<(), Fail> {
    let ran = ran_of(
        Program::Rudderrusset,
        rt.alloc(),
        RUN,
        THREE_CHAINS.as_bytes(),
        8,
        &[],
        &[2],
    )?;
    assert!(&rt; ran.has(Status::WriteFault, b"coherent"));
    Ok(())
}
