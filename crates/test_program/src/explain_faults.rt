//! Limits, and sources and sinks that fail.

use crate::running::{Program, Ran, ran_of};
use std::alloc::Global;
use std::test::Fail;
use xcm_explain::Status;

/// The bytes of a comment line, its end, and the answer.
const LONG_LINES: &[(usize, &[u8], Status)] = &[
    (262_144, b"\n", Status::Done),
    (262_143, b"\r\n", Status::Done),
    (262_144, b"\r\n", Status::TooLong),
    (262_144, b"", Status::Done),
    (262_145, b"", Status::TooLong),
    (262_145, b"\n", Status::TooLong),
];

/// A message, and a comment line of so many bytes after it.
fn long_line(alloc: Global, bytes: usize, end: &[u8]) -> Result<Vec<u8>, Fail> {
    let mut input = b"0400\n".to_vec(alloc)?;
    input.extend_from_slice(&vec![in alloc; b'#'; bytes]?)?;
    input.extend_from_slice(end)?;
    Ok(input)
}

#[test]
fn a_line_has_at_most_a_quarter_of_a_mebibyte(rt: HostRuntime) -> Result<(), Fail> {
    for (bytes, end, status) in LONG_LINES {
        let input = long_line(rt.alloc(), *bytes, end)?;
        let ran = ran_of(Program::Explain, rt.alloc(), &[], &input, 65_536, &[], &[])?;
        assert!(&rt;
            ran.has(*status, b"message 1 version 4\n"),
            "{bytes} bytes and {} behind",
            end.len()
        );
    }
    Ok(())
}

#[test]
fn a_failing_source_leaves_what_is_said_of_whole_lines(rt: HostRuntime) -> Result<(), Fail> {
    let alloc = rt.alloc();
    // the sixth read, a byte at a time, is the first after the first line
    let ran = ran_of(Program::Explain, alloc, &[], b"0400\n0300", 1, &[6], &[])?;
    assert!(&rt; ran.has(Status::ReadFault, b"message 1 version 4\n"));
    let ran = ran_of(Program::Explain, alloc, &[], b"0400\n0300", 1, &[5], &[])?;
    assert!(&rt; ran.has(Status::ReadFault, b""));
    Ok(())
}

/// Whether it is done, with the whole text, or ends in a failing write, with a shorter prefix of it.
fn is_cut(ran: &Ran, whole: &[u8]) -> bool {
    if ran.status == Status::Done {
        return ran.bytes.as_slice() == whole;
    }
    ran.status == Status::WriteFault
        && ran.bytes.len() < whole.len()
        && whole.starts_with(&ran.bytes)
}

#[test]
fn a_failing_sink_leaves_a_front_of_the_text(rt: HostRuntime) -> Result<(), Fail> {
    let alloc = rt.alloc();
    let input = b"04080a1914\n04\n";
    let whole = ran_of(Program::Explain, alloc, &[], input, 16, &[], &[])?;
    for failing in 1u64..12 {
        let ran = ran_of(Program::Explain, alloc, &[], input, 16, &[], &[failing])?;
        assert!(&rt; is_cut(&ran, &whole.bytes), "at write {failing}");
    }
    Ok(())
}
