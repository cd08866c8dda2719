//! Where reading stops in bytes that are no message.

use crate::running::{PIECES, Program, answers};
use std::test::Fail;
use xcm_explain::Status;

/// Bytes, and what is said of them after the cause.
const STOPS: &[(&str, &str)] = &[
    ("0x", "not a message at 0, expected version 3 or 4"),
    ("05", "unknown version at 0, expected version 3 or 4"),
    ("02040a", "unknown version at 0, expected version 3 or 4"),
    (
        "04",
        "not a message at 1, expected a number of instructions",
    ),
    (
        "0401",
        "not a message at 1, expected a number of instructions",
    ),
    ("0404", "not a message at 2, expected an instruction"),
    ("040430", "not a message at 2, expected an instruction"),
    ("04080a", "not a message at 3, expected an instruction"),
    ("04080a19", "not a message at 3, expected an instruction"),
    ("04040a00", "not a message at 3, expected the end"),
    // inside an appendix: its number of instructions, its second instruction, what follows it
    (
        "040416",
        "not a message at 3, expected a number of instructions",
    ),
    ("040416080a", "not a message at 5, expected an instruction"),
    ("040416040a0a", "not a message at 5, expected the end"),
    ("040816040a", "not a message at 5, expected an instruction"),
    // the ninth level
    (
        "0404160416041604160416041604160416040a",
        "not a message at 17, expected at most 8 levels",
    ),
    // an asset by bytes, which version 4 can't say
    (
        "030400040100000000000000000000000000000000000000000000000000000000000000000004",
        "not convertible",
    ),
];

#[test]
fn refusals_say_where_reading_stopped(rt: HostRuntime) -> Result<(), Fail> {
    let alloc = rt.alloc();
    for (bytes, said) in STOPS {
        let text = format!(in alloc; "message 1 refused: {said}\n")?;
        let right = answers(
            Program::Explain,
            alloc,
            &[],
            PIECES,
            bytes.as_bytes(),
            Status::Done,
            text.as_bytes(),
        )?;
        assert!(&rt; right, "{bytes}");
    }
    Ok(())
}

/// How many instructions, and what is said of a message of so many, each ClearOrigin.
const COUNTS: &[(&str, usize, &str)] = &[
    (
        "049501",
        101,
        "message 1 refused: not a message at 103, expected at most 100 instructions\n",
    ),
    (
        "049501",
        99,
        "message 1 refused: not a message at 102, expected an instruction\n",
    ),
];

#[test]
fn a_program_has_at_most_a_hundred_instructions(rt: HostRuntime) -> Result<(), Fail> {
    let alloc = rt.alloc();
    for (front, count, said) in COUNTS {
        let mut digits = String::from_str(alloc, front)?;
        for _ in 0..*count {
            digits.push_str("0a")?;
        }
        let right = answers(
            Program::Explain,
            alloc,
            &[],
            PIECES,
            digits.as_bytes(),
            Status::Done,
            said.as_bytes(),
        )?;
        assert!(&rt; right, "{count} instructions");
    }
    Ok(())
}
