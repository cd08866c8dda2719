//! Lines and words.

use crate::running::{PIECES, Program, answers};
use std::test::Fail;
use xcm_explain::Status;

/// Inputs, with their answer and what is written.
const INPUTS: &[(&str, Status, &str)] = &[
    ("", Status::Done, ""),
    ("\n\r\n# 04040a\n", Status::Done, ""),
    (
        "04040a",
        Status::Done,
        "message 1 version 4\n  ClearOrigin\n",
    ),
    (
        "0x03040A\r\n",
        Status::Done,
        "message 1 version 3\n  ClearOrigin\n",
    ),
    (
        "0400\n0300\n",
        Status::Done,
        "message 1 version 4\nmessage 2 version 3\n",
    ),
    (
        "#\n040416040a\n\n04080a1914\n",
        Status::Done,
        "message 2 version 4\n  SetAppendix\n    xcm\n      ClearOrigin\nmessage 4 version 4\n  ClearOrigin\n  Trap\n    code 5\n",
    ),
    // what is no hex ends it, whatever comes after
    (
        "04040a\n04040\n04040a\n",
        Status::LineRefused,
        "message 1 version 4\n  ClearOrigin\nline 2 refused\n",
    ),
    (" 04040a\n", Status::LineRefused, "line 1 refused\n"),
    ("04040a \n", Status::LineRefused, "line 1 refused\n"),
    ("\n0X04\n", Status::LineRefused, "line 2 refused\n"),
    ("04040g", Status::LineRefused, "line 1 refused\n"),
    // a carriage return at the end of the input ends no line
    ("04040a\r", Status::LineRefused, "line 1 refused\n"),
];

#[test]
fn inputs_have_their_explanations(rt: HostRuntime) -> Result<(), Fail> {
    for (input, status, text) in INPUTS {
        let right = answers(
            Program::Explain,
            rt.alloc(),
            &[],
            PIECES,
            input.as_bytes(),
            *status,
            text.as_bytes(),
        )?;
        assert!(&rt; right, "{input}");
    }
    Ok(())
}

/// Words, none of which the program has.
const WORDS: &[&[&str]] = &[&[""], &["explain"], &["run"], &["--help", "04"]];

#[test]
fn a_word_is_answered_by_the_usage_line(rt: HostRuntime) -> Result<(), Fail> {
    for words in WORDS {
        let right = answers(
            Program::Explain,
            rt.alloc(),
            words,
            PIECES,
            b"04040a\n",
            Status::Usage,
            b"usage: explain < FILE\n",
        )?;
        assert!(&rt; right, "{} words", words.len());
    }
    Ok(())
}
