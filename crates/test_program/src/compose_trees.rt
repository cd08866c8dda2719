//! Trees and what is none: lines, refusals, words, limits, and sources and sinks that fail.

use crate::running::{PIECES, Program, Ran, answers, ran_of};
use std::alloc::Global;
use std::test::Fail;
use xcm_compose::Status;

/// Inputs, with their answer and what is written.
const INPUTS: &[(&str, Status, &str)] = &[
    ("", Status::Done, ""),
    ("\n\r\n# message 1 version 4\n", Status::Done, ""),
    ("message 1 version 4", Status::Done, "0x0400\n"),
    (
        "message 18446744073709551615 version 3\n",
        Status::Done,
        "0x0300\n",
    ),
    (
        "message 0 version 3\r\n  ClearOrigin\r\n",
        Status::Done,
        "0x03040a\n",
    ),
    (
        "message 1 version 4\n  SetAppendix\n    xcm\n      ClearOrigin\n  Trap\n    code 5",
        Status::Done,
        "0x040816040a1914\n",
    ),
    (
        "message 1 version 4\nmessage 1 version 3\n",
        Status::Done,
        "0x0400\n0x0300\n",
    ),
    // a comment or an empty line ends a tree
    (
        "message 1 version 4\n#\n  ClearOrigin\n",
        Status::Done,
        "0x0400\nline 3 refused, expected message NUMBER version 3 or 4\n",
    ),
    (
        "message 1 version 4\n\n  ClearOrigin\n",
        Status::Done,
        "0x0400\nline 3 refused, expected message NUMBER version 3 or 4\n",
    ),
    // headings
    (
        "message 1 version 5\n",
        Status::Done,
        "line 1 refused, expected message NUMBER version 3 or 4\n",
    ),
    (
        "message 18446744073709551616 version 4\n",
        Status::Done,
        "line 1 refused, expected message NUMBER version 3 or 4\n",
    ),
    (
        "message 5 refused: not a message at 22, expected an instruction\n",
        Status::Done,
        "line 1 refused, expected message NUMBER version 3 or 4\n",
    ),
    (
        "message 01 version 4\n  ClearOrigin\n",
        Status::Done,
        "line 1 refused, expected the line as explain writes it\n",
    ),
    // instructions and fields
    (
        "message 1 version 4\n  Clear\n",
        Status::Done,
        "line 2 refused, expected an instruction\n",
    ),
    (
        "message 1 version 4\n  ClearOrigin \n",
        Status::Done,
        "line 2 refused, expected an instruction\n",
    ),
    (
        "message 1 version 4\n   ClearOrigin\n",
        Status::Done,
        "line 2 refused, expected the end of the tree\n",
    ),
    (
        "message 1 version 4\n  ClearOrigin\n    code 5\n",
        Status::Done,
        "line 3 refused, expected the end of the tree\n",
    ),
    (
        "message 1 version 4\n  Trap\n",
        Status::Done,
        "line 3 refused, expected the field code\n",
    ),
    (
        "message 1 version 4\n  Trap\n    code 18446744073709551616\n  Trap\n",
        Status::Done,
        "line 3 refused, expected the field code\n",
    ),
    (
        "message 1 version 4\n  Trap\n    code 05\n",
        Status::Done,
        "line 3 refused, expected the line as explain writes it\n",
    ),
    (
        "message 1 version 4\n  Trap\n    code +5\n",
        Status::Done,
        "line 3 refused, expected the line as explain writes it\n",
    ),
    (
        "message 1 version 4\n  SetTopic\n    topic 0x00\n",
        Status::Done,
        "line 3 refused, expected the field topic\n",
    ),
    (
        "message 1 version 4\n  AliasOrigin\n    target 1/Parachain(07)\n",
        Status::Done,
        "line 3 refused, expected the field target\n",
    ),
    (
        "message 1 version 4\n  SetAppendix\n      ClearOrigin\n",
        Status::Done,
        "line 3 refused, expected the field xcm\n",
    ),
    // assets
    (
        "message 1 version 4\n  BurnAsset\n    assets\n      0 0\n",
        Status::Done,
        "line 4 refused, expected an asset\n",
    ),
    (
        "message 1 version 4\n  BurnAsset\n    assets\n      0 1\n      0 2\n",
        Status::Done,
        "line 1 refused, expected the tree of a message\n",
    ),
    (
        "message 1 version 4\n  BurnAsset\n    assets\n      1 1\n      0 2\n",
        Status::Done,
        "line 1 refused, expected the tree of a message\n",
    ),
    // what comes after a tree that is refused is read
    (
        "message 1 version 4\n  Clear\n  Trap\n    code x\nmessage 2 version 4\n",
        Status::Done,
        "line 2 refused, expected an instruction\n0x0400\n",
    ),
    // nine levels
    (
        "message 1 version 4\n  SetAppendix\n    xcm\n      SetAppendix\n        xcm\n          SetAppendix\n            xcm\n              SetAppendix\n                xcm\n                  SetAppendix\n                    xcm\n                      SetAppendix\n                        xcm\n                          SetAppendix\n                            xcm\n                              SetAppendix\n                                xcm\n",
        Status::Done,
        "line 18 refused, expected at most 8 levels\n",
    ),
];

#[test]
fn inputs_have_their_messages(rt: HostRuntime) -> Result<(), Fail> {
    for (input, status, text) in INPUTS {
        let right = answers(
            Program::Compose,
            rt.alloc(),
            &[],
            PIECES,
            input.as_bytes(),
            *status,
            text.as_bytes(),
        )?;
        assert!(&rt; right, "{input}");
    }
    Ok(())
}

/// The tree of so many instructions.
fn long_tree(alloc: Global, count: usize) -> Result<Vec<u8>, Fail> {
    let mut tree = b"message 1 version 4\n".to_vec(alloc)?;
    for _ in 0..count {
        tree.extend_from_slice(b"  ClearOrigin\n")?;
    }
    Ok(tree)
}

#[test]
fn a_tree_has_at_most_a_hundred_instructions(rt: HostRuntime) -> Result<(), Fail> {
    let alloc = rt.alloc();
    let ran = ran_of(
        Program::Compose,
        alloc,
        &[],
        &long_tree(alloc, 100)?,
        65_536,
        &[],
        &[],
    )?;
    assert!(&rt; ran.bytes.starts_with(b"0x0491010a0a"));
    let ran = ran_of(
        Program::Compose,
        alloc,
        &[],
        &long_tree(alloc, 101)?,
        65_536,
        &[],
        &[],
    )?;
    assert!(&rt;
        ran.has(
            Status::Done,
            b"line 102 refused, expected at most 100 instructions\n"
        )
    );
    Ok(())
}

#[test]
fn text_that_is_not_utf_8_is_refused_in_its_line(rt: HostRuntime) -> Result<(), Fail> {
    let right = answers(
        Program::Compose,
        rt.alloc(),
        &[],
        PIECES,
        b"message 1 version 4\n  Clear\xffOrigin\n",
        Status::Done,
        b"line 2 refused, expected the line as explain writes it\n",
    )?;
    assert!(&rt; right);
    Ok(())
}

/// Words, none of which the program has.
const WORDS: &[&[&str]] = &[&[""], &["compose"], &["--help", "04"]];

#[test]
fn a_word_is_answered_by_the_usage_line_of_compose(rt: HostRuntime) -> Result<(), Fail> {
    for words in WORDS {
        let right = answers(
            Program::Compose,
            rt.alloc(),
            words,
            PIECES,
            b"message 1 version 4\n",
            Status::Usage,
            b"usage: compose < FILE\n",
        )?;
        assert!(&rt; right, "{} words", words.len());
    }
    Ok(())
}

#[test]
fn a_line_past_its_limit_ends_a_composition(rt: HostRuntime) -> Result<(), Fail> {
    let alloc = rt.alloc();
    let mut input = b"message 1 version 4\n#\n".to_vec(alloc)?;
    input.extend_from_slice(&vec![in alloc; b'#'; 262_145]?)?;
    let ran = ran_of(Program::Compose, alloc, &[], &input, 65_536, &[], &[])?;
    assert!(&rt; ran.has(Status::TooLong, b"0x0400\n"));
    Ok(())
}

#[test]
fn a_failing_source_leaves_the_answers_of_trees_that_ended(rt: HostRuntime) -> Result<(), Fail> {
    let alloc = rt.alloc();
    // a byte at a time, the read after the second line's end fails
    let ran = ran_of(
        Program::Compose,
        alloc,
        &[],
        b"message 1 version 4\n\nm",
        1,
        &[22],
        &[],
    )?;
    assert!(&rt; ran.has(Status::ReadFault, b"0x0400\n"));
    let ran = ran_of(
        Program::Compose,
        alloc,
        &[],
        b"message 1 version 4\n\nm",
        1,
        &[21],
        &[],
    )?;
    assert!(&rt; ran.has(Status::ReadFault, b""));
    Ok(())
}

/// Whether it is done, with the whole text, or ends in a failing write, with a shorter prefix of it.
fn is_cut(ran: &Ran, whole: &[u8]) -> bool {
    if ran.status == Status::Done {
        return ran.bytes.as_slice() == whole;
    }
    ran.status == Status::WriteFault
        && ran.bytes.len() < whole.len()
        && whole.starts_with(&ran.bytes)
}

#[test]
fn a_failing_sink_leaves_a_front_of_the_answers(rt: HostRuntime) -> Result<(), Fail> {
    let alloc = rt.alloc();
    let input = b"message 1 version 4\nmessage 1 version 3\n  Clear\n";
    let whole = ran_of(Program::Compose, alloc, &[], input, 16, &[], &[])?;
    for failing in 1u64..9 {
        let ran = ran_of(Program::Compose, alloc, &[], input, 16, &[], &[failing])?;
        assert!(&rt; is_cut(&ran, &whole.bytes), "at write {failing}");
    }
    Ok(())
}
