//! Bytes that are JSON or not.
use crate::reading::{all_are, said};
use std::alloc::Global;
use std::test::Fail;

#[test]
fn what_is_no_json_is_said_at_the_top(rt: HostRuntime) -> Result<(), Fail> {
    let alloc = rt.alloc();
    all_are(
        &rt,
        alloc,
        &[
            ("", "NotJson at top 0"),
            ("{", "NotJson at top 0"),
            ("{}x", "NotJson at top 0"),
            ("\u{feff}{}", "NotJson at top 0"),
            (r#"{"format":1e400}"#, "NotJson at top 0"),
            (r#"{"network":"\ud800"}"#, "NotJson at top 0"),
            ("[]", "WrongKind at top 0"),
            ("null", "WrongKind at top 0"),
            ("7", "WrongKind at top 0"),
            (" { }\r\n", "read"),
        ],
    )?;
    assert_eq!(rt; said(alloc, b"\"\xff\"")?.as_str(), "NotJson at top 0");
    Ok(())
}

#[test]
fn numbers_are_whole_and_unsigned(rt: HostRuntime) -> Result<(), Fail> {
    all_are(
        &rt,
        rt.alloc(),
        &[
            (r#"{"format":1}"#, "read"),
            (r#"{"format":-0}"#, "WrongKind at top 0"),
            (r#"{"format":1.0}"#, "WrongKind at top 0"),
            (r#"{"format":1e0}"#, "WrongKind at top 0"),
            (r#"{"format":-1}"#, "WrongKind at top 0"),
            (r#"{"format":18446744073709551616}"#, "WrongKind at top 0"),
            (r#"{"format":18446744073709551615}"#, "BadValue at top 0"),
        ],
    )
}

#[test]
fn the_last_of_a_repeated_name_counts(rt: HostRuntime) -> Result<(), Fail> {
    all_are(
        &rt,
        rt.alloc(),
        &[
            (r#"{"format":"x","format":1}"#, "read"),
            (r#"{"format":1,"format":"x"}"#, "WrongKind at top 0"),
        ],
    )
}

/// So many arrays, one in another.
fn nested(alloc: Global, levels: usize) -> Result<String, Fail> {
    let mut text = String::new(alloc);
    for _ in 0..levels {
        text.push_str("[")?;
    }
    for _ in 0..levels {
        text.push_str("]")?;
    }
    Ok(text)
}

#[test]
fn arrays_nest_127_deep(rt: HostRuntime) -> Result<(), Fail> {
    let alloc = rt.alloc();
    assert_eq!(rt;
        said(alloc, nested(alloc, 127)?.as_bytes())?.as_str(),
        "WrongKind at top 0"
    );
    assert_eq!(rt;
        said(alloc, nested(alloc, 128)?.as_bytes())?.as_str(),
        "NotJson at top 0"
    );
    Ok(())
}
