//! Steps that are refused, and openings of networks that aren't coherent.
use crate::documents::{COHERENT, RESERVE};
use crate::stepping::check;
use std::test::Fail;

/// No program runs.
const REFUSED: &[(&str, &str)] = &[
    ("exec relay PARA 04041914", "  = sovereign caller\n"),
    ("exec 9 A1 04041914", "  = no such chain\n"),
    ("exec 9 PARA 05", "  = no such chain\n"),
    ("exec relay PARA 05", "  = sovereign caller\n"),
    ("exec relay A1 05", "  = message refused: unknown version\n"),
    (
        "exec relay A1 0404191500",
        "  = message refused: not a message\n",
    ),
    ("deliver relay 2000", "  = empty\n"),
    ("deliver 2000 2001", "  = no such channel\n"),
    ("deliver relay 9", "  = no such chain\n"),
    ("deliver 9 relay", "  = no such chain\n"),
    ("claim 2000 2001 05", "  = no such channel\n"),
    (
        "claim 2000 relay 05",
        "  = message refused: unknown version\n",
    ),
    ("claim 2000 relay 04041914", "  = not a claim\n"),
];

#[test]
fn steps_are_refused_before_a_program_runs(rt: HostRuntime) -> Result<(), Fail> {
    check(&rt, rt.alloc(), RESERVE, COHERENT, REFUSED)
}

/// Networks that aren't coherent, and what is said of them.
const INCOHERENT: &[(&str, &str)] = &[
    (
        r#"{"chains":[
{"assets":[{"id":"0","native":[]}],
 "accounts":[{"who":"A1","asset":"0","amount":"1000000"}]},
{"para":2000,"assets":[{"id":"1","reserve":"relay"}]},
{"para":2001,"assets":[{"id":"1","reserve":2000}]}]}"#,
        "not coherent: ReserveUnlisted 2001 2000\n",
    ),
    (
        r#"{"chains":[
{"assets":[{"id":"0","native":[]}],
 "accounts":[{"who":"A1","asset":"0","amount":"1000000"}]},
{"para":2000,"assets":[{"id":"1","reserve":"relay"}],
 "accounts":[{"who":"A2","asset":"1","amount":"1"}]},
{"para":2001,"assets":[{"id":"1","reserve":"relay"}]}]}"#,
        "not coherent: NotBacked 2000 relay\n",
    ),
];

#[test]
fn networks_that_are_not_coherent_say_why(rt: HostRuntime) -> Result<(), Fail> {
    for (document, opening) in INCOHERENT {
        check(&rt, rt.alloc(), document, opening, &[])?;
    }
    Ok(())
}
