//! Words of the command line: steps that are drawn from a number, and what is answered by the usage.

use crate::running::{Program, ran_of};
use std::alloc::Global;
use std::test::Fail;
use xcm_cli::Status;

const USAGE: &str = "usage: run | run --audit | gen NUMBER STEPS\n";

/// Words that ask for so many steps after a number, and the report.
const DRAWN: &[(&[&str], &str)] = &[
    (
        &["gen", "0", "0"],
        "gen 0 0
complete 0 incomplete 0 error 0 empty 0
  supply fungible /GlobalConsensus(Polkadot) home 1000000 flight 0 burned 0
  backing 2000 fungible /GlobalConsensus(Polkadot) held 0 owed 0
  backing 2001 fungible /GlobalConsensus(Polkadot) held 0 owed 0
",
    ),
    (
        &["gen", "18446744073709551615", "50"],
        "gen 18446744073709551615 50
complete 28 incomplete 6 error 0 empty 16
  supply fungible /GlobalConsensus(Polkadot) home 1000000 flight 0 burned 0
  backing 2000 fungible /GlobalConsensus(Polkadot) held 2434 owed 2434
  backing 2001 fungible /GlobalConsensus(Polkadot) held 3769 owed 3769
",
    ),
    (
        &["gen", "1", "100000"],
        "gen 1 100000
complete 7551 incomplete 46648 error 0 empty 45801
  supply fungible /GlobalConsensus(Polkadot) home 1000000 flight 0 burned 0
  backing 2000 fungible /GlobalConsensus(Polkadot) held 14927 owed 14927
  backing 2001 fungible /GlobalConsensus(Polkadot) held 9251 owed 9251
",
    ),
];

/// Words of numbers and steps that there aren't, and words that the program doesn't have.
const OTHERS: &[&[&str]] = &[
    &["gen", "1", ""],
    &["gen", "", "1"],
    &["gen", "1", "100001"],
    &["gen", "18446744073709551616", "1"],
    &["gen", "01", "1"],
    &["gen", "1", "01"],
    &["gen", "+1", "1"],
    &["gen", "1", "-1"],
    &["gen", "0x1", "1"],
    &["run", "now"],
    &["run", "--audit", "now"],
    &["--audit", "run"],
    &["Run"],
    &[""],
    &[],
    &["--help"],
    &["--version"],
    &["gen"],
    &["gen", "1"],
    &["gen", "1", "1", "1"],
    &["Gen", "1", "1"],
];

/// Whether nothing is read with these words, and this is answered and written.
fn is_answered(alloc: Global, words: &[&str], status: Status, report: &str) -> Result<bool, Fail> {
    let ran = ran_of(Program::Rudderrusset, alloc, words, b"{}", 4096, &[1], &[])?;
    Ok(ran.has(status, report.as_bytes()))
}

#[test]
fn drawn_steps_are_run_and_counted(rt: HostRuntime) -> Result<(), Fail> {
    for (words, report) in DRAWN {
        assert!(&rt;
            is_answered(rt.alloc(), words, Status::Done, report)?,
            "{report}"
        );
    }
    Ok(())
}

#[test]
fn other_words_are_answered_by_the_usage(rt: HostRuntime) -> Result<(), Fail> {
    for words in OTHERS {
        assert!(&rt; is_answered(rt.alloc(), words, Status::Usage, USAGE)?);
    }
    Ok(())
}
