//! Lines, words, and how a run ends.

use crate::running::{AUDIT, PIECES, Program, RUN, answers};
use std::alloc::Global;
use std::test::Fail;
use xcm_cli::Status;

/// Inputs, with their answer and report.
const INPUTS: &[(&str, Status, &str)] = &[
    ("{}", Status::Done, "coherent\n"),
    (" { }\n---", Status::Done, "coherent\n"),
    ("{}\r\n---\r\n# no step\r\n\r\n", Status::Done, "coherent\n"),
    ("{\"chains\":[]}", Status::Done, "coherent\n"),
    (
        "",
        Status::NetworkRefused,
        "network refused: NotJson at top 0\n",
    ),
    (
        "[]\n---\n",
        Status::NetworkRefused,
        "network refused: WrongKind at top 0\n",
    ),
    // what follows a network that is refused isn't read
    (
        "{\"chain\":[]}\n---\nexec relay zz 04\n",
        Status::NetworkRefused,
        "network refused: UnknownField at top 0\n",
    ),
    // a carriage return at the end of the input ends no line
    (
        "{}\n---\r",
        Status::NetworkRefused,
        "network refused: NotJson at top 0\n",
    ),
    (
        "{\n}\n---\n\n\ndrain",
        Status::Done,
        "coherent\n#1 drain\n  drained 0\n",
    ),
];

/// Lines after a relay chain without assets, with their answer and report.
const LINES: &[(&str, Status, &str)] = &[
    (
        "exec relay zz 04\n",
        Status::LineRefused,
        "coherent\nline 3 refused\n",
    ),
    (
        "\n\ndrains",
        Status::LineRefused,
        "coherent\nline 5 refused\n",
    ),
    ("\r", Status::LineRefused, "coherent\nline 3 refused\n"),
    ("drain\r", Status::LineRefused, "coherent\nline 3 refused\n"),
    (
        "balances\ntraps\r\n#\nqueues\nsupply\ndrain\n",
        Status::Done,
        "coherent\n#1 balances\n#2 traps\n#3 queues\n#4 supply\n#5 drain\n  drained 0\n",
    ),
    (
        "balances \n",
        Status::LineRefused,
        "coherent\nline 3 refused\n",
    ),
    (
        "deliver relay  2000\n",
        Status::LineRefused,
        "coherent\nline 3 refused\n",
    ),
    (
        "exec 9 0101010101010101010101010101010101010101010101010101010101010101 00\n",
        Status::Done,
        "coherent\n#1 exec 9\n  = no such chain\n",
    ),
    (
        "exec 09 0101010101010101010101010101010101010101010101010101010101010101 00\n",
        Status::LineRefused,
        "coherent\nline 3 refused\n",
    ),
    (
        "exec relay 0101010101010101010101010101010101010101010101010101010101010101 \n",
        Status::LineRefused,
        "coherent\nline 3 refused\n",
    ),
    (
        "exec relay 0101010101010101010101010101010101010101010101010101010101010101 0\n",
        Status::LineRefused,
        "coherent\nline 3 refused\n",
    ),
    (
        "exec 4294967295 0101010101010101010101010101010101010101010101010101010101010101 0x\n---\n",
        Status::LineRefused,
        "coherent\n#1 exec 4294967295\n  = no such chain\nline 4 refused\n",
    ),
];

/// Whether lines after a relay chain without assets have this answer and this report, with the sums after each step and without.
fn are_answered(alloc: Global, lines: &str, status: Status, report: &str) -> Result<bool, Fail> {
    let input = format!(in alloc; "{{}}\n---\n{lines}")?;
    let (input, report) = (input.as_bytes(), report.as_bytes());
    Ok(
        answers(
            Program::Rudderrusset,
            alloc,
            RUN,
            PIECES,
            input,
            status,
            report,
        )? && answers(
            Program::Rudderrusset,
            alloc,
            AUDIT,
            PIECES,
            input,
            status,
            report,
        )?,
    )
}

#[test]
fn inputs_have_their_reports(rt: HostRuntime) -> Result<(), Fail> {
    let alloc = rt.alloc();
    for (input, status, report) in INPUTS {
        let (bytes, lines) = (input.as_bytes(), report.as_bytes());
        assert!(&rt;
            answers(
                Program::Rudderrusset,
                alloc,
                RUN,
                PIECES,
                bytes,
                *status,
                lines
            )?,
            "{input}"
        );
    }
    for (lines, status, report) in LINES {
        assert!(&rt; are_answered(alloc, lines, *status, report)?, "{lines}");
    }
    Ok(())
}

/// The statuses, and their numbers.
const STATUSES: &[(Status, u8)] = &[
    (Status::Done, 0),
    (Status::Usage, 2),
    (Status::NetworkRefused, 3),
    (Status::LineRefused, 4),
    (Status::ReadFault, 5),
    (Status::WriteFault, 6),
    (Status::TooLong, 7),
];

#[test]
fn statuses_have_their_numbers(rt: HostRuntime) {
    for (status, code) in STATUSES {
        assert!(&rt; status.code() == *code, "{code}");
    }
}
