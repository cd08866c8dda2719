//! All tables of inputs, and messages and lines by what they have in common.

use crate::calls::{CALLS, REMARKS};
use crate::crowds::{CROWDS, DRAINED};
use crate::deliveries::{DELIVERIES, DELIVERY_FEES, QUERIES};
use crate::faults::LIMITS;
use crate::holdings::HOLDINGS;
use crate::hostile::{HOSTILE, LIMITED, NESTED, REFUSED_LINES};
use crate::locks::LOCKS;
use crate::messages::{LONG, MESSAGES};
use crate::openings::{OPENINGS, REFUSED};
use crate::parts::check_grown;
use crate::pools::{ENDS, EXCHANGES};
use crate::running::{AUDIT, PIECES, Program, RUN, Row, answers, check_rows};
use crate::teleports::{CHECKED, LOST};
use crate::transfers::{AUDITED, PAYMENTS, TRANSFERS, UNSENT};
use std::alloc::Global;
use std::process::Abort;
use std::test::Fail;
use xcm_cli::Status;

/// What comes before a message that the first account executes on the relay chain.
pub(crate) const EXECUTE: &str =
    "exec relay 0x0101010101010101010101010101010101010101010101010101010101010101 ";

/// What is written of a relay chain without assets, before what a message does there.
pub(crate) const STEP: &str = "coherent\n#1 exec relay\n";

/// What is written where bytes are no message.
pub(crate) const NOT_A_MESSAGE: &str = "  = message refused: not a message\n";

/// Lines that begin alike after a network, and reports that begin alike.
pub(crate) struct Table {
    pub(crate) network: &'static str,
    pub(crate) before: &'static str,
    pub(crate) status: Status,
    pub(crate) opening: &'static str,
    /// The rest of a line, and the rest of its report.
    pub(crate) rows: &'static [(&'static str, &'static str)],
}

/// Whether the line has its answer and its report, however the bytes are cut.
fn is_right(alloc: Global, table: &Table, rest: &str, lines: &str) -> Result<bool, Fail> {
    let input = format!(in alloc; "{}\n---\n{}{rest}\n", table.network, table.before)?;
    let report = format!(in alloc; "{}{lines}", table.opening)?;
    let (input, report) = (input.as_bytes(), report.as_bytes());
    answers(
        Program::Rudderrusset,
        alloc,
        RUN,
        PIECES,
        input,
        table.status,
        report,
    )
}

/// Each line has its answer and its report.
fn check_table(rt: &impl Abort, alloc: Global, table: &Table) -> Result<(), Fail> {
    for (rest, lines) in table.rows {
        assert!(rt; is_right(alloc, table, rest, lines)?, "{rest}");
    }
    Ok(())
}

/// Each table's lines have their answers and their reports.
fn check_tables(rt: &impl Abort, alloc: Global, tables: &[Table]) -> Result<(), Fail> {
    for table in tables {
        check_table(rt, alloc, table)?;
    }
    Ok(())
}

#[test]
fn messages_have_their_reports(rt: HostRuntime) -> Result<(), Fail> {
    check_tables(&rt, rt.alloc(), MESSAGES)
}

#[test]
fn hostile_messages_have_their_reports(rt: HostRuntime) -> Result<(), Fail> {
    check_tables(&rt, rt.alloc(), HOSTILE)
}

#[test]
fn messages_at_their_limits_have_their_reports(rt: HostRuntime) -> Result<(), Fail> {
    check_tables(&rt, rt.alloc(), LIMITED)
}

#[test]
fn hostile_lines_have_their_reports(rt: HostRuntime) -> Result<(), Fail> {
    check_tables(&rt, rt.alloc(), REFUSED_LINES)
}

#[test]
fn openings_have_their_reports(rt: HostRuntime) -> Result<(), Fail> {
    check_rows(&rt, rt.alloc(), RUN, OPENINGS)
}

#[test]
fn refused_networks_have_their_reports(rt: HostRuntime) -> Result<(), Fail> {
    check_rows(&rt, rt.alloc(), RUN, REFUSED)
}

#[test]
fn payments_have_their_reports(rt: HostRuntime) -> Result<(), Fail> {
    check_rows(&rt, rt.alloc(), RUN, PAYMENTS)
}

#[test]
fn transfers_have_their_reports(rt: HostRuntime) -> Result<(), Fail> {
    check_rows(&rt, rt.alloc(), RUN, TRANSFERS)
}

#[test]
fn audited_steps_have_their_reports(rt: HostRuntime) -> Result<(), Fail> {
    check_rows(&rt, rt.alloc(), AUDIT, AUDITED)
}

#[test]
fn unsent_messages_have_their_reports(rt: HostRuntime) -> Result<(), Fail> {
    check_rows(&rt, rt.alloc(), RUN, UNSENT)
}

#[test]
fn lost_assets_have_their_reports(rt: HostRuntime) -> Result<(), Fail> {
    check_rows(&rt, rt.alloc(), RUN, LOST)
}

#[test]
fn checking_accounts_have_their_reports(rt: HostRuntime) -> Result<(), Fail> {
    check_rows(&rt, rt.alloc(), RUN, CHECKED)
}

#[test]
fn holdings_have_their_reports(rt: HostRuntime) -> Result<(), Fail> {
    check_rows(&rt, rt.alloc(), RUN, HOLDINGS)
}

#[test]
fn deliveries_have_their_reports(rt: HostRuntime) -> Result<(), Fail> {
    check_rows(&rt, rt.alloc(), RUN, DELIVERIES)
}

#[test]
fn queries_have_their_reports(rt: HostRuntime) -> Result<(), Fail> {
    check_rows(&rt, rt.alloc(), RUN, QUERIES)
}

#[test]
fn delivery_fees_have_their_reports(rt: HostRuntime) -> Result<(), Fail> {
    check_rows(&rt, rt.alloc(), RUN, DELIVERY_FEES)
}

#[test]
fn calls_have_their_reports(rt: HostRuntime) -> Result<(), Fail> {
    check_rows(&rt, rt.alloc(), RUN, CALLS)
}

#[test]
fn locks_have_their_reports(rt: HostRuntime) -> Result<(), Fail> {
    check_rows(&rt, rt.alloc(), RUN, LOCKS)
}

#[test]
fn exchanges_have_their_reports(rt: HostRuntime) -> Result<(), Fail> {
    check_rows(&rt, rt.alloc(), RUN, EXCHANGES)
}

#[test]
fn limits_of_devices_have_their_reports(rt: HostRuntime) -> Result<(), Fail> {
    check_grown(&rt, rt.alloc(), LIMITS)
}

#[test]
fn long_messages_have_their_reports(rt: HostRuntime) -> Result<(), Fail> {
    check_grown(&rt, rt.alloc(), LONG)
}

#[test]
fn nested_messages_have_their_reports(rt: HostRuntime) -> Result<(), Fail> {
    check_grown(&rt, rt.alloc(), NESTED)
}

#[test]
fn long_calls_have_their_reports(rt: HostRuntime) -> Result<(), Fail> {
    check_grown(&rt, rt.alloc(), REMARKS)
}

#[test]
fn crowds_have_their_reports(rt: HostRuntime) -> Result<(), Fail> {
    check_grown(&rt, rt.alloc(), CROWDS)
}

#[test]
fn full_channels_are_drained(rt: HostRuntime) -> Result<(), Fail> {
    check_grown(&rt, rt.alloc(), DRAINED)
}

#[test]
fn sixteen_pools_come_to_their_ends(rt: HostRuntime) -> Result<(), Fail> {
    check_grown(&rt, rt.alloc(), ENDS)
}
