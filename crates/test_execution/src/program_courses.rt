//! What is shown, each on a chain of its own.
ghost use Rattle.exec_rules.specs.Readiness.{IsAtRest};
ghost use Rattle.test_execution.specs.PartOf.{fake_part_of};

use crate::FakeHost;
use crate::fake_chain::{opened, rules};
use crate::fake_host_rows::are_trapped;
use crate::program_rows::{MESSAGES, are_booked, are_claimed, are_flagged, is_told};
use std::alloc::Global;
use std::test::Fail;
use xcm_executor::ChainRules;

/// What the calls on a chain show.
#[derive(Clone, Copy)]
enum Course<'a> {
    /// What no account takes is trapped and claimed.
    Trapped,
    /// The flag is of the first instruction.
    Flagged,
    /// What no account takes is claimed once by a program.
    Claimed,
    /// What a program burns is booked.
    Booked,
    /// A message, and what it tells.
    Told(&'a str, &'a str),
}

/// Whether the calls of the course answer as they should on a chain that has just opened.
fn goes(
    alloc: Global,
    host: &mut FakeHost,
    rules: &ChainRules,
    course: Course<'_>,
) -> Result<bool, Fail>
    requires rest { IsAtRest (fake_part_of host.old) }
{
    match course {
        Course::Trapped => are_trapped(alloc, host),
        Course::Flagged => are_flagged(alloc, host, rules),
        Course::Claimed => are_claimed(alloc, host, rules),
        Course::Booked => are_booked(alloc, host, rules),
        Course::Told(message, text) => is_told(alloc, host, rules, message, text),
    }
}

/// The courses of more than one message.
const COURSES: &[Course<'_>] = &[
    Course::Trapped,
    Course::Flagged,
    Course::Claimed,
    Course::Booked,
];

/// Whether the course goes as it should on a new chain. Here alone a chain ends, which is expensive to prove.
fn is_right(alloc: Global, course: Course<'_>) -> Result<bool, Fail> {
    let rules = rules(alloc)?;
    let mut host = opened(alloc)?;
    goes(alloc, &mut host, &rules, course)
}

#[test]
fn programs_and_calls_answer_as_worked_out(rt: HostRuntime) -> Result<(), Fail> {
    for (message, text) in MESSAGES {
        assert!(rt;
            is_right(rt.alloc(), Course::Told(message, text))?,
            "{message}"
        );
    }
    for course in COURSES {
        assert!(rt; is_right(rt.alloc(), *course)?);
    }
    Ok(())
}
