//! Traces and outcomes as one text.
use exec_base::{Event, Part};
use std::alloc::{AllocError, Global};
use xcm_program::Outcome;

/// The letter of a part of a run.
fn letter(part: Part) -> &'static str {
    match part {
        Part::Program => "p",
        Part::Handler => "h",
        Part::Appendix => "a",
    }
}

/// A dash for an empty register, else a plus sign.
fn sign(is_some: bool) -> &'static str {
    if is_some { "+" } else { "-" }
}

/// The line of an event: an instruction by its number.
fn line(alloc: Global, event: &Event) -> Result<String, AllocError> {
    match event {
        Event::Ran {
            part,
            index,
            instruction,
            error,
        } => {
            let part = letter(*part);
            match error {
                None => format!(in alloc; "{part}{index} {instruction}; "),
                Some(error) => format!(in alloc; "{part}{index} {instruction} {error}; "),
            }
        }
        Event::Answered { query } => format!(in alloc; "answered {query}; "),
        Event::Called { index, ok } => format!(in alloc; "called {index} {ok}; "),
        Event::Ignored { query } => format!(in alloc; "ignored {query}; "),
        Event::Trapped { number } => format!(in alloc; "trapped {number}; "),
        Event::End {
            origin,
            topic,
            surplus,
            refunded,
        } => {
            let (origin, topic) = (sign(origin.is_some()), sign(topic.is_some()));
            format!(in alloc; "end {origin}{topic} {surplus} {refunded}; ")
        }
        Event::Burned { .. } => format!(in alloc; "burned; "),
        Event::Message { .. } | Event::Sent { .. } => format!(in alloc; "message; "),
    }
}

/// The text of an outcome.
fn outcome_text(alloc: Global, outcome: Outcome) -> Result<String, AllocError> {
    match outcome {
        Outcome::Complete { used } => format!(in alloc; "complete {used}"),
        Outcome::Incomplete { used, error } => format!(in alloc; "incomplete {used} {error}"),
        Outcome::Error { error } => format!(in alloc; "error {error}"),
    }
}

/// The lines of events, but for the first ones that were told before, and then the outcome.
pub(crate) fn report(
    alloc: Global,
    events: &[Event],
    before: usize,
    outcome: Outcome,
) -> Result<String, AllocError> {
    let mut text = String::new(alloc);
    for event in events.iter().skip(before) {
        text.push_str(line(alloc, event)?.as_str())?;
    }
    text.push_str(outcome_text(alloc, outcome)?.as_str())?;
    Ok(text)
}
