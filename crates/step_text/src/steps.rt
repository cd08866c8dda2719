//! The text of a step.

ghost use Rattle.std.specs.Prelude.{◌≡◌, ◌++◌, IfOk, OnOk, codes, decimal, flat_map, string_bytes};
ghost use Rattle.chain_ids.specs.Texts.{chain_text};
ghost use Rattle.operands.specs.Texts.{weight_text};
ghost use Rattle.exec_base.specs.declared.event.Event.{Event};
ghost use Rattle.step_text.specs.Steps.{weights_text, event_line, outcome_line, answer_line, step_text, drained_line};

use crate::assets::{push_origin, push_topic};
use crate::words::{Shown, call_name, call_result, cause_name, kind_name, part_head};
use asset_bundles::{Cause, Total};
use asset_lists::Kind;
use chain_ids::ChainId;
use exec_base::{Event, Part};
use location_wire::path_text;
use locations::{Junctions, Location};
use network_steps::StepResult;
use operands::{Weight, XcmError};
use plain_lists::Boxed;
use std::alloc::{AllocError, Global};
use std::fmt::Write;
use xcm_program::{Outcome, instruction_name_at};

/// Bytes for the lines of most steps, so that their text is seldom moved while it grows.
const ROOM: usize = 512;

/// The text of a step below its heading: a line for each event of its trace, in order, and the line of its answer. Each begins with two
/// spaces. `Err` is out of memory alone.
#[tactic(auto, unfolding(crate::specs::Steps::step_text))]
pub fn step_text(alloc: Global, events: &[Event], answer: &StepResult) -> Result<String, AllocError>
    ensures { IfOk result (λ text. string_bytes text ≡ step_text events.now answer.now) }
{
    let mut text = String::with_capacity(alloc, ROOM)?;
    push_events(alloc, &mut text, events)?;
    push_answer(&mut text, *answer)?;
    Ok(text)
}

/// The last line of a drain that made so many deliveries.
pub fn drained_line(alloc: Global, count: u64) -> Result<String, AllocError>
    ensures { IfOk result (λ text. string_bytes text ≡ drained_line count) }
{
    format!(in alloc; "  drained {count}\n")
}

/// Appends the lines of events.
fn push_events(alloc: Global, text: &mut String, events: &[Event]) -> Result<(), AllocError>
    ensures { OnOk result (string_bytes text.new
        ≡ string_bytes text.old ++ flat_map event_line events.now) }
{
    for event in events {
        push_event(alloc, text, event)?;
    }
    Ok(())
}

/// Appends the line of an event.
#[tactic(auto, unfolding(crate::specs::Steps::event_line))]
fn push_event(alloc: Global, text: &mut String, event: &Event) -> Result<(), AllocError>
    ensures { OnOk result (string_bytes text.new ≡ string_bytes text.old ++ event_line event.now) }
{
    match event {
        Event::Message { from, to, number } => {
            text.push_str("  message ")?;
            push_arrival(text, *from, *to, *number)
        }
        Event::Ran {
            part,
            index,
            instruction,
            error,
        } => push_ran(text, *part, *index, *instruction, *error),
        Event::Sent { from, to, number } => {
            text.push_str("  sent ")?;
            push_arrival(text, *from, *to, *number)
        }
        Event::Burned {
            kind,
            path,
            amount,
            cause,
        } => push_burned(alloc, text, *kind, path.value(), *amount, *cause),
        Event::Answered { query } => write!(text, "  answered {query}\n"),
        Event::Called { index, ok } => {
            let (name, result) = (call_name(*index), call_result(*ok));
            write!(text, "  call {name} {result}\n")
        }
        Event::Ignored { query } => write!(text, "  ignored {query}\n"),
        Event::End {
            origin,
            topic,
            surplus,
            refunded,
        } => push_end(alloc, text, origin, topic, *surplus, *refunded),
        Event::Trapped { number } => write!(text, "  trapped {number}\n"),
    }
}

/// Appends the end of the line of a message on its way: its channel, and its number there.
fn push_arrival(
    text: &mut String,
    from: ChainId,
    to: ChainId,
    number: u64,
) -> Result<(), AllocError>
    ensures { OnOk result (string_bytes text.new
        ≡ string_bytes text.old ++ (chain_text from ++ codes " " ++ chain_text to ++ codes " "
        ++ decimal number ++ codes "\n")) }
{
    push_chain(text, from)?;
    text.push_str(" ")?;
    push_chain(text, to)?;
    text.push_str(" ")?;
    push_number(text, number)?;
    text.push_str("\n")
}

/// Appends the text of a chain.
pub(crate) fn push_chain(text: &mut String, chain: ChainId) -> Result<(), AllocError>
    ensures { OnOk result (string_bytes text.new ≡ string_bytes text.old ++ chain_text chain) }
{
    match chain {
        ChainId::Relay => text.push_str("relay"),
        ChainId::Para(number) => text.push_str(itoa::Buffer::new().format(number)),
    }
}

/// Appends the line of an instruction that ran.
#[tactic(auto, unfolding(crate::specs::Steps::event_line))]
fn push_ran(
    text: &mut String,
    part: Part,
    index: u32,
    instruction: u8,
    error: Option<XcmError>,
) -> Result<(), AllocError>
    ensures { OnOk result (string_bytes text.new
        ≡ string_bytes text.old ++ event_line (Event.Ran part index instruction error)) }
{
    text.push_str(part_head(part))?;
    push_index(text, index)?;
    text.push_str(" ")?;
    text.push_str(instruction_name_at(instruction))?;
    match error {
        None => text.push_str(" ok\n"),
        Some(error) => write!(text, " {error}\n"),
    }
}

/// Appends the index of an instruction.
fn push_index(text: &mut String, index: u32) -> Result<(), AllocError>
    ensures { OnOk result (string_bytes text.new ≡ string_bytes text.old ++ decimal index) }
{
    text.push_str(itoa::Buffer::new().format(index))
}

/// Appends the line of assets that were burned.
#[tactic(auto, unfolding(crate::specs::Steps::event_line))]
fn push_burned(
    alloc: Global,
    text: &mut String,
    kind: Kind,
    path: &Junctions,
    amount: Total,
    cause: Cause,
) -> Result<(), AllocError>
    ensures { OnOk result (string_bytes text.new
        ≡ string_bytes text.old ++ event_line (Event.Burned kind path.now amount cause)) }
{
    let kind = kind_name(kind);
    let path = path_text(alloc, path)?;
    let amount = Shown(amount);
    let cause = cause_name(cause);
    write!(text, "  burned {kind} {path} {amount} {cause}\n")
}

/// Appends the line of the registers at the end of a run.
#[tactic(auto, unfolding(crate::specs::Steps::event_line))]
fn push_end(
    alloc: Global,
    text: &mut String,
    origin: &Option<Boxed<Location>>,
    topic: &Option<[u8; 32]>,
    surplus: Weight,
    refunded: Weight,
) -> Result<(), AllocError>
    ensures { OnOk result (string_bytes text.new
        ≡ string_bytes text.old ++ event_line
        (Event.End origin.now topic.now surplus refunded)) }
{
    text.push_str("  end origin ")?;
    push_origin(alloc, text, origin)?;
    text.push_str(" topic ")?;
    push_topic(alloc, text, topic)?;
    push_weights(text, surplus, refunded)
}

/// Appends the end of the line of the registers: the weights.
fn push_weights(text: &mut String, surplus: Weight, refunded: Weight) -> Result<(), AllocError>
    ensures { OnOk result (string_bytes text.new
        ≡ string_bytes text.old ++ weights_text surplus refunded) }
{
    text.push_str(" surplus ")?;
    push_weight(text, surplus)?;
    text.push_str(" refunded ")?;
    push_weight(text, refunded)?;
    text.push_str("\n")
}

/// Appends a weight.
fn push_weight(text: &mut String, weight: Weight) -> Result<(), AllocError>
    ensures { OnOk result (string_bytes text.new ≡ string_bytes text.old ++ weight_text weight) }
{
    push_number(text, weight.ref_time)?;
    text.push_str(" ")?;
    push_number(text, weight.proof_size)
}

/// Appends a number.
pub(crate) fn push_number(text: &mut String, number: u64) -> Result<(), AllocError>
    ensures { OnOk result (string_bytes text.new ≡ string_bytes text.old ++ decimal number) }
{
    text.push_str(itoa::Buffer::new().format(number))
}

/// Appends the line of an execution that came to its end.
fn push_complete(text: &mut String, used: Weight) -> Result<(), AllocError>
    ensures { OnOk result (string_bytes text.new
        ≡ string_bytes text.old ++ outcome_line (Outcome.Complete used)) }
{
    text.push_str("  = complete ")?;
    push_weight(text, used)?;
    text.push_str("\n")
}

/// Appends the line of how an execution ended.
fn push_outcome(text: &mut String, outcome: Outcome) -> Result<(), AllocError>
    ensures { OnOk result (string_bytes text.new ≡ string_bytes text.old ++ outcome_line outcome) }
{
    match outcome {
        Outcome::Complete { used } => push_complete(text, used),
        Outcome::Incomplete { used, error } => write!(text, "  = incomplete {used} {error}\n"),
        Outcome::Error { error } => write!(text, "  = error {error}\n"),
    }
}

/// Appends the line of what a step answers.
#[tactic(auto, unfolding(crate::specs::Steps::answer_line))]
fn push_answer(text: &mut String, answer: StepResult) -> Result<(), AllocError>
    ensures { OnOk result (string_bytes text.new ≡ string_bytes text.old ++ answer_line answer) }
{
    match answer {
        StepResult::Ran(outcome) => push_outcome(text, outcome),
        StepResult::Empty => write!(text, "  = empty\n"),
        StepResult::NoSuchChain => write!(text, "  = no such chain\n"),
        StepResult::NoSuchChannel => write!(text, "  = no such channel\n"),
        StepResult::SovereignCaller => write!(text, "  = sovereign caller\n"),
        StepResult::Message(fault) => write!(text, "  = message refused: {fault}\n"),
        StepResult::NotAClaim => write!(text, "  = not a claim\n"),
        StepResult::Sent(number) => write!(text, "  = sent {number}\n"),
        StepResult::Unsent(error) => write!(text, "  = not sent: {error}\n"),
    }
}
