//! Programs at one chain: for a local account, and for the sender of a message.
ghost use Rattle.std.specs.Prelude.{◌≡◌, ◌≢◌, IsTrue, IfOk, OnOk, OnErr, List};
ghost use Rattle.asset_lists.specs.Listed.{Listed};
ghost use Rattle.weight_trader.specs.Purchases.{no_weight};
ghost use Rattle.versioned_xcm.specs.Reading.{message_of};
ghost use Rattle.chain_queues.specs.Decoded.{decodes, program_read};
ghost use Rattle.chain_queues.specs.Queues.{waiting_of};
ghost use Rattle.exec_base.specs.Sending.{IsForwardable};
ghost use Rattle.exec_base.specs.Host.{told};
ghost use Rattle.exec_base.specs.declared.event.Event.TheVariants as events;
ghost use Rattle.channel_parts.specs.declared.cargo.Cargo.TheVariants.{Nothing};
ghost use Rattle.exec_rules.specs.Readiness.{IsAtRest};
ghost use Rattle.exec_rules.specs.Execution.{executed};
ghost use Rattle.network_steps.specs.Acting as acting;
ghost use Rattle.network_steps.specs.Acting.{begun, acted};
ghost use Rattle.network_steps.specs.Steps.{name_at};
ghost use Rattle.chain_state.specs.PartOf.{part_of};
ghost use Rattle.chain_net.specs.Sound.{IsBetweenSteps, IsListedCargo};
ghost use Rattle.law_nets.specs.Stops.{IsStoppedHere, arrived, IsStoppedThere};
ghost use Rattle.chain_net.specs.Answers.{IsActed, IsUnread};

use chain_ids::ChainId;
use chain_queues::{Cargo, Queued};
use chain_state::ChainState;
use exec_base::{Event, Host};
use exec_rules::ChainRules;
use locations::{Junction, Junctions, Location};
use network_steps::law_of_decoded_programs;
use operands::Weight;
use std::alloc::{AllocError, Global};
use trust_tables::location_of;
use versioned_xcm::{MessageFault, decode_message};
use xcm_executor::execute;
use xcm_program::{Outcome, Program};

/// The location of a local caller.
fn caller(account: &[u8; 32]) -> Location
    ensures { result ≡ acting.caller account.now }
{
    let mut interior = Junctions::empty();
    match interior.push(Junction::AccountId32 {
        network: None,
        id: *account,
    }) {
        Ok(()) => {}
        Err(_) => unreachable!(),
    }
    Location {
        parents: 0,
        interior,
    }
}

/// Executes a program for a local account.
pub(crate) fn run_here(
    alloc: Global,
    rules: &ChainRules,
    account: &[u8; 32],
    program: Program,
    here: &mut ChainState,
) -> Result<Outcome, AllocError>
    requires between { IsBetweenSteps (part_of here.old) }
    requires forwardable { IsForwardable program }
    ensures outcome { IfOk result (λ outcome. outcome
        ≡ (acted rules.now (acting.caller account.now) rules.now.limit program
        (begun (part_of here.old).site.chain Nothing (part_of here.old))).outcome) }
    ensures part { OnOk result (part_of here.new
        ≡ (acted rules.now (acting.caller account.now) rules.now.limit program
        (begun (part_of here.old).site.chain Nothing (part_of here.old))).part) }
    ensures between { OnOk result (IsBetweenSteps (part_of here.new)) }
    ensures stopped { OnErr result (IsStoppedHere rules.now account.now program (part_of here.old)
        (part_of here.new)) }
    ensures place { (part_of here.new).site ≡ (part_of here.old).site }
{
    let chain = here.site().chain;
    here.begin(chain, Cargo::Nothing);
    let ran = execute(alloc, &caller(account), program, rules, rules.limit, here);
    let _ = here.finish();
    let (outcome, _) = ran?;
    Ok(outcome)
}

/// Reads a message from another chain, tells of it, and executes its program for that chain.
fn run_bytes(
    alloc: Global,
    rules: &ChainRules,
    from: ChainId,
    number: u64,
    bytes: &[u8],
    there: &mut ChainState,
) -> Result<Outcome, AllocError>
    requires message { IsTrue (decodes bytes.now) }
    requires other { (part_of there.old).site.chain ≢ from }
    requires rest { IsAtRest (part_of there.old) }
    ensures outcome { IfOk result (λ outcome. outcome
        ≡ (executed rules.now (name_at (part_of there.old).site.chain from) no_weight
        (program_read (message_of bytes.now))
        (told (part_of there.old) (events.Message from (part_of there.old).site.chain
        number))).0.0) }
    ensures part { OnOk result (part_of there.new
        ≡ (executed rules.now (name_at (part_of there.old).site.chain from) no_weight
        (program_read (message_of bytes.now))
        (told (part_of there.old) (events.Message from (part_of there.old).site.chain
        number))).1) }
    ensures rests { OnOk result (IsAtRest (part_of there.new)) }
    ensures stopped { OnErr result (IsUnread rules.now (name_at (part_of there.old).site.chain from)
        (program_read (message_of bytes.now)) (part_of there.old)
        (told (part_of there.old) (events.Message from (part_of there.old).site.chain number))
        (part_of there.new)) }
{
    law_of_decoded_programs(); // For the prover alone.
    let program = match decode_message(alloc, bytes) {
        Ok(program) => program,
        Err(MessageFault::Memory) => return Err(AllocError),
        Err(_) => unreachable!(),
    };
    let here = there.site().chain;
    there.event(Event::Message {
        from,
        to: here,
        number,
    })?;
    let (outcome, _) = execute(
        alloc,
        &location_of(here, from),
        program,
        rules,
        Weight::ZERO,
        there,
    )?;
    Ok(outcome)
}

/// Has a message of another chain executed there. The answer is the outcome, and what no instruction took of the cargo.
pub(crate) fn run_message(
    alloc: Global,
    rules: &ChainRules,
    from: ChainId,
    queued: Queued,
    there: &mut ChainState,
) -> (Result<Outcome, AllocError>, Cargo)
    requires between { IsBetweenSteps (part_of there.old) }
    requires other { (part_of there.old).site.chain ≢ from }
    requires carried { (listed : List Listed) × IsListedCargo listed queued.cargo }
    ensures ran { IfOk result.0
        (λ outcome. IsActed (acted rules.now (name_at (part_of there.old).site.chain from) no_weight
        (waiting_of queued).program (arrived from (part_of there.old) (waiting_of queued)))
        outcome result.1 (part_of there.new)) }
    ensures between { OnOk result.0 (IsBetweenSteps (part_of there.new)) }
    ensures listed { (listed : List Listed)
        → IsListedCargo listed queued.cargo → IsListedCargo listed result.1 }
    ensures place { (part_of there.new).site ≡ (part_of there.old).site }
    ensures stopped { OnErr result.0 (IsStoppedThere rules.now from (waiting_of queued)
        (part_of there.old) (part_of there.new) result.1) }
{
    let Queued {
        number,
        bytes,
        cargo,
    } = queued;
    there.begin(from, cargo);
    let ran = run_bytes(alloc, rules, from, number, bytes.as_slice(), there);
    let left = there.finish();
    (ran, left)
}
