//! Headings, events and answers.

use crate::values::{FIRST, account};
use asset_bundles::{Cause, Total};
use asset_lists::Kind;
use chain_ids::ChainId;
use exec_base::{Event, Part};
use input_lines::{Line, read_line};
use locations::{Junction, Junctions, NetworkId};
use network_steps::StepResult;
use operands::{Weight, XcmError};
use plain_lists::Boxed;
use std::alloc::{AllocError, Global};
use std::test::Fail;
use step_text::{drained_line, heading, law_of_names_by_number, step_text};
use versioned_xcm::MessageFault;
use xcm_program::{Outcome, OutcomeError};

const RELAY: ChainId = ChainId::Relay;

const PARA: ChainId = ChainId::Para(2000);

/// Lines, and the headings of their steps under the number 12.
const HEADINGS: [(&str, &str); 8] = [
    (
        "exec relay 0101010101010101010101010101010101010101010101010101010101010101 0x",
        "#12 exec relay\n",
    ),
    ("deliver relay 2000", "#12 deliver relay 2000\n"),
    ("claim 2000 relay 0x", "#12 claim 2000 relay\n"),
    ("drain", "#12 drain\n"),
    ("balances", "#12 balances\n"),
    ("traps", "#12 traps\n"),
    ("queues", "#12 queues\n"),
    ("supply", "#12 supply\n"),
];

/// What steps answer, and the lines of that.
const ANSWERS: [(StepResult, &str); 16] = [
    (
        StepResult::Ran(Outcome::Complete {
            used: Weight {
                ref_time: 4000,
                proof_size: 400,
            },
        }),
        "  = complete 4000 400\n",
    ),
    (
        StepResult::Ran(Outcome::Incomplete {
            used: Weight {
                ref_time: 1000,
                proof_size: 100,
            },
            error: OutcomeError::Xcm(XcmError::Trap(5)),
        }),
        "  = incomplete 1000 100 Trap(5)\n",
    ),
    (
        StepResult::Ran(Outcome::Incomplete {
            used: Weight {
                ref_time: 2000,
                proof_size: 200,
            },
            error: OutcomeError::Barrier,
        }),
        "  = incomplete 2000 200 Barrier\n",
    ),
    (
        StepResult::Ran(Outcome::Error {
            error: OutcomeError::WeightNotComputable,
        }),
        "  = error WeightNotComputable\n",
    ),
    (
        StepResult::Ran(Outcome::Error {
            error: OutcomeError::WeightLimitReached,
        }),
        "  = error WeightLimitReached\n",
    ),
    (StepResult::Empty, "  = empty\n"),
    (StepResult::NoSuchChain, "  = no such chain\n"),
    (StepResult::NoSuchChannel, "  = no such channel\n"),
    (StepResult::SovereignCaller, "  = sovereign caller\n"),
    (StepResult::NotAClaim, "  = not a claim\n"),
    (
        StepResult::Sent(u64::MAX),
        "  = sent 18446744073709551615\n",
    ),
    (
        StepResult::Unsent(XcmError::Transport),
        "  = not sent: Transport\n",
    ),
    (
        StepResult::Message(MessageFault::TooLong),
        "  = message refused: too long\n",
    ),
    (
        StepResult::Message(MessageFault::UnknownVersion),
        "  = message refused: unknown version\n",
    ),
    (
        StepResult::Message(MessageFault::NotAMessage),
        "  = message refused: not a message\n",
    ),
    (
        StepResult::Message(MessageFault::NotConvertible),
        "  = message refused: not convertible\n",
    ),
];

/// Instructions that ran, and their lines.
const RAN: [(Part, u32, u8, Option<XcmError>, &str); 6] = [
    (Part::Program, 0, 5, None, "  p0 TransferReserveAsset ok\n"),
    (
        Part::Program,
        1,
        13,
        Some(XcmError::FailedToTransactAsset),
        "  p1 DepositAsset FailedToTransactAsset\n",
    ),
    (
        Part::Program,
        2,
        25,
        Some(XcmError::Trap(7)),
        "  p2 Trap Trap(7)\n",
    ),
    (Part::Handler, 0, 23, None, "  h0 ClearError ok\n"),
    (Part::Appendix, 99, 10, None, "  a99 ClearOrigin ok\n"),
    (Part::Program, 0, 47, None, "  p0 UnpaidExecution ok\n"),
];

/// Totals of burns, and how a line shows them.
const TOTALS: [(Total, &str); 3] = [
    (Total { high: 0, low: 100 }, "100"),
    (
        Total {
            high: 0,
            low: u128::MAX,
        },
        "340282366920938463463374607431768211455",
    ),
    (Total { high: 1, low: 0 }, "over"),
];

#[test]
fn steps_have_their_headings(rt: HostRuntime) -> Result<(), Fail> {
    for (line, want) in HEADINGS {
        let Line::Step(step) = read_line(rt.alloc(), line.as_bytes())? else {
            return Err(Fail::new("no step"));
        };
        let text = heading(rt.alloc(), 12, &step)?;
        assert_eq!(rt; text.as_str(), want);
    }
    let text = drained_line(rt.alloc(), 3)?;
    assert_eq!(rt; text.as_str(), "  drained 3\n");
    law_of_names_by_number();
    Ok(())
}

#[test]
fn answers_have_their_lines(rt: HostRuntime) -> Result<(), Fail> {
    for (answer, want) in ANSWERS {
        let text = step_text(rt.alloc(), &[], &answer)?;
        assert_eq!(rt; text.as_str(), want);
    }
    Ok(())
}

/// The text of a step with this one event, whose channel is empty.
fn told(alloc: Global, event: Event) -> Result<String, AllocError> {
    step_text(alloc, &[event], &StepResult::Empty)
}

#[test]
fn instructions_have_their_lines(rt: HostRuntime) -> Result<(), Fail> {
    for (part, index, instruction, error, want) in RAN {
        let event = Event::Ran {
            part,
            index,
            instruction,
            error,
        };
        let text = told(rt.alloc(), event)?;
        let want = format!(in rt.alloc(); "{want}  = empty\n")?;
        assert_eq!(rt; text.as_str(), want.as_str());
    }
    Ok(())
}

#[test]
fn burns_have_their_lines(rt: HostRuntime) -> Result<(), Fail> {
    for (amount, shown) in TOTALS {
        let network = Junctions::from_few(&[Junction::GlobalConsensus(NetworkId::Polkadot)]);
        let event = Event::Burned {
            kind: Kind::Fungible,
            path: Boxed::new(rt.alloc(), network)?,
            amount,
            cause: Cause::LostTeleport,
        };
        let text = told(rt.alloc(), event)?;
        let want = format!(in rt.alloc();
            "  burned fungible /GlobalConsensus(Polkadot) {shown} LostTeleport\n  = empty\n"
        )?;
        assert_eq!(rt; text.as_str(), want.as_str());
    }
    let event = Event::Burned {
        kind: Kind::Class,
        path: Boxed::new(rt.alloc(), Junctions::empty())?,
        amount: Total { high: 0, low: 1 },
        cause: Cause::Merged,
    };
    let text = told(rt.alloc(), event)?;
    assert_eq!(rt; text.as_str(), "  burned class / 1 Merged\n  = empty\n");
    Ok(())
}

#[test]
fn other_events_have_their_lines(rt: HostRuntime) -> Result<(), Fail> {
    let origin = Boxed::new(rt.alloc(), account(FIRST))?;
    let events = [
        Event::Message {
            from: RELAY,
            to: PARA,
            number: 1,
        },
        Event::Sent {
            from: PARA,
            to: RELAY,
            number: 2,
        },
        Event::Answered { query: 7 },
        Event::Ignored { query: 8 },
        Event::End {
            origin: Some(origin),
            topic: None,
            surplus: Weight {
                ref_time: 2000,
                proof_size: 200,
            },
            refunded: Weight::ZERO,
        },
        Event::End {
            origin: None,
            topic: Some([10; 32]),
            surplus: Weight::ZERO,
            refunded: Weight::ZERO,
        },
        Event::Trapped { number: 1 },
    ];
    let text = step_text(rt.alloc(), &events, &StepResult::Empty)?;
    let want = "  message relay 2000 1
  sent 2000 relay 2
  answered 7
  ignored 8
  end origin 0/AccountId32(0x0101010101010101010101010101010101010101010101010101010101010101) topic - surplus 2000 200 refunded 0 0
  end origin - topic 0x0a0a0a0a0a0a0a0a0a0a0a0a0a0a0a0a0a0a0a0a0a0a0a0a0a0a0a0a0a0a0a0a surplus 0 0 refunded 0 0
  trapped 1
  = empty
";
    assert_eq!(rt; text.as_str(), want);
    Ok(())
}
