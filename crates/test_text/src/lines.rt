//! Lines: where they end, what they say, and what a step line asks for.

use chain_ids::ChainId;
use input_lines::{
    Line, Step, ends_network, law_of_step_lines, law_of_unique_lines, line_len, read_line, text_of,
    without_feed,
};
use std::alloc::Global;
use std::test::Fail;

const ACCOUNT: &str = "00ff01AbaB0101010101010101010101010101010101010101010101010101aa";

/// Words of chains, and what they name.
const CHAINS: &[(&str, Option<ChainId>)] = &[
    ("relay", Some(ChainId::Relay)),
    ("0", Some(ChainId::Para(0))),
    ("9", Some(ChainId::Para(9))),
    ("2000", Some(ChainId::Para(2000))),
    ("4294967295", Some(ChainId::Para(4_294_967_295))),
    ("4294967296", None),
    ("18446744073709551616", None),
    ("", None),
    ("Relay", None),
    ("00", None),
    ("09", None),
    ("+9", None),
    ("-9", None),
    ("9.0", None),
];

/// Words of messages, and their bytes.
const MESSAGES: &[(&str, Option<&[u8]>)] = &[
    ("04041914", Some(&[4, 4, 25, 20])),
    ("0x04041914", Some(&[4, 4, 25, 20])),
    ("aBFf", Some(&[171, 255])),
    ("0xaBFf", Some(&[171, 255])),
    ("0x", Some(&[])),
    ("", None),
    ("0", None),
    ("0x0", None),
    ("0X04", None),
    ("0x0x04", None),
    ("4g", None),
    ("04 04", None),
    ("04 ", None),
    ("04\r", None),
];

/// Words of accounts, none of them one.
const NO_ACCOUNTS: &[&str] = &[
    "",
    "0x",
    "0101010101010101010101010101010101010101010101010101010101010101010",
    "01010101010101010101010101010101010101010101010101010101010101",
    "010101010101010101010101010101010101010101010101010101010101010101",
    "0X0101010101010101010101010101010101010101010101010101010101010101",
    "010101010101010101010101010101010101010101010101010101010101010g",
];

/// Whole lines, and whether they ask for nothing: the others are refused.
const OTHER_LINES: &[(&str, bool)] = &[
    ("Drain", false),
    ("drain ", false),
    (" drain", false),
    ("drain\r", false),
    ("drains", false),
    ("balances relay", false),
    ("deliver relay", false),
    ("deliver relay 2000 ", false),
    ("deliver relay 02000", false),
    ("claim relay 2000", false),
    ("claim relay 2000 ", false),
    ("claim relay  2000 04", false),
    ("", true),
    ("#", true),
    ("# exec relay", true),
    (" ", false),
    ("\r", false),
    (" # no comment", false),
    ("exec", false),
    ("exec ", false),
    ("exec relay", false),
    (
        "exec  relay 0101010101010101010101010101010101010101010101010101010101010101 04",
        false,
    ),
    (
        "exec relay  0101010101010101010101010101010101010101010101010101010101010101 04",
        false,
    ),
    (
        "exec relay 0101010101010101010101010101010101010101010101010101010101010101  04",
        false,
    ),
    (
        "EXEC relay 0101010101010101010101010101010101010101010101010101010101010101 04",
        false,
    ),
    (
        "exec relay 0101010101010101010101010101010101010101010101010101010101010101",
        false,
    ),
];

/// Whether the word of the chain in a step that runs a message names this chain, or has the step refused.
fn runs_at(alloc: Global, word: &str, want: Option<ChainId>) -> Result<bool, Fail> {
    let line = format!(in alloc; "exec {word} {ACCOUNT} 0x")?;
    Ok(match read_line(alloc, line.as_bytes())? {
        Line::Step(Step::Exec { chain, .. }) => Some(chain) == want,
        Line::Refused => want.is_none(),
        _ => false,
    })
}

#[test]
fn chains_are_relay_or_a_number(rt: HostRuntime) -> Result<(), Fail> {
    for (word, want) in CHAINS {
        assert!(rt; runs_at(rt.alloc(), word, *want)?, "of {word}");
    }
    Ok(())
}

/// Whether the word of the message in a step that runs one spells these bytes, or has the step refused.
fn runs(alloc: Global, word: &str, want: Option<&[u8]>) -> Result<bool, Fail> {
    let line = format!(in alloc; "exec relay 0x{ACCOUNT} {word}")?;
    Ok(match &read_line(alloc, line.as_bytes())? {
        Line::Step(Step::Exec { message, .. }) => Some(message.items()) == want,
        Line::Refused => want.is_none(),
        _ => false,
    })
}

#[test]
fn messages_are_pairs_of_digits(rt: HostRuntime) -> Result<(), Fail> {
    for (word, want) in MESSAGES {
        assert!(rt; runs(rt.alloc(), word, *want)?, "of {word}");
    }
    Ok(())
}

/// The bytes of `ACCOUNT`.
const ACCOUNT_BYTES: [u8; 32] = [
    0, 255, 1, 171, 171, 1, 1, 1, 1, 1, 1, 1, 1, 1, 1, 1, 1, 1, 1, 1, 1, 1, 1, 1, 1, 1, 1, 1, 1, 1,
    1, 170,
];

/// Whether the word of the account, in a step that runs a message, spells the bytes of `ACCOUNT`, or, where it is to be none, has the
/// step refused.
fn runs_as(alloc: Global, word: &str, is_account: bool) -> Result<bool, Fail> {
    let line = format!(in alloc; "exec 7 {word} 0x")?;
    Ok(match read_line(alloc, line.as_bytes())? {
        Line::Step(Step::Exec { account, .. }) => is_account && account == ACCOUNT_BYTES,
        Line::Refused => !is_account,
        _ => false,
    })
}

#[test]
fn accounts_are_64_digits(rt: HostRuntime) -> Result<(), Fail> {
    let prefixed = format!(in rt.alloc(); "0x{ACCOUNT}")?;
    assert!(rt; runs_as(rt.alloc(), ACCOUNT, true)?);
    assert!(rt; runs_as(rt.alloc(), prefixed.as_str(), true)?);
    for word in NO_ACCOUNTS {
        assert!(rt; runs_as(rt.alloc(), word, false)?, "of {word}");
    }
    Ok(())
}

/// Whether the line asks for nothing, where that is wanted, and is refused otherwise.
fn asks_nothing(alloc: Global, text: &str, empty: bool) -> Result<bool, Fail> {
    Ok(match read_line(alloc, text.as_bytes())? {
        Line::NoStep => empty,
        Line::Refused => !empty,
        _ => false,
    })
}

#[test]
fn other_lines_ask_for_nothing_or_are_refused(rt: HostRuntime) -> Result<(), Fail> {
    for (text, empty) in OTHER_LINES {
        assert!(rt; asks_nothing(rt.alloc(), text, *empty)?, "of {text}");
    }
    Ok(())
}

/// Whether the word in a delivery from the relay chain names this chain, or has the step refused.
fn delivers_to(alloc: Global, word: &str, want: Option<ChainId>) -> Result<bool, Fail> {
    let line = format!(in alloc; "deliver relay {word}")?;
    Ok(match read_line(alloc, line.as_bytes())? {
        Line::Step(Step::Deliver { from, to }) => from == ChainId::Relay && Some(to) == want,
        Line::Refused => want.is_none(),
        _ => false,
    })
}

#[test]
fn deliveries_name_two_chains(rt: HostRuntime) -> Result<(), Fail> {
    for (word, want) in CHAINS {
        assert!(rt; delivers_to(rt.alloc(), word, *want)?, "of {word}");
    }
    Ok(())
}

/// Whether the word in a claim of what parachain 2000 sent to the relay chain spells these bytes, or has the step refused.
fn claims(alloc: Global, word: &str, want: Option<&[u8]>) -> Result<bool, Fail> {
    let line = format!(in alloc; "claim 2000 relay {word}")?;
    Ok(match &read_line(alloc, line.as_bytes())? {
        Line::Step(Step::Claim { from, to, message }) => *from == ChainId::Para(2000)
            && *to == ChainId::Relay
            && Some(message.items()) == want,
        Line::Refused => want.is_none(),
        _ => false,
    })
}

#[test]
fn claims_name_two_chains_and_a_message(rt: HostRuntime) -> Result<(), Fail> {
    for (word, want) in MESSAGES {
        assert!(rt; claims(rt.alloc(), word, *want)?, "of {word}");
    }
    Ok(())
}

/// Steps of one word.
const ONE_WORD: &[&str] = &["drain", "balances", "traps", "queues", "supply"];

#[test]
fn other_steps_are_one_word(rt: HostRuntime) -> Result<(), Fail> {
    for word in ONE_WORD {
        let Line::Step(step) = read_line(rt.alloc(), word.as_bytes())? else {
            return Err(Fail::new("no step"));
        };
        let text = format!(in rt.alloc(); "{step}")?;
        assert_eq!(rt; text.as_str(), *word);
    }
    Ok(())
}

/// Lines, their texts, and whether they end a network.
const LINES: &[(&str, &str, bool)] = &[
    ("drain\n", "drain", false),
    ("drain\r\n", "drain", false),
    ("drain\r\r\n", "drain\r", false),
    ("drain\r", "drain\r", false),
    ("\r\n", "", false),
    ("\n", "", false),
    ("", "", false),
    ("---\n", "---", true),
    ("---\r\n", "---", true),
    ("---", "---", true),
    ("---\r", "---\r", false),
    ("--- \n", "--- ", false),
    ("----\n", "----", false),
];

/// Whether the line has this text, and ends a network as it should.
fn says(line: &[u8], text: &str, mark: bool) -> bool {
    text_of(line) == text.as_bytes() && ends_network(line) == mark
}

#[test]
fn a_line_says_what_stands_before_its_end(rt: HostRuntime) {
    for (line, text, mark) in LINES {
        assert!(rt; says(line.as_bytes(), text, *mark), "of {line}");
    }
    assert!(rt; without_feed(b"drain\r\n") == b"drain\r".as_slice());
    assert!(rt; without_feed(b"drain\r") == b"drain\r".as_slice());
}

/// Texts, and the length of their first line with its feed.
const FIRST_LINES: &[(&str, Option<usize>)] = &[
    ("{}\n---\nexec", Some(3)),
    ("\n\n", Some(1)),
    ("exec\r", None),
    ("", None),
];

#[test]
fn the_first_line_ends_with_the_first_feed(rt: HostRuntime) {
    for (bytes, len) in FIRST_LINES {
        assert!(rt; line_len(bytes.as_bytes()) == *len, "of {bytes}");
    }
    law_of_unique_lines();
    law_of_step_lines();
}
