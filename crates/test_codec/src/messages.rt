//! Whole messages of both versions, and each refusal.
ghost use Rattle.std.specs.Prelude.{◌≡◌, IfOk, [], ◌∷◌, length};
ghost use Rattle.xcm_program.specs.declared.instruction.Instruction.{Trap};
ghost use Rattle.test_codec.specs.Examples.{AreClears};

use crate::message_values::{filled, unhex};
use std::alloc::{AllocError, Global};
use std::test::Fail;
use versioned_xcm::{
    EncodeFault, MessageFault, Version, decode_message, encode_forwarded, encode_message,
    law_of_forwarding, law_of_messages, law_of_one_program, law_of_round_trip,
};
use xcm_program::{Instruction, Program};

/// Instructions that name no asset, which both versions spell alike: the name, and the hex.
const ALIKE: &[(&str, &str)] = &[
    ("QueryResponse", "031c0201020000000aa10f910101010100411f"),
    ("Transact", "0603a10f91010c010203"),
    ("HrmpNewChannelOpenRequest", "07411f0200040020"),
    ("HrmpChannelAccepted", "08451f"),
    ("HrmpChannelClosing", "09491f411f451f"),
    ("ClearOrigin", "0a"),
    ("DescendOrigin", "0b0100411f"),
    ("ReportError", "0c010100411f1ca10f9101"),
    ("InitiateTeleport", "1101020c010100411f040a"),
    ("RefundSurplus", "14"),
    ("SetErrorHandler", "15040a"),
    ("SetAppendix", "16040a"),
    ("ClearError", "17"),
    ("Trap", "19070000000001"),
    ("SubscribeVersion", "1a1ca10f9101"),
    ("UnsubscribeVersion", "1b"),
    ("ExpectOrigin", "1e00"),
    ("ExpectError", "1f0101000000150500000000000000"),
    ("ExpectTransactStatus", "2002080102"),
    ("QueryPallet", "212070616c6c65745f78010100411f1ca10f9101"),
    ("ExpectPallet", "221004582070616c6c65745f780408"),
    ("ReportTransactStatus", "23010100411f1ca10f9101"),
    ("ClearTransactStatus", "24"),
    ("UniversalOrigin", "250903"),
    ("ExportMessage", "26020100411f040a"),
    ("SetFeesMode", "2b01"),
    (
        "SetTopic",
        "2c4444444444444444444444444444444444444444444444444444444444444444",
    ),
    ("ClearTopic", "2d"),
    ("AliasOrigin", "2e010100411f"),
    ("UnpaidExecution", "2f01a10f910101010100411f"),
];

/// Instructions that name assets: the name, and the hex in version 3 and in version 4.
const BY_VERSION: &[(&str, &str, &str)] = &[
    (
        "WithdrawAsset",
        "000800000000a10f00010100411f01011c",
        "0008000000a10f010100411f01011c",
    ),
    (
        "ReserveAssetDeposited",
        "010800000000a10f00010100411f01011c",
        "0108000000a10f010100411f01011c",
    ),
    (
        "ReceiveTeleportedAsset",
        "020800000000a10f00010100411f01011c",
        "0208000000a10f010100411f01011c",
    ),
    (
        "TransferAsset",
        "040800000000a10f00010100411f01011c010100411f",
        "0408000000a10f010100411f01011c010100411f",
    ),
    (
        "TransferReserveAsset",
        "050800000000a10f00010100411f01011c010100411f040a",
        "0508000000a10f010100411f01011c010100411f040a",
    ),
    (
        "DepositAsset",
        "0d010300010100411f0108010100411f",
        "0d0103010100411f0108010100411f",
    ),
    (
        "DepositReserveAsset",
        "0e000800000000a10f00010100411f01011c010100411f040a",
        "0e0008000000a10f010100411f01011c010100411f040a",
    ),
    (
        "ExchangeAsset",
        "0f01000800000000a10f00010100411f01011c01",
        "0f010008000000a10f010100411f01011c01",
    ),
    (
        "InitiateReserveWithdraw",
        "10010100000000010100411f040a",
        "100101000000010100411f040a",
    ),
    (
        "ReportHolding",
        "12010100411f1ca10f9101010300010100411f0108",
        "12010100411f1ca10f91010103010100411f0108",
    ),
    (
        "BuyExecution",
        "13000100001401a10f9101",
        "130100001401a10f9101",
    ),
    (
        "ClaimAsset",
        "180800000000a10f00010100411f01011c010100411f",
        "1808000000a10f010100411f01011c010100411f",
    ),
    (
        "BurnAsset",
        "1c0800000000a10f00010100411f01011c",
        "1c08000000a10f010100411f01011c",
    ),
    (
        "ExpectAsset",
        "1d0800000000a10f00010100411f01011c",
        "1d08000000a10f010100411f01011c",
    ),
    (
        "LockAsset",
        "270001000014010100411f",
        "2701000014010100411f",
    ),
    (
        "UnlockAsset",
        "280001000014010100411f",
        "2801000014010100411f",
    ),
    (
        "NoteUnlockable",
        "290001000014010100411f",
        "2901000014010100411f",
    ),
    (
        "RequestUnlock",
        "2a0001000014010100411f",
        "2a01000014010100411f",
    ),
];

/// Whether the hex is the message of one instruction of this name, and what is encoded for it in the version is the other hex.
fn goes_over(alloc: Global, hex: &str, name: &str, v: Version, want: &str) -> Result<bool, Fail> {
    let bytes = unhex(alloc, hex)?;
    let program = decode_message(alloc, bytes.as_slice())?;
    let is_named = match program.items() {
        [only] => only.name() == name,
        _ => false,
    };
    let back = encode_message(alloc, &program, v)?;
    let text = hex::encode(alloc, back.as_slice())?;
    Ok(is_named && text.as_str() == want)
}

/// Whether the instruction of this name goes both ways in both versions, and from each to the other.
fn goes_both_ways(alloc: Global, name: &str, three: &str, four: &str) -> Result<bool, Fail> {
    let three = format!(in alloc; "0304{three}")?;
    let four = format!(in alloc; "0404{four}")?;
    let (three, four) = (three.as_str(), four.as_str());
    Ok(
        goes_over(alloc, three, name, Version::V3, three)?
            && goes_over(alloc, four, name, Version::V4, four)?
            && goes_over(alloc, three, name, Version::V4, four)?
            && goes_over(alloc, four, name, Version::V3, three)?,
    )
}

/// Messages that are refused, and why.
const REFUSED: &[(&str, MessageFault)] = &[
    // a code in a longer form, a byte left over, a code past its range
    ("0404191500", MessageFault::NotAMessage),
    ("04041901010a", MessageFault::NotAMessage),
    ("04041903ffffff3f", MessageFault::NotAMessage),
    ("04041917ffffffffffffffff01", MessageFault::NotAMessage),
    // an asset by bytes, which version 4 can't say; in version 4 the same bytes spell an amount of 0
    (
        "030400040100000000000000000000000000000000000000000000000000000000000000000004",
        MessageFault::NotConvertible,
    ),
    (
        "040400040100000000000000000000000000000000000000000000000000000000000000000004",
        MessageFault::NotAMessage,
    ),
    // the same, in a handler and after another instruction
    (
        "03080a150400040100000000000000000000000000000000000000000000000000000000000000000004",
        MessageFault::NotConvertible,
    ),
    // an amount of 0, and a list out of order
    ("0404000400000000", MessageFault::NotAMessage),
    ("040400080100000400000004", MessageFault::NotAMessage),
    // no version, another version, the index after the last, no program
    ("", MessageFault::NotAMessage),
    ("05", MessageFault::UnknownVersion),
    ("0200", MessageFault::UnknownVersion),
    ("040430", MessageFault::NotAMessage),
    ("04", MessageFault::NotAMessage),
    // 2^32-1 instructions, a call of that length, a call of 2^30 bytes that aren't there
    ("0403ffffffff", MessageFault::NotAMessage),
    ("04040600000003ffffffff", MessageFault::NotAMessage),
    ("0404060000000300000040", MessageFault::NotAMessage),
    // nine levels: eight appendices in one another, around an empty program, and around one more instruction
    (
        "0404160416041604160416041604160416041600",
        MessageFault::NotAMessage,
    ),
    (
        "0404160416041604160416041604160416040a",
        MessageFault::NotAMessage,
    ),
];

/// Whether the bytes are refused for this cause.
fn is_refused(alloc: Global, bytes: &[u8], want: MessageFault) -> bool {
    decode_message(alloc, bytes).err() == Some(want)
}

/// Whether the message of the hex is refused for this cause.
fn is_refused_hex(alloc: Global, hex: &str, want: MessageFault) -> Result<bool, Fail> {
    let bytes = unhex(alloc, hex)?;
    Ok(is_refused(alloc, bytes.as_slice(), want))
}

/// A transfer to a parachain that pays there: one instruction with a program inside.
const TRANSFER: &str =
    "04040504000000a10f000100411f08130100009101000d010204000101000202020202020202020202020202020202020202020202020202020202020202";

/// Whether the bytes are a message, and no proper prefix of them that tells its version and more is one.
fn is_alone(alloc: Global, bytes: &[u8]) -> bool {
    for len in 2..bytes.len() {
        if !is_refused(alloc, &bytes[..len], MessageFault::NotAMessage) {
            return false;
        }
    }
    decode_message(alloc, bytes).is_ok()
}

/// Whether no proper prefix of the transfer is a message.
fn has_no_prefix(alloc: Global) -> Result<bool, Fail> {
    let bytes = unhex(alloc, TRANSFER)?;
    Ok(is_alone(alloc, bytes.as_slice()))
}

/// Messages that are read and written back as they are: each a worked example.
const WHOLE: &[&str] = &[
    // the codes 5, 64, 2^30 and 2^64-1
    "04041914",
    "0404190101",
    "0404190300000040",
    "04041913ffffffffffffffff",
    // eight levels
    "040416041604160416041604160416040a",
    // 1000 of the chain's own asset to an account
    "04080004000000a10f0d010204000101000202020202020202020202020202020202020202020202020202020202020202",
    "0308000400000000a10f0d010204000101000202020202020202020202020202020202020202020202020202020202020202",
    TRANSFER,
    // what arrives for it, and the way back
    "04100104010000a10f0a130100009101000d010204000101000202020202020202020202020202020202020202020202020202020202020202",
    "04080004010000d107100100010008130000009101000d010204000101000303030303030303030303030303030303030303030303030303030303030303",
    // a handler and an appendix, and a teleport of a hundred
    "041415041716040a191c2d2d",
    "040800040000009101110100000100a10f00",
];

/// Whether the hex is a message, and is what is encoded for the program in its version.
fn is_written_back(alloc: Global, hex: &str) -> Result<bool, Fail> {
    let bytes = unhex(alloc, hex)?;
    let program = decode_message(alloc, bytes.as_slice())?;
    let v = if bytes.as_slice().first() == Some(&3) {
        Version::V3
    } else {
        Version::V4
    };
    let back = encode_message(alloc, &program, v)?;
    Ok(back.as_slice() == bytes.as_slice())
}

/// A program of one trap.
fn trap(alloc: Global, code: u64) -> Result<Program, AllocError>
    ensures { IfOk result (λ program. program ≡ Trap code ∷ []) }
{
    let items = vec![in alloc; Instruction::Trap { code }]?;
    Ok(Program::from_vec(items))
}

/// Whether the trap of 5 is encoded as these bytes, and is read from them.
fn is_trap(alloc: Global, v: Version, want: &[u8]) -> Result<bool, Fail> {
    let program = trap(alloc, 5)?;
    let bytes = encode_message(alloc, &program, v)?;
    let read = decode_message(alloc, bytes.as_slice())?;
    Ok(bytes.as_slice() == want && read == program)
}

/// Whether the first bytes, so many instructions that clear the origin, and the last bytes are a message.
fn is_message(alloc: Global, front: &[u8], count: usize, back: &[u8]) -> Result<bool, Fail> {
    let mut bytes = filled(alloc, front, count, 10)?;
    bytes.extend_from_slice(back)?;
    match decode_message(alloc, bytes.as_slice()) {
        Ok(_) => Ok(true),
        Err(MessageFault::NotAMessage) => Ok(false),
        Err(fault) => Err(fault.into()),
    }
}

/// An appendix of one instruction.
const APPENDIX: &[u8] = &[0x16, 4, 10];

/// First bytes, how many instructions that clear the origin follow them, what ends them, and whether that is a message: it is where there
/// are at most a hundred instructions.
const COUNTED: &[(&[u8], usize, &[u8], bool)] = &[
    (&[4, 0x91, 1], 100, &[], true),
    (&[3, 0x91, 1], 100, &[], true),
    (&[4, 0x95, 1], 101, &[], false),
    // the last with an appendix of one
    (&[4, 0x8d, 1], 98, APPENDIX, true),
    (&[4, 0x91, 1], 99, APPENDIX, false),
];

/// The first bytes of a message of 65,536 bytes: one call of 65,526 bytes.
const LONG_FRONT: &[u8] = &[4, 4, 6, 0, 0, 0, 0xda, 0xff, 3, 0];

/// Whether the first bytes and so many bytes of this value are refused for this cause.
fn is_refused_filled(
    alloc: Global,
    front: &[u8],
    count: usize,
    byte: u8,
    want: MessageFault,
) -> Result<bool, Fail> {
    let bytes = filled(alloc, front, count, byte)?;
    Ok(is_refused(alloc, bytes.as_slice(), want))
}

/// Whether a message may have 65,536 bytes.
fn may_be_long(alloc: Global) -> Result<bool, AllocError> {
    let whole = filled(alloc, LONG_FRONT, 65_526, 0)?;
    Ok(decode_message(alloc, whole.as_slice()).is_ok())
}

/// First bytes, how many bytes of a value follow them, and why that is refused: length is looked at first.
const FILLED: &[(&[u8], usize, u8, MessageFault)] = &[
    (LONG_FRONT, 65_527, 0, MessageFault::TooLong),
    (&[7], 65_536, 7, MessageFault::TooLong),
    (&[7], 65_535, 7, MessageFault::UnknownVersion),
    (&[4], 65_535, 0, MessageFault::NotAMessage),
];

/// So many instructions that clear the origin.
fn clears(alloc: Global, count: u32) -> Result<Program, AllocError>
    ensures { IfOk result (λ program. AreClears program × (length program ≡ count)) }
{
    let mut items = Vec::new(alloc);
    for _ in 0..count {
        items.push(Instruction::ClearOrigin)?;
    }
    Ok(Program::from_vec(items))
}

/// How many bytes the message of so many instructions has in the version, or why there is none.
fn message_of_clears(
    alloc: Global,
    count: u32,
    v: Version,
) -> Result<Result<usize, EncodeFault>, AllocError> {
    let program = clears(alloc, count)?;
    match encode_message(alloc, &program, v) {
        Ok(bytes) => Ok(Ok(bytes.len())),
        Err(fault) => Ok(Err(fault)),
    }
}

/// Whether a hundred and one instructions have no message, and a hundred have one.
fn have_messages(alloc: Global) -> Result<bool, AllocError> {
    let past = message_of_clears(alloc, 101, Version::V4)?;
    let most = message_of_clears(alloc, 100, Version::V3)?;
    Ok(past == Err(EncodeFault::ExceedsLimits) && most == Ok(103))
}

/// A notice of a deposit of 1000.
const NOTICE: [u8; 9] = [4, 4, 1, 4, 1, 0, 0, 0xa1, 0x0f];

/// Sends on the notice, and the program of the message after it. The outer result says whether the messages could be read.
fn forwarded(
    alloc: Global,
    rest: &[u8],
    v: Version,
) -> Result<Result<Vec<u8>, EncodeFault>, MessageFault> {
    let front = decode_message(alloc, &NOTICE)?;
    let program = decode_message(alloc, rest)?;
    let items = front.items();
    if items.is_empty() {
        return Err(MessageFault::NotAMessage);
    }
    Ok(encode_forwarded(alloc, &items[0], &program, v))
}

/// What is sent on: what follows the notice in a message.
const REST: &str =
    "0408130100009101000d010204000101000202020202020202020202020202020202020202020202020202020202020202";

/// The message with the notice before it.
const SENT: &str =
    "04100104010000a10f0a130100009101000d010204000101000202020202020202020202020202020202020202020202020202020202020202";

/// Whether the notice comes before what is sent on.
fn is_in_front(alloc: Global) -> Result<bool, Fail> {
    let rest = unhex(alloc, REST)?;
    let sent = forwarded(alloc, rest.as_slice(), Version::V4)??;
    let text = hex::encode(alloc, sent.as_slice())?;
    Ok(text.as_str() == SENT)
}

/// Why what follows the notice in version 3 isn't sent on: the first bytes, and so many bytes of this value.
fn not_sent(
    alloc: Global,
    front: &[u8],
    count: usize,
    byte: u8,
) -> Result<Option<EncodeFault>, Fail> {
    let rest = filled(alloc, front, count, byte)?;
    Ok(forwarded(alloc, rest.as_slice(), Version::V3)?.err())
}

/// A message of eight levels.
const DEEP: &[u8] = &[
    4, 4, 0x16, 4, 0x16, 4, 0x16, 4, 0x16, 4, 0x16, 4, 0x16, 4, 0x16, 4, 10,
];

/// First bytes, how many instructions or bytes of a value follow them, and why that isn't sent on, if it isn't: 98 instructions are and eight
/// levels, and 99 instructions aren't, and 65,536 bytes.
const SENT_ON: &[(&[u8], usize, u8, Option<EncodeFault>)] = &[
    (&[4, 0x89, 1], 98, 10, None),
    (DEEP, 0, 0, None),
    (&[4, 0x8d, 1], 99, 10, Some(EncodeFault::ExceedsLimits)),
    (LONG_FRONT, 65_526, 0, Some(EncodeFault::ExceedsLimits)),
];

/// Refusals, and their texts.
const TEXTS: &[(MessageFault, &str)] = &[
    (MessageFault::TooLong, "too long"),
    (MessageFault::UnknownVersion, "unknown version"),
    (MessageFault::NotAMessage, "not a message"),
    (MessageFault::NotConvertible, "not convertible"),
    (MessageFault::Memory, "out of memory"),
];

/// Whether this is the text of the refusal.
fn says_why(alloc: Global, fault: &MessageFault, want: &str) -> Result<bool, AllocError> {
    let text = fault.to_string(alloc)?;
    Ok(text.as_str() == want)
}

/// Whether the refusal to encode where memory runs out has its text.
fn says_memory(alloc: Global) -> Result<bool, AllocError> {
    let text = EncodeFault::Memory.to_string(alloc)?;
    Ok(text.as_str() == "out of memory")
}

#[test]
fn messages_are_decoded_and_encoded(rt: HostRuntime) -> Result<(), Fail> {
    for (name, hex) in ALIKE {
        assert!(rt; goes_both_ways(rt.alloc(), name, hex, hex)?, "{name}");
    }
    for (name, three, four) in BY_VERSION {
        assert!(rt; goes_both_ways(rt.alloc(), name, three, four)?, "{name}");
    }
    for hex in WHOLE {
        assert!(rt; is_written_back(rt.alloc(), hex)?, "{hex}");
    }
    assert!(rt; is_trap(rt.alloc(), Version::V3, &[3, 4, 0x19, 0x14])?);
    assert!(rt; is_trap(rt.alloc(), Version::V4, &[4, 4, 0x19, 0x14])?);
    assert!(rt; have_messages(rt.alloc())?);
    assert!(rt; may_be_long(rt.alloc())?);
    assert!(rt; is_in_front(rt.alloc())?);
    for (front, count, byte, want) in SENT_ON {
        assert!(rt;
            not_sent(rt.alloc(), front, *count, *byte)? == *want,
            "{count}"
        );
    }
    Ok(())
}

#[test]
fn messages_are_refused(rt: HostRuntime) -> Result<(), Fail> {
    for (hex, want) in REFUSED {
        assert!(rt; is_refused_hex(rt.alloc(), hex, *want)?, "{hex}");
    }
    for (front, count, byte, want) in FILLED {
        assert!(rt;
            is_refused_filled(rt.alloc(), front, *count, *byte, *want)?,
            "{count}"
        );
    }
    for (front, count, back, want) in COUNTED {
        assert!(rt;
            is_message(rt.alloc(), front, *count, back)? == *want,
            "{count}"
        );
    }
    assert!(rt; has_no_prefix(rt.alloc())?);
    for (fault, want) in TEXTS {
        assert!(rt; says_why(rt.alloc(), fault, want)?, "{want}");
    }
    assert!(rt; says_memory(rt.alloc())?);
    Ok(())
}

#[test]
fn the_laws_of_messages_can_be_called() {
    law_of_messages();
    law_of_one_program();
    law_of_round_trip();
    law_of_forwarding();
}
