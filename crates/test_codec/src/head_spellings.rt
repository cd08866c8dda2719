//! A head of each instruction: its index and its fields without the program inside.

use crate::message_values::unhex;
use asset_wire::{Version, WireFault};
use operands::Response;
use scale_codec::{Cursor, Out};
use std::alloc::Global;
use std::test::Fail;
use versioned_xcm::{
    law_of_heads, law_of_no_head_prefix, law_of_writable_heads, read_head, write_head,
};
use xcm_program::{Instruction, inner};

/// Heads that name no asset, which both versions spell alike: the instruction, and the hex of its index and fields.
const ALIKE: &[(&str, &str)] = &[
    ("Transact", "0601a10f91010c010203"),
    ("HrmpNewChannelOpenRequest", "07411f011020"),
    ("HrmpChannelAccepted", "08411f"),
    ("HrmpChannelClosing", "09411f451f491f"),
    ("ClearOrigin", "0a"),
    ("DescendOrigin", "0b010432"),
    ("ReportError", "0c01001ca10f9101"),
    ("DepositReserveAsset", "0e0100010100411f"),
    ("InitiateTeleport", "11010214010100411f"),
    ("ReportHolding", "1201001ca10f91010100"),
    ("RefundSurplus", "14"),
    ("SetErrorHandler", "15"),
    ("SetAppendix", "16"),
    ("ClearError", "17"),
    ("Trap", "19070000000001"),
    ("SubscribeVersion", "1a1ca10f9101"),
    ("UnsubscribeVersion", "1b"),
    ("ExpectOrigin", "1e01010100411f"),
    ("ExpectError", "1f0102000000150900000000000000"),
    ("ExpectTransactStatus", "20010407"),
    ("QueryPallet", "210c01020301001ca10f9101"),
    ("ExpectPallet", "22140861620463180c"),
    ("ReportTransactStatus", "2301001ca10f9101"),
    ("ClearTransactStatus", "24"),
    ("UniversalOrigin", "250903"),
    ("ExportMessage", "2602010432"),
    ("SetFeesMode", "2b01"),
    (
        "SetTopic",
        "2c1111111111111111111111111111111111111111111111111111111111111111",
    ),
    ("ClearTopic", "2d"),
    ("AliasOrigin", "2e010100411f"),
    ("UnpaidExecution", "2f01a10f9101010100"),
];

/// Heads that name assets: the instruction, and the hex in version 3 and in version 4.
const BY_VERSION: &[(&str, &str, &str)] = &[
    ("WithdrawAsset", "00040001000004", "000401000004"),
    ("ReserveAssetDeposited", "01040001000004", "010401000004"),
    ("ReceiveTeleportedAsset", "02040001000004", "020401000004"),
    (
        "QueryResponse",
        "031c01040001000004a10f910100",
        "031c010401000004a10f910100",
    ),
    (
        "TransferAsset",
        "04040001000004010100411f",
        "040401000004010100411f",
    ),
    (
        "TransferReserveAsset",
        "050400010000040100",
        "0504010000040100",
    ),
    (
        "DepositAsset",
        "0d00040001000004010100411f",
        "0d000401000004010100411f",
    ),
    (
        "ExchangeAsset",
        "0f010004000100000401",
        "0f0100040100000401",
    ),
    (
        "InitiateReserveWithdraw",
        "100101000100000100",
        "1001010100000100",
    ),
    (
        "BuyExecution",
        "13000100000401a10f9101",
        "130100000401a10f9101",
    ),
    (
        "ClaimAsset",
        "180400010000040001050c",
        "1804010000040001050c",
    ),
    ("BurnAsset", "1c040001000004", "1c0401000004"),
    ("ExpectAsset", "1d040001000004", "1d0401000004"),
    (
        "LockAsset",
        "270001000004010100411f",
        "2701000004010100411f",
    ),
    (
        "UnlockAsset",
        "280001000004010100411f",
        "2801000004010100411f",
    ),
    (
        "NoteUnlockable",
        "290001000004010100411f",
        "2901000004010100411f",
    ),
    (
        "RequestUnlock",
        "2a0001000004010100411f",
        "2a01000004010100411f",
    ),
];

/// Whether an instruction of this name is read, and is written as it was spelled.
#[tactic(auto, using(versioned_xcm::proofs::Lemmas::HeadLaws::Written::head_named, versioned_xcm::proofs::Lemmas::HeadLaws::Written::head_amount))]
fn goes(
    alloc: Global,
    out: &mut Out,
    cursor: &mut Cursor<'_>,
    name: &str,
    v: Version,
) -> Result<bool, Fail> {
    let read = read_head(alloc, cursor, v)?;
    let written = write_head(out, &read, v);
    let is_named = read.name() == name;
    drop(read);
    written?;
    Ok(is_named)
}

/// Whether the hex is read to its end as an instruction of this name, and is what is written for that.
fn spells(alloc: Global, name: &str, v: Version, hex: &str) -> Result<bool, Fail> {
    let bytes = unhex(alloc, hex)?;
    let mut out = Out::new(alloc);
    let mut cursor = Cursor::new(bytes.as_slice());
    let goes = goes(alloc, &mut out, &mut cursor, name, v)?;
    Ok(goes && out.bytes() == bytes.as_slice() && cursor.rest().is_empty())
}

/// Whether the hex of both versions is read and written as an instruction of this name.
fn spells_both(alloc: Global, name: &str, third: &str, fourth: &str) -> Result<bool, Fail> {
    Ok(spells(alloc, name, Version::V3, third)? && spells(alloc, name, Version::V4, fourth)?)
}

/// Instructions whose fields are known.
enum Known {
    Request,
    Closing,
    Pallet,
    Answer,
}

/// The instructions, and the hex of their heads.
const KNOWN: &[(Known, &str)] = &[
    (Known::Request, "07411f011020"),
    (Known::Closing, "09411f451f491f"),
    (Known::Pallet, "22140861620463180c"),
    (Known::Answer, "031c0309000000a10f910100"),
];

/// Whether the fields are in order.
fn are_in_order(read: &Instruction, known: &Known) -> bool {
    match (read, known) {
        (
            Instruction::HrmpNewChannelOpenRequest {
                sender,
                max_message_size,
                max_capacity,
            },
            Known::Request,
        ) => (*sender, *max_message_size, *max_capacity) == (2000, 1024, 8),
        (
            Instruction::HrmpChannelClosing {
                initiator,
                sender,
                recipient,
            },
            Known::Closing,
        ) => (*initiator, *sender, *recipient) == (2000, 2001, 2002),
        (
            Instruction::ExpectPallet {
                index,
                name,
                module_name,
                crate_major,
                min_crate_minor,
            },
            Known::Pallet,
        ) => (*index, *crate_major, *min_crate_minor) == (5, 6, 3)
            && name.items() == b"ab".as_slice()
            && module_name.items() == b"c".as_slice(),
        (
            Instruction::QueryResponse {
                query_id,
                response: Response::Version(version),
                max_weight,
                querier,
            },
            Known::Answer,
        ) => (*query_id, *version) == (7, 9)
            && (max_weight.ref_time, max_weight.proof_size) == (1000, 100)
            && querier.value().is_none(),
        _ => false,
    }
}

/// Whether version 4 reads the fields of the instruction in order.
fn is_known(alloc: Global, known: &Known, hex: &str) -> Result<bool, Fail> {
    let bytes = unhex(alloc, hex)?;
    let mut cursor = Cursor::new(bytes.as_slice());
    let read = read_head(alloc, &mut cursor, Version::V4)?;
    Ok(are_in_order(&read, known))
}

/// Whether version 4 reads the hex as an instruction with an empty program inside, and leaves what follows.
fn leaves_the_program(alloc: Global, hex: &str) -> Result<bool, Fail> {
    let mut bytes = unhex(alloc, hex)?;
    bytes.extend_from_slice(&[4, 10])?;
    let mut cursor = Cursor::new(bytes.as_slice());
    let read = read_head(alloc, &mut cursor, Version::V4)?;
    let is_empty = match inner(&read) {
        Some(xcm) => xcm.items().is_empty(),
        None => false,
    };
    Ok(is_empty && cursor.rest() == [4, 10].as_slice())
}

/// Heads of the seven instructions with a program inside.
const WITH_PROGRAMS: &[&str] = &[
    "0504010000040100",
    "0e01000100",
    "1001000100",
    "1101000100",
    "15",
    "16",
    "260200",
];

/// Whether no prefix of what the hex says is a head, and the cursor stays.
fn is_no_head(alloc: Global, v: Version, hex: &str) -> Result<bool, Fail> {
    let bytes = unhex(alloc, hex)?;
    let mut cursor = Cursor::new(bytes.as_slice());
    let refused = match read_head(alloc, &mut cursor, v) {
        Ok(_) => false,
        Err(fault) => fault == WireFault::NoSpelling,
    };
    Ok(refused && cursor.rest() == bytes.as_slice())
}

/// An amount of 1 of 32 zero bytes is burned in version 3. The same bytes say an amount of 0 in version 4.
const ABSTRACT: &str = "1c040100000000000000000000000000000000000000000000000000000000000000000004";

/// Hex at the front of which there is no head in the version.
const NO_HEADS: &[(Version, &str)] = &[
    // no index, and none from 48 on
    (Version::V4, ""),
    (Version::V4, "30"),
    (Version::V3, "ff"),
    // numbers of 2^32 and of 2^64
    (Version::V4, "08070000000001"),
    (Version::V4, "1917000000000000000001"),
    // a flag of 2, a kind of origin of 4
    (Version::V4, "2b02"),
    (Version::V4, "0604a10f910100"),
    // an amount of 0, and an asset without an index before its location, in version 3
    (Version::V4, "130100000000"),
    (Version::V3, "130100000400"),
    // nine junctions
    (Version::V4, "0b09070707070707070707"),
    // fields that are missing or cut off
    (Version::V4, "040401000004"),
    (
        Version::V4,
        "2c11111111111111111111111111111111111111111111111111111111111111",
    ),
    (Version::V4, "210c0102"),
    // an id of bytes
    (Version::V4, ABSTRACT),
];

#[test]
fn heads_are_read_and_written(rt: HostRuntime) -> Result<(), Fail> {
    for (name, hex) in ALIKE {
        assert!(rt; spells_both(rt.alloc(), name, hex, hex)?, "{name}");
    }
    for (name, third, fourth) in BY_VERSION {
        assert!(rt; spells_both(rt.alloc(), name, third, fourth)?, "{name}");
    }
    for (known, hex) in KNOWN {
        assert!(rt; is_known(rt.alloc(), known, hex)?, "{hex}");
    }
    for hex in WITH_PROGRAMS {
        assert!(rt; leaves_the_program(rt.alloc(), hex)?, "{hex}");
    }
    for (v, hex) in NO_HEADS {
        assert!(rt; is_no_head(rt.alloc(), *v, hex)?, "{hex}");
    }
    // ids of bytes are of version 3
    assert!(rt; spells(rt.alloc(), "BurnAsset", Version::V3, ABSTRACT)?);
    Ok(())
}

#[test]
fn the_laws_of_heads_can_be_called() {
    law_of_heads();
    law_of_no_head_prefix();
    law_of_writable_heads();
}
