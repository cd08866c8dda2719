//! Networks, junctions and locations, as bytes and as texts.

use crate::part_builders::unhex;
use location_wire::{
    TextFault, law_of_no_prefix, law_of_one_location, law_of_one_spelling, law_of_readers,
    location_text, path_text, read_junction, read_junctions, read_location, read_location_text,
    read_network_id, write_junction, write_junctions, write_location, write_network_id,
};
use locations::{BodyId, BodyPart, Junction, Junctions, NetworkId};
use scale_codec::{Cursor, Out};
use std::alloc::{AllocError, Global};
use std::test::Fail;

/// A value that has a spelling.
enum Value {
    Junction(Junction),
    Network(NetworkId),
    /// Parents and junctions.
    Location(u8, &'static [Junction]),
    Path(&'static [Junction]),
}

/// The account of the sibling, as bytes.
const SIBLING_HEX: &str =
    "010200411f0101030202020202020202020202020202020202020202020202020202020202020202";

/// Each junction, networks, a location and a path, and the hex of their spellings.
const SPELLED: &[(Value, &str)] = &[
    (Value::Junction(Junction::Parachain(2000)), "00411f"),
    (
        Value::Junction(Junction::AccountId32 {
            network: Some(NetworkId::Kusama),
            id: [2; 32],
        }),
        "0101030202020202020202020202020202020202020202020202020202020202020202",
    ),
    (
        Value::Junction(Junction::AccountIndex64 {
            network: None,
            index: 1,
        }),
        "020004",
    ),
    (
        Value::Junction(Junction::AccountKey20 {
            network: Some(NetworkId::Ethereum { chain_id: 1 }),
            key: [7; 20],
        }),
        "030107040707070707070707070707070707070707070707",
    ),
    (Value::Junction(Junction::PalletInstance(50)), "0432"),
    (Value::Junction(Junction::GeneralIndex(64)), "050101"),
    (
        Value::Junction(Junction::GeneralKey {
            length: 255,
            key: [1; 32],
        }),
        "06ff0101010101010101010101010101010101010101010101010101010101010101",
    ),
    (Value::Junction(Junction::OnlyChild), "07"),
    (
        Value::Junction(Junction::Plurality {
            id: BodyId::Moniker([1, 2, 3, 4]),
            part: BodyPart::Fraction { nom: 1, denom: 64 },
        }),
        "08010102030402040101",
    ),
    (
        Value::Junction(Junction::Plurality {
            id: BodyId::Index(1),
            part: BodyPart::Members { count: 5 },
        }),
        "0802040114",
    ),
    (
        Value::Junction(Junction::GlobalConsensus(NetworkId::ByFork {
            block_number: 258,
            block_hash: [9; 32],
        })),
        "090102010000000000000909090909090909090909090909090909090909090909090909090909090909",
    ),
    (
        Value::Junction(Junction::GlobalConsensus(NetworkId::Wococo)),
        "0906",
    ),
    (Value::Network(NetworkId::Polkadot), "02"),
    (Value::Network(NetworkId::Kusama), "03"),
    (Value::Network(NetworkId::Westend), "04"),
    (Value::Network(NetworkId::Rococo), "05"),
    (Value::Network(NetworkId::Wococo), "06"),
    (
        Value::Network(NetworkId::Ethereum { chain_id: 64 }),
        "070101",
    ),
    (Value::Network(NetworkId::BitcoinCore), "08"),
    (Value::Network(NetworkId::BitcoinCash), "09"),
    (Value::Location(1, SIBLING), SIBLING_HEX),
    (Value::Path(&[Junction::OnlyChild; 8]), "080707070707070707"),
];

/// `[Parachain(2000), AccountId32 { network: Kusama, id: 32 bytes of 2 }]`.
const SIBLING: &[Junction] = &[
    Junction::Parachain(2000),
    Junction::AccountId32 {
        network: Some(NetworkId::Kusama),
        id: [2; 32],
    },
];

/// Whether the value is read, and is written as it was spelled.
fn goes(out: &mut Out, cursor: &mut Cursor<'_>, value: &Value) -> Result<bool, Fail> {
    match value {
        Value::Junction(junction) => {
            write_junction(out, junction)?;
            Ok(read_junction(cursor)? == *junction)
        }
        Value::Network(network) => {
            write_network_id(out, network)?;
            Ok(read_network_id(cursor)? == *network)
        }
        Value::Location(parents, junctions) => {
            let read = read_location(cursor)?;
            write_location(out, &read)?;
            Ok(read.parents == *parents && read.interior.items() == *junctions)
        }
        Value::Path(junctions) => {
            let read = read_junctions(cursor)?;
            write_junctions(out, &read)?;
            Ok(read.items() == *junctions)
        }
    }
}

/// Whether the bytes of the hex are what is written for the value, and are read as it.
fn spells(alloc: Global, value: &Value, hex: &str) -> Result<bool, Fail> {
    let bytes = unhex(alloc, hex)?;
    let mut out = Out::new(alloc);
    let mut cursor = Cursor::new(bytes.as_slice());
    let goes = goes(&mut out, &mut cursor, value)?;
    Ok(goes && out.bytes() == bytes.as_slice() && cursor.rest().is_empty())
}

/// Bytes of no network, of no path and of no location.
const NO_NETWORK: &[u8] = &[10, 10];

const NINE_JUNCTIONS: &[u8] = &[9, 7, 7, 7, 7, 7, 7, 7, 7, 7];

const NO_LOCATION: &[u8] = &[0, 9, 7, 7, 7, 7, 7, 7, 7, 7, 7];

/// Whether these bytes are refused, and the cursor stays.
fn are_refused() -> bool {
    let mut network = Cursor::new(NO_NETWORK);
    let mut path = Cursor::new(NINE_JUNCTIONS);
    let mut location = Cursor::new(NO_LOCATION);
    read_network_id(&mut network).is_err()
        && read_junctions(&mut path).is_err()
        && read_location(&mut location).is_err()
        && network.rest() == NO_NETWORK
        && location.rest() == NO_LOCATION
}

#[test]
fn networks_junctions_and_locations_as_bytes(rt: HostRuntime) -> Result<(), Fail> {
    for (value, hex) in SPELLED {
        assert!(rt; spells(rt.alloc(), value, hex)?, "{hex}");
    }
    assert!(rt; are_refused());
    Ok(())
}

/// The account of the sibling, as text.
const SIBLING_TEXT: &str =
    "1/Parachain(2000)/0x0101030202020202020202020202020202020202020202020202020202020202020202";

/// Paths and their texts.
const PATHS: &[(&[Junction], &str)] = &[
    (&[], "/"),
    (
        &[
            Junction::GlobalConsensus(NetworkId::Polkadot),
            Junction::Parachain(1000),
        ],
        "/GlobalConsensus(Polkadot)/Parachain(1000)",
    ),
    (
        &[Junction::PalletInstance(50), Junction::GeneralIndex(7)],
        "/PalletInstance(50)/GeneralIndex(7)",
    ),
    (
        &[Junction::GlobalConsensus(NetworkId::BitcoinCore)],
        "/0x0908",
    ),
    (
        &[Junction::AccountId32 {
            network: None,
            id: [171; 32],
        }],
        "/AccountId32(0xabababababababababababababababababababababababababababababababab)",
    ),
];

/// Whether this is the text of the path of these junctions.
fn says_path(alloc: Global, items: &[Junction], want: &str) -> Result<bool, AllocError> {
    let mut path = Junctions::empty();
    for junction in items {
        if path.push(*junction).is_err() {
            return Ok(false);
        }
    }
    let text = path_text(alloc, &path)?;
    Ok(text.as_str() == want)
}

/// Texts of locations, one for each form of junction.
const TEXTS: &[&str] = &[
    "0",
    "255",
    SIBLING_TEXT,
    "0/PalletInstance(50)/GeneralIndex(340282366920938463463374607431768211455)",
    "2/GlobalConsensus(Polkadot)/Parachain(4294967295)",
    "0/GlobalConsensus(Kusama)/GlobalConsensus(Westend)/GlobalConsensus(Rococo)/GlobalConsensus(Wococo)",
    "0/0x0908/0x09070101/0x07",
    "0/AccountId32(0xabababababababababababababababababababababababababababababababab)",
    "0/0x07/0x07/0x07/0x07/0x07/0x07/0x07/0x07",
    "3/0x020004/0x0802040114/0x06ff0101010101010101010101010101010101010101010101010101010101010101",
];

/// Whether the text is read as a location, and is what is written for it.
fn is_written_back(alloc: Global, text: &str) -> Result<bool, Fail> {
    let location = read_location_text(alloc, text)?;
    let again = location_text(alloc, &location)?;
    Ok(again.as_str() == text)
}

/// Whether the text of the sibling's account is read as it.
fn is_sibling(alloc: Global) -> Result<bool, Fail> {
    let read = read_location_text(alloc, SIBLING_TEXT)?;
    Ok(read.parents == 1 && read.interior.items() == SIBLING)
}

/// Texts of no location: other numbers, other hex, other names, spelled where there is a name, too many junctions.
const BAD_TEXTS: &[&str] = &[
    "",
    "/",
    "0/",
    "-",
    "00",
    "+1",
    "256",
    " 0",
    "0 ",
    "0/Parachain(02000)",
    "0/Parachain(+1)",
    "0/Parachain()",
    "0/Parachain(4294967296)",
    "0/Parachain(1",
    "0/Parachain(1))",
    "0/parachain(1)",
    "0/PalletInstance(256)",
    "0/GeneralIndex(340282366920938463463374607431768211456)",
    "0/GlobalConsensus(2)",
    "0/GlobalConsensus(Ethereum)",
    "0/AccountId32(0xABababababababababababababababababababababababababababababababab)",
    "0/AccountId32(0xab)",
    "0/0x0432",
    "0/0x0902",
    "0/0X07",
    "0/0x7",
    "0/0x0707",
    "0/0x0A",
    "0/0x07/0x07/0x07/0x07/0x07/0x07/0x07/0x07/0x07",
];

/// Whether the text is refused as none of a location.
fn is_refused(alloc: Global, text: &str) -> bool {
    read_location_text(alloc, text).err() == Some(TextFault::BadText)
}

/// Whether the refusals have their texts.
fn says_why(alloc: Global) -> Result<bool, AllocError> {
    let (bad, memory) = (TextFault::BadText, TextFault::Memory);
    let text = format!(in alloc; "{bad}; {memory}")?;
    Ok(text.as_str() == "not the text of a location; out of memory")
}

#[test]
fn paths_and_locations_as_texts(rt: HostRuntime) -> Result<(), Fail> {
    let alloc = rt.alloc();
    for (items, want) in PATHS {
        assert!(rt; says_path(alloc, items, want)?, "{want}");
    }
    for text in TEXTS {
        assert!(rt; is_written_back(alloc, text)?, "{text}");
    }
    for text in BAD_TEXTS {
        assert!(rt; is_refused(alloc, text), "{text}");
    }
    assert!(rt; is_sibling(alloc)?);
    assert!(rt; says_why(alloc)?);
    Ok(())
}

#[test]
fn the_laws_of_locations_can_be_called() {
    law_of_one_spelling();
    law_of_no_prefix();
    law_of_readers();
    law_of_one_location();
}
