//! The lines of blocks, openings and ends.

use crate::values::{FIRST, SECOND, account, place};
use asset_bundles::Total;
use asset_lists::{Asset, AssetId, Fun, Instance, Kind};
use asset_locks::Lock;
use chain_ids::ChainId;
use document_entries::{NetworkFault, Place, Section};
use locations::{Junction, Junctions, NetworkId};
use network_coherence::{Incoherent, IncoherentCause};
use std::test::Fail;
use step_text::{
    Backing, Supply, backing_line, checking_line, line_refused_line, locked_line,
    network_refused_line, opening_line, queue_line, supply_line, trap_line,
};

const RELAY: ChainId = ChainId::Relay;

const PARA: ChainId = ChainId::Para(2000);

/// Openings, and their lines.
const OPENINGS: [(Option<Incoherent>, &str); 4] = [
    (None, "coherent\n"),
    (
        Some(Incoherent {
            cause: IncoherentCause::PartnerUnlisted,
            first: RELAY,
            second: ChainId::Para(1000),
        }),
        "not coherent: PartnerUnlisted relay 1000\n",
    ),
    (
        Some(Incoherent {
            cause: IncoherentCause::PathTwice,
            first: PARA,
            second: PARA,
        }),
        "not coherent: PathTwice 2000 2000\n",
    ),
    (
        Some(Incoherent {
            cause: IncoherentCause::CheckingShort,
            first: RELAY,
            second: RELAY,
        }),
        "not coherent: CheckingShort relay relay\n",
    ),
];

/// Faults of a network document, and the lines that refuse it.
const FAULTS: [(NetworkFault, &str); 2] = [
    (
        NetworkFault::BadValue(Place {
            chain: Some(0),
            section: Section::Barriers,
            index: 0,
        }),
        "network refused: BadValue at chains 0 barriers 0\n",
    ),
    (
        NetworkFault::UnknownField(Place {
            chain: None,
            section: Section::Top,
            index: 0,
        }),
        "network refused: UnknownField at top 0\n",
    ),
];

/// A total below 2^128.
fn total(low: u128) -> Total {
    Total { high: 0, low }
}

/// The asset under the id of so many levels up, and what there is of it.
fn asset(parents: u8, fun: Fun) -> Asset {
    Asset {
        id: AssetId::Concrete(place(parents, &[])),
        fun,
    }
}

#[test]
fn openings_and_ends_have_their_lines(rt: HostRuntime) -> Result<(), Fail> {
    for (incoherent, want) in OPENINGS {
        let text = opening_line(rt.alloc(), incoherent)?;
        assert_eq!(rt; text.as_str(), want);
    }
    for (fault, want) in FAULTS {
        let text = network_refused_line(rt.alloc(), fault)?;
        assert_eq!(rt; text.as_str(), want);
    }
    let text = line_refused_line(rt.alloc(), 3)?;
    assert_eq!(rt; text.as_str(), "line 3 refused\n");
    Ok(())
}

#[test]
fn checking_accounts_have_their_lines(rt: HostRuntime) -> Result<(), Fail> {
    let alloc = rt.alloc();
    let text = checking_line(alloc, RELAY, &place(0, &[]), 100)?;
    assert_eq!(rt; text.as_str(), "  checking relay 0 100\n");
    Ok(())
}

#[test]
fn locks_have_their_lines(rt: HostRuntime) -> Result<(), Fail> {
    let lock = Lock {
        who: SECOND,
        id: place(1, &[]),
        unlocker: place(1, &[Junction::Parachain(2001)]),
        amount: 170_141_183_460_469_231_731_687_303_715_884_105_727,
    };
    let text = locked_line(rt.alloc(), PARA, &lock)?;
    let want =
        "  locked 2000 0x0202020202020202020202020202020202020202020202020202020202020202 1 170141183460469231731687303715884105727 1/Parachain(2001)\n";
    assert_eq!(rt; text.as_str(), want);
    Ok(())
}

#[test]
fn traps_have_their_lines(rt: HostRuntime) -> Result<(), Fail> {
    let alloc = rt.alloc();
    let origin = account(FIRST);
    let owner = "0/AccountId32(0x0101010101010101010101010101010101010101010101010101010101010101)";
    let one = [asset(0, Fun::Fungible(2))];
    let text = trap_line(alloc, RELAY, 1, &origin, &one)?;
    let want = format!(in alloc; "  trap relay 1 {owner}: 0 2\n")?;
    assert_eq!(rt; text.as_str(), want.as_str());
    let two = [
        asset(0, Fun::Fungible(5)),
        asset(1, Fun::NonFungible(Instance::Undefined)),
    ];
    let text = trap_line(alloc, PARA, 2, &origin, &two)?;
    let want = format!(in alloc; "  trap 2000 2 {owner}: 0 5, 1 instance 0x00\n")?;
    assert_eq!(rt; text.as_str(), want.as_str());
    Ok(())
}

#[test]
fn queues_and_sums_have_their_lines(rt: HostRuntime) -> Result<(), Fail> {
    let alloc = rt.alloc();
    let text = queue_line(alloc, RELAY, PARA, 1, &[4, 16, 1, 4, 1, 0, 0, 161, 15, 10])?;
    assert_eq!(rt;
        text.as_str(),
        "  queue relay 2000 1 0x04100104010000a10f0a\n"
    );
    let path = Junctions::from_few(&[Junction::GlobalConsensus(NetworkId::Polkadot)]);
    let supply = Supply {
        home: total(1_000_000),
        flight: total(0),
        burned: Total { high: 1, low: 5 },
    };
    let text = supply_line(alloc, Kind::Fungible, &path, &supply)?;
    let want = "  supply fungible /GlobalConsensus(Polkadot) home 1000000 flight 0 burned over\n";
    assert_eq!(rt; text.as_str(), want);
    let backing = Backing {
        held: total(500),
        owed: total(496),
    };
    let text = backing_line(alloc, PARA, Kind::Class, &path, &backing)?;
    let want = "  backing 2000 class /GlobalConsensus(Polkadot) held 500 owed 496\n";
    assert_eq!(rt; text.as_str(), want);
    Ok(())
}
