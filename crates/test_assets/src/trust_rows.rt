//! Accounts of locations, reserves and partners.
use asset_lists::{Asset, AssetId, Fun, Instance, Kind};
use chain_ids::law_of_one_chain;
use locations::{Full, Junction, Junctions, Location, NetworkId};
use plain_lists::Listed;
use std::alloc::Global;
use std::test::Fail;
use trust_tables::{
    AssetRole, AssetRow, ChainId, Site, account_of, find_row, is_partner, is_reserve, is_sovereign,
    law_of_chain_locations, law_of_exact_trust_tests, law_of_listings, law_of_sovereign_accounts,
    lies_at, location_of,
};

const RELAY: Site = Site {
    network: NetworkId::Polkadot,
    chain: ChainId::Relay,
};

const PARA: Site = Site {
    network: NetworkId::Polkadot,
    chain: ChainId::Para(1000),
};

const ALICE: [u8; 32] = [7; 32];

/// Parents and junctions.
type Place = (u8, &'static [Junction]);

fn location((parents, junctions): Place) -> Result<Location, Full> {
    let mut interior = Junctions::empty();
    for junction in junctions {
        interior.push(*junction)?;
    }
    Ok(Location { parents, interior })
}

const ALICE_ANYWHERE: Junction = Junction::AccountId32 {
    network: None,
    id: ALICE,
};

const ALICE_OF_POLKADOT: Junction = Junction::AccountId32 {
    network: Some(NetworkId::Polkadot),
    id: ALICE,
};

const ALICE_OF_KUSAMA: Junction = Junction::AccountId32 {
    network: Some(NetworkId::Kusama),
    id: ALICE,
};

/// The account of parachain 2000 at the relay chain: a label, 2000 from its lowest byte on, and zeros.
const CHILD_ACCOUNT: [u8; 32] =
    *b"para\xd0\x07\0\0\0\0\0\0\0\0\0\0\0\0\0\0\0\0\0\0\0\0\0\0\0\0\0\0";

/// The account of parachain 2000 at another parachain.
const SIBLING_ACCOUNT: [u8; 32] =
    *b"sibl\xd0\x07\0\0\0\0\0\0\0\0\0\0\0\0\0\0\0\0\0\0\0\0\0\0\0\0\0\0";

const PARENT: [u8; 32] = *b"Parent\0\0\0\0\0\0\0\0\0\0\0\0\0\0\0\0\0\0\0\0\0\0\0\0\0\0";

/// Chains and their names.
const NAMES: &[(ChainId, &str)] = &[
    (ChainId::Relay, "relay"),
    (ChainId::Para(0), "0"),
    (ChainId::Para(4_294_967_295), "4294967295"),
];

#[test]
fn names_of_chains(rt: HostRuntime) -> Result<(), Fail> {
    for (chain, wanted) in NAMES {
        let text = format!(in rt.alloc(); "{chain}")?;
        assert!(rt; text.as_str() == *wanted);
    }
    law_of_one_chain();
    Ok(())
}

const POLKADOT: Junction = Junction::GlobalConsensus(NetworkId::Polkadot);

#[test]
fn paths_of_chains(rt: HostRuntime) {
    assert!(rt; RELAY.path().items() == [POLKADOT].as_slice());
    assert!(rt; PARA.path().items() == [POLKADOT, Junction::Parachain(1000)].as_slice());
}

/// A chain, another chain, and the location of that, as the first names it.
const LOCATIONS: &[(ChainId, ChainId, Place)] = &[
    (ChainId::Para(7), ChainId::Relay, (1, &[])),
    (
        ChainId::Relay,
        ChainId::Para(7),
        (0, &[Junction::Parachain(7)]),
    ),
    (
        ChainId::Para(7),
        ChainId::Para(8),
        (1, &[Junction::Parachain(8)]),
    ),
];

#[test]
fn chains_and_their_locations(rt: HostRuntime) -> Result<(), Fail> {
    for (from, to, wanted) in LOCATIONS {
        assert!(rt; location_of(*from, *to) == location(*wanted)?);
        assert!(rt; lies_at(*to, *from, &location(*wanted)?));
        assert!(rt; !lies_at(*from, *from, &location(*wanted)?));
        assert!(rt; !lies_at(ChainId::Para(9), *from, &location(*wanted)?));
    }
    Ok(())
}

/// Parachain 2000, as a junction.
const CHILD: Junction = Junction::Parachain(2000);

/// A site, a location, and the account that it has there.
const ACCOUNTS: &[(Site, Place, Option<[u8; 32]>)] = &[
    (RELAY, (0, &[CHILD]), Some(CHILD_ACCOUNT)),
    (RELAY, (1, &[CHILD]), None),
    (RELAY, (1, &[]), None),
    (RELAY, (0, &[]), None),
    (RELAY, (0, &[ALICE_ANYWHERE]), Some(ALICE)),
    (RELAY, (0, &[ALICE_OF_POLKADOT]), Some(ALICE)),
    (RELAY, (0, &[ALICE_OF_KUSAMA]), None),
    (PARA, (1, &[CHILD]), Some(SIBLING_ACCOUNT)),
    (PARA, (1, &[]), Some(PARENT)),
    (PARA, (0, &[CHILD]), None),
    (PARA, (0, &[ALICE_OF_POLKADOT]), Some(ALICE)),
    (PARA, (1, &[ALICE_ANYWHERE]), None),
    (PARA, (0, &[CHILD, ALICE_ANYWHERE]), None),
    (PARA, (0, &[Junction::PalletInstance(3)]), None),
    (PARA, (2, &[]), None),
];

#[test]
fn accounts_of_locations(rt: HostRuntime) -> Result<(), Fail> {
    for (site, place, wanted) in ACCOUNTS {
        let found = account_of(&location(*place)?, site);
        assert!(rt; found == *wanted, "at {} parents", place.0);
    }
    Ok(())
}

/// Accounts, and whether a chain has them.
const SOVEREIGNS: &[([u8; 32], bool)] = &[
    (CHILD_ACCOUNT, true),
    (SIBLING_ACCOUNT, true),
    (PARENT, true),
    (
        *b"Para\xd0\x07\0\0\0\0\0\0\0\0\0\0\0\0\0\0\0\0\0\0\0\0\0\0\0\0\0\0",
        false,
    ),
    // a byte after the number, and one at the end
    (
        *b"sibl\xd0\x07\0\0\x01\0\0\0\0\0\0\0\0\0\0\0\0\0\0\0\0\0\0\0\0\0\0\0",
        false,
    ),
    (
        *b"Parent\0\0\0\0\0\0\0\0\0\0\0\0\0\0\0\0\0\0\0\0\0\0\0\0\0\x01",
        false,
    ),
    (ALICE, false),
];

#[test]
fn accounts_of_chains(rt: HostRuntime) {
    for (account, wanted) in SOVEREIGNS {
        assert!(rt; is_sovereign(account) == *wanted);
    }
}

fn asset(id: Location, fun: Fun) -> Asset {
    Asset {
        id: AssetId::Concrete(id),
        fun,
    }
}

/// A native asset at the location with these partners, and so much on its checking account, if it has one.
fn native(
    alloc: Global,
    place: Place,
    partners: &[ChainId],
    checking: Option<u128>,
) -> Result<AssetRow, Fail> {
    Ok(AssetRow {
        id: location(place)?,
        kind: Kind::Fungible,
        role: AssetRole::Native {
            partners: Listed::from_vec(partners.to_vec(alloc)?),
            checking,
        },
    })
}

/// An asset of parachain 2000 with this reserve.
fn derivative(kind: Kind, reserve: ChainId) -> Result<AssetRow, Full> {
    Ok(AssetRow {
        id: location((1, &[CHILD]))?,
        kind,
        role: AssetRole::Derivative { reserve },
    })
}

const PARTNERS: &[ChainId] = &[ChainId::Relay, ChainId::Para(2000), ChainId::Para(1000)];

/// The table of the parachain: an asset of the relay chain that is native here, and two of parachain 2000.
fn table(alloc: Global) -> Result<Vec<AssetRow>, Fail> {
    let mut rows = Vec::new(alloc);
    rows.push(native(alloc, (1, &[]), PARTNERS, Some(1_000_000))?)?;
    rows.push(derivative(Kind::Fungible, ChainId::Para(2000))?)?;
    rows.push(derivative(Kind::Class, ChainId::Para(1000))?)?;
    Ok(rows)
}

const COINS: Fun = Fun::Fungible(5);

const PIECE: Fun = Fun::NonFungible(Instance::Index(4));

/// The id, the fungibility, the row, and whether each of the relay chain, parachain 2000 and the chain itself is reserve and partner.
const TRUSTED: &[(Place, Fun, Option<usize>, [bool; 3], [bool; 3])] = &[
    (
        (1, &[]),
        COINS,
        Some(0),
        [false, false, false],
        [true, true, false],
    ),
    (
        (1, &[]),
        PIECE,
        None,
        [false, false, false],
        [false, false, false],
    ),
    (
        (1, &[CHILD]),
        COINS,
        Some(1),
        [false, true, false],
        [false, false, false],
    ),
    (
        (1, &[CHILD]),
        PIECE,
        Some(2),
        [false, false, false],
        [false, false, false],
    ),
    (
        (0, &[CHILD]),
        COINS,
        None,
        [false, false, false],
        [false, false, false],
    ),
];

/// Whether the chain at the location is the asset's reserve and its partner.
fn trusted(rows: &[AssetRow], asset: &Asset, place: Place) -> Result<(bool, bool), Full> {
    let chain = location(place)?;
    let reserve = is_reserve(rows, &PARA, asset, &chain);
    Ok((reserve, is_partner(rows, &PARA, asset, &chain)))
}

/// Whether the relay chain, parachain 2000 and the chain itself are the asset's reserve and its partner as they should be.
fn is_trusted(
    rows: &[AssetRow],
    asset: &Asset,
    reserves: [bool; 3],
    partners: [bool; 3],
) -> Result<bool, Full> {
    let relay = trusted(rows, asset, (1, &[]))?;
    let child = trusted(rows, asset, (1, &[CHILD]))?;
    let own = trusted(rows, asset, (1, &[Junction::Parachain(1000)]))?;
    Ok([relay.0, child.0, own.0] == reserves && [relay.1, child.1, own.1] == partners)
}

#[test]
fn a_table_of_assets(rt: HostRuntime) -> Result<(), Fail> {
    let rows = table(rt.alloc())?;
    for (place, fun, row, reserves, partners) in TRUSTED {
        let asset = asset(location(*place)?, *fun);
        assert!(rt; find_row(rows.as_slice(), &asset) == *row);
        assert!(rt; is_trusted(rows.as_slice(), &asset, *reserves, *partners)?);
    }
    let named = Asset {
        id: AssetId::Abstract(ALICE),
        fun: COINS,
    };
    assert!(rt; find_row(rows.as_slice(), &named).is_none());
    Ok(())
}

#[test]
fn the_laws_of_trust_can_be_called() {
    law_of_chain_locations();
    law_of_sovereign_accounts();
    law_of_exact_trust_tests();
    law_of_listings();
}
