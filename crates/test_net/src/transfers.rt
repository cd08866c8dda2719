//! Assets that are sent from their reserve and back.
use crate::documents::{COHERENT, RESERVE};
use crate::stepping::{check, opened, stepped};
use asset_lists::Kind;
use chain_ids::ChainId;
use chain_state::ChainState;
use std::alloc::Global;
use std::process::Abort;
use std::test::Fail;
use supply_audit::{AssetPlaces, Cover, Place, backing, backing_at, supply, supply_at};

/// An account sends 1000 from the relay chain to parachain 2000, where weight is paid of it; and 500 of it come back.
const THERE_AND_BACK: &[(&str, &str)] = &[
    (
        "exec relay A1 04040504000000a10f000100411f08130100009101000d01020400010100B2",
        "  p0 TransferReserveAsset ok
  sent relay 2000 1
  end origin 0/AccountId32(A1) topic - surplus 0 0 refunded 0 0
  = complete 1000 100
",
    ),
    (
        "balances",
        "  balance relay A1 0 999000
  balance relay PARA 0 1000
",
    ),
    (
        "queues",
        "  queue relay 2000 1 0x04100104010000a10f0a130100009101000d01020400010100B2
",
    ),
    (
        "deliver relay 2000",
        "  message relay 2000 1
  p0 ReserveAssetDeposited ok
  p1 ClearOrigin ok
  p2 BuyExecution ok
  p3 DepositAsset ok
  end origin - topic - surplus 0 0 refunded 0 0
  = complete 4000 400
",
    ),
    (
        "balances",
        "  balance relay A1 0 999000
  balance relay PARA 0 1000
  balance 2000 A0 1 4
  balance 2000 A2 1 996
",
    ),
    (
        "exec 2000 A2 04080004010000d107100100010008130000009101000d01020400010100B3",
        "  p0 WithdrawAsset ok
  p1 InitiateReserveWithdraw ok
  sent 2000 relay 1
  end origin 0/AccountId32(A2) topic - surplus 0 0 refunded 0 0
  = complete 2000 200
",
    ),
    (
        "deliver 2000 relay",
        "  message 2000 relay 1
  p0 WithdrawAsset ok
  p1 ClearOrigin ok
  p2 BuyExecution ok
  p3 DepositAsset ok
  end origin - topic - surplus 0 0 refunded 0 0
  = complete 4000 400
",
    ),
    (
        "balances",
        "  balance relay A0 0 4
  balance relay A1 0 999000
  balance relay A3 0 496
  balance relay PARA 0 500
  balance 2000 A0 1 4
  balance 2000 A2 1 496
",
    ),
    (
        "supply",
        "  supply fungible /GlobalConsensus(Polkadot) home 1000000 flight 0 burned 0
  backing 2000 fungible /GlobalConsensus(Polkadot) held 500 owed 500
  backing 2001 fungible /GlobalConsensus(Polkadot) held 0 owed 0
",
    ),
];

#[test]
fn a_reserve_transfer_and_its_way_back(rt: HostRuntime) -> Result<(), Fail> {
    check(&rt, rt.alloc(), RESERVE, COHERENT, THERE_AND_BACK)
}

/// The supply block once 1000 have been sent.
const BACKED: &str = "  supply fungible /GlobalConsensus(Polkadot) home 1000000 flight 0 burned 0
  backing 2000 fungible /GlobalConsensus(Polkadot) held 1000 owed 1000
  backing 2001 fungible /GlobalConsensus(Polkadot) held 0 owed 0
";

/// What is sent is backed while it is in flight and once it has come.
const AUDITED: &[(&str, &str)] = &[
    (
        "supply",
        "  supply fungible /GlobalConsensus(Polkadot) home 1000000 flight 0 burned 0
  backing 2000 fungible /GlobalConsensus(Polkadot) held 0 owed 0
  backing 2001 fungible /GlobalConsensus(Polkadot) held 0 owed 0
",
    ),
    (
        "exec relay A1 04040504000000a10f000100411f08130100009101000d01020400010100B2",
        "  p0 TransferReserveAsset ok
  sent relay 2000 1
  end origin 0/AccountId32(A1) topic - surplus 0 0 refunded 0 0
  = complete 1000 100
",
    ),
    ("supply", BACKED),
    (
        "balances",
        "  balance relay A1 0 999000
  balance relay PARA 0 1000
",
    ),
    ("supply", BACKED),
    (
        "deliver relay 2000",
        "  message relay 2000 1
  p0 ReserveAssetDeposited ok
  p1 ClearOrigin ok
  p2 BuyExecution ok
  p3 DepositAsset ok
  end origin - topic - surplus 0 0 refunded 0 0
  = complete 4000 400
",
    ),
    ("supply", BACKED),
];

#[test]
fn derivatives_are_backed_behind_each_step(rt: HostRuntime) -> Result<(), Fail> {
    check(&rt, rt.alloc(), RESERVE, COHERENT, AUDITED)
}

#[test]
fn an_asset_is_summed_at_its_home_alone(rt: HostRuntime) -> Result<(), Fail> {
    let net = opened(rt.alloc(), RESERVE)?;
    for chain in net.chains() {
        let found = supply(net.chains(), &chain.site().path(), Kind::Fungible);
        let wanted = match chain.site().chain {
            ChainId::Relay => 1_000_000,
            ChainId::Para(_) => 0,
        };
        assert!(rt; found.home.low == wanted);
    }
    Ok(())
}

/// An account sends 1000 from the relay chain to parachain 2000.
const SENT: &str = "exec relay A1 04040504000000a10f000100411f08130100009101000d01020400010100B2";

/// While these are on their way: a chain and its number, what is at its first row, and what the reserve has for the chain, which owes it.
const ON_THE_WAY: &[(ChainId, usize, u128, u128)] = &[
    (ChainId::Relay, 0, 1_000_000, 0),
    (ChainId::Para(2000), 1, 0, 1000),
    (ChainId::Para(2001), 2, 0, 0),
];

/// Looks at the first row of each chain, by its index and by its chain.
fn check_first_rows(rt: &impl Abort, alloc: Global, chains: &[ChainState]) -> Result<(), Fail> {
    let index = AssetPlaces::of(alloc, chains)?;
    for (chain, number, stands, owed) in ON_THE_WAY {
        let place = Place {
            chain: *number,
            row: 0,
        };
        let cover = Cover::of(alloc, chains, &index, *chain, 0)?;
        let by_place = backing_at(chains, &cover);
        let by_row = backing(chains, *chain, 0);
        assert!(rt; supply_at(chains, &[place]).home.low == *stands);
        assert!(rt; by_place.held.low == *owed && by_place.owed.low == *owed);
        assert!(rt; by_row.held.low == *owed && by_row.owed.low == *owed);
    }
    Ok(())
}

#[test]
fn places_have_what_rows_have(rt: HostRuntime) -> Result<(), Fail> {
    let mut net = opened(rt.alloc(), RESERVE)?;
    let _lines = stepped(rt.alloc(), &mut net, SENT)?;
    check_first_rows(&rt, rt.alloc(), net.chains())
}

/// The same chains; the channel to parachain 2000 holds one message, of version 3, and the one to parachain 2001 short ones alone.
const NARROW: &str = r#"{"chains":[
{"assets":[{"id":"0","native":[]}],
 "rates":[{"asset":"0","per_second":"1000000000","per_mb":"0"}],
 "accounts":[{"who":"A1","asset":"0","amount":"1000000"}]},
{"para":2000,"assets":[{"id":"1","reserve":"relay"}],
 "rates":[{"asset":"1","per_second":"1000000000","per_mb":"0"}]},
{"para":2001,"assets":[{"id":"1","reserve":"relay"}],
 "rates":[{"asset":"1","per_second":"1000000000","per_mb":"0"}]}],
"channels":[{"from":"relay","to":2000,"capacity":1,"version":3},{"from":2000,"to":"relay"},
{"from":"relay","to":2001,"max_size":50},{"from":2001,"to":"relay"}]}"#;

/// A second message, a claim and a message that is too long find no room, and what they were to carry stays.
const TWICE: &[(&str, &str)] = &[
    (
        "exec relay A1 04040504000000a10f000100411f08130100009101000d01020400010100B2",
        "  p0 TransferReserveAsset ok
  sent relay 2000 1
  end origin 0/AccountId32(A1) topic - surplus 0 0 refunded 0 0
  = complete 1000 100
",
    ),
    (
        "exec relay A1 04040504000000a10f000100411f08130100009101000d01020400010100B2",
        "  p0 TransferReserveAsset Transport
  end origin 0/AccountId32(A1) topic - surplus 0 0 refunded 0 0
  = incomplete 1000 100 Transport
",
    ),
    (
        "claim relay 2000 0408180000000a",
        "  = not sent: Transport\n",
    ),
    (
        "exec relay A1 04040504000000a10f000100451f08130100009101000d01020400010100B2",
        "  p0 TransferReserveAsset ExceedsMaxMessageSize
  end origin 0/AccountId32(A1) topic - surplus 0 0 refunded 0 0
  = incomplete 1000 100 ExceedsMaxMessageSize
",
    ),
    (
        "balances",
        "  balance relay A1 0 999000
  balance relay PARA 0 1000
",
    ),
    (
        "queues",
        "  queue relay 2000 1 0x0310010400010000a10f0a13000100009101000d01020400010100B2
",
    ),
    (
        "deliver relay 2000",
        "  message relay 2000 1
  p0 ReserveAssetDeposited ok
  p1 ClearOrigin ok
  p2 BuyExecution ok
  p3 DepositAsset ok
  end origin - topic - surplus 0 0 refunded 0 0
  = complete 4000 400
",
    ),
];

#[test]
fn a_channel_takes_what_fits(rt: HostRuntime) -> Result<(), Fail> {
    check(&rt, rt.alloc(), NARROW, COHERENT, TWICE)
}

/// A relay chain with an instance of a class, and a parachain that counts on the class; they let each other in.
const CLASS: &str = r#"{"chains":[
{"assets":[{"id":"0/PalletInstance(9)","kind":"class","native":[]}],
 "accounts":[{"who":"A1","asset":"0/PalletInstance(9)","instance":"0x0110"}],
 "barriers":["credit",{"unpaid":["0/Parachain(2000)"]}]},
{"para":2000,"assets":[{"id":"1/PalletInstance(9)","kind":"class","reserve":"relay"}],
 "barriers":["credit",{"unpaid":["1"]}]}],
"channels":[{"from":"relay","to":2000},{"from":2000,"to":"relay"}]}"#;

/// The supply block while the parachain, or a message, has the instance.
const COVERED: &str =
    "  supply class /GlobalConsensus(Polkadot)/PalletInstance(9) home 1 flight 0 burned 0
  backing 2000 class /GlobalConsensus(Polkadot)/PalletInstance(9) held 1 owed 1
";

/// The instance goes to the parachain and comes back.
const INSTANCE: &[(&str, &str)] = &[
    (
        "exec relay A1 0404050400010409010110000100411f040d010000010100B2",
        "  p0 TransferReserveAsset ok
  sent relay 2000 1
  end origin 0/AccountId32(A1) topic - surplus 0 0 refunded 0 0
  = complete 1000 100
",
    ),
    ("supply", COVERED),
    (
        "deliver relay 2000",
        "  message relay 2000 1
  p0 ReserveAssetDeposited ok
  p1 ClearOrigin ok
  p2 DepositAsset ok
  end origin - topic - surplus 0 0 refunded 0 0
  = complete 3000 300
",
    ),
    (
        "balances",
        "  balance relay PARA 0/PalletInstance(9) instance 0x0110
  balance 2000 A2 1/PalletInstance(9) instance 0x0110
",
    ),
    (
        "exec 2000 A2 04080004010104090101101001000100040d010000010100B3",
        "  p0 WithdrawAsset ok
  p1 InitiateReserveWithdraw ok
  sent 2000 relay 1
  end origin 0/AccountId32(A2) topic - surplus 0 0 refunded 0 0
  = complete 2000 200
",
    ),
    ("supply", COVERED),
    (
        "deliver 2000 relay",
        "  message 2000 relay 1
  p0 WithdrawAsset ok
  p1 ClearOrigin ok
  p2 DepositAsset ok
  end origin - topic - surplus 0 0 refunded 0 0
  = complete 3000 300
",
    ),
    (
        "balances",
        "  balance relay A3 0/PalletInstance(9) instance 0x0110
",
    ),
];

#[test]
fn an_instance_goes_and_comes_back(rt: HostRuntime) -> Result<(), Fail> {
    check(&rt, rt.alloc(), CLASS, COHERENT, INSTANCE)
}
