//! Assets that leave one home for another.
use crate::documents::COHERENT;
use crate::stepping::check;
use std::test::Fail;

/// A relay chain and a parachain that are partners for an asset; the parachain lets nobody in.
const SHUT: &str = r#"{"chains":[
{"assets":[{"id":"0","native":[1000]}],
 "accounts":[{"who":"A1","asset":"0","amount":"1000"}]},
{"para":1000,"assets":[{"id":"1","native":["relay"]}],"barriers":[]}],
"channels":[{"from":"relay","to":1000}]}"#;

/// The same, but the parachain doesn't name the relay chain as its partner.
const ONE_SIDED: &str = r#"{"chains":[
{"assets":[{"id":"0","native":[1000]}],
 "accounts":[{"who":"A1","asset":"0","amount":"1000"}]},
{"para":1000,"assets":[{"id":"1","native":[]}],"barriers":[]}],
"channels":[{"from":"relay","to":1000}]}"#;

/// What isn't let in is lost, and booked at the chain that sent it.
const LOST: &[(&str, &str)] = &[
    (
        "exec relay A1 040800040000009101110100000100a10f00",
        "  p0 WithdrawAsset ok
  p1 InitiateTeleport ok
  sent relay 1000 1
  end origin 0/AccountId32(A1) topic - surplus 0 0 refunded 0 0
  = complete 2000 200
",
    ),
    (
        "deliver relay 1000",
        "  message relay 1000 1
  burned fungible /GlobalConsensus(Polkadot) 100 LostTeleport
  = incomplete 2000 200 Barrier
",
    ),
    (
        "supply",
        "  supply fungible /GlobalConsensus(Polkadot) home 900 flight 0 burned 100
",
    ),
];

#[test]
fn a_teleport_that_is_not_let_in_is_lost(rt: HostRuntime) -> Result<(), Fail> {
    check(&rt, rt.alloc(), SHUT, COHERENT, LOST)
}

#[test]
fn a_network_that_is_not_coherent_takes_steps(rt: HostRuntime) -> Result<(), Fail> {
    let opening = "not coherent: PartnerUnlisted relay 1000\n";
    check(&rt, rt.alloc(), ONE_SIDED, opening, LOST)
}

/// A relay chain without partner, and a channel to a parachain.
const ALONE: &str = r#"{"chains":[
{"assets":[{"id":"0","native":[]}],
 "accounts":[{"who":"A1","asset":"0","amount":"1000"}]},
{"para":1000}],
"channels":[{"from":"relay","to":1000}]}"#;

/// What can't leave is trapped.
const UNTRUSTED: &[(&str, &str)] = &[
    (
        "exec relay A1 040800040000009101110100000100a10f00",
        "  p0 WithdrawAsset ok
  p1 InitiateTeleport UntrustedTeleportLocation
  end origin 0/AccountId32(A1) topic - surplus 0 0 refunded 0 0
  trapped 1
  = incomplete 2000 200 UntrustedTeleportLocation
",
    ),
    ("traps", "  trap relay 1 0/AccountId32(A1): 0 100\n"),
    ("queues", ""),
    (
        "supply",
        "  supply fungible /GlobalConsensus(Polkadot) home 1000 flight 0 burned 0
",
    ),
];

#[test]
fn a_teleport_goes_to_partners_alone(rt: HostRuntime) -> Result<(), Fail> {
    check(&rt, rt.alloc(), ALONE, COHERENT, UNTRUSTED)
}

/// Partners that let each other in; the relay chain keeps a checking account.
const CHECKED: &str = r#"{"chains":[
{"assets":[{"id":"0","native":[1000],"checking":"0"}],
 "accounts":[{"who":"A1","asset":"0","amount":"1000"}],
 "barriers":["credit",{"unpaid":["0/Parachain(1000)"]}]},
{"para":1000,"assets":[{"id":"1","native":["relay"]}],
 "barriers":["credit",{"unpaid":["1"]}]}],
"channels":[{"from":"relay","to":1000},{"from":1000,"to":"relay"}]}"#;

/// The checking account has what is at the other home.
const COUNTED: &[(&str, &str)] = &[
    (
        "exec relay A1 040800040000009101110100000100a10f040d010000010100B2",
        "  p0 WithdrawAsset ok
  p1 InitiateTeleport ok
  sent relay 1000 1
  end origin 0/AccountId32(A1) topic - surplus 0 0 refunded 0 0
  = complete 2000 200
",
    ),
    (
        "supply",
        "  supply fungible /GlobalConsensus(Polkadot) home 900 flight 100 burned 0
",
    ),
    (
        "deliver relay 1000",
        "  message relay 1000 1
  p0 ReceiveTeleportedAsset ok
  p1 ClearOrigin ok
  p2 DepositAsset ok
  end origin - topic - surplus 0 0 refunded 0 0
  = complete 3000 300
",
    ),
    (
        "balances",
        "  balance relay A1 0 900
  checking relay 0 100
  balance 1000 A2 1 100
",
    ),
    (
        "exec 1000 A2 04080004010000781101000100040d010000010100B3",
        "  p0 WithdrawAsset ok
  p1 InitiateTeleport ok
  sent 1000 relay 1
  end origin 0/AccountId32(A2) topic - surplus 0 0 refunded 0 0
  = complete 2000 200
",
    ),
    (
        "deliver 1000 relay",
        "  message 1000 relay 1
  p0 ReceiveTeleportedAsset ok
  p1 ClearOrigin ok
  p2 DepositAsset ok
  end origin - topic - surplus 0 0 refunded 0 0
  = complete 3000 300
",
    ),
    (
        "balances",
        "  balance relay A1 0 900
  balance relay A3 0 30
  checking relay 0 70
  balance 1000 A2 1 70
",
    ),
];

#[test]
fn a_checking_account_has_what_left(rt: HostRuntime) -> Result<(), Fail> {
    check(&rt, rt.alloc(), CHECKED, COHERENT, COUNTED)
}

/// The same partners, where the parachain has more than the relay chain's checking account.
const SHORT: &str = r#"{"chains":[
{"assets":[{"id":"0","native":[1000],"checking":"0"}],
 "barriers":["credit",{"unpaid":["0/Parachain(1000)"]}]},
{"para":1000,"assets":[{"id":"1","native":["relay"]}],
 "accounts":[{"who":"A2","asset":"1","amount":"50"}],
 "barriers":["credit",{"unpaid":["1"]}]}],
"channels":[{"from":"relay","to":1000},{"from":1000,"to":"relay"}]}"#;

/// What the checking account doesn't cover isn't received, and is lost.
const UNCOVERED: &[(&str, &str)] = &[
    (
        "exec 1000 A2 04080004010000781101000100040d010000010100B3",
        "  p0 WithdrawAsset ok
  p1 InitiateTeleport ok
  sent 1000 relay 1
  end origin 0/AccountId32(A2) topic - surplus 0 0 refunded 0 0
  = complete 2000 200
",
    ),
    (
        "deliver 1000 relay",
        "  message 1000 relay 1
  p0 ReceiveTeleportedAsset NotWithdrawable
  end origin 0/Parachain(1000) topic - surplus 2000 200 refunded 0 0
  burned fungible /GlobalConsensus(Polkadot) 30 LostTeleport
  = incomplete 1000 100 NotWithdrawable
",
    ),
    (
        "balances",
        "  checking relay 0 0
  balance 1000 A2 1 20
",
    ),
    (
        "supply",
        "  supply fungible /GlobalConsensus(Polkadot) home 20 flight 0 burned 30
",
    ),
];

#[test]
fn a_checking_account_that_is_short_refuses(rt: HostRuntime) -> Result<(), Fail> {
    let opening = "not coherent: CheckingShort relay relay\n";
    check(&rt, rt.alloc(), SHORT, opening, UNCOVERED)
}
