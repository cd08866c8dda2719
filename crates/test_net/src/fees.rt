//! Fees of channels.
use crate::documents::COHERENT;
use crate::stepping::check;
use std::test::Fail;

/// A relay chain and two parachains that count on its asset; a message to parachain 2000 costs 10.
const CHARGED: &str = r#"{"chains":[
{"assets":[{"id":"0","native":[]}],
 "rates":[{"asset":"0","per_second":"1000000000","per_mb":"0"}],
 "accounts":[{"who":"A1","asset":"0","amount":"1000000"}]},
{"para":2000,"assets":[{"id":"1","reserve":"relay"}],
 "rates":[{"asset":"1","per_second":"1000000000","per_mb":"0"}]},
{"para":2001,"assets":[{"id":"1","reserve":"relay"}],
 "rates":[{"asset":"1","per_second":"1000000000","per_mb":"0"}]}],
"channels":[{"from":"relay","to":2000,"fee_asset":"0","fee":"10"},{"from":2000,"to":"relay"},
{"from":"relay","to":2001},{"from":2001,"to":"relay"}],"format":2}"#;

/// Without anything held the fee can't be paid; from the account it can.
const DRAWN: &[(&str, &str)] = &[
    (
        "exec relay A1 04040504000000a10f000100411f08130100009101000d01020400010100B2",
        "  p0 TransferReserveAsset NotHoldingFees
  end origin 0/AccountId32(A1) topic - surplus 0 0 refunded 0 0
  = incomplete 1000 100 NotHoldingFees
",
    ),
    ("balances", "  balance relay A1 0 1000000\n"),
    (
        "exec relay A1 04082b010504000000a10f000100411f08130100009101000d01020400010100B2",
        "  p0 SetFeesMode ok
  p1 TransferReserveAsset ok
  sent relay 2000 1
  end origin 0/AccountId32(A1) topic - surplus 0 0 refunded 0 0
  = complete 2000 200
",
    ),
    (
        "balances",
        "  balance relay A0 0 10
  balance relay A1 0 998990
  balance relay PARA 0 1000
",
    ),
    (
        "supply",
        "  supply fungible /GlobalConsensus(Polkadot) home 1000000 flight 0 burned 0
  backing 2000 fungible /GlobalConsensus(Polkadot) held 1000 owed 1000
  backing 2001 fungible /GlobalConsensus(Polkadot) held 0 owed 0
",
    ),
];

#[test]
fn a_channels_fee_is_drawn_from_the_account(rt: HostRuntime) -> Result<(), Fail> {
    check(&rt, rt.alloc(), CHARGED, COHERENT, DRAWN)
}

/// From what is held it is paid first.
const HELD: &[(&str, &str)] = &[
    (
        "exec relay A1 04080004000000a10f0e0100000100411f00",
        "  p0 WithdrawAsset ok
  p1 DepositReserveAsset ok
  sent relay 2000 1
  end origin 0/AccountId32(A1) topic - surplus 0 0 refunded 0 0
  = complete 2000 200
",
    ),
    (
        "balances",
        "  balance relay A0 0 10
  balance relay A1 0 999000
  balance relay PARA 0 990
",
    ),
    (
        "supply",
        "  supply fungible /GlobalConsensus(Polkadot) home 1000000 flight 0 burned 0
  backing 2000 fungible /GlobalConsensus(Polkadot) held 990 owed 990
  backing 2001 fungible /GlobalConsensus(Polkadot) held 0 owed 0
",
    ),
];

#[test]
fn a_channels_fee_is_taken_from_what_is_held(rt: HostRuntime) -> Result<(), Fail> {
    check(&rt, rt.alloc(), CHARGED, COHERENT, HELD)
}

/// The fee comes before what else is refused, and goes back where the rest is refused.
const PUT_BACK: &[(&str, &str)] = &[
    (
        "exec relay A1 040c2b010a23000100411f1c0000",
        "  p0 SetFeesMode ok
  p1 ClearOrigin ok
  p2 ReportTransactStatus BadOrigin
  end origin - topic - surplus 0 0 refunded 0 0
  = incomplete 3000 300 BadOrigin
",
    ),
    (
        "exec relay A1 0408000400000024110100000100411f00",
        "  p0 WithdrawAsset ok
  p1 InitiateTeleport NotHoldingFees
  end origin 0/AccountId32(A1) topic - surplus 0 0 refunded 0 0
  trapped 1
  = incomplete 2000 200 NotHoldingFees
",
    ),
    (
        "exec relay A1 040800040000009101110100000100411f00",
        "  p0 WithdrawAsset ok
  p1 InitiateTeleport UntrustedTeleportLocation
  end origin 0/AccountId32(A1) topic - surplus 0 0 refunded 0 0
  trapped 2
  = incomplete 2000 200 UntrustedTeleportLocation
",
    ),
    (
        "traps",
        "  trap relay 1 0/AccountId32(A1): 0 9
  trap relay 2 0/AccountId32(A1): 0 100
",
    ),
    ("balances", "  balance relay A1 0 999891\n"),
];

#[test]
fn a_fee_goes_back_where_the_rest_is_refused(rt: HostRuntime) -> Result<(), Fail> {
    check(&rt, rt.alloc(), CHARGED, COHERENT, PUT_BACK)
}
