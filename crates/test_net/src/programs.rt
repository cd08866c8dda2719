//! Programs that stay at their chain.
use crate::documents::{COHERENT, RESERVE};
use crate::stepping::check;
use std::test::Fail;

/// A withdrawal and a deposit, spelled in version 4 and in version 3.
const MOVED: &[(&str, &str)] = &[
    (
        "exec relay A1 04080004000000a10f0d01020400010100B2",
        "  p0 WithdrawAsset ok
  p1 DepositAsset ok
  end origin 0/AccountId32(A1) topic - surplus 0 0 refunded 0 0
  = complete 2000 200
",
    ),
    (
        "balances",
        "  balance relay A1 0 999000
  balance relay A2 0 1000
",
    ),
    (
        "exec relay A1 0308000400000000a10f0d01020400010100B2",
        "  p0 WithdrawAsset ok
  p1 DepositAsset ok
  end origin 0/AccountId32(A1) topic - surplus 0 0 refunded 0 0
  = complete 2000 200
",
    ),
    (
        "balances",
        "  balance relay A1 0 998000
  balance relay A2 0 2000
",
    ),
];

#[test]
fn assets_move_in_both_versions(rt: HostRuntime) -> Result<(), Fail> {
    check(&rt, rt.alloc(), RESERVE, COHERENT, MOVED)
}

/// A burn is booked, what is left is trapped, and who has nothing gives nothing.
const BURNED: &[(&str, &str)] = &[
    (
        "exec relay A1 0408000400000091011c04000000a0",
        "  p0 WithdrawAsset ok
  p1 BurnAsset ok
  burned fungible /GlobalConsensus(Polkadot) 40 BurnAsset
  end origin 0/AccountId32(A1) topic - surplus 0 0 refunded 0 0
  trapped 1
  = complete 2000 200
",
    ),
    ("traps", "  trap relay 1 0/AccountId32(A1): 0 60\n"),
    (
        "supply",
        "  supply fungible /GlobalConsensus(Polkadot) home 999960 flight 0 burned 40
  backing 2000 fungible /GlobalConsensus(Polkadot) held 0 owed 0
  backing 2001 fungible /GlobalConsensus(Polkadot) held 0 owed 0
",
    ),
    (
        "exec relay A3 04040004000000a0",
        "  p0 WithdrawAsset FailedToTransactAsset
  end origin 0/AccountId32(A3) topic - surplus 0 0 refunded 0 0
  = incomplete 1000 100 FailedToTransactAsset
",
    ),
];

#[test]
fn a_burn_is_booked(rt: HostRuntime) -> Result<(), Fail> {
    check(&rt, rt.alloc(), RESERVE, COHERENT, BURNED)
}

/// A handler and an appendix run after an error, and appendices within appendices down to the last level.
const HANDLED: &[(&str, &str)] = &[
    (
        "exec relay A1 041415041716040a191c2d2d",
        "  p0 SetErrorHandler ok
  p1 SetAppendix ok
  p2 Trap Trap(7)
  h0 ClearError ok
  a0 ClearOrigin ok
  end origin - topic - surplus 2000 200 refunded 0 0
  = complete 5000 500
",
    ),
    (
        "exec relay A1 040416041604160416041604160416040a",
        "  p0 SetAppendix ok
  a0 SetAppendix ok
  a0 SetAppendix ok
  a0 SetAppendix ok
  a0 SetAppendix ok
  a0 SetAppendix ok
  a0 SetAppendix ok
  a0 ClearOrigin ok
  end origin - topic - surplus 0 0 refunded 0 0
  = complete 8000 800
",
    ),
];

#[test]
fn handlers_and_appendices_run(rt: HostRuntime) -> Result<(), Fail> {
    check(&rt, rt.alloc(), RESERVE, COHERENT, HANDLED)
}

/// A parachain with two pallets.
const PALLETS: &str = r#"{"chains":[{"para":2000,"pallets":[
{"index":50,"name":"Balances","module_name":"pallet_balances","major":4,"minor":1,"patch":2},
{"index":51,"name":"Assets","module_name":"pallet_assets","major":1,"minor":0,"patch":0}]}]}"#;

/// A pallet of the wrong index, names and versions isn't the one that is expected.
const EXPECTED: &[(&str, &str)] = &[
    (
        "exec 2000 A1 040422c82042616c616e6365733c70616c6c65745f62616c616e6365731004",
        "  p0 ExpectPallet ok
  end origin 0/AccountId32(A1) topic - surplus 0 0 refunded 0 0
  = complete 1000 100
",
    ),
    (
        "exec 2000 A1 040422d02042616c616e6365733c70616c6c65745f62616c616e6365731004",
        "  p0 ExpectPallet PalletNotFound
  end origin 0/AccountId32(A1) topic - surplus 0 0 refunded 0 0
  = incomplete 1000 100 PalletNotFound
",
    ),
    (
        "exec 2000 A1 040422cc2042616c616e6365733c70616c6c65745f62616c616e6365731004",
        "  p0 ExpectPallet NameMismatch
  end origin 0/AccountId32(A1) topic - surplus 0 0 refunded 0 0
  = incomplete 1000 100 NameMismatch
",
    ),
    (
        "exec 2000 A1 040422c82042616c616e6365733c70616c6c65745f62616c616e6365730c00",
        "  p0 ExpectPallet VersionIncompatible
  end origin 0/AccountId32(A1) topic - surplus 0 0 refunded 0 0
  = incomplete 1000 100 VersionIncompatible
",
    ),
    (
        "exec 2000 A1 040422c82042616c616e6365733c70616c6c65745f62616c616e6365731008",
        "  p0 ExpectPallet VersionIncompatible
  end origin 0/AccountId32(A1) topic - surplus 0 0 refunded 0 0
  = incomplete 1000 100 VersionIncompatible
",
    ),
];

#[test]
fn a_pallet_is_the_expected_one(rt: HostRuntime) -> Result<(), Fail> {
    check(&rt, rt.alloc(), PALLETS, COHERENT, EXPECTED)
}
