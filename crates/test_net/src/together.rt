//! All kinds of things in one network.
use crate::documents::COHERENT;
use crate::stepping::check;
use std::test::Fail;

/// A relay chain and a parachain that are both homes of an asset and of a class. The relay chain keeps a checking account for the asset, has a
/// pool of it and another asset, and asks 10 of it for a delivery; both chains serve locks.
const TOGETHER: &str = r#"{"format":2,"chains":[
{"assets":[{"id":"0","native":[1000],"checking":"0"},{"id":"0/GeneralIndex(1)","native":[]},
  {"id":"0/PalletInstance(9)","kind":"class","native":[1000]}],
 "accounts":[{"who":"POOL","asset":"0","amount":"1000000"},
  {"who":"POOL","asset":"0/GeneralIndex(1)","amount":"1000000"},
  {"who":"A1","asset":"0","amount":"20000"},
  {"who":"A1","asset":"0/PalletInstance(9)","instance":"0x0110"}],
 "barriers":["credit",{"unpaid":["0/Parachain(1000)"]}],"locks":true,
 "pools":[{"first":"0","second":"0/GeneralIndex(1)","fee":3}]},
{"para":1000,"assets":[{"id":"1","native":["relay"]},
  {"id":"1/PalletInstance(9)","kind":"class","native":["relay"]}],
 "barriers":["credit",{"unpaid":["1"]}],"locks":true}],
"channels":[{"from":"relay","to":1000,"fee_asset":"0","fee":"10"},{"from":1000,"to":"relay"}]}"#;

/// An instance is teleported and the delivery paid, an amount is exchanged, some of the asset is locked, some teleported and counted; what is
/// locked stays; then all comes back.
const STEPS: &[(&str, &str)] = &[
    (
        "exec relay A1 040800080000002800010409010110110100000100a10f040d010000010100B2",
        "  p0 WithdrawAsset ok
  p1 InitiateTeleport ok
  sent relay 1000 1
  end origin 0/AccountId32(A1) topic - surplus 0 0 refunded 0 0
  = complete 2000 200
",
    ),
    (
        "supply",
        "  supply fungible /GlobalConsensus(Polkadot) home 1020000 flight 0 burned 0
  supply class /GlobalConsensus(Polkadot)/PalletInstance(9) home 0 flight 1 burned 0
  supply fungible /GlobalConsensus(Polkadot)/GeneralIndex(1) home 1000000 flight 0 burned 0
",
    ),
    (
        "exec relay A1 040c0004000000419c0f0100040001050400a18c010d010000010100B1",
        "  p0 WithdrawAsset ok
  p1 ExchangeAsset ok
  p2 DepositAsset ok
  end origin 0/AccountId32(A1) topic - surplus 0 0 refunded 0 0
  = complete 3000 300
",
    ),
    (
        "exec relay A1 04082b01270000006109000100a10f",
        "  p0 SetFeesMode ok
  p1 LockAsset ok
  sent relay 1000 2
  end origin 0/AccountId32(A1) topic - surplus 0 0 refunded 0 0
  = complete 2000 200
",
    ),
    (
        "exec relay A1 04080004000000c90f110100000100a10f040d010000010100B2",
        "  p0 WithdrawAsset ok
  p1 InitiateTeleport ok
  sent relay 1000 3
  end origin 0/AccountId32(A1) topic - surplus 0 0 refunded 0 0
  = complete 2000 200
",
    ),
    (
        "queues",
        "  queue relay 1000 1 0x040c0204010104090101100a0d010000010100B2
  queue relay 1000 2 0x040429010000610901010100B1
  queue relay 1000 3 0x040c0204010000a10f0a0d010000010100B2
",
    ),
    (
        "deliver relay 1000",
        "  message relay 1000 1
  p0 ReceiveTeleportedAsset ok
  p1 ClearOrigin ok
  p2 DepositAsset ok
  end origin - topic - surplus 0 0 refunded 0 0
  = complete 3000 300
",
    ),
    (
        "deliver relay 1000",
        "  message relay 1000 2
  p0 NoteUnlockable ok
  end origin 1 topic - surplus 0 0 refunded 0 0
  = complete 1000 100
",
    ),
    (
        "deliver relay 1000",
        "  message relay 1000 3
  p0 ReceiveTeleportedAsset ok
  p1 ClearOrigin ok
  p2 DepositAsset ok
  end origin - topic - surplus 0 0 refunded 0 0
  = complete 3000 300
",
    ),
    (
        "balances",
        "  balance relay A0 0 30
  balance relay A1 0 8970
  balance relay A1 0/GeneralIndex(1) 9871
  balance relay POOL 0 1010000
  balance relay POOL 0/GeneralIndex(1) 990129
  checking relay 0 1000
  locked relay A1 0 600 0/Parachain(1000)
  balance 1000 A2 1 1000
  balance 1000 A2 1/PalletInstance(9) instance 0x0110
",
    ),
    (
        "exec relay A1 04040404000000cd8200010100B2",
        "  p0 TransferAsset FailedToTransactAsset
  end origin 0/AccountId32(A1) topic - surplus 0 0 refunded 0 0
  = incomplete 1000 100 FailedToTransactAsset
",
    ),
    (
        "exec relay A1 04040404000000c98200010100B2",
        "  p0 TransferAsset ok
  end origin 0/AccountId32(A1) topic - surplus 0 0 refunded 0 0
  = complete 1000 100
",
    ),
    (
        "exec 1000 A2 04080008010000b104010104090101101101000100040d010000010100B3",
        "  p0 WithdrawAsset ok
  p1 InitiateTeleport ok
  sent 1000 relay 1
  end origin 0/AccountId32(A2) topic - surplus 0 0 refunded 0 0
  = complete 2000 200
",
    ),
    (
        "deliver 1000 relay",
        "  message 1000 relay 1
  p0 ReceiveTeleportedAsset ok
  p1 ClearOrigin ok
  p2 DepositAsset ok
  end origin - topic - surplus 0 0 refunded 0 0
  = complete 3000 300
",
    ),
    (
        "exec 1000 A1 04042a01000061090100",
        "  p0 RequestUnlock ok
  sent 1000 relay 2
  end origin 0/AccountId32(A1) topic - surplus 0 0 refunded 0 0
  = complete 1000 100
",
    ),
    (
        "deliver 1000 relay",
        "  message 1000 relay 2
  p0 UnlockAsset ok
  end origin 0/Parachain(1000) topic - surplus 0 0 refunded 0 0
  = complete 1000 100
",
    ),
    (
        "balances",
        "  balance relay A0 0 30
  balance relay A1 0 600
  balance relay A1 0/GeneralIndex(1) 9871
  balance relay A2 0 8370
  balance relay A3 0 300
  balance relay A3 0/PalletInstance(9) instance 0x0110
  balance relay POOL 0 1010000
  balance relay POOL 0/GeneralIndex(1) 990129
  checking relay 0 700
  balance 1000 A2 1 700
",
    ),
    (
        "supply",
        "  supply fungible /GlobalConsensus(Polkadot) home 1020000 flight 0 burned 0
  supply class /GlobalConsensus(Polkadot)/PalletInstance(9) home 1 flight 0 burned 0
  supply fungible /GlobalConsensus(Polkadot)/GeneralIndex(1) home 1000000 flight 0 burned 0
",
    ),
];

#[test]
fn one_network_has_all_kinds(rt: HostRuntime) -> Result<(), Fail> {
    check(&rt, rt.alloc(), TOGETHER, COHERENT, STEPS)
}
