//! Teleports, and checking accounts.

use crate::running::Row;
use xcm_cli::Status;

/// Teleports that aren't received.
pub(crate) const LOST: &[Row] = &[
    Row {
        name: "a teleport that isn't let in is lost",
        network: r#"{"chains":[{"assets":[{"id":"0","native":[1000]}],
"accounts":[{"who":"0x0101010101010101010101010101010101010101010101010101010101010101","asset":"0","amount":"1000"}]},
{"para":1000,"barriers":[],"assets":[{"id":"1","native":["relay"]}]}],
"channels":[{"from":"relay","to":1000}]}"#,
        steps: "exec relay 0x0101010101010101010101010101010101010101010101010101010101010101 040800040000009101110100000100a10f00
deliver relay 1000
supply
",
        status: Status::Done,
        report: "coherent
  supply fungible /GlobalConsensus(Polkadot) home 1000 flight 0 burned 0
#1 exec relay
  p0 WithdrawAsset ok
  p1 InitiateTeleport ok
  sent relay 1000 1
  end origin 0/AccountId32(0x0101010101010101010101010101010101010101010101010101010101010101) topic - surplus 0 0 refunded 0 0
  = complete 2000 200
#2 deliver relay 1000
  message relay 1000 1
  burned fungible /GlobalConsensus(Polkadot) 100 LostTeleport
  = incomplete 2000 200 Barrier
#3 supply
  supply fungible /GlobalConsensus(Polkadot) home 900 flight 0 burned 100
",
    },
    Row {
        name: "steps of a network that isn't coherent run",
        network: r#"{"chains":[{"assets":[{"id":"0","native":[1000]}],
"accounts":[{"who":"0x0101010101010101010101010101010101010101010101010101010101010101","asset":"0","amount":"1000"}]},
{"para":1000,"barriers":[],"assets":[{"id":"1","native":[]}]}],
"channels":[{"from":"relay","to":1000}]}"#,
        steps: "exec relay 0x0101010101010101010101010101010101010101010101010101010101010101 040800040000009101110100000100a10f00
deliver relay 1000
supply
",
        status: Status::Done,
        report: "not coherent: PartnerUnlisted relay 1000
  supply fungible /GlobalConsensus(Polkadot) home 1000 flight 0 burned 0
#1 exec relay
  p0 WithdrawAsset ok
  p1 InitiateTeleport ok
  sent relay 1000 1
  end origin 0/AccountId32(0x0101010101010101010101010101010101010101010101010101010101010101) topic - surplus 0 0 refunded 0 0
  = complete 2000 200
#2 deliver relay 1000
  message relay 1000 1
  burned fungible /GlobalConsensus(Polkadot) 100 LostTeleport
  = incomplete 2000 200 Barrier
#3 supply
  supply fungible /GlobalConsensus(Polkadot) home 900 flight 0 burned 100
",
    },
    Row {
        name: "a teleport to a chain that is no partner",
        network: r#"{"chains":[{"assets":[{"id":"0","native":[]}],
"accounts":[{"who":"0x0101010101010101010101010101010101010101010101010101010101010101","asset":"0","amount":"1000"}]},{"para":1000}],
"channels":[{"from":"relay","to":1000}]}"#,
        steps: "exec relay 0x0101010101010101010101010101010101010101010101010101010101010101 040800040000009101110100000100a10f00
",
        status: Status::Done,
        report: "coherent
  supply fungible /GlobalConsensus(Polkadot) home 1000 flight 0 burned 0
#1 exec relay
  p0 WithdrawAsset ok
  p1 InitiateTeleport UntrustedTeleportLocation
  end origin 0/AccountId32(0x0101010101010101010101010101010101010101010101010101010101010101) topic - surplus 0 0 refunded 0 0
  trapped 1
  = incomplete 2000 200 UntrustedTeleportLocation
",
    },
];

/// Teleports that a checking account counts.
pub(crate) const CHECKED: &[Row] = &[
    Row {
        name: "a teleport and back, with a checking account",
        network: r#"{"chains":[{"barriers":["credit",{"unpaid":["0/Parachain(1000)"]}],
"assets":[{"id":"0","native":[1000],"checking":"0"}],"accounts":[{"who":"0x0101010101010101010101010101010101010101010101010101010101010101","asset":"0","amount":"1000"}]},
{"para":1000,"barriers":["credit",{"unpaid":["1"]}],
"assets":[{"id":"1","native":["relay"]}],"accounts":[]}],
"channels":[{"from":"relay","to":1000},{"from":1000,"to":"relay"}]}"#,
        steps: "exec relay 0x0101010101010101010101010101010101010101010101010101010101010101 040800040000009101110100000100a10f040d0100000101000202020202020202020202020202020202020202020202020202020202020202
deliver relay 1000
balances
exec 1000 0x0202020202020202020202020202020202020202020202020202020202020202 04080004010000781101000100040d0100000101000303030303030303030303030303030303030303030303030303030303030303
deliver 1000 relay
balances
",
        status: Status::Done,
        report: "coherent
  supply fungible /GlobalConsensus(Polkadot) home 1000 flight 0 burned 0
#1 exec relay
  p0 WithdrawAsset ok
  p1 InitiateTeleport ok
  sent relay 1000 1
  end origin 0/AccountId32(0x0101010101010101010101010101010101010101010101010101010101010101) topic - surplus 0 0 refunded 0 0
  = complete 2000 200
#2 deliver relay 1000
  message relay 1000 1
  p0 ReceiveTeleportedAsset ok
  p1 ClearOrigin ok
  p2 DepositAsset ok
  end origin - topic - surplus 0 0 refunded 0 0
  = complete 3000 300
#3 balances
  balance relay 0x0101010101010101010101010101010101010101010101010101010101010101 0 900
  checking relay 0 100
  balance 1000 0x0202020202020202020202020202020202020202020202020202020202020202 1 100
#4 exec 1000
  p0 WithdrawAsset ok
  p1 InitiateTeleport ok
  sent 1000 relay 1
  end origin 0/AccountId32(0x0202020202020202020202020202020202020202020202020202020202020202) topic - surplus 0 0 refunded 0 0
  = complete 2000 200
#5 deliver 1000 relay
  message 1000 relay 1
  p0 ReceiveTeleportedAsset ok
  p1 ClearOrigin ok
  p2 DepositAsset ok
  end origin - topic - surplus 0 0 refunded 0 0
  = complete 3000 300
#6 balances
  balance relay 0x0101010101010101010101010101010101010101010101010101010101010101 0 900
  balance relay 0x0303030303030303030303030303030303030303030303030303030303030303 0 30
  checking relay 0 70
  balance 1000 0x0202020202020202020202020202020202020202020202020202020202020202 1 70
",
    },
    Row {
        name: "a checking account that is short",
        network: r#"{"chains":[{"barriers":["credit",{"unpaid":["0/Parachain(1000)"]}],
"assets":[{"id":"0","native":[1000],"checking":"0"}],"accounts":[]},
{"para":1000,"barriers":["credit",{"unpaid":["1"]}],
"assets":[{"id":"1","native":["relay"]}],"accounts":[{"who":"0x0202020202020202020202020202020202020202020202020202020202020202","asset":"1","amount":"50"}]}],
"channels":[{"from":"relay","to":1000},{"from":1000,"to":"relay"}]}"#,
        steps: "exec 1000 0x0202020202020202020202020202020202020202020202020202020202020202 04080004010000781101000100040d0100000101000303030303030303030303030303030303030303030303030303030303030303
deliver 1000 relay
",
        status: Status::Done,
        report: "not coherent: CheckingShort relay relay
  supply fungible /GlobalConsensus(Polkadot) home 50 flight 0 burned 0
#1 exec 1000
  p0 WithdrawAsset ok
  p1 InitiateTeleport ok
  sent 1000 relay 1
  end origin 0/AccountId32(0x0202020202020202020202020202020202020202020202020202020202020202) topic - surplus 0 0 refunded 0 0
  = complete 2000 200
#2 deliver 1000 relay
  message 1000 relay 1
  p0 ReceiveTeleportedAsset NotWithdrawable
  end origin 0/Parachain(1000) topic - surplus 2000 200 refunded 0 0
  burned fungible /GlobalConsensus(Polkadot) 30 LostTeleport
  = incomplete 1000 100 NotWithdrawable
",
    },
];
