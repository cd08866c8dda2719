//! Deliveries, queries and claims of a network, and its delivery fees.

use crate::documents::THREE_CHAINS;
use crate::running::Row;
use xcm_cli::Status;

/// Deliveries without a message, and messages of claims.
pub(crate) const DELIVERIES: &[Row] = &[
    Row {
        name: "a delivery without a message",
        network: THREE_CHAINS,
        steps: "deliver relay 2000
deliver 2000 2001
deliver relay 9
",
        status: Status::Done,
        report: "coherent
  supply fungible /GlobalConsensus(Polkadot) home 1000000 flight 0 burned 0
  backing 2000 fungible /GlobalConsensus(Polkadot) held 0 owed 0
  backing 2001 fungible /GlobalConsensus(Polkadot) held 0 owed 0
#1 deliver relay 2000
  = empty
#2 deliver 2000 2001
  = no such channel
#3 deliver relay 9
  = no such chain
",
    },
    Row {
        name: "a message of claims",
        network: THREE_CHAINS,
        steps: "claim 2000 relay 04041914
claim 2000 relay 0408180000000a
deliver 2000 relay
",
        status: Status::Done,
        report: "coherent
  supply fungible /GlobalConsensus(Polkadot) home 1000000 flight 0 burned 0
  backing 2000 fungible /GlobalConsensus(Polkadot) held 0 owed 0
  backing 2001 fungible /GlobalConsensus(Polkadot) held 0 owed 0
#1 claim 2000 relay
  = not a claim
#2 claim 2000 relay
  = sent 1
#3 deliver 2000 relay
  message 2000 relay 1
  = incomplete 2000 200 Barrier
",
    },
    Row {
        name: "the account of a chain has no caller",
        network: THREE_CHAINS,
        steps: "exec relay 0x70617261d0070000000000000000000000000000000000000000000000000000 04041914
",
        status: Status::Done,
        report: "coherent
  supply fungible /GlobalConsensus(Polkadot) home 1000000 flight 0 burned 0
  backing 2000 fungible /GlobalConsensus(Polkadot) held 0 owed 0
  backing 2001 fungible /GlobalConsensus(Polkadot) held 0 owed 0
#1 exec relay
  = sovereign caller
",
    },
];

/// Answers to a query.
pub(crate) const QUERIES: &[Row] = &[
    Row {
        name: "a query is answered once",
        network: r#"{"chains":[
{"assets":[{"id":"0","native":[]}],
 "rates":[{"asset":"0","per_second":"1000000000","per_mb":"0"}],
 "accounts":[{"who":"0x0101010101010101010101010101010101010101010101010101010101010101","asset":"0","amount":"1000000"}],
 "queries":[{"id":7,"from":2000}]},
{"para":2000,"assets":[{"id":"1","reserve":"relay"}],
 "rates":[{"asset":"1","per_second":"1000000000","per_mb":"0"}]},
{"para":2001,"assets":[{"id":"1","reserve":"relay"}],
 "rates":[{"asset":"1","per_second":"1000000000","per_mb":"0"}]}],
"channels":[{"from":"relay","to":2000},{"from":2000,"to":"relay"},
{"from":"relay","to":2001},{"from":2001,"to":"relay"}]}"#,
        steps: "exec 2000 0x0202020202020202020202020202020202020202020202020202020202020202 04042301001c0000
queues
deliver 2000 relay
exec 2000 0x0202020202020202020202020202020202020202020202020202020202020202 04042301001c0000
deliver 2000 relay
",
        status: Status::Done,
        report: "coherent
  supply fungible /GlobalConsensus(Polkadot) home 1000000 flight 0 burned 0
  backing 2000 fungible /GlobalConsensus(Polkadot) held 0 owed 0
  backing 2001 fungible /GlobalConsensus(Polkadot) held 0 owed 0
#1 exec 2000
  p0 ReportTransactStatus ok
  sent 2000 relay 1
  end origin 0/AccountId32(0x0202020202020202020202020202020202020202020202020202020202020202) topic - surplus 0 0 refunded 0 0
  = complete 1000 100
#2 queues
  queue 2000 relay 1 0x0404031c0500000001000200411f01000202020202020202020202020202020202020202020202020202020202020202
#3 deliver 2000 relay
  message 2000 relay 1
  p0 QueryResponse ok
  answered 7
  end origin 0/Parachain(2000) topic - surplus 0 0 refunded 0 0
  = complete 1000 100
#4 exec 2000
  p0 ReportTransactStatus ok
  sent 2000 relay 2
  end origin 0/AccountId32(0x0202020202020202020202020202020202020202020202020202020202020202) topic - surplus 0 0 refunded 0 0
  = complete 1000 100
#5 deliver 2000 relay
  message 2000 relay 2
  = incomplete 1000 100 Barrier
",
    },
    Row {
        name: "all that waits is delivered",
        network: r#"{"chains":[
{"assets":[{"id":"0","native":[]}],
 "rates":[{"asset":"0","per_second":"1000000000","per_mb":"0"}],
 "accounts":[{"who":"0x0101010101010101010101010101010101010101010101010101010101010101","asset":"0","amount":"1000000"}],
 "queries":[{"id":7,"from":2000}]},
{"para":2000,"assets":[{"id":"1","reserve":"relay"}],
 "rates":[{"asset":"1","per_second":"1000000000","per_mb":"0"}]},
{"para":2001,"assets":[{"id":"1","reserve":"relay"}],
 "rates":[{"asset":"1","per_second":"1000000000","per_mb":"0"}]}],
"channels":[{"from":"relay","to":2000},{"from":2000,"to":"relay"},
{"from":"relay","to":2001},{"from":2001,"to":"relay"}]}"#,
        steps: "exec 2000 0x0202020202020202020202020202020202020202020202020202020202020202 04042301001c0000
exec 2000 0x0202020202020202020202020202020202020202020202020202020202020202 04042301001c0000
drain
drain
",
        status: Status::Done,
        report: "coherent
  supply fungible /GlobalConsensus(Polkadot) home 1000000 flight 0 burned 0
  backing 2000 fungible /GlobalConsensus(Polkadot) held 0 owed 0
  backing 2001 fungible /GlobalConsensus(Polkadot) held 0 owed 0
#1 exec 2000
  p0 ReportTransactStatus ok
  sent 2000 relay 1
  end origin 0/AccountId32(0x0202020202020202020202020202020202020202020202020202020202020202) topic - surplus 0 0 refunded 0 0
  = complete 1000 100
#2 exec 2000
  p0 ReportTransactStatus ok
  sent 2000 relay 2
  end origin 0/AccountId32(0x0202020202020202020202020202020202020202020202020202020202020202) topic - surplus 0 0 refunded 0 0
  = complete 1000 100
#3 drain
  message 2000 relay 1
  p0 QueryResponse ok
  answered 7
  end origin 0/Parachain(2000) topic - surplus 0 0 refunded 0 0
  = complete 1000 100
  message 2000 relay 2
  = incomplete 1000 100 Barrier
  drained 2
#4 drain
  drained 0
",
    },
];

/// Sending through a channel that has a fee.
pub(crate) const DELIVERY_FEES: &[Row] = &[
    Row {
        name: "a delivery fee that is drawn from the account",
        network: r#"{"format":2,"chains":[
{"assets":[{"id":"0","native":[]}],
 "rates":[{"asset":"0","per_second":"1000000000","per_mb":"0"}],
 "accounts":[{"who":"0x0101010101010101010101010101010101010101010101010101010101010101","asset":"0","amount":"1000000"}]},
{"para":2000,"assets":[{"id":"1","reserve":"relay"}],
 "rates":[{"asset":"1","per_second":"1000000000","per_mb":"0"}]},
{"para":2001,"assets":[{"id":"1","reserve":"relay"}],
 "rates":[{"asset":"1","per_second":"1000000000","per_mb":"0"}]}],
"channels":[{"from":"relay","to":2000,"fee_asset":"0","fee":"10"},{"from":2000,"to":"relay"},
{"from":"relay","to":2001},{"from":2001,"to":"relay"}]}"#,
        steps: "exec relay 0x0101010101010101010101010101010101010101010101010101010101010101 04040504000000a10f000100411f08130100009101000d010204000101000202020202020202020202020202020202020202020202020202020202020202
balances
exec relay 0x0101010101010101010101010101010101010101010101010101010101010101 04082b010504000000a10f000100411f08130100009101000d010204000101000202020202020202020202020202020202020202020202020202020202020202
balances
",
        status: Status::Done,
        report: "coherent
  supply fungible /GlobalConsensus(Polkadot) home 1000000 flight 0 burned 0
  backing 2000 fungible /GlobalConsensus(Polkadot) held 0 owed 0
  backing 2001 fungible /GlobalConsensus(Polkadot) held 0 owed 0
#1 exec relay
  p0 TransferReserveAsset NotHoldingFees
  end origin 0/AccountId32(0x0101010101010101010101010101010101010101010101010101010101010101) topic - surplus 0 0 refunded 0 0
  = incomplete 1000 100 NotHoldingFees
#2 balances
  balance relay 0x0101010101010101010101010101010101010101010101010101010101010101 0 1000000
#3 exec relay
  p0 SetFeesMode ok
  p1 TransferReserveAsset ok
  sent relay 2000 1
  end origin 0/AccountId32(0x0101010101010101010101010101010101010101010101010101010101010101) topic - surplus 0 0 refunded 0 0
  = complete 2000 200
#4 balances
  balance relay 0x0000000000000000000000000000000000000000000000000000000000000000 0 10
  balance relay 0x0101010101010101010101010101010101010101010101010101010101010101 0 998990
  balance relay 0x70617261d0070000000000000000000000000000000000000000000000000000 0 1000
",
    },
    Row {
        name: "a delivery fee that is paid from the holding",
        network: r#"{"format":2,"chains":[
{"assets":[{"id":"0","native":[]}],
 "rates":[{"asset":"0","per_second":"1000000000","per_mb":"0"}],
 "accounts":[{"who":"0x0101010101010101010101010101010101010101010101010101010101010101","asset":"0","amount":"1000000"}]},
{"para":2000,"assets":[{"id":"1","reserve":"relay"}],
 "rates":[{"asset":"1","per_second":"1000000000","per_mb":"0"}]},
{"para":2001,"assets":[{"id":"1","reserve":"relay"}],
 "rates":[{"asset":"1","per_second":"1000000000","per_mb":"0"}]}],
"channels":[{"from":"relay","to":2000,"fee_asset":"0","fee":"10"},{"from":2000,"to":"relay"},
{"from":"relay","to":2001},{"from":2001,"to":"relay"}]}"#,
        steps: "exec relay 0x0101010101010101010101010101010101010101010101010101010101010101 04080004000000a10f0e0100000100411f00
balances
",
        status: Status::Done,
        report: "coherent
  supply fungible /GlobalConsensus(Polkadot) home 1000000 flight 0 burned 0
  backing 2000 fungible /GlobalConsensus(Polkadot) held 0 owed 0
  backing 2001 fungible /GlobalConsensus(Polkadot) held 0 owed 0
#1 exec relay
  p0 WithdrawAsset ok
  p1 DepositReserveAsset ok
  sent relay 2000 1
  end origin 0/AccountId32(0x0101010101010101010101010101010101010101010101010101010101010101) topic - surplus 0 0 refunded 0 0
  = complete 2000 200
#2 balances
  balance relay 0x0000000000000000000000000000000000000000000000000000000000000000 0 10
  balance relay 0x0101010101010101010101010101010101010101010101010101010101010101 0 999000
  balance relay 0x70617261d0070000000000000000000000000000000000000000000000000000 0 990
",
    },
];
