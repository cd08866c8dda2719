//! Payments and transfers between a chain and the reserve of its asset.

use crate::documents::THREE_CHAINS;
use crate::running::Row;
use xcm_cli::Status;

/// Payments at the relay chain.
pub(crate) const PAYMENTS: &[Row] = &[
    Row {
        name: "a payment",
        network: THREE_CHAINS,
        steps: "exec relay 0x0101010101010101010101010101010101010101010101010101010101010101 04080004000000a10f0d010204000101000202020202020202020202020202020202020202020202020202020202020202
balances
",
        status: Status::Done,
        report: "coherent
  supply fungible /GlobalConsensus(Polkadot) home 1000000 flight 0 burned 0
  backing 2000 fungible /GlobalConsensus(Polkadot) held 0 owed 0
  backing 2001 fungible /GlobalConsensus(Polkadot) held 0 owed 0
#1 exec relay
  p0 WithdrawAsset ok
  p1 DepositAsset ok
  end origin 0/AccountId32(0x0101010101010101010101010101010101010101010101010101010101010101) topic - surplus 0 0 refunded 0 0
  = complete 2000 200
#2 balances
  balance relay 0x0101010101010101010101010101010101010101010101010101010101010101 0 999000
  balance relay 0x0202020202020202020202020202020202020202020202020202020202020202 0 1000
",
    },
    Row {
        name: "a payment in version 3",
        network: THREE_CHAINS,
        steps: "exec relay 0x0101010101010101010101010101010101010101010101010101010101010101 0308000400000000a10f0d010204000101000202020202020202020202020202020202020202020202020202020202020202
balances
",
        status: Status::Done,
        report: "coherent
  supply fungible /GlobalConsensus(Polkadot) home 1000000 flight 0 burned 0
  backing 2000 fungible /GlobalConsensus(Polkadot) held 0 owed 0
  backing 2001 fungible /GlobalConsensus(Polkadot) held 0 owed 0
#1 exec relay
  p0 WithdrawAsset ok
  p1 DepositAsset ok
  end origin 0/AccountId32(0x0101010101010101010101010101010101010101010101010101010101010101) topic - surplus 0 0 refunded 0 0
  = complete 2000 200
#2 balances
  balance relay 0x0101010101010101010101010101010101010101010101010101010101010101 0 999000
  balance relay 0x0202020202020202020202020202020202020202020202020202020202020202 0 1000
",
    },
];

/// Transfers to a parachain and back.
pub(crate) const TRANSFERS: &[Row] = &[
    Row {
        name: "what waits in a channel",
        network: THREE_CHAINS,
        steps: "exec relay 0x0101010101010101010101010101010101010101010101010101010101010101 04040504000000a10f000100411f08130100009101000d010204000101000202020202020202020202020202020202020202020202020202020202020202
queues
",
        status: Status::Done,
        report: "coherent
  supply fungible /GlobalConsensus(Polkadot) home 1000000 flight 0 burned 0
  backing 2000 fungible /GlobalConsensus(Polkadot) held 0 owed 0
  backing 2001 fungible /GlobalConsensus(Polkadot) held 0 owed 0
#1 exec relay
  p0 TransferReserveAsset ok
  sent relay 2000 1
  end origin 0/AccountId32(0x0101010101010101010101010101010101010101010101010101010101010101) topic - surplus 0 0 refunded 0 0
  = complete 1000 100
#2 queues
  queue relay 2000 1 0x04100104010000a10f0a130100009101000d010204000101000202020202020202020202020202020202020202020202020202020202020202
",
    },
    Row {
        name: "a reserve transfer and back",
        network: THREE_CHAINS,
        steps: "exec relay 0x0101010101010101010101010101010101010101010101010101010101010101 04040504000000a10f000100411f08130100009101000d010204000101000202020202020202020202020202020202020202020202020202020202020202
balances
deliver relay 2000
balances
exec 2000 0x0202020202020202020202020202020202020202020202020202020202020202 04080004010000d107100100010008130000009101000d010204000101000303030303030303030303030303030303030303030303030303030303030303
deliver 2000 relay
supply
balances
",
        status: Status::Done,
        report: "coherent
  supply fungible /GlobalConsensus(Polkadot) home 1000000 flight 0 burned 0
  backing 2000 fungible /GlobalConsensus(Polkadot) held 0 owed 0
  backing 2001 fungible /GlobalConsensus(Polkadot) held 0 owed 0
#1 exec relay
  p0 TransferReserveAsset ok
  sent relay 2000 1
  end origin 0/AccountId32(0x0101010101010101010101010101010101010101010101010101010101010101) topic - surplus 0 0 refunded 0 0
  = complete 1000 100
#2 balances
  balance relay 0x0101010101010101010101010101010101010101010101010101010101010101 0 999000
  balance relay 0x70617261d0070000000000000000000000000000000000000000000000000000 0 1000
#3 deliver relay 2000
  message relay 2000 1
  p0 ReserveAssetDeposited ok
  p1 ClearOrigin ok
  p2 BuyExecution ok
  p3 DepositAsset ok
  end origin - topic - surplus 0 0 refunded 0 0
  = complete 4000 400
#4 balances
  balance relay 0x0101010101010101010101010101010101010101010101010101010101010101 0 999000
  balance relay 0x70617261d0070000000000000000000000000000000000000000000000000000 0 1000
  balance 2000 0x0000000000000000000000000000000000000000000000000000000000000000 1 4
  balance 2000 0x0202020202020202020202020202020202020202020202020202020202020202 1 996
#5 exec 2000
  p0 WithdrawAsset ok
  p1 InitiateReserveWithdraw ok
  sent 2000 relay 1
  end origin 0/AccountId32(0x0202020202020202020202020202020202020202020202020202020202020202) topic - surplus 0 0 refunded 0 0
  = complete 2000 200
#6 deliver 2000 relay
  message 2000 relay 1
  p0 WithdrawAsset ok
  p1 ClearOrigin ok
  p2 BuyExecution ok
  p3 DepositAsset ok
  end origin - topic - surplus 0 0 refunded 0 0
  = complete 4000 400
#7 supply
  supply fungible /GlobalConsensus(Polkadot) home 1000000 flight 0 burned 0
  backing 2000 fungible /GlobalConsensus(Polkadot) held 500 owed 500
  backing 2001 fungible /GlobalConsensus(Polkadot) held 0 owed 0
#8 balances
  balance relay 0x0000000000000000000000000000000000000000000000000000000000000000 0 4
  balance relay 0x0101010101010101010101010101010101010101010101010101010101010101 0 999000
  balance relay 0x0303030303030303030303030303030303030303030303030303030303030303 0 496
  balance relay 0x70617261d0070000000000000000000000000000000000000000000000000000 0 500
  balance 2000 0x0000000000000000000000000000000000000000000000000000000000000000 1 4
  balance 2000 0x0202020202020202020202020202020202020202020202020202020202020202 1 496
",
    },
];

/// A transfer with the sums after each step.
pub(crate) const AUDITED: &[Row] = &[Row {
    name: "a reserve transfer, audited",
    network: THREE_CHAINS,
    steps: "exec relay 0x0101010101010101010101010101010101010101010101010101010101010101 04040504000000a10f000100411f08130100009101000d010204000101000202020202020202020202020202020202020202020202020202020202020202
balances
deliver relay 2000
balances
",
    status: Status::Done,
    report: "coherent
  supply fungible /GlobalConsensus(Polkadot) home 1000000 flight 0 burned 0
  backing 2000 fungible /GlobalConsensus(Polkadot) held 0 owed 0
  backing 2001 fungible /GlobalConsensus(Polkadot) held 0 owed 0
#1 exec relay
  p0 TransferReserveAsset ok
  sent relay 2000 1
  end origin 0/AccountId32(0x0101010101010101010101010101010101010101010101010101010101010101) topic - surplus 0 0 refunded 0 0
  = complete 1000 100
  supply fungible /GlobalConsensus(Polkadot) home 1000000 flight 0 burned 0
  backing 2000 fungible /GlobalConsensus(Polkadot) held 1000 owed 1000
  backing 2001 fungible /GlobalConsensus(Polkadot) held 0 owed 0
#2 balances
  balance relay 0x0101010101010101010101010101010101010101010101010101010101010101 0 999000
  balance relay 0x70617261d0070000000000000000000000000000000000000000000000000000 0 1000
  supply fungible /GlobalConsensus(Polkadot) home 1000000 flight 0 burned 0
  backing 2000 fungible /GlobalConsensus(Polkadot) held 1000 owed 1000
  backing 2001 fungible /GlobalConsensus(Polkadot) held 0 owed 0
#3 deliver relay 2000
  message relay 2000 1
  p0 ReserveAssetDeposited ok
  p1 ClearOrigin ok
  p2 BuyExecution ok
  p3 DepositAsset ok
  end origin - topic - surplus 0 0 refunded 0 0
  = complete 4000 400
  supply fungible /GlobalConsensus(Polkadot) home 1000000 flight 0 burned 0
  backing 2000 fungible /GlobalConsensus(Polkadot) held 1000 owed 1000
  backing 2001 fungible /GlobalConsensus(Polkadot) held 0 owed 0
#4 balances
  balance relay 0x0101010101010101010101010101010101010101010101010101010101010101 0 999000
  balance relay 0x70617261d0070000000000000000000000000000000000000000000000000000 0 1000
  balance 2000 0x0000000000000000000000000000000000000000000000000000000000000000 1 4
  balance 2000 0x0202020202020202020202020202020202020202020202020202020202020202 1 996
  supply fungible /GlobalConsensus(Polkadot) home 1000000 flight 0 burned 0
  backing 2000 fungible /GlobalConsensus(Polkadot) held 1000 owed 1000
  backing 2001 fungible /GlobalConsensus(Polkadot) held 0 owed 0
",
}];

/// Transfers that a channel refuses.
pub(crate) const UNSENT: &[Row] = &[
    Row {
        name: "a channel that is full",
        network: r#"{"chains":[
{"assets":[{"id":"0","native":[]}],
 "rates":[{"asset":"0","per_second":"1000000000","per_mb":"0"}],
 "accounts":[{"who":"0x0101010101010101010101010101010101010101010101010101010101010101","asset":"0","amount":"1000000"}]},
{"para":2000,"assets":[{"id":"1","reserve":"relay"}],
 "rates":[{"asset":"1","per_second":"1000000000","per_mb":"0"}]},
{"para":2001,"assets":[{"id":"1","reserve":"relay"}],
 "rates":[{"asset":"1","per_second":"1000000000","per_mb":"0"}]}],
"channels":[{"from":"relay","to":2000,"capacity":1},{"from":2000,"to":"relay"},
{"from":"relay","to":2001},{"from":2001,"to":"relay"}]}"#,
        steps: "exec relay 0x0101010101010101010101010101010101010101010101010101010101010101 04040504000000a10f000100411f08130100009101000d010204000101000202020202020202020202020202020202020202020202020202020202020202
exec relay 0x0101010101010101010101010101010101010101010101010101010101010101 04040504000000a10f000100411f08130100009101000d010204000101000202020202020202020202020202020202020202020202020202020202020202
balances
",
        status: Status::Done,
        report: "coherent
  supply fungible /GlobalConsensus(Polkadot) home 1000000 flight 0 burned 0
  backing 2000 fungible /GlobalConsensus(Polkadot) held 0 owed 0
  backing 2001 fungible /GlobalConsensus(Polkadot) held 0 owed 0
#1 exec relay
  p0 TransferReserveAsset ok
  sent relay 2000 1
  end origin 0/AccountId32(0x0101010101010101010101010101010101010101010101010101010101010101) topic - surplus 0 0 refunded 0 0
  = complete 1000 100
#2 exec relay
  p0 TransferReserveAsset Transport
  end origin 0/AccountId32(0x0101010101010101010101010101010101010101010101010101010101010101) topic - surplus 0 0 refunded 0 0
  = incomplete 1000 100 Transport
#3 balances
  balance relay 0x0101010101010101010101010101010101010101010101010101010101010101 0 999000
  balance relay 0x70617261d0070000000000000000000000000000000000000000000000000000 0 1000
",
    },
    Row {
        name: "a list of 21 assets isn't sent",
        network: r#"{"chains":[{"assets":[{"id":"0/GeneralIndex(0)","native":[]},
{"id":"0/GeneralIndex(1)","native":[]},
{"id":"0/GeneralIndex(2)","native":[]},
{"id":"0/GeneralIndex(3)","native":[]},
{"id":"0/GeneralIndex(4)","native":[]},
{"id":"0/GeneralIndex(5)","native":[]},
{"id":"0/GeneralIndex(6)","native":[]},
{"id":"0/GeneralIndex(7)","native":[]},
{"id":"0/GeneralIndex(8)","native":[]},
{"id":"0/GeneralIndex(9)","native":[]},
{"id":"0/GeneralIndex(10)","native":[]},
{"id":"0/GeneralIndex(11)","native":[]},
{"id":"0/GeneralIndex(12)","native":[]},
{"id":"0/GeneralIndex(13)","native":[]},
{"id":"0/GeneralIndex(14)","native":[]},
{"id":"0/GeneralIndex(15)","native":[]},
{"id":"0/GeneralIndex(16)","native":[]},
{"id":"0/GeneralIndex(17)","native":[]},
{"id":"0/GeneralIndex(18)","native":[]},
{"id":"0/GeneralIndex(19)","native":[]},
{"id":"0/GeneralIndex(20)","native":[]}],
"accounts":[{"who":"0x0101010101010101010101010101010101010101010101010101010101010101","asset":"0/GeneralIndex(0)","amount":"1"},
{"who":"0x0101010101010101010101010101010101010101010101010101010101010101","asset":"0/GeneralIndex(1)","amount":"1"},
{"who":"0x0101010101010101010101010101010101010101010101010101010101010101","asset":"0/GeneralIndex(2)","amount":"1"},
{"who":"0x0101010101010101010101010101010101010101010101010101010101010101","asset":"0/GeneralIndex(3)","amount":"1"},
{"who":"0x0101010101010101010101010101010101010101010101010101010101010101","asset":"0/GeneralIndex(4)","amount":"1"},
{"who":"0x0101010101010101010101010101010101010101010101010101010101010101","asset":"0/GeneralIndex(5)","amount":"1"},
{"who":"0x0101010101010101010101010101010101010101010101010101010101010101","asset":"0/GeneralIndex(6)","amount":"1"},
{"who":"0x0101010101010101010101010101010101010101010101010101010101010101","asset":"0/GeneralIndex(7)","amount":"1"},
{"who":"0x0101010101010101010101010101010101010101010101010101010101010101","asset":"0/GeneralIndex(8)","amount":"1"},
{"who":"0x0101010101010101010101010101010101010101010101010101010101010101","asset":"0/GeneralIndex(9)","amount":"1"},
{"who":"0x0101010101010101010101010101010101010101010101010101010101010101","asset":"0/GeneralIndex(10)","amount":"1"},
{"who":"0x0101010101010101010101010101010101010101010101010101010101010101","asset":"0/GeneralIndex(11)","amount":"1"},
{"who":"0x0101010101010101010101010101010101010101010101010101010101010101","asset":"0/GeneralIndex(12)","amount":"1"},
{"who":"0x0101010101010101010101010101010101010101010101010101010101010101","asset":"0/GeneralIndex(13)","amount":"1"},
{"who":"0x0101010101010101010101010101010101010101010101010101010101010101","asset":"0/GeneralIndex(14)","amount":"1"},
{"who":"0x0101010101010101010101010101010101010101010101010101010101010101","asset":"0/GeneralIndex(15)","amount":"1"},
{"who":"0x0101010101010101010101010101010101010101010101010101010101010101","asset":"0/GeneralIndex(16)","amount":"1"},
{"who":"0x0101010101010101010101010101010101010101010101010101010101010101","asset":"0/GeneralIndex(17)","amount":"1"},
{"who":"0x0101010101010101010101010101010101010101010101010101010101010101","asset":"0/GeneralIndex(18)","amount":"1"},
{"who":"0x0101010101010101010101010101010101010101010101010101010101010101","asset":"0/GeneralIndex(19)","amount":"1"},
{"who":"0x0101010101010101010101010101010101010101010101010101010101010101","asset":"0/GeneralIndex(20)","amount":"1"}]},
{"para":2000}],"channels":[{"from":"relay","to":2000}]}"#,
        steps: "exec relay 0x0101010101010101010101010101010101010101010101010101010101010101 040c00500001050000040001050400040001050800040001050c00040001051000040001051400040001051800040001051c00040001052000040001052400040001052800040001052c00040001053000040001053400040001053800040001053c00040001054000040001054400040001054800040001054c000400040001055000040e0100000100411f00
balances
traps
",
        status: Status::Done,
        report: "coherent
  supply fungible /GlobalConsensus(Polkadot)/GeneralIndex(0) home 1 flight 0 burned 0
  supply fungible /GlobalConsensus(Polkadot)/GeneralIndex(1) home 1 flight 0 burned 0
  supply fungible /GlobalConsensus(Polkadot)/GeneralIndex(2) home 1 flight 0 burned 0
  supply fungible /GlobalConsensus(Polkadot)/GeneralIndex(3) home 1 flight 0 burned 0
  supply fungible /GlobalConsensus(Polkadot)/GeneralIndex(4) home 1 flight 0 burned 0
  supply fungible /GlobalConsensus(Polkadot)/GeneralIndex(5) home 1 flight 0 burned 0
  supply fungible /GlobalConsensus(Polkadot)/GeneralIndex(6) home 1 flight 0 burned 0
  supply fungible /GlobalConsensus(Polkadot)/GeneralIndex(7) home 1 flight 0 burned 0
  supply fungible /GlobalConsensus(Polkadot)/GeneralIndex(8) home 1 flight 0 burned 0
  supply fungible /GlobalConsensus(Polkadot)/GeneralIndex(9) home 1 flight 0 burned 0
  supply fungible /GlobalConsensus(Polkadot)/GeneralIndex(10) home 1 flight 0 burned 0
  supply fungible /GlobalConsensus(Polkadot)/GeneralIndex(11) home 1 flight 0 burned 0
  supply fungible /GlobalConsensus(Polkadot)/GeneralIndex(12) home 1 flight 0 burned 0
  supply fungible /GlobalConsensus(Polkadot)/GeneralIndex(13) home 1 flight 0 burned 0
  supply fungible /GlobalConsensus(Polkadot)/GeneralIndex(14) home 1 flight 0 burned 0
  supply fungible /GlobalConsensus(Polkadot)/GeneralIndex(15) home 1 flight 0 burned 0
  supply fungible /GlobalConsensus(Polkadot)/GeneralIndex(16) home 1 flight 0 burned 0
  supply fungible /GlobalConsensus(Polkadot)/GeneralIndex(17) home 1 flight 0 burned 0
  supply fungible /GlobalConsensus(Polkadot)/GeneralIndex(18) home 1 flight 0 burned 0
  supply fungible /GlobalConsensus(Polkadot)/GeneralIndex(19) home 1 flight 0 burned 0
  supply fungible /GlobalConsensus(Polkadot)/GeneralIndex(20) home 1 flight 0 burned 0
#1 exec relay
  p0 WithdrawAsset ok
  p1 WithdrawAsset ok
  p2 DepositReserveAsset ExceedsMaxMessageSize
  end origin 0/AccountId32(0x0101010101010101010101010101010101010101010101010101010101010101) topic - surplus 0 0 refunded 0 0
  trapped 1
  trapped 2
  = incomplete 3000 300 ExceedsMaxMessageSize
#2 balances
#3 traps
  trap relay 1 0/AccountId32(0x0101010101010101010101010101010101010101010101010101010101010101): 0/GeneralIndex(0) 1, 0/GeneralIndex(1) 1, 0/GeneralIndex(2) 1, 0/GeneralIndex(3) 1, 0/GeneralIndex(4) 1, 0/GeneralIndex(5) 1, 0/GeneralIndex(6) 1, 0/GeneralIndex(7) 1, 0/GeneralIndex(8) 1, 0/GeneralIndex(9) 1, 0/GeneralIndex(10) 1, 0/GeneralIndex(11) 1, 0/GeneralIndex(12) 1, 0/GeneralIndex(13) 1, 0/GeneralIndex(14) 1, 0/GeneralIndex(15) 1, 0/GeneralIndex(16) 1, 0/GeneralIndex(17) 1, 0/GeneralIndex(18) 1, 0/GeneralIndex(19) 1
  trap relay 2 0/AccountId32(0x0101010101010101010101010101010101010101010101010101010101010101): 0/GeneralIndex(20) 1
",
    },
];
