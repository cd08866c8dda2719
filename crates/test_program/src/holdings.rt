//! What stays at one chain: fees, traps, claims and burns.

use crate::documents::ONE_ACCOUNT;
use crate::running::Row;
use xcm_cli::Status;

/// Fees, traps, claims and burns at the relay chain.
pub(crate) const HOLDINGS: &[Row] = &[
    Row {
        name: "two purchases and their refund",
        network: r#"{"chains":[{"unit_weight":[1500000000000,0],"max_weight":[10000000000000,0],
"assets":[{"id":"0","native":[]}],"rates":[{"asset":"0","per_second":"1","per_mb":"0"}],
"accounts":[{"who":"0x0101010101010101010101010101010101010101010101010101010101010101","asset":"0","amount":"10"}]}]}"#,
        steps: "exec relay 0x0101010101010101010101010101010101010101010101010101010101010101 04180004000000081300000004010b0098f73e5d01001300000004010b0098f73e5d010019000a0a
traps
",
        status: Status::Done,
        report: "coherent
  supply fungible /GlobalConsensus(Polkadot) home 10 flight 0 burned 0
#1 exec relay
  p0 WithdrawAsset ok
  p1 BuyExecution ok
  p2 BuyExecution ok
  p3 Trap Trap(0)
  end origin 0/AccountId32(0x0101010101010101010101010101010101010101010101010101010101010101) topic - surplus 3000000000000 0 refunded 3000000000000 0
  trapped 1
  = incomplete 6000000000000 0 Trap(0)
#2 traps
  trap relay 1 0/AccountId32(0x0101010101010101010101010101010101010101010101010101010101010101): 0 2
",
    },
    Row {
        name: "what no account takes is trapped and claimed once",
        network: r#"{"chains":[{"assets":[{"id":"0","native":[]},{"id":"0/GeneralIndex(1)","native":[]},{"id":"0/GeneralIndex(2)","native":[]}],
"accounts":[{"who":"0x0101010101010101010101010101010101010101010101010101010101010101","asset":"0","amount":"5"},
{"who":"0x0101010101010101010101010101010101010101010101010101010101010101","asset":"0/GeneralIndex(1)","amount":"5"},
{"who":"0x0101010101010101010101010101010101010101010101010101010101010101","asset":"0/GeneralIndex(2)","amount":"5"}]}]}"#,
        steps: "exec relay 0x0101010101010101010101010101010101010101010101010101010101010101 0408000c000000140001050400140001050800140d01020c00010409
balances
exec relay 0x0101010101010101010101010101010101010101010101010101010101010101 0408180c0000001400010504001400010508001400000d01020c000101000202020202020202020202020202020202020202020202020202020202020202
exec relay 0x0101010101010101010101010101010101010101010101010101010101010101 0408180c0000001400010504001400010508001400000d01020c000101000202020202020202020202020202020202020202020202020202020202020202
balances
",
        status: Status::Done,
        report: "coherent
  supply fungible /GlobalConsensus(Polkadot) home 5 flight 0 burned 0
  supply fungible /GlobalConsensus(Polkadot)/GeneralIndex(1) home 5 flight 0 burned 0
  supply fungible /GlobalConsensus(Polkadot)/GeneralIndex(2) home 5 flight 0 burned 0
#1 exec relay
  p0 WithdrawAsset ok
  p1 DepositAsset FailedToTransactAsset
  end origin 0/AccountId32(0x0101010101010101010101010101010101010101010101010101010101010101) topic - surplus 0 0 refunded 0 0
  trapped 1
  = incomplete 2000 200 FailedToTransactAsset
#2 balances
#3 exec relay
  p0 ClaimAsset ok
  p1 DepositAsset ok
  end origin 0/AccountId32(0x0101010101010101010101010101010101010101010101010101010101010101) topic - surplus 0 0 refunded 0 0
  = complete 2000 200
#4 exec relay
  p0 ClaimAsset UnknownClaim
  end origin 0/AccountId32(0x0101010101010101010101010101010101010101010101010101010101010101) topic - surplus 1000 100 refunded 0 0
  = incomplete 1000 100 UnknownClaim
#5 balances
  balance relay 0x0202020202020202020202020202020202020202020202020202020202020202 0 5
  balance relay 0x0202020202020202020202020202020202020202020202020202020202020202 0/GeneralIndex(1) 5
  balance relay 0x0202020202020202020202020202020202020202020202020202020202020202 0/GeneralIndex(2) 5
",
    },
    Row {
        name: "a burn",
        network: ONE_ACCOUNT,
        steps: "exec relay 0x0101010101010101010101010101010101010101010101010101010101010101 0408000400000091011c04000000a0
supply
",
        status: Status::Done,
        report: "coherent
  supply fungible /GlobalConsensus(Polkadot) home 1000000 flight 0 burned 0
#1 exec relay
  p0 WithdrawAsset ok
  p1 BurnAsset ok
  burned fungible /GlobalConsensus(Polkadot) 40 BurnAsset
  end origin 0/AccountId32(0x0101010101010101010101010101010101010101010101010101010101010101) topic - surplus 0 0 refunded 0 0
  trapped 1
  = complete 2000 200
#2 supply
  supply fungible /GlobalConsensus(Polkadot) home 999960 flight 0 burned 40
",
    },
    Row {
        name: "an account that has nothing",
        network: ONE_ACCOUNT,
        steps: "exec relay 0x0303030303030303030303030303030303030303030303030303030303030303 04040004000000a0
",
        status: Status::Done,
        report: "coherent
  supply fungible /GlobalConsensus(Polkadot) home 1000000 flight 0 burned 0
#1 exec relay
  p0 WithdrawAsset FailedToTransactAsset
  end origin 0/AccountId32(0x0303030303030303030303030303030303030303030303030303030303030303) topic - surplus 0 0 refunded 0 0
  = incomplete 1000 100 FailedToTransactAsset
",
    },
];
