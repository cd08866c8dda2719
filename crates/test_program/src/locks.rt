//! Locks.

use crate::running::Row;
use xcm_cli::Status;

/// Three chains, of which the relay and parachain 2000 serve locks and let each other's messages in.
const LOCKING: &str = r#"{"format":2,"chains":[
{"assets":[{"id":"0","native":[]}],
 "rates":[{"asset":"0","per_second":"1000000000","per_mb":"0"}],
 "barriers":["credit","paid","responses",{"unpaid":["0/Parachain(2000)"]}],
 "accounts":[{"who":"0x0101010101010101010101010101010101010101010101010101010101010101","asset":"0","amount":"1000000"}],"locks":true},
{"para":2000,"assets":[{"id":"1","reserve":"relay"}],
 "rates":[{"asset":"1","per_second":"1000000000","per_mb":"0"}],
 "barriers":["credit","paid","responses",{"unpaid":["1"]}],"locks":true},
{"para":2001,"assets":[{"id":"1","reserve":"relay"}],
 "rates":[{"asset":"1","per_second":"1000000000","per_mb":"0"}]}],
"channels":[{"from":"relay","to":2000},{"from":2000,"to":"relay"},
{"from":"relay","to":2001},{"from":2001,"to":"relay"}]}"#;

pub(crate) const LOCKS: &[Row] = &[
    Row {
        name: "a lock, and the message that tells of it",
        network: LOCKING,
        steps: "exec relay 0x0101010101010101010101010101010101010101010101010101010101010101 0404270000009101000100411f
queues
balances
",
        status: Status::Done,
        report: "coherent
  supply fungible /GlobalConsensus(Polkadot) home 1000000 flight 0 burned 0
  backing 2000 fungible /GlobalConsensus(Polkadot) held 0 owed 0
  backing 2001 fungible /GlobalConsensus(Polkadot) held 0 owed 0
#1 exec relay
  p0 LockAsset ok
  sent relay 2000 1
  end origin 0/AccountId32(0x0101010101010101010101010101010101010101010101010101010101010101) topic - surplus 0 0 refunded 0 0
  = complete 1000 100
#2 queues
  queue relay 2000 1 0x0404290100009101010101000101010101010101010101010101010101010101010101010101010101010101
#3 balances
  balance relay 0x0101010101010101010101010101010101010101010101010101010101010101 0 1000000
  locked relay 0x0101010101010101010101010101010101010101010101010101010101010101 0 100 0/Parachain(2000)
",
    },
    Row {
        name: "what is locked stays in the account",
        network: LOCKING,
        steps: "exec relay 0x0101010101010101010101010101010101010101010101010101010101010101 0404270000009101000100411f
exec relay 0x0101010101010101010101010101010101010101010101010101010101010101 0404000400000076073d00
exec relay 0x0101010101010101010101010101010101010101010101010101010101010101 0404000400000072073d00
balances
",
        status: Status::Done,
        report: "coherent
  supply fungible /GlobalConsensus(Polkadot) home 1000000 flight 0 burned 0
  backing 2000 fungible /GlobalConsensus(Polkadot) held 0 owed 0
  backing 2001 fungible /GlobalConsensus(Polkadot) held 0 owed 0
#1 exec relay
  p0 LockAsset ok
  sent relay 2000 1
  end origin 0/AccountId32(0x0101010101010101010101010101010101010101010101010101010101010101) topic - surplus 0 0 refunded 0 0
  = complete 1000 100
#2 exec relay
  p0 WithdrawAsset FailedToTransactAsset
  end origin 0/AccountId32(0x0101010101010101010101010101010101010101010101010101010101010101) topic - surplus 0 0 refunded 0 0
  = incomplete 1000 100 FailedToTransactAsset
#3 exec relay
  p0 WithdrawAsset ok
  end origin 0/AccountId32(0x0101010101010101010101010101010101010101010101010101010101010101) topic - surplus 0 0 refunded 0 0
  trapped 1
  = complete 1000 100
#4 balances
  balance relay 0x0101010101010101010101010101010101010101010101010101010101010101 0 100
  locked relay 0x0101010101010101010101010101010101010101010101010101010101010101 0 100 0/Parachain(2000)
",
    },
    Row {
        name: "a lock that is requested back",
        network: LOCKING,
        steps: "exec relay 0x0101010101010101010101010101010101010101010101010101010101010101 0404270000009101000100411f
deliver relay 2000
exec 2000 0x0101010101010101010101010101010101010101010101010101010101010101 04042a01000091010100
deliver 2000 relay
balances
exec 2000 0x0101010101010101010101010101010101010101010101010101010101010101 04042a01000091010100
",
        status: Status::Done,
        report: "coherent
  supply fungible /GlobalConsensus(Polkadot) home 1000000 flight 0 burned 0
  backing 2000 fungible /GlobalConsensus(Polkadot) held 0 owed 0
  backing 2001 fungible /GlobalConsensus(Polkadot) held 0 owed 0
#1 exec relay
  p0 LockAsset ok
  sent relay 2000 1
  end origin 0/AccountId32(0x0101010101010101010101010101010101010101010101010101010101010101) topic - surplus 0 0 refunded 0 0
  = complete 1000 100
#2 deliver relay 2000
  message relay 2000 1
  p0 NoteUnlockable ok
  end origin 1 topic - surplus 0 0 refunded 0 0
  = complete 1000 100
#3 exec 2000
  p0 RequestUnlock ok
  sent 2000 relay 1
  end origin 0/AccountId32(0x0101010101010101010101010101010101010101010101010101010101010101) topic - surplus 0 0 refunded 0 0
  = complete 1000 100
#4 deliver 2000 relay
  message 2000 relay 1
  p0 UnlockAsset ok
  end origin 0/Parachain(2000) topic - surplus 0 0 refunded 0 0
  = complete 1000 100
#5 balances
  balance relay 0x0101010101010101010101010101010101010101010101010101010101010101 0 1000000
#6 exec 2000
  p0 RequestUnlock LockError
  end origin 0/AccountId32(0x0101010101010101010101010101010101010101010101010101010101010101) topic - surplus 0 0 refunded 0 0
  = incomplete 1000 100 LockError
",
    },
    Row {
        name: "locks lie over one another",
        network: LOCKING,
        steps: "exec relay 0x0101010101010101010101010101010101010101010101010101010101010101 0404270000009101000100411f
exec relay 0x0101010101010101010101010101010101010101010101010101010101010101 0404270000001901000100451f
exec relay 0x0101010101010101010101010101010101010101010101010101010101010101 040427000000c8000100411f
exec relay 0x0101010101010101010101010101010101010101010101010101010101010101 0404000400000076073d00
exec relay 0x0101010101010101010101010101010101010101010101010101010101010101 0404000400000072073d00
balances
",
        status: Status::Done,
        report: "coherent
  supply fungible /GlobalConsensus(Polkadot) home 1000000 flight 0 burned 0
  backing 2000 fungible /GlobalConsensus(Polkadot) held 0 owed 0
  backing 2001 fungible /GlobalConsensus(Polkadot) held 0 owed 0
#1 exec relay
  p0 LockAsset ok
  sent relay 2000 1
  end origin 0/AccountId32(0x0101010101010101010101010101010101010101010101010101010101010101) topic - surplus 0 0 refunded 0 0
  = complete 1000 100
#2 exec relay
  p0 LockAsset ok
  sent relay 2001 1
  end origin 0/AccountId32(0x0101010101010101010101010101010101010101010101010101010101010101) topic - surplus 0 0 refunded 0 0
  = complete 1000 100
#3 exec relay
  p0 LockAsset ok
  sent relay 2000 2
  end origin 0/AccountId32(0x0101010101010101010101010101010101010101010101010101010101010101) topic - surplus 0 0 refunded 0 0
  = complete 1000 100
#4 exec relay
  p0 WithdrawAsset FailedToTransactAsset
  end origin 0/AccountId32(0x0101010101010101010101010101010101010101010101010101010101010101) topic - surplus 0 0 refunded 0 0
  = incomplete 1000 100 FailedToTransactAsset
#5 exec relay
  p0 WithdrawAsset ok
  end origin 0/AccountId32(0x0101010101010101010101010101010101010101010101010101010101010101) topic - surplus 0 0 refunded 0 0
  trapped 1
  = complete 1000 100
#6 balances
  balance relay 0x0101010101010101010101010101010101010101010101010101010101010101 0 100
  locked relay 0x0101010101010101010101010101010101010101010101010101010101010101 0 100 0/Parachain(2000)
  locked relay 0x0101010101010101010101010101010101010101010101010101010101010101 0 70 0/Parachain(2001)
",
    },
    Row {
        name: "what the lock instructions refuse",
        network: LOCKING,
        steps: "exec relay 0x0101010101010101010101010101010101010101010101010101010101010101 04042700000006093d00000100411f
exec relay 0x0101010101010101010101010101010101010101010101010101010101010101 0404280000009101000101000101010101010101010101010101010101010101010101010101010101010101
exec relay 0x0101010101010101010101010101010101010101010101010101010101010101 04080a270000009101000100411f
exec 2001 0x0101010101010101010101010101010101010101010101010101010101010101 04042701000091010100
",
        status: Status::Done,
        report: "coherent
  supply fungible /GlobalConsensus(Polkadot) home 1000000 flight 0 burned 0
  backing 2000 fungible /GlobalConsensus(Polkadot) held 0 owed 0
  backing 2001 fungible /GlobalConsensus(Polkadot) held 0 owed 0
#1 exec relay
  p0 LockAsset LockError
  end origin 0/AccountId32(0x0101010101010101010101010101010101010101010101010101010101010101) topic - surplus 0 0 refunded 0 0
  = incomplete 1000 100 LockError
#2 exec relay
  p0 UnlockAsset LockError
  end origin 0/AccountId32(0x0101010101010101010101010101010101010101010101010101010101010101) topic - surplus 0 0 refunded 0 0
  = incomplete 1000 100 LockError
#3 exec relay
  p0 ClearOrigin ok
  p1 LockAsset BadOrigin
  end origin - topic - surplus 0 0 refunded 0 0
  = incomplete 2000 200 BadOrigin
#4 exec 2001
  p0 LockAsset LockError
  end origin 0/AccountId32(0x0101010101010101010101010101010101010101010101010101010101010101) topic - surplus 0 0 refunded 0 0
  = incomplete 1000 100 LockError
",
    },
    Row {
        name: "amounts of 2^128-1",
        network: LOCKING,
        steps: "exec 2000 0x0101010101010101010101010101010101010101010101010101010101010101 04042901000033ffffffffffffffffffffffffffffffff000101000101010101010101010101010101010101010101010101010101010101010101
exec 2000 0x0101010101010101010101010101010101010101010101010101010101010101 04042a01000033ffffffffffffffffffffffffffffffff0100
exec 2000 0x0101010101010101010101010101010101010101010101010101010101010101 04042801000033ffffffffffffffffffffffffffffffff000101000101010101010101010101010101010101010101010101010101010101010101
exec relay 0x0101010101010101010101010101010101010101010101010101010101010101 04042700000033ffffffffffffffffffffffffffffffff000100411f
",
        status: Status::Done,
        report: "coherent
  supply fungible /GlobalConsensus(Polkadot) home 1000000 flight 0 burned 0
  backing 2000 fungible /GlobalConsensus(Polkadot) held 0 owed 0
  backing 2001 fungible /GlobalConsensus(Polkadot) held 0 owed 0
#1 exec 2000
  p0 NoteUnlockable ok
  end origin 0/AccountId32(0x0101010101010101010101010101010101010101010101010101010101010101) topic - surplus 0 0 refunded 0 0
  = complete 1000 100
#2 exec 2000
  p0 RequestUnlock LockError
  end origin 0/AccountId32(0x0101010101010101010101010101010101010101010101010101010101010101) topic - surplus 0 0 refunded 0 0
  = incomplete 1000 100 LockError
#3 exec 2000
  p0 UnlockAsset LockError
  end origin 0/AccountId32(0x0101010101010101010101010101010101010101010101010101010101010101) topic - surplus 0 0 refunded 0 0
  = incomplete 1000 100 LockError
#4 exec relay
  p0 LockAsset LockError
  end origin 0/AccountId32(0x0101010101010101010101010101010101010101010101010101010101010101) topic - surplus 0 0 refunded 0 0
  = incomplete 1000 100 LockError
",
    },
];
