//! Exchanges with a chain's pools.

use crate::parts::{Grown, ONCE, Part, Piece};
use crate::running::Row;
use std::process::Abort;
use xcm_cli::Status;

/// A relay chain with a pool of its two assets, a million of each in the pool's account, and an account that has ten thousand of the first.
const EXCHANGING: &str = r#"{"format":2,"chains":[
{"assets":[{"id":"0","native":[]},{"id":"0/GeneralIndex(1)","native":[]}],
 "accounts":[{"who":"0x706f6f6c00000000000000000000000000000000000000000000000000000000","asset":"0","amount":"1000000"},
 {"who":"0x706f6f6c00000000000000000000000000000000000000000000000000000000","asset":"0/GeneralIndex(1)","amount":"1000000"},
 {"who":"0x0101010101010101010101010101010101010101010101010101010101010101","asset":"0","amount":"10000"}],
 "pools":[{"first":"0","second":"0/GeneralIndex(1)","fee":3}]}]}"#;

pub(crate) const EXCHANGES: &[Row] = &[
    Row {
        name: "all that is given goes to the pool, and the most that it gives comes out",
        network: EXCHANGING,
        steps: "exec relay 0x0101010101010101010101010101010101010101010101010101010101010101 040c0004000000419c0f0100040001050400a18c010d010208000101000202020202020202020202020202020202020202020202020202020202020202
balances
",
        status: Status::Done,
        report: "coherent
  supply fungible /GlobalConsensus(Polkadot) home 1010000 flight 0 burned 0
  supply fungible /GlobalConsensus(Polkadot)/GeneralIndex(1) home 1000000 flight 0 burned 0
#1 exec relay
  p0 WithdrawAsset ok
  p1 ExchangeAsset ok
  p2 DepositAsset ok
  end origin 0/AccountId32(0x0101010101010101010101010101010101010101010101010101010101010101) topic - surplus 0 0 refunded 0 0
  = complete 3000 300
#2 balances
  balance relay 0x0202020202020202020202020202020202020202020202020202020202020202 0/GeneralIndex(1) 9871
  balance relay 0x706f6f6c00000000000000000000000000000000000000000000000000000000 0 1010000
  balance relay 0x706f6f6c00000000000000000000000000000000000000000000000000000000 0/GeneralIndex(1) 990129
",
    },
    Row {
        name: "the least that gets what is wanted goes to the pool",
        network: EXCHANGING,
        steps: "exec relay 0x0101010101010101010101010101010101010101010101010101010101010101 040c0004000000419c0f0100040001050400a18c000d010208000101000202020202020202020202020202020202020202020202020202020202020202
balances
",
        status: Status::Done,
        report: "coherent
  supply fungible /GlobalConsensus(Polkadot) home 1010000 flight 0 burned 0
  supply fungible /GlobalConsensus(Polkadot)/GeneralIndex(1) home 1000000 flight 0 burned 0
#1 exec relay
  p0 WithdrawAsset ok
  p1 ExchangeAsset ok
  p2 DepositAsset ok
  end origin 0/AccountId32(0x0101010101010101010101010101010101010101010101010101010101010101) topic - surplus 0 0 refunded 0 0
  = complete 3000 300
#2 balances
  balance relay 0x0202020202020202020202020202020202020202020202020202020202020202 0 890
  balance relay 0x0202020202020202020202020202020202020202020202020202020202020202 0/GeneralIndex(1) 9000
  balance relay 0x706f6f6c00000000000000000000000000000000000000000000000000000000 0 1009110
  balance relay 0x706f6f6c00000000000000000000000000000000000000000000000000000000 0/GeneralIndex(1) 991000
",
    },
    Row {
        name: "a pool gives nothing for too little, and what was offered is trapped",
        network: EXCHANGING,
        steps: "exec relay 0x0101010101010101010101010101010101010101010101010101010101010101 040c0004000000419c0f0100040001050400419a010d010208000101000202020202020202020202020202020202020202020202020202020202020202
balances
",
        status: Status::Done,
        report: "coherent
  supply fungible /GlobalConsensus(Polkadot) home 1010000 flight 0 burned 0
  supply fungible /GlobalConsensus(Polkadot)/GeneralIndex(1) home 1000000 flight 0 burned 0
#1 exec relay
  p0 WithdrawAsset ok
  p1 ExchangeAsset NoDeal
  end origin 0/AccountId32(0x0101010101010101010101010101010101010101010101010101010101010101) topic - surplus 1000 100 refunded 0 0
  trapped 1
  = incomplete 2000 200 NoDeal
#2 balances
  balance relay 0x706f6f6c00000000000000000000000000000000000000000000000000000000 0 1000000
  balance relay 0x706f6f6c00000000000000000000000000000000000000000000000000000000 0/GeneralIndex(1) 1000000
",
    },
    Row {
        name: "an asset for itself, two assets at once, and an asset that no pool has",
        network: EXCHANGING,
        steps: "exec relay 0x0101010101010101010101010101010101010101010101010101010101010101 04080004000000040f0100040000000401
exec relay 0x0101010101010101010101010101010101010101010101010101010101010101 04080004000000040f0100080000000400010504000401
exec relay 0x0101010101010101010101010101010101010101010101010101010101010101 04080004000000040f01000400010508000401
",
        status: Status::Done,
        report: "coherent
  supply fungible /GlobalConsensus(Polkadot) home 1010000 flight 0 burned 0
  supply fungible /GlobalConsensus(Polkadot)/GeneralIndex(1) home 1000000 flight 0 burned 0
#1 exec relay
  p0 WithdrawAsset ok
  p1 ExchangeAsset NoDeal
  end origin 0/AccountId32(0x0101010101010101010101010101010101010101010101010101010101010101) topic - surplus 0 0 refunded 0 0
  trapped 1
  = incomplete 2000 200 NoDeal
#2 exec relay
  p0 WithdrawAsset ok
  p1 ExchangeAsset NoDeal
  end origin 0/AccountId32(0x0101010101010101010101010101010101010101010101010101010101010101) topic - surplus 0 0 refunded 0 0
  trapped 2
  = incomplete 2000 200 NoDeal
#3 exec relay
  p0 WithdrawAsset ok
  p1 ExchangeAsset NoDeal
  end origin 0/AccountId32(0x0101010101010101010101010101010101010101010101010101010101010101) topic - surplus 0 0 refunded 0 0
  trapped 3
  = incomplete 2000 200 NoDeal
",
    },
    Row {
        name: "nobody calls as a pool",
        network: EXCHANGING,
        steps: "exec relay 0x706f6f6c00000000000000000000000000000000000000000000000000000000 04040a
",
        status: Status::Done,
        report: "coherent
  supply fungible /GlobalConsensus(Polkadot) home 1010000 flight 0 burned 0
  supply fungible /GlobalConsensus(Polkadot)/GeneralIndex(1) home 1000000 flight 0 burned 0
#1 exec relay
  = sovereign caller
",
    },
    Row {
        name: "what is deposited to a pool is its reserve",
        network: EXCHANGING,
        steps: "exec relay 0x0101010101010101010101010101010101010101010101010101010101010101 04080004000000040d01020400010100706f6f6c00000000000000000000000000000000000000000000000000000000
balances
",
        status: Status::Done,
        report: "coherent
  supply fungible /GlobalConsensus(Polkadot) home 1010000 flight 0 burned 0
  supply fungible /GlobalConsensus(Polkadot)/GeneralIndex(1) home 1000000 flight 0 burned 0
#1 exec relay
  p0 WithdrawAsset ok
  p1 DepositAsset ok
  end origin 0/AccountId32(0x0101010101010101010101010101010101010101010101010101010101010101) topic - surplus 0 0 refunded 0 0
  = complete 2000 200
#2 balances
  balance relay 0x0101010101010101010101010101010101010101010101010101010101010101 0 9999
  balance relay 0x706f6f6c00000000000000000000000000000000000000000000000000000000 0 1000001
  balance relay 0x706f6f6c00000000000000000000000000000000000000000000000000000000 0/GeneralIndex(1) 1000000
",
    },
];

/// The account of a pool, by its index.
const POOL: Piece = Piece::Hex(1);

/// Sixteen pools, whose accounts have 2^58-11 of the one asset and 2^57 of the other. Each is offered 10, which brings its reserve to the
/// last below 2^58, and then 1: the first offer is taken, and the second isn't.
pub(crate) const ENDS: &[Grown] = &[Grown {
    name: "sixteen pools at their ends",
    input: &[
        Part::Text("{\"format\":2,\"chains\":[{\"assets\":[{\"id\":\"0\",\"native\":[]}"),
        Part::Each(
            16,
            &[
                Piece::Text(",{\"id\":\"0/GeneralIndex("),
                Piece::Count(1, 0),
                Piece::Text(")\",\"native\":[]}"),
            ],
        ),
        Part::Text("],\n\"accounts\":["),
        Part::Each(
            16,
            &[
                Piece::Text("{\"who\":\"0x706f6f6c"),
                POOL,
                Piece::Text(
                    "000000000000000000000000000000000000000000000000000000\",\"asset\":\"0\",\"amount\":\"288230376151711733\"},\n{\"who\":\"0x706f6f6c",
                ),
                POOL,
                Piece::Text(
                    "000000000000000000000000000000000000000000000000000000\",\"asset\":\"0/GeneralIndex(",
                ),
                Piece::Count(1, 0),
                Piece::Text(")\",\"amount\":\"144115188075855872\"},\n"),
            ],
        ),
        Part::Text(
            "{\"who\":\"0x0101010101010101010101010101010101010101010101010101010101010101\",\"asset\":\"0\",\"amount\":\"176\"}],\n\"pools\":[",
        ),
        Part::Each(
            16,
            &[
                Piece::Comma,
                Piece::Text("{\"first\":\"0\",\"second\":\"0/GeneralIndex("),
                Piece::Count(1, 0),
                Piece::Text(")\",\"fee\":0}\n"),
            ],
        ),
        Part::Text("]}]}\n---\n"),
        Part::Each(
            16,
            &[
                Piece::Text(
                    "exec relay 0x0101010101010101010101010101010101010101010101010101010101010101 040c0004000000280f010004000105",
                ),
                Piece::Hex(4),
                Piece::Text(
                    "0014010d010208000101000202020202020202020202020202020202020202020202020202020202020202
exec relay 0x0101010101010101010101010101010101010101010101010101010101010101 04080004000000040f010004000105",
                ),
                Piece::Hex(4),
                Piece::Text("000401\n"),
            ],
        ),
    ],
    status: Status::Done,
    report: &[
        Part::Text(
            "coherent\n  supply fungible /GlobalConsensus(Polkadot) home 4611686018427387904 flight 0 burned 0\n",
        ),
        Part::Each(
            16,
            &[
                Piece::Text("  supply fungible /GlobalConsensus(Polkadot)/GeneralIndex("),
                Piece::Count(1, 0),
                Piece::Text(") home 144115188075855872 flight 0 burned 0\n"),
            ],
        ),
        Part::Each(
            16,
            &[
                Piece::Text("#"),
                Piece::Count(2, 1),
                Piece::Text(
                    " exec relay
  p0 WithdrawAsset ok
  p1 ExchangeAsset ok
  p2 DepositAsset ok
  end origin 0/AccountId32(0x0101010101010101010101010101010101010101010101010101010101010101) topic - surplus 0 0 refunded 0 0
  = complete 3000 300
#",
                ),
                Piece::Count(2, 2),
                Piece::Text(
                    " exec relay
  p0 WithdrawAsset ok
  p1 ExchangeAsset NoDeal
  end origin 0/AccountId32(0x0101010101010101010101010101010101010101010101010101010101010101) topic - surplus 0 0 refunded 0 0
  trapped ",
                ),
                Piece::Count(1, 1),
                Piece::Text("\n  = incomplete 2000 200 NoDeal\n"),
            ],
        ),
    ],
    pieces: ONCE,
}];
