//! Calls of a chain by Transact.

use crate::parts::{Grown, ONCE, Part, Piece};
use crate::running::Row;
use std::process::Abort;
use xcm_cli::Status;

/// Three chains, of which the relay serves calls.
const CALLING: &str = r#"{"format":2,"chains":[
{"assets":[{"id":"0","native":[]}],
 "rates":[{"asset":"0","per_second":"1000000000","per_mb":"0"}],
 "accounts":[{"who":"0x0101010101010101010101010101010101010101010101010101010101010101","asset":"0","amount":"1000000"}],"calls":true},
{"para":2000,"assets":[{"id":"1","reserve":"relay"}],
 "rates":[{"asset":"1","per_second":"1000000000","per_mb":"0"}]},
{"para":2001,"assets":[{"id":"1","reserve":"relay"}],
 "rates":[{"asset":"1","per_second":"1000000000","per_mb":"0"}]}],
"channels":[{"from":"relay","to":2000},{"from":2000,"to":"relay"},
{"from":"relay","to":2001},{"from":2001,"to":"relay"}]}"#;

pub(crate) const CALLS: &[Row] = &[
    Row {
        name: "a call that moves an amount",
        network: CALLING,
        steps: "exec relay 0x0101010101010101010101010101010101010101010101010101010101010101 04040601a10f91018c0100020202020202020202020202020202020202020202020202020202020202020214
balances
",
        status: Status::Done,
        report: "coherent
  supply fungible /GlobalConsensus(Polkadot) home 1000000 flight 0 burned 0
  backing 2000 fungible /GlobalConsensus(Polkadot) held 0 owed 0
  backing 2001 fungible /GlobalConsensus(Polkadot) held 0 owed 0
#1 exec relay
  p0 Transact ok
  call transfer ok
  end origin 0/AccountId32(0x0101010101010101010101010101010101010101010101010101010101010101) topic - surplus 0 0 refunded 0 0
  = complete 2000 200
#2 balances
  balance relay 0x0101010101010101010101010101010101010101010101010101010101010101 0 999995
  balance relay 0x0202020202020202020202020202020202020202020202020202020202020202 0 5
",
    },
    Row {
        name: "a call that fails",
        network: CALLING,
        steps: "exec relay 0x0101010101010101010101010101010101010101010101010101010101010101 04040601e12eb104080207
balances
",
        status: Status::Done,
        report: "coherent
  supply fungible /GlobalConsensus(Polkadot) home 1000000 flight 0 burned 0
  backing 2000 fungible /GlobalConsensus(Polkadot) held 0 owed 0
  backing 2001 fungible /GlobalConsensus(Polkadot) held 0 owed 0
#1 exec relay
  p0 Transact ok
  call fail failed
  end origin 0/AccountId32(0x0101010101010101010101010101010101010101010101010101010101010101) topic - surplus 2000 200 refunded 0 0
  = complete 2000 200
#2 balances
  balance relay 0x0101010101010101010101010101010101010101010101010101010101010101 0 1000000
",
    },
    Row {
        name: "a batch that fails moves nothing",
        network: CALLING,
        steps: "exec relay 0x0101010101010101010101010101010101010101010101010101010101010101 04040601e12eb1049c030801000202020202020202020202020202020202020202020202020202020202020202140209
balances
",
        status: Status::Done,
        report: "coherent
  supply fungible /GlobalConsensus(Polkadot) home 1000000 flight 0 burned 0
  backing 2000 fungible /GlobalConsensus(Polkadot) held 0 owed 0
  backing 2001 fungible /GlobalConsensus(Polkadot) held 0 owed 0
#1 exec relay
  p0 Transact ok
  call batch failed
  end origin 0/AccountId32(0x0101010101010101010101010101010101010101010101010101010101010101) topic - surplus 0 0 refunded 0 0
  = complete 4000 400
#2 balances
  balance relay 0x0101010101010101010101010101010101010101010101010101010101010101 0 1000000
",
    },
    Row {
        name: "what Transact refuses",
        network: CALLING,
        steps: "exec relay 0x0101010101010101010101010101010101010101010101010101010101010101 04040601a10f91011003040300
exec relay 0x0101010101010101010101010101010101010101010101010101010101010101 04040600a10f9101080209
exec relay 0x0101010101010101010101010101010101010101010101010101010101010101 040406019d0f9101080209
exec 2000 0x0101010101010101010101010101010101010101010101010101010101010101 04040601a10f9101080209
",
        status: Status::Done,
        report: "coherent
  supply fungible /GlobalConsensus(Polkadot) home 1000000 flight 0 burned 0
  backing 2000 fungible /GlobalConsensus(Polkadot) held 0 owed 0
  backing 2001 fungible /GlobalConsensus(Polkadot) held 0 owed 0
#1 exec relay
  p0 Transact FailedToDecode
  end origin 0/AccountId32(0x0101010101010101010101010101010101010101010101010101010101010101) topic - surplus 0 0 refunded 0 0
  = incomplete 2000 200 FailedToDecode
#2 exec relay
  p0 Transact BadOrigin
  end origin 0/AccountId32(0x0101010101010101010101010101010101010101010101010101010101010101) topic - surplus 0 0 refunded 0 0
  = incomplete 2000 200 BadOrigin
#3 exec relay
  p0 Transact MaxWeightInvalid
  end origin 0/AccountId32(0x0101010101010101010101010101010101010101010101010101010101010101) topic - surplus 0 0 refunded 0 0
  = incomplete 1999 200 MaxWeightInvalid
#4 exec 2000
  p0 Transact FailedToDecode
  end origin 0/AccountId32(0x0101010101010101010101010101010101010101010101010101010101010101) topic - surplus 0 0 refunded 0 0
  = incomplete 2000 200 FailedToDecode
",
    },
];

/// What comes before a call on a relay chain that serves calls.
const CALLED: Part = Part::Text(
    "{\"format\":2,\"chains\":[{\"calls\":true}]}\n---\nexec relay 0x0101010101010101010101010101010101010101010101010101010101010101 04040601",
);

/// What is written before what the call does.
const OPENED: Part = Part::Text("coherent\n#1 exec relay\n");

const BATCH_RAN: &str = "  p0 Transact ok
  call batch ok
  end origin 0/AccountId32(0x0101010101010101010101010101010101010101010101010101010101010101) topic - surplus 0 0 refunded 0 0
  = complete 10000 1000
";

const NOT_ENOUGH_WEIGHT: &str = "  p0 Transact MaxWeightInvalid
  end origin 0/AccountId32(0x0101010101010101010101010101010101010101010101010101010101010101) topic - surplus 0 0 refunded 0 0
  = incomplete 9000 900 MaxWeightInvalid
";

const NO_CALL: &str = "  p0 Transact FailedToDecode
  end origin 0/AccountId32(0x0101010101010101010101010101010101010101010101010101010101010101) topic - surplus 0 0 refunded 0 0
  = incomplete 10000 1000 FailedToDecode
";

/// Calls at their limits and past them: what the call may weigh, how long it is, and its remarks of zeros.
pub(crate) const REMARKS: &[Grown] = &[
    Grown {
        name: "a batch of 8 remarks of 1,024 bytes",
        input: &[
            CALLED,
            Part::Text("a18c110e69800320"),
            Part::Each(8, &[Piece::Text("000110"), Piece::Times("00", 1024)]),
            Part::Text("\n"),
        ],
        status: Status::Done,
        report: &[OPENED, Part::Text(BATCH_RAN)],
        pieces: ONCE,
    },
    Grown {
        name: "a batch of one weight too little",
        input: &[
            CALLED,
            Part::Text("017d810c69800320"),
            Part::Each(8, &[Piece::Text("000110"), Piece::Times("00", 1024)]),
            Part::Text("\n"),
        ],
        status: Status::Done,
        report: &[OPENED, Part::Text(NOT_ENOUGH_WEIGHT)],
        pieces: ONCE,
    },
    Grown {
        name: "a remark of 1,025 bytes",
        input: &[
            CALLED,
            Part::Text("a18c110e1110"),
            Part::Each(1, &[Piece::Text("000510"), Piece::Times("00", 1025)]),
            Part::Text("\n"),
        ],
        status: Status::Done,
        report: &[OPENED, Part::Text(NO_CALL)],
        pieces: ONCE,
    },
    Grown {
        name: "a batch of 9 remarks",
        input: &[
            CALLED,
            Part::Text("a18c110e500324"),
            Part::Each(9, &[Piece::Text("0000"), Piece::Times("00", 0)]),
            Part::Text("\n"),
        ],
        status: Status::Done,
        report: &[OPENED, Part::Text(NO_CALL)],
        pieces: ONCE,
    },
    Grown {
        name: "a remark of 65,000 bytes",
        input: &[
            CALLED,
            Part::Text("a18c110ea2f70300"),
            Part::Each(1, &[Piece::Text("00"), Piece::Times("00", 64_999)]),
            Part::Text("\n"),
        ],
        status: Status::Done,
        report: &[OPENED, Part::Text(NO_CALL)],
        pieces: ONCE,
    },
];
