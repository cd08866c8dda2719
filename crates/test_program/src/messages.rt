//! Messages on a relay chain without assets, and what is no message on a network with assets either.

use crate::documents::THREE_CHAINS;
use crate::parts::{Grown, ONCE, Part, Piece};
use crate::running::PIECES;
use crate::tables::{EXECUTE, NOT_A_MESSAGE, STEP, Table};
use xcm_cli::Status;

/// Messages of traps, in both versions, and what is written below their heading.
const TRAPS: &[(&str, &str)] = &[
    (
        "03041914",
        "  p0 Trap Trap(5)
  end origin 0/AccountId32(0x0101010101010101010101010101010101010101010101010101010101010101) topic - surplus 0 0 refunded 0 0
  = incomplete 1000 100 Trap(5)
",
    ),
    (
        "04041914",
        "  p0 Trap Trap(5)
  end origin 0/AccountId32(0x0101010101010101010101010101010101010101010101010101010101010101) topic - surplus 0 0 refunded 0 0
  = incomplete 1000 100 Trap(5)
",
    ),
    (
        "0x04041914",
        "  p0 Trap Trap(5)
  end origin 0/AccountId32(0x0101010101010101010101010101010101010101010101010101010101010101) topic - surplus 0 0 refunded 0 0
  = incomplete 1000 100 Trap(5)
",
    ),
    (
        "0404190101",
        "  p0 Trap Trap(64)
  end origin 0/AccountId32(0x0101010101010101010101010101010101010101010101010101010101010101) topic - surplus 0 0 refunded 0 0
  = incomplete 1000 100 Trap(64)
",
    ),
    (
        "0404190300000040",
        "  p0 Trap Trap(1073741824)
  end origin 0/AccountId32(0x0101010101010101010101010101010101010101010101010101010101010101) topic - surplus 0 0 refunded 0 0
  = incomplete 1000 100 Trap(1073741824)
",
    ),
    (
        "04041913ffffffffffffffff",
        "  p0 Trap Trap(18446744073709551615)
  end origin 0/AccountId32(0x0101010101010101010101010101010101010101010101010101010101010101) topic - surplus 0 0 refunded 0 0
  = incomplete 1000 100 Trap(18446744073709551615)
",
    ),
];

/// Programs with handlers and appendices, and what follows an error.
const PROGRAMS: &[(&str, &str)] = &[
    (
        "04100a191c0a1914",
        "  p0 ClearOrigin ok
  p1 Trap Trap(7)
  end origin - topic - surplus 2000 200 refunded 0 0
  = incomplete 2000 200 Trap(7)
",
    ),
    (
        "041415041716040a191c2d2d",
        "  p0 SetErrorHandler ok
  p1 SetAppendix ok
  p2 Trap Trap(7)
  h0 ClearError ok
  a0 ClearOrigin ok
  end origin - topic - surplus 2000 200 refunded 0 0
  = complete 5000 500
",
    ),
    (
        "040416041604160416041604160416040a",
        "  p0 SetAppendix ok
  a0 SetAppendix ok
  a0 SetAppendix ok
  a0 SetAppendix ok
  a0 SetAppendix ok
  a0 SetAppendix ok
  a0 SetAppendix ok
  a0 ClearOrigin ok
  end origin - topic - surplus 0 0 refunded 0 0
  = complete 8000 800
",
    ),
    (
        "04042f0000",
        "  p0 UnpaidExecution ok
  end origin 0/AccountId32(0x0101010101010101010101010101010101010101010101010101010101010101) topic - surplus 0 0 refunded 0 0
  = complete 1000 100
",
    ),
    (
        "03042f0000",
        "  p0 UnpaidExecution ok
  end origin 0/AccountId32(0x0101010101010101010101010101010101010101010101010101010101010101) topic - surplus 0 0 refunded 0 0
  = complete 1000 100
",
    ),
    (
        "04080a14",
        "  p0 ClearOrigin ok
  p1 RefundSurplus ok
  end origin - topic - surplus 0 0 refunded 0 0
  = complete 2000 200
",
    ),
];

/// What is no message.
const NO_MESSAGES: &[(&str, &str)] = &[
    // 5 in two bytes
    ("0404191500", NOT_A_MESSAGE),
    // a byte left over
    ("04041901010a", NOT_A_MESSAGE),
    // 2^30-1 in the longer form
    ("04041903ffffff3f", NOT_A_MESSAGE),
    // a code past the range
    ("04041917ffffffffffffffff01", NOT_A_MESSAGE),
    // fewer bytes than instructions
    ("0408", NOT_A_MESSAGE),
    // a trap without its code
    ("040419", NOT_A_MESSAGE),
    // a version alone
    ("04", NOT_A_MESSAGE),
    // the older version alone
    ("03", NOT_A_MESSAGE),
    // no byte
    ("0x", NOT_A_MESSAGE),
    // an instruction that is cut off
    ("04080a00", NOT_A_MESSAGE),
    // an index past the last instruction
    ("040430", NOT_A_MESSAGE),
    // an amount of 0
    (
        "040400040100000000000000000000000000000000000000000000000000000000000000000004",
        NOT_A_MESSAGE,
    ),
    // depth 9
    ("0404160416041604160416041604160416040a", NOT_A_MESSAGE),
    // depth 10 around nothing
    ("0404160416041604160416041604160416041600", NOT_A_MESSAGE),
    // a count of 2^32-1
    ("0403ffffffff", NOT_A_MESSAGE),
    // a call of 2^32-1 bytes
    ("04040600000003ffffffff", NOT_A_MESSAGE),
    // 101 instructions, of which one comes
    ("0495010a00", NOT_A_MESSAGE),
    // 101 instructions, of which some come
    ("0495010a16040a", NOT_A_MESSAGE),
];

/// Messages that are refused for another cause.
const OTHER_CAUSES: &[(&str, &str)] = &[
    ("05", "  = message refused: unknown version\n"),
    ("00", "  = message refused: unknown version\n"),
    (
        "030400040100000000000000000000000000000000000000000000000000000000000000000004",
        "  = message refused: not convertible\n",
    ),
];

/// What is written where the network of three chains opens.
const ASSETS: &str = "coherent
  supply fungible /GlobalConsensus(Polkadot) home 1000000 flight 0 burned 0
  backing 2000 fungible /GlobalConsensus(Polkadot) held 0 owed 0
  backing 2001 fungible /GlobalConsensus(Polkadot) held 0 owed 0
";

/// The same, and the heading of the first step.
const ASSETS_STEP: &str = "coherent
  supply fungible /GlobalConsensus(Polkadot) home 1000000 flight 0 burned 0
  backing 2000 fungible /GlobalConsensus(Polkadot) held 0 owed 0
  backing 2001 fungible /GlobalConsensus(Polkadot) held 0 owed 0
#1 exec relay
";

/// Messages on a relay chain without assets, and what is no message on a network with assets either.
pub(crate) const MESSAGES: &[Table] = &[
    Table {
        network: "{}",
        before: EXECUTE,
        status: Status::Done,
        opening: STEP,
        rows: TRAPS,
    },
    Table {
        network: "{}",
        before: EXECUTE,
        status: Status::Done,
        opening: STEP,
        rows: PROGRAMS,
    },
    Table {
        network: "{}",
        before: EXECUTE,
        status: Status::Done,
        opening: STEP,
        rows: NO_MESSAGES,
    },
    Table {
        network: THREE_CHAINS,
        before: EXECUTE,
        status: Status::Done,
        opening: ASSETS_STEP,
        rows: NO_MESSAGES,
    },
    Table {
        network: "{}",
        before: EXECUTE,
        status: Status::Done,
        opening: STEP,
        rows: OTHER_CAUSES,
    },
];

/// A message that sends 1,000 to a parachain, for a payment there.
const TRANSFER: [u8; 62] = [
    4, 4, 5, 4, 0, 0, 0, 161, 15, 0, 1, 0, 65, 31, 8, 19, 1, 0, 0, 145, 1, 0, 13, 1, 2, 4, 0, 1, 1,
    0, 2, 2, 2, 2, 2, 2, 2, 2, 2, 2, 2, 2, 2, 2, 2, 2, 2, 2, 2, 2, 2, 2, 2, 2, 2, 2, 2, 2, 2, 2, 2,
    2,
];

/// What comes before a message that is executed on a relay chain without assets.
const EXECUTED: Part = Part::Text(
    "{}\n---\nexec relay 0x0101010101010101010101010101010101010101010101010101010101010101 ",
);

/// What is written before what the message does.
const OPENED: Part = Part::Text("coherent\n#1 exec relay\n");

/// Messages at their limits and past them, and the proper prefixes of a message.
pub(crate) const LONG: &[Grown] = &[
    Grown {
        name: "100 instructions",
        input: &[
            EXECUTED,
            Part::Text("049101"),
            Part::Each(100, &[Piece::Text("0a")]),
            Part::Text("\n"),
        ],
        status: Status::Done,
        report: &[
            OPENED,
            Part::Each(
                100,
                &[
                    Piece::Text("  p"),
                    Piece::Count(1, 0),
                    Piece::Text(" ClearOrigin ok\n"),
                ],
            ),
            Part::Text(
                "  end origin - topic - surplus 0 0 refunded 0 0\n  = complete 100000 10000\n",
            ),
        ],
        pieces: PIECES,
    },
    Grown {
        name: "101 instructions",
        input: &[
            EXECUTED,
            Part::Text("0495010a"),
            Part::Each(100, &[Piece::Text("0a")]),
            Part::Text("\n"),
        ],
        status: Status::Done,
        report: &[OPENED, Part::Text(NOT_A_MESSAGE)],
        pieces: PIECES,
    },
    Grown {
        name: "65,536 bytes",
        input: &[
            Part::Text(THREE_CHAINS),
            Part::Text("\n---\n"),
            Part::Text(EXECUTE),
            Part::Text("04"),
            Part::Each(65_535, &[Piece::Text("00")]),
            Part::Text("\n"),
        ],
        status: Status::Done,
        report: &[Part::Text(ASSETS_STEP), Part::Text(NOT_A_MESSAGE)],
        pieces: ONCE,
    },
    Grown {
        name: "65,537 bytes",
        input: &[
            EXECUTED,
            Part::Text("04"),
            Part::Each(65_536, &[Piece::Text("00")]),
            Part::Text("\n"),
        ],
        status: Status::Done,
        report: &[OPENED, Part::Text("  = message refused: too long\n")],
        pieces: ONCE,
    },
    Grown {
        name: "fronts of 2 to 61 bytes",
        input: &[
            Part::Text(THREE_CHAINS),
            Part::Text("\n---\n"),
            Part::Each(
                60,
                &[
                    Piece::Text(
                        "exec relay 0x0101010101010101010101010101010101010101010101010101010101010101 ",
                    ),
                    Piece::Front(&TRANSFER),
                    Piece::Text("\n"),
                ],
            ),
        ],
        status: Status::Done,
        report: &[
            Part::Text(ASSETS),
            Part::Each(
                60,
                &[
                    Piece::Text("#"),
                    Piece::Count(1, 1),
                    Piece::Text(" exec relay\n  = message refused: not a message\n"),
                ],
            ),
        ],
        pieces: PIECES,
    },
];
