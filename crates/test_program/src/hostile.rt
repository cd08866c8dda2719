//! Messages and lines of strangers: counts, numbers, lists and nesting at their limits and past them.

use crate::documents::ONE_ACCOUNT;
use crate::parts::{Grown, Part, Piece};
use crate::running::PIECES;
use crate::tables::{EXECUTE, NOT_A_MESSAGE, STEP, Table};
use xcm_cli::Status;

/// What comes before a message that is executed on a relay chain without assets.
const EXECUTED: Part = Part::Text(
    "{}\n---\nexec relay 0x0101010101010101010101010101010101010101010101010101010101010101 ",
);

/// What is written before what the message does.
const OPENED: Part = Part::Text("coherent\n#1 exec relay\n");

/// What is written where the first line after the network is none.
const NOT_A_LINE: &str = "line 3 refused\n";

/// Messages in which what is named is counted as 2^32-1; no byte comes after the count.
const COUNTS: &[(&str, &str)] = &[
    // a program
    ("0403ffffffff", NOT_A_MESSAGE),
    // a withdrawal
    ("04040003ffffffff", NOT_A_MESSAGE),
    // a deposit in reserve
    ("04040103ffffffff", NOT_A_MESSAGE),
    // a teleport that arrives
    ("04040203ffffffff", NOT_A_MESSAGE),
    // the assets of a response
    ("040403000103ffffffff", NOT_A_MESSAGE),
    // the pallets of a response
    ("040403000403ffffffff", NOT_A_MESSAGE),
    // a pallet's name
    ("0404030004040003ffffffff", NOT_A_MESSAGE),
    // a pallet's module
    ("040403000404000003ffffffff", NOT_A_MESSAGE),
    // the error of a call
    ("04040300050103ffffffff", NOT_A_MESSAGE),
    // the cut error of a call
    ("04040300050203ffffffff", NOT_A_MESSAGE),
    // a transfer
    ("04040403ffffffff", NOT_A_MESSAGE),
    // a transfer in reserve
    ("04040503ffffffff", NOT_A_MESSAGE),
    // the program of a transfer in reserve
    ("04040500010003ffffffff", NOT_A_MESSAGE),
    // a call
    ("04040600000003ffffffff", NOT_A_MESSAGE),
    // the assets of a deposit
    ("04040d0003ffffffff", NOT_A_MESSAGE),
    // the assets of a deposit in reserve
    ("04040e0003ffffffff", NOT_A_MESSAGE),
    // the program of a deposit in reserve
    ("04040e0100010003ffffffff", NOT_A_MESSAGE),
    // what an exchange gives
    ("04040f0003ffffffff", NOT_A_MESSAGE),
    // what an exchange wants
    ("04040f010003ffffffff", NOT_A_MESSAGE),
    // the assets of a withdrawal in reserve
    ("0404100003ffffffff", NOT_A_MESSAGE),
    // the program of a withdrawal in reserve
    ("0404100100010003ffffffff", NOT_A_MESSAGE),
    // the assets of a teleport
    ("0404110003ffffffff", NOT_A_MESSAGE),
    // the program of a teleport
    ("0404110100010003ffffffff", NOT_A_MESSAGE),
    // the assets of a report
    ("04041201000000000003ffffffff", NOT_A_MESSAGE),
    // an error handler
    ("04041503ffffffff", NOT_A_MESSAGE),
    // an appendix
    ("04041603ffffffff", NOT_A_MESSAGE),
    // a claim
    ("04041803ffffffff", NOT_A_MESSAGE),
    // a burn
    ("04041c03ffffffff", NOT_A_MESSAGE),
    // the assets that are expected
    ("04041d03ffffffff", NOT_A_MESSAGE),
    // the error that is expected of a call
    ("0404200103ffffffff", NOT_A_MESSAGE),
    // the module that is asked for
    ("04042103ffffffff", NOT_A_MESSAGE),
    // the name of a pallet that is expected
    ("0404220003ffffffff", NOT_A_MESSAGE),
    // its module's name
    ("040422000003ffffffff", NOT_A_MESSAGE),
    // a message that is exported
    ("040426020003ffffffff", NOT_A_MESSAGE),
];

/// Messages in which what is named passes a limit or has no meaning.
const PAST_LIMITS: &[(&str, &str)] = &[
    // 255 junctions
    (
        "0404040000ff070707070707070707070707070707070707070707070707070707070707070707070707070707070707070707070707070707070707070707070707070707070707070707070707070707070707070707070707070707070707070707070707070707070707070707070707070707070707070707070707070707070707070707070707070707070707070707070707070707070707070707070707070707070707070707070707070707070707070707070707070707070707070707070707070707070707070707070707070707070707070707070707070707070707070707070707070707070707070707070707070707070707070707070707070707",
        NOT_A_MESSAGE,
    ),
    // 9 junctions
    ("04040b09070707070707070707", NOT_A_MESSAGE),
    // a pallet's name of 49 bytes
    (
        "04040300040400c4ffffffffffffffffffffffffffffffffffffffffffffffffffffffffffffffffffffffffffffffffffffffffffffffffff00000000000000",
        NOT_A_MESSAGE,
    ),
    // 65 pallets
    (
        "04040300040501000000000000000000000000000000000000000000000000000000000000000000000000000000000000000000000000000000000000000000000000000000000000000000000000000000000000000000000000000000000000000000000000000000000000000000000000000000000000000000000000000000000000000000000000000000000000000000000000000000000000000000000000000000000000000000000000000000000000000000000000000000000000000000000000000000000000000000000000000000000000000000000000000000000000000000000000000000000000000000000000000000000000000000000000000000000000000000000000000000000000000000000000000000000000000000000000000000000000000000000000000000000000000000000000000000000000000000000000000000000000000000000000000000000000000000000000000000000000000000000000000000000000000000000000000000000000000000000000000000000000000000",
        NOT_A_MESSAGE,
    ),
    // an error of 129 bytes
    (
        "0404030005010502ffffffffffffffffffffffffffffffffffffffffffffffffffffffffffffffffffffffffffffffffffffffffffffffffffffffffffffffffffffffffffffffffffffffffffffffffffffffffffffffffffffffffffffffffffffffffffffffffffffffffffffffffffffffffffffffffffffffffffffffffffffffffffffffffff000000",
        NOT_A_MESSAGE,
    ),
    // a list of 21 assets
    (
        "040400540001040000040001040100040001040200040001040300040001040400040001040500040001040600040001040700040001040800040001040900040001040a00040001040b00040001040c00040001040d00040001040e00040001040f0004000104100004000104110004000104120004000104130004000104140004",
        NOT_A_MESSAGE,
    ),
    // assets in another order
    ("04040008000104010004000104000004", NOT_A_MESSAGE),
    // an asset twice
    ("04040008000104000004000104000008", NOT_A_MESSAGE),
    // an amount of 0
    ("0404000400000000", NOT_A_MESSAGE),
    // an amount of 2^128
    (
        "04040004000000370000000000000000000000000000000001",
        NOT_A_MESSAGE,
    ),
    // a weight of 2^64
    ("04040600170000000000000000010000", NOT_A_MESSAGE),
    // a count of 2^32
    ("04040d01020700000000010000", NOT_A_MESSAGE),
    // a flag of 2
    ("04042b02", NOT_A_MESSAGE),
    // a kind of origin past the last
    ("04040604000000", NOT_A_MESSAGE),
    // an error past the last
    ("04041f010000000023", NOT_A_MESSAGE),
    // a network past the last
    ("040425090a", NOT_A_MESSAGE),
    // a junction past the last
    ("0404250a", NOT_A_MESSAGE),
    // a response past the last
    ("0404030006000000", NOT_A_MESSAGE),
    // 101 instructions inside a transfer and around it
    (
        "04040500010091010a0a0a0a0a0a0a0a0a0a0a0a0a0a0a0a0a0a0a0a0a0a0a0a0a0a0a0a0a0a0a0a0a0a0a0a0a0a0a0a0a0a0a0a0a0a0a0a0a0a0a0a0a0a0a0a0a0a0a0a0a0a0a0a0a0a0a0a0a0a0a0a0a0a0a0a0a0a0a0a0a0a0a0a0a0a0a0a0a0a0a0a0a0a0a0a0a0a0a0a",
        NOT_A_MESSAGE,
    ),
    // an instance past the last
    ("0404000400000106", NOT_A_MESSAGE),
];

/// Messages in which what is named is at a limit, and what is written below their heading.
const AT_LIMITS: &[(&str, &str)] = &[
    // 2^32-1 kinds
    (
        "04040d010203ffffffff000101000202020202020202020202020202020202020202020202020202020202020202",
        "  p0 DepositAsset ok
  end origin 0/AccountId32(0x0101010101010101010101010101010101010101010101010101010101010101) topic - surplus 0 0 refunded 0 0
  = complete 1000 100
",
    ),
    // 2^32-1 instances of a class
    (
        "04040d010300000103ffffffff000101000202020202020202020202020202020202020202020202020202020202020202",
        "  p0 DepositAsset ok
  end origin 0/AccountId32(0x0101010101010101010101010101010101010101010101010101010101010101) topic - surplus 0 0 refunded 0 0
  = complete 1000 100
",
    ),
    // 255 levels up
    (
        "04040d0100ff00",
        "  p0 DepositAsset ok
  end origin 0/AccountId32(0x0101010101010101010101010101010101010101010101010101010101010101) topic - surplus 0 0 refunded 0 0
  = complete 1000 100
",
    ),
    // 255 levels up, of a report
    (
        "04040cff00000000",
        "  p0 ReportError ReanchorFailed
  end origin 0/AccountId32(0x0101010101010101010101010101010101010101010101010101010101010101) topic - surplus 0 0 refunded 0 0
  = incomplete 1000 100 ReanchorFailed
",
    ),
    // 8 junctions below an account
    (
        "04040b080707070707070707",
        "  p0 DescendOrigin LocationFull
  end origin 0/AccountId32(0x0101010101010101010101010101010101010101010101010101010101010101) topic - surplus 0 0 refunded 0 0
  = incomplete 1000 100 LocationFull
",
    ),
    // 7 junctions below an account
    (
        "04040b0707070707070707",
        "  p0 DescendOrigin ok
  end origin 0/AccountId32(0x0101010101010101010101010101010101010101010101010101010101010101)/0x07/0x07/0x07/0x07/0x07/0x07/0x07 topic - surplus 0 0 refunded 0 0
  = complete 1000 100
",
    ),
    // a pallet's name of 48 bytes that are no text
    (
        "04040300040400c0ffffffffffffffffffffffffffffffffffffffffffffffffffffffffffffffffffffffffffffffffffffffffffffffffc0ffffffffffffffffffffffffffffffffffffffffffffffffffffffffffffffffffffffffffffffffffffffffffffffff000000000000",
        "  p0 QueryResponse ok
  ignored 0
  end origin 0/AccountId32(0x0101010101010101010101010101010101010101010101010101010101010101) topic - surplus 0 0 refunded 0 0
  = complete 1000 100
",
    ),
    // 64 pallets
    (
        "04040300040101000000000000000000000000000000000000000000000000000000000000000000000000000000000000000000000000000000000000000000000000000000000000000000000000000000000000000000000000000000000000000000000000000000000000000000000000000000000000000000000000000000000000000000000000000000000000000000000000000000000000000000000000000000000000000000000000000000000000000000000000000000000000000000000000000000000000000000000000000000000000000000000000000000000000000000000000000000000000000000000000000000000000000000000000000000000000000000000000000000000000000000000000000000000000000000000000000000000000000000000000000000000000000000000000000000000000000000000000000000000000000000000000000000000000000000000000000000000000000000000000000000000000000000000000000000000000000000000000000000",
        "  p0 QueryResponse ok
  ignored 0
  end origin 0/AccountId32(0x0101010101010101010101010101010101010101010101010101010101010101) topic - surplus 0 0 refunded 0 0
  = complete 1000 100
",
    ),
    // an error of 128 bytes
    (
        "0404030005010102ffffffffffffffffffffffffffffffffffffffffffffffffffffffffffffffffffffffffffffffffffffffffffffffffffffffffffffffffffffffffffffffffffffffffffffffffffffffffffffffffffffffffffffffffffffffffffffffffffffffffffffffffffffffffffffffffffffffffffffffffffffffffffffffff000000",
        "  p0 QueryResponse ok
  ignored 0
  end origin 0/AccountId32(0x0101010101010101010101010101010101010101010101010101010101010101) topic - surplus 0 0 refunded 0 0
  = complete 1000 100
",
    ),
    // the query 2^64-1
    (
        "04040313ffffffffffffffff00000000",
        "  p0 QueryResponse ok
  ignored 18446744073709551615
  end origin 0/AccountId32(0x0101010101010101010101010101010101010101010101010101010101010101) topic - surplus 0 0 refunded 0 0
  = complete 1000 100
",
    ),
    // a pallet that is expected under names that are no text
    (
        "04042200c0ffffffffffffffffffffffffffffffffffffffffffffffffffffffffffffffffffffffffffffffffffffffffffffffffc0ffffffffffffffffffffffffffffffffffffffffffffffffffffffffffffffffffffffffffffffffffffffffffffffff0000",
        "  p0 ExpectPallet PalletNotFound
  end origin 0/AccountId32(0x0101010101010101010101010101010101010101010101010101010101010101) topic - surplus 0 0 refunded 0 0
  = incomplete 1000 100 PalletNotFound
",
    ),
    // a list of 20 assets
    (
        "040400500001040000040001040100040001040200040001040300040001040400040001040500040001040600040001040700040001040800040001040900040001040a00040001040b00040001040c00040001040d00040001040e00040001040f0004000104100004000104110004000104120004000104130004",
        "  p0 WithdrawAsset AssetNotFound
  end origin 0/AccountId32(0x0101010101010101010101010101010101010101010101010101010101010101) topic - surplus 0 0 refunded 0 0
  = incomplete 1000 100 AssetNotFound
",
    ),
    // the most of an asset
    (
        "0404000400000033ffffffffffffffffffffffffffffffff",
        "  p0 WithdrawAsset AssetNotFound
  end origin 0/AccountId32(0x0101010101010101010101010101010101010101010101010101010101010101) topic - surplus 0 0 refunded 0 0
  = incomplete 1000 100 AssetNotFound
",
    ),
    // a weight of 2^64-1
    (
        "0404060013ffffffffffffffff13ffffffffffffffff00",
        "  = error WeightNotComputable
",
    ),
    // a weight above the chain's most
    (
        "04040600070010a5d4e80000",
        "  = error WeightLimitReached
",
    ),
    // a weight of the chain's most
    (
        "0404060007180ca5d4e80000",
        "  p0 Transact FailedToDecode
  end origin 0/AccountId32(0x0101010101010101010101010101010101010101010101010101010101010101) topic - surplus 0 0 refunded 0 0
  = incomplete 1000000000000 100 FailedToDecode
",
    ),
    // 100 instructions inside a transfer and around it
    (
        "0404050001008d010a0a0a0a0a0a0a0a0a0a0a0a0a0a0a0a0a0a0a0a0a0a0a0a0a0a0a0a0a0a0a0a0a0a0a0a0a0a0a0a0a0a0a0a0a0a0a0a0a0a0a0a0a0a0a0a0a0a0a0a0a0a0a0a0a0a0a0a0a0a0a0a0a0a0a0a0a0a0a0a0a0a0a0a0a0a0a0a0a0a0a0a0a0a0a0a0a0a0a",
        "  p0 TransferReserveAsset Unroutable
  end origin 0/AccountId32(0x0101010101010101010101010101010101010101010101010101010101010101) topic - surplus 0 0 refunded 0 0
  = incomplete 1000 100 Unroutable
",
    ),
    // a topic of 32 bytes
    (
        "04042cffffffffffffffffffffffffffffffffffffffffffffffffffffffffffffffff",
        "  p0 SetTopic ok
  end origin 0/AccountId32(0x0101010101010101010101010101010101010101010101010101010101010101) topic 0xffffffffffffffffffffffffffffffffffffffffffffffffffffffffffffffff surplus 0 0 refunded 0 0
  = complete 1000 100
",
    ),
];

/// Instructions with a program inside, one in the other, and in the last ClearOrigin: eight levels are executed, and nine are no message.
pub(crate) const NESTED: &[Grown] = &[
    Grown {
        name: "eight levels of TransferReserveAsset",
        input: &[
            EXECUTED,
            Part::Text("04"),
            Part::Each(7, &[Piece::Text("0405000100")]),
            Part::Text("040a\n"),
        ],
        status: Status::Done,
        report: &[
            OPENED,
            Part::Text(
                "  p0 TransferReserveAsset Unroutable
  end origin 0/AccountId32(0x0101010101010101010101010101010101010101010101010101010101010101) topic - surplus 0 0 refunded 0 0
  = incomplete 1000 100 Unroutable
",
            ),
        ],
        pieces: PIECES,
    },
    Grown {
        name: "nine levels of TransferReserveAsset",
        input: &[
            EXECUTED,
            Part::Text("04"),
            Part::Each(8, &[Piece::Text("0405000100")]),
            Part::Text("040a\n"),
        ],
        status: Status::Done,
        report: &[OPENED, Part::Text(NOT_A_MESSAGE)],
        pieces: PIECES,
    },
    Grown {
        name: "eight levels of DepositReserveAsset",
        input: &[
            EXECUTED,
            Part::Text("04"),
            Part::Each(7, &[Piece::Text("040e01000100")]),
            Part::Text("040a\n"),
        ],
        status: Status::Done,
        report: &[
            OPENED,
            Part::Text(
                "  p0 DepositReserveAsset Unroutable
  end origin 0/AccountId32(0x0101010101010101010101010101010101010101010101010101010101010101) topic - surplus 0 0 refunded 0 0
  = incomplete 1000 100 Unroutable
",
            ),
        ],
        pieces: PIECES,
    },
    Grown {
        name: "nine levels of DepositReserveAsset",
        input: &[
            EXECUTED,
            Part::Text("04"),
            Part::Each(8, &[Piece::Text("040e01000100")]),
            Part::Text("040a\n"),
        ],
        status: Status::Done,
        report: &[OPENED, Part::Text(NOT_A_MESSAGE)],
        pieces: PIECES,
    },
    Grown {
        name: "eight levels of InitiateReserveWithdraw",
        input: &[
            EXECUTED,
            Part::Text("04"),
            Part::Each(7, &[Piece::Text("041001000100")]),
            Part::Text("040a\n"),
        ],
        status: Status::Done,
        report: &[
            OPENED,
            Part::Text(
                "  p0 InitiateReserveWithdraw Unroutable
  end origin 0/AccountId32(0x0101010101010101010101010101010101010101010101010101010101010101) topic - surplus 0 0 refunded 0 0
  = incomplete 1000 100 Unroutable
",
            ),
        ],
        pieces: PIECES,
    },
    Grown {
        name: "nine levels of InitiateReserveWithdraw",
        input: &[
            EXECUTED,
            Part::Text("04"),
            Part::Each(8, &[Piece::Text("041001000100")]),
            Part::Text("040a\n"),
        ],
        status: Status::Done,
        report: &[OPENED, Part::Text(NOT_A_MESSAGE)],
        pieces: PIECES,
    },
    Grown {
        name: "eight levels of InitiateTeleport",
        input: &[
            EXECUTED,
            Part::Text("04"),
            Part::Each(7, &[Piece::Text("041101000100")]),
            Part::Text("040a\n"),
        ],
        status: Status::Done,
        report: &[
            OPENED,
            Part::Text(
                "  p0 InitiateTeleport Unroutable
  end origin 0/AccountId32(0x0101010101010101010101010101010101010101010101010101010101010101) topic - surplus 0 0 refunded 0 0
  = incomplete 1000 100 Unroutable
",
            ),
        ],
        pieces: PIECES,
    },
    Grown {
        name: "nine levels of InitiateTeleport",
        input: &[
            EXECUTED,
            Part::Text("04"),
            Part::Each(8, &[Piece::Text("041101000100")]),
            Part::Text("040a\n"),
        ],
        status: Status::Done,
        report: &[OPENED, Part::Text(NOT_A_MESSAGE)],
        pieces: PIECES,
    },
    Grown {
        name: "eight levels of ExportMessage",
        input: &[
            EXECUTED,
            Part::Text("04"),
            Part::Each(7, &[Piece::Text("04260200")]),
            Part::Text("040a\n"),
        ],
        status: Status::Done,
        report: &[
            OPENED,
            Part::Text(
                "  p0 ExportMessage Unroutable
  end origin 0/AccountId32(0x0101010101010101010101010101010101010101010101010101010101010101) topic - surplus 0 0 refunded 0 0
  = incomplete 1000 100 Unroutable
",
            ),
        ],
        pieces: PIECES,
    },
    Grown {
        name: "nine levels of ExportMessage",
        input: &[
            EXECUTED,
            Part::Text("04"),
            Part::Each(8, &[Piece::Text("04260200")]),
            Part::Text("040a\n"),
        ],
        status: Status::Done,
        report: &[OPENED, Part::Text(NOT_A_MESSAGE)],
        pieces: PIECES,
    },
    Grown {
        name: "eight levels of SetErrorHandler",
        input: &[
            EXECUTED,
            Part::Text("04"),
            Part::Each(7, &[Piece::Text("0415")]),
            Part::Text("040a\n"),
        ],
        status: Status::Done,
        report: &[
            OPENED,
            Part::Text(
                "  p0 SetErrorHandler ok
  end origin 0/AccountId32(0x0101010101010101010101010101010101010101010101010101010101010101) topic - surplus 7000 700 refunded 0 0
  = complete 1000 100
",
            ),
        ],
        pieces: PIECES,
    },
    Grown {
        name: "nine levels of SetErrorHandler",
        input: &[
            EXECUTED,
            Part::Text("04"),
            Part::Each(8, &[Piece::Text("0415")]),
            Part::Text("040a\n"),
        ],
        status: Status::Done,
        report: &[OPENED, Part::Text(NOT_A_MESSAGE)],
        pieces: PIECES,
    },
    Grown {
        name: "eight levels of SetAppendix",
        input: &[
            EXECUTED,
            Part::Text("04"),
            Part::Each(7, &[Piece::Text("0416")]),
            Part::Text("040a\n"),
        ],
        status: Status::Done,
        report: &[
            OPENED,
            Part::Text(
                "  p0 SetAppendix ok
  a0 SetAppendix ok
  a0 SetAppendix ok
  a0 SetAppendix ok
  a0 SetAppendix ok
  a0 SetAppendix ok
  a0 SetAppendix ok
  a0 ClearOrigin ok
  end origin - topic - surplus 0 0 refunded 0 0
  = complete 8000 800
",
            ),
        ],
        pieces: PIECES,
    },
    Grown {
        name: "nine levels of SetAppendix",
        input: &[
            EXECUTED,
            Part::Text("04"),
            Part::Each(8, &[Piece::Text("0416")]),
            Part::Text("040a\n"),
        ],
        status: Status::Done,
        report: &[OPENED, Part::Text(NOT_A_MESSAGE)],
        pieces: PIECES,
    },
];

/// Messages that ask what is named of an account that has 1,000,000, and what is written below their heading.
const HELD: &[(&str, &str)] = &[
    // more than all that an account has
    (
        "0404000400000033ffffffffffffffffffffffffffffffff",
        "  p0 WithdrawAsset FailedToTransactAsset
  end origin 0/AccountId32(0x0101010101010101010101010101010101010101010101010101010101010101) topic - surplus 0 0 refunded 0 0
  = incomplete 1000 100 FailedToTransactAsset
",
    ),
    // a deposit in reserve that nobody sent
    (
        "0404010400000033ffffffffffffffffffffffffffffffff",
        "  p0 ReserveAssetDeposited UntrustedReserveLocation
  end origin 0/AccountId32(0x0101010101010101010101010101010101010101010101010101010101010101) topic - surplus 0 0 refunded 0 0
  = incomplete 1000 100 UntrustedReserveLocation
",
    ),
    // a teleport that nobody sent
    (
        "0404020400000033ffffffffffffffffffffffffffffffff",
        "  p0 ReceiveTeleportedAsset UntrustedTeleportLocation
  end origin 0/AccountId32(0x0101010101010101010101010101010101010101010101010101010101010101) topic - surplus 0 0 refunded 0 0
  = incomplete 1000 100 UntrustedTeleportLocation
",
    ),
    // a transfer of the most of an asset
    (
        "0404040400000033ffffffffffffffffffffffffffffffff000101000202020202020202020202020202020202020202020202020202020202020202",
        "  p0 TransferAsset FailedToTransactAsset
  end origin 0/AccountId32(0x0101010101010101010101010101010101010101010101010101010101010101) topic - surplus 0 0 refunded 0 0
  = incomplete 1000 100 FailedToTransactAsset
",
    ),
    // fees that aren't held
    (
        "04041300000033ffffffffffffffffffffffffffffffff010000",
        "  p0 BuyExecution NotHoldingFees
  end origin 0/AccountId32(0x0101010101010101010101010101010101010101010101010101010101010101) topic - surplus 0 0 refunded 0 0
  = incomplete 1000 100 NotHoldingFees
",
    ),
    // a burn of the most of an asset
    (
        "04080004000000041c0400000033ffffffffffffffffffffffffffffffff",
        "  p0 WithdrawAsset ok
  p1 BurnAsset ok
  burned fungible /GlobalConsensus(Polkadot) 1 BurnAsset
  end origin 0/AccountId32(0x0101010101010101010101010101010101010101010101010101010101010101) topic - surplus 0 0 refunded 0 0
  = complete 2000 200
",
    ),
];

/// Lines that are none.
const NO_LINES: &[(&str, &str)] = &[
    ("exec", NOT_A_LINE),
    ("exec relay", NOT_A_LINE),
    (
        "exec relay 0x0101010101010101010101010101010101010101010101010101010101010101",
        NOT_A_LINE,
    ),
    (
        "exec relay 0x0101010101010101010101010101010101010101010101010101010101010101 ",
        NOT_A_LINE,
    ),
    (
        "exec relay 0x0101010101010101010101010101010101010101010101010101010101010101 04 04",
        NOT_A_LINE,
    ),
    (
        "exec relay 0x0101010101010101010101010101010101010101010101010101010101010101 0x0",
        NOT_A_LINE,
    ),
    (
        "exec relay 0x0101010101010101010101010101010101010101010101010101010101010101 0xzz",
        NOT_A_LINE,
    ),
    (
        "exec relay 0x0101010101010101010101010101010101010101010101010101010101010101 0X04",
        NOT_A_LINE,
    ),
    (
        "exec relay 0x010101010101010101010101010101010101010101010101010101010101010 04",
        NOT_A_LINE,
    ),
    (
        "exec relay 0x01010101010101010101010101010101010101010101010101010101010101011 04",
        NOT_A_LINE,
    ),
    (
        "exec relay  0x0101010101010101010101010101010101010101010101010101010101010101 04",
        NOT_A_LINE,
    ),
    (
        "exec 4294967296 0x0101010101010101010101010101010101010101010101010101010101010101 04",
        NOT_A_LINE,
    ),
    (
        "exec 02000 0x0101010101010101010101010101010101010101010101010101010101010101 04",
        NOT_A_LINE,
    ),
    (
        "exec +1 0x0101010101010101010101010101010101010101010101010101010101010101 04",
        NOT_A_LINE,
    ),
    (
        "exec -1 0x0101010101010101010101010101010101010101010101010101010101010101 04",
        NOT_A_LINE,
    ),
    (
        "exec relay\t0x0101010101010101010101010101010101010101010101010101010101010101 04",
        NOT_A_LINE,
    ),
    (
        "EXEC relay 0x0101010101010101010101010101010101010101010101010101010101010101 04",
        NOT_A_LINE,
    ),
    (
        "exec Relay 0x0101010101010101010101010101010101010101010101010101010101010101 04",
        NOT_A_LINE,
    ),
    ("deliver relay", NOT_A_LINE),
    ("deliver relay 2000 1", NOT_A_LINE),
    ("deliver relay 99999999999999999999", NOT_A_LINE),
    ("claim relay 2000", NOT_A_LINE),
    ("claim relay 2000 4", NOT_A_LINE),
    ("drain 1", NOT_A_LINE),
    (" drain", NOT_A_LINE),
    ("drain\0", NOT_A_LINE),
    ("drain\u{e9}", NOT_A_LINE),
    ("--", NOT_A_LINE),
    ("----", NOT_A_LINE),
    ("--- ", NOT_A_LINE),
];

/// Messages with counts of 2^32-1, and past their limits, on a relay chain without assets.
pub(crate) const HOSTILE: &[Table] = &[
    Table {
        network: "{}",
        before: EXECUTE,
        status: Status::Done,
        opening: STEP,
        rows: COUNTS,
    },
    Table {
        network: "{}",
        before: EXECUTE,
        status: Status::Done,
        opening: STEP,
        rows: PAST_LIMITS,
    },
];

/// Messages at their limits there.
pub(crate) const LIMITED: &[Table] = &[Table {
    network: "{}",
    before: EXECUTE,
    status: Status::Done,
    opening: STEP,
    rows: AT_LIMITS,
}];

/// Messages on a relay chain that has an account, and what is no line.
pub(crate) const REFUSED_LINES: &[Table] = &[
    Table {
        network: ONE_ACCOUNT,
        before: EXECUTE,
        status: Status::Done,
        opening: "coherent\n  supply fungible /GlobalConsensus(Polkadot) home 1000000 flight 0 burned 0\n#1 exec relay\n",
        rows: HELD,
    },
    Table {
        network: "{}",
        before: "",
        status: Status::LineRefused,
        opening: "coherent\n",
        rows: NO_LINES,
    },
];
