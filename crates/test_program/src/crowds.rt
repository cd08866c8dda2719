//! Networks at the limits of their lists: chains, assets, channels, and messages that wait.

use crate::parts::{Grown, ONCE, Part, Piece};
use xcm_cli::Status;

/// A relay chain, without the end of the list.
const RELAY: Part = Part::Text("{\"chains\":[{\"assets\":[{\"id\":\"0\",\"native\":[]}]}");

/// A parachain, numbered from 1, with an asset of its own.
const CHAIN: &[Piece] = &[
    Piece::Text(",\n{\"para\":"),
    Piece::Count(1, 1),
    Piece::Text(",\"assets\":[{\"id\":\"0\",\"native\":[]}]}"),
];

/// A relay chain's asset, without the end of the list.
const ASSETS: Part = Part::Text("{\"chains\":[{\"assets\":[{\"id\":\"0\",\"native\":[]}");

/// An asset more.
const ASSET: &[Piece] = &[
    Piece::Text(",\n{\"id\":\"0/GeneralIndex("),
    Piece::Count(1, 0),
    Piece::Text(")\",\"native\":[]}"),
];

/// What is written of the relay chain's asset.
const OPENED: Part = Part::Text(
    "coherent\n  supply fungible /GlobalConsensus(Polkadot) home 0 flight 0 burned 0\n",
);

/// What is written where a list of the network is too long.
const REFUSED: &[Part] = &[Part::Text("network refused: LimitPassed at top 0\n")];

/// A relay chain, and parachains, numbered from 1.
const CHAINS: Part = Part::Text("{\"chains\":[{}");

const PARACHAIN: &[Piece] = &[
    Piece::Text(",{\"para\":"),
    Piece::Count(1, 1),
    Piece::Text("}"),
];

const CHANNELS: Part = Part::Text("],\n\"channels\":[");

/// A channel from one of the parachains 1 to 16, and then 17, to one of 17 to 32.
const CHANNEL: &[Piece] = &[
    Piece::Comma,
    Piece::Text("\n{\"from\":"),
    Piece::Share {
        each: 16,
        of: 32,
        from: 1,
    },
    Piece::Text(",\"to\":"),
    Piece::Share {
        each: 1,
        of: 16,
        from: 17,
    },
    Piece::Text("}"),
];

/// Of the messages of all channels, 32 a channel: where it is sent from, where to, and its number.
const FROM: Piece = Piece::Share {
    each: 512,
    of: 16,
    from: 1,
};

const TO: Piece = Piece::Share {
    each: 32,
    of: 16,
    from: 17,
};

const NUMBER: Piece = Piece::Share {
    each: 1,
    of: 32,
    from: 1,
};

/// Lists at their limits and past them.
pub(crate) const CROWDS: &[Grown] = &[
    Grown {
        name: "64 chains",
        input: &[RELAY, Part::Each(63, CHAIN), Part::Text("]}")],
        status: Status::Done,
        report: &[
            OPENED,
            Part::Each(
                63,
                &[
                    Piece::Text("  supply fungible /GlobalConsensus(Polkadot)/Parachain("),
                    Piece::Count(1, 1),
                    Piece::Text(") home 0 flight 0 burned 0\n"),
                ],
            ),
        ],
        pieces: ONCE,
    },
    Grown {
        name: "65 chains",
        input: &[RELAY, Part::Each(64, CHAIN), Part::Text("]}")],
        status: Status::NetworkRefused,
        report: REFUSED,
        pieces: ONCE,
    },
    Grown {
        name: "128 assets",
        input: &[ASSETS, Part::Each(127, ASSET), Part::Text("]}]}")],
        status: Status::Done,
        report: &[
            OPENED,
            Part::Each(
                127,
                &[
                    Piece::Text("  supply fungible /GlobalConsensus(Polkadot)/GeneralIndex("),
                    Piece::Count(1, 0),
                    Piece::Text(") home 0 flight 0 burned 0\n"),
                ],
            ),
        ],
        pieces: ONCE,
    },
    Grown {
        name: "129 assets",
        input: &[ASSETS, Part::Each(128, ASSET), Part::Text("]}]}")],
        status: Status::NetworkRefused,
        report: &[Part::Text("network refused: LimitPassed at chains 0 fields 0\n")],
        pieces: ONCE,
    },
    Grown {
        name: "257 channels",
        input: &[
            CHAINS,
            Part::Each(32, PARACHAIN),
            CHANNELS,
            Part::Each(257, CHANNEL),
            Part::Text("]}"),
        ],
        status: Status::NetworkRefused,
        report: REFUSED,
        pieces: ONCE,
    },
];

/// As many channels as there may be, full of messages, are drained.
pub(crate) const DRAINED: &[Grown] = &[Grown {
    name: "256 channels that are full",
    input: &[
        CHAINS,
        Part::Each(32, PARACHAIN),
        CHANNELS,
        Part::Each(256, CHANNEL),
        Part::Text("]}\n---\n"),
        Part::Each(
            8192,
            &[
                Piece::Text("claim "),
                FROM,
                Piece::Text(" "),
                TO,
                Piece::Text(" 0x0408180000000a\n"),
            ],
        ),
        Part::Text("claim 1 17 0x0408180000000a\ndrain\nqueues\n"),
    ],
    status: Status::Done,
    report: &[
        Part::Text("coherent\n"),
        Part::Each(
            8192,
            &[
                Piece::Text("#"),
                Piece::Count(1, 1),
                Piece::Text(" claim "),
                FROM,
                Piece::Text(" "),
                TO,
                Piece::Text("\n  = sent "),
                NUMBER,
                Piece::Text("\n"),
            ],
        ),
        Part::Text("#8193 claim 1 17\n  = not sent: Transport\n#8194 drain\n"),
        Part::Each(
            8192,
            &[
                Piece::Text("  message "),
                FROM,
                Piece::Text(" "),
                TO,
                Piece::Text(" "),
                NUMBER,
                Piece::Text("\n  = incomplete 2000 200 Barrier\n"),
            ],
        ),
        Part::Text("  drained 8192\n#8195 queues\n"),
    ],
    pieces: ONCE,
}];
