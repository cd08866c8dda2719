//! Networks that open, and documents that are refused.

use crate::documents::THREE_CHAINS;
use crate::running::Row;
use xcm_cli::Status;

/// Networks that open.
pub(crate) const OPENINGS: &[Row] = &[
    Row {
        name: "a network of three chains opens",
        network: THREE_CHAINS,
        steps: "",
        status: Status::Done,
        report: "coherent
  supply fungible /GlobalConsensus(Polkadot) home 1000000 flight 0 burned 0
  backing 2000 fungible /GlobalConsensus(Polkadot) held 0 owed 0
  backing 2001 fungible /GlobalConsensus(Polkadot) held 0 owed 0
",
    },
    Row {
        name: "a reserve that isn't home",
        network: r#"{"chains":[
{"assets":[{"id":"0","native":[]}],
 "rates":[{"asset":"0","per_second":"1000000000","per_mb":"0"}],
 "accounts":[{"who":"0x0101010101010101010101010101010101010101010101010101010101010101","asset":"0","amount":"1000000"}]},
{"para":2000,"assets":[{"id":"1","reserve":"relay"}],
 "rates":[{"asset":"1","per_second":"1000000000","per_mb":"0"}]},
{"para":2001,"assets":[{"id":"1","reserve":2000}],
 "rates":[{"asset":"1","per_second":"1000000000","per_mb":"0"}]}],
"channels":[{"from":"relay","to":2000},{"from":2000,"to":"relay"},
{"from":"relay","to":2001},{"from":2001,"to":"relay"}]}"#,
        steps: "",
        status: Status::Done,
        report: "not coherent: ReserveUnlisted 2001 2000
  supply fungible /GlobalConsensus(Polkadot) home 1000000 flight 0 burned 0
  backing 2000 fungible /GlobalConsensus(Polkadot) held 0 owed 0
  backing 2001 fungible /GlobalConsensus(Polkadot) held 0 owed 0
",
    },
    Row {
        name: "a derivative without cover",
        network: r#"{"chains":[
{"assets":[{"id":"0","native":[]}],
 "rates":[{"asset":"0","per_second":"1000000000","per_mb":"0"}],
 "accounts":[{"who":"0x0101010101010101010101010101010101010101010101010101010101010101","asset":"0","amount":"1000000"}]},
{"para":2000,"accounts":[{"who":"0x0202020202020202020202020202020202020202020202020202020202020202","asset":"1","amount":"1"}],"assets":[{"id":"1","reserve":"relay"}],
 "rates":[{"asset":"1","per_second":"1000000000","per_mb":"0"}]},
{"para":2001,"assets":[{"id":"1","reserve":"relay"}],
 "rates":[{"asset":"1","per_second":"1000000000","per_mb":"0"}]}],
"channels":[{"from":"relay","to":2000},{"from":2000,"to":"relay"},
{"from":"relay","to":2001},{"from":2001,"to":"relay"}]}"#,
        steps: "",
        status: Status::Done,
        report: "not coherent: NotBacked 2000 relay
  supply fungible /GlobalConsensus(Polkadot) home 1000000 flight 0 burned 0
  backing 2000 fungible /GlobalConsensus(Polkadot) held 0 owed 1
  backing 2001 fungible /GlobalConsensus(Polkadot) held 0 owed 0
",
    },
];

/// Documents that are refused.
pub(crate) const REFUSED: &[Row] = &[
    Row {
        name: "a holding that is too small",
        network: r#"{"chains":[{"max_holding":19}]}"#,
        steps: "",
        status: Status::NetworkRefused,
        report: "network refused: BadValue at chains 0 fields 0
",
    },
    Row {
        name: "a barrier of another name",
        network: r#"{"chains":[{"barriers":["credits"]}]}"#,
        steps: "",
        status: Status::NetworkRefused,
        report: "network refused: BadValue at chains 0 barriers 0
",
    },
    Row {
        name: "a field of another name",
        network: r#"{"chain":[]}"#,
        steps: "",
        status: Status::NetworkRefused,
        report: "network refused: UnknownField at top 0
",
    },
    Row {
        name: "a format that there isn't",
        network: r#"{"format":3}"#,
        steps: "",
        status: Status::NetworkRefused,
        report: "network refused: BadValue at top 0
",
    },
    Row {
        name: "a delivery fee in the first format",
        network: r#"{"chains":[
{"assets":[{"id":"0","native":[]}],
 "rates":[{"asset":"0","per_second":"1000000000","per_mb":"0"}],
 "accounts":[{"who":"0x0101010101010101010101010101010101010101010101010101010101010101","asset":"0","amount":"1000000"}]},
{"para":2000,"assets":[{"id":"1","reserve":"relay"}],
 "rates":[{"asset":"1","per_second":"1000000000","per_mb":"0"}]},
{"para":2001,"assets":[{"id":"1","reserve":"relay"}],
 "rates":[{"asset":"1","per_second":"1000000000","per_mb":"0"}]}],
"channels":[{"from":"relay","to":2000,"fee_asset":"0","fee":"10"},{"from":2000,"to":"relay"},
{"from":"relay","to":2001},{"from":2001,"to":"relay"}]}"#,
        steps: "",
        status: Status::NetworkRefused,
        report: "network refused: UnknownField at channels 0
",
    },
];
