//! The entries of lists, each with its faults.
use crate::reading::all_are;
use std::test::Fail;

#[test]
fn barriers(rt: HostRuntime) -> Result<(), Fail> {
    all_are(
        &rt,
        rt.alloc(),
        &[
            (
                r#"{"chains":[{"barriers":["credit","paid","responses",{"unpaid":["1"]},{"explicit":[]}]}]}"#,
                "read",
            ),
            (
                r#"{"chains":[{"barriers":["free"]}]}"#,
                "BadValue at chains 0 barriers 0",
            ),
            (
                r#"{"chains":[{"barriers":["credit",7]}]}"#,
                "WrongKind at chains 0 barriers 1",
            ),
            (
                r#"{"chains":[{"barriers":[{}]}]}"#,
                "MissingField at chains 0 barriers 0",
            ),
            (
                r#"{"chains":[{"barriers":[{"free":[]}]}]}"#,
                "UnknownField at chains 0 barriers 0",
            ),
            (
                r#"{"chains":[{"barriers":[{"unpaid":["1","01"]}]}]}"#,
                "BadValue at chains 0 barriers 0",
            ),
            (
                r#"{"chains":[{"barriers":[{"unpaid":["01",7]}]}]}"#,
                "WrongKind at chains 0 barriers 0",
            ),
            (
                r#"{"chains":[{"barriers":[{"unpaid":[],"explicit":[]}]}]}"#,
                "BadValue at chains 0 barriers 0",
            ),
            (
                r#"{"chains":[{"barriers":[{"unpaid":["x"],"explicit":7}]}]}"#,
                "WrongKind at chains 0 barriers 0",
            ),
        ],
    )
}

#[test]
fn rates(rt: HostRuntime) -> Result<(), Fail> {
    all_are(
        &rt,
        rt.alloc(),
        &[
            (
                r#"{"chains":[{"rates":[{}]}]}"#,
                "MissingField at chains 0 rates 0",
            ),
            (
                r#"{"chains":[{"rates":[7]}]}"#,
                "WrongKind at chains 0 rates 0",
            ),
            (
                r#"{"chains":[{"rates":[{"asset":"0","per_second":"1"}]}]}"#,
                "MissingField at chains 0 rates 0",
            ),
            (
                r#"{"chains":[{"rates":[{"asset":"0","per_second":1,"per_mb":"0"}]}]}"#,
                "WrongKind at chains 0 rates 0",
            ),
            (
                r#"{"chains":[{"rates":[{"asset":"0","per_second":"01","per_mb":"0"}]}]}"#,
                "BadValue at chains 0 rates 0",
            ),
            (
                r#"{"chains":[{"rates":[{"asset":"0","per_second":"1152921504606846976","per_mb":"0"}]}]}"#,
                "LimitPassed at chains 0 rates 0",
            ),
            (
                r#"{"chains":[{"assets":[{"id":"0","native":[]}],"rates":[{"asset":"0","per_second":"1152921504606846975","per_mb":"0"}]}]}"#,
                "read",
            ),
        ],
    )
}

#[test]
fn assets(rt: HostRuntime) -> Result<(), Fail> {
    all_are(
        &rt,
        rt.alloc(),
        &[
            (
                r#"{"chains":[{"assets":[{"id":"0"}]}]}"#,
                "MissingField at chains 0 assets 0",
            ),
            (
                r#"{"chains":[{"assets":[{"id":"0/Parachain(01)","native":[]}]}]}"#,
                "BadValue at chains 0 assets 0",
            ),
            (
                r#"{"chains":[{"assets":[{"id":"0","kind":"token","native":[]}]}]}"#,
                "BadValue at chains 0 assets 0",
            ),
            (
                r#"{"chains":[{"assets":[{"id":"0","native":["here"]}]}]}"#,
                "BadValue at chains 0 assets 0",
            ),
            (
                r#"{"chains":[{"assets":[{"id":"0","native":["here",true]}]}]}"#,
                "WrongKind at chains 0 assets 0",
            ),
            (
                r#"{"chains":[{"assets":[{"id":"0","native":[],"reserve":7}]}]}"#,
                "BadValue at chains 0 assets 0",
            ),
            (
                r#"{"chains":[{"assets":[{"id":"0","native":[],"checking":"0"}]}]}"#,
                "read",
            ),
            (
                r#"{"chains":[{"assets":[{"id":"0","kind":"class","native":[],"checking":"0"}]}]}"#,
                "BadValue at chains 0 assets 0",
            ),
            (
                r#"{"chains":[{"assets":[{"id":"0","reserve":7,"checking":"0"}]},{"para":7}]}"#,
                "BadValue at chains 0 assets 0",
            ),
            (
                r#"{"chains":[{"assets":[{"id":"0","native":[],"checking":"170141183460469231731687303715884105728"}]}]}"#,
                "LimitPassed at chains 0 assets 0",
            ),
        ],
    )
}

#[test]
fn accounts(rt: HostRuntime) -> Result<(), Fail> {
    all_are(
        &rt,
        rt.alloc(),
        &[
            (
                r#"{"chains":[{"accounts":[{"who":"0x01"}]}]}"#,
                "BadValue at chains 0 accounts 0",
            ),
            (
                r#"{"chains":[{"accounts":[{"asset":"0","amount":"1"}]}]}"#,
                "MissingField at chains 0 accounts 0",
            ),
            (
                r#"{"chains":[{"accounts":[{"who":"0x0101010101010101010101010101010101010101010101010101010101010101","asset":"0"}]}]}"#,
                "MissingField at chains 0 accounts 0",
            ),
            (
                r#"{"chains":[{"accounts":[{"who":"0x0101010101010101010101010101010101010101010101010101010101010101","asset":"0","amount":"0"}]}]}"#,
                "BadValue at chains 0 accounts 0",
            ),
            (
                r#"{"chains":[{"accounts":[{"who":"0x0101010101010101010101010101010101010101010101010101010101010101","asset":"0","amount":"170141183460469231731687303715884105728"}]}]}"#,
                "LimitPassed at chains 0 accounts 0",
            ),
            (
                r#"{"chains":[{"accounts":[{"who":"0x0101010101010101010101010101010101010101010101010101010101010101","asset":"0","instance":"0x0104ff"}]}]}"#,
                "BadValue at chains 0 accounts 0",
            ),
            (
                r#"{"chains":[{"assets":[{"id":"0","kind":"class","native":[]}],"accounts":[{"who":"0x0101010101010101010101010101010101010101010101010101010101010101","asset":"0","instance":"0x0104"}]}]}"#,
                "read",
            ),
        ],
    )
}

#[test]
fn pallets_and_queries(rt: HostRuntime) -> Result<(), Fail> {
    all_are(
        &rt,
        rt.alloc(),
        &[
            (
                r#"{"chains":[{"pallets":[{"index":1,"name":"a","module_name":"b","major":1,"minor":2}]}]}"#,
                "MissingField at chains 0 pallets 0",
            ),
            (
                r#"{"chains":[{"pallets":[{"index":1,"name":"a","module_name":"b","major":1,"minor":2,"patch":3}]}]}"#,
                "read",
            ),
            (
                r#"{"chains":[{"pallets":[{"index":4294967296,"name":"a","module_name":"b","major":1,"minor":2,"patch":3}]}]}"#,
                "BadValue at chains 0 pallets 0",
            ),
            (
                r#"{"chains":[{"pallets":[{"index":1,"name":"aaaaaaaaaaaaaaaaaaaaaaaaaaaaaaaaaaaaaaaaaaaaaaaaa","module_name":"b","major":1,"minor":2,"patch":3}]}]}"#,
                "BadValue at chains 0 pallets 0",
            ),
            (
                r#"{"chains":[{"queries":[{"id":1}]}]}"#,
                "MissingField at chains 0 queries 0",
            ),
            (
                r#"{"chains":[{"queries":[{"id":1,"from":"relay"}]}]}"#,
                "BadValue at chains 0 queries 0",
            ),
            (
                r#"{"chains":[{"queries":[{"id":1,"from":7}]},{"para":7}]}"#,
                "read",
            ),
        ],
    )
}

#[test]
fn channels(rt: HostRuntime) -> Result<(), Fail> {
    all_are(
        &rt,
        rt.alloc(),
        &[
            (
                r#"{"chains":[{"para":7}],"channels":[{"from":"relay"}]}"#,
                "MissingField at channels 0",
            ),
            (
                r#"{"chains":[{"para":7}],"channels":[{"from":"relay","to":7,"version":5}]}"#,
                "BadValue at channels 0",
            ),
            (
                r#"{"chains":[{"para":7}],"channels":[{"from":"relay","to":7,"capacity":33}]}"#,
                "BadValue at channels 0",
            ),
            (
                r#"{"chains":[{"para":7}],"channels":[{"from":"relay","to":7,"max_size":0}]}"#,
                "BadValue at channels 0",
            ),
            (
                r#"{"chains":[{"para":7}],"channels":[{"from":"relay","to":7,"fee_asset":"0","fee":"10"}]}"#,
                "UnknownField at channels 0",
            ),
            (
                r#"{"format":2,"chains":[{"para":7}],"channels":[{"from":"relay","to":7,"fee_asset":"0"}]}"#,
                "MissingField at channels 0",
            ),
            (
                r#"{"format":2,"chains":[{"para":7}],"channels":[{"from":"relay","to":7,"fee":"10"}]}"#,
                "MissingField at channels 0",
            ),
            (
                r#"{"format":2,"chains":[{"para":7}],"channels":[{"from":"relay","to":7,"fee_asset":"0","fee":"10"}]}"#,
                "BadValue at channels 0",
            ),
            (
                r#"{"format":2,"chains":[{"assets":[{"id":"0","native":[]}]},{"para":7}],"channels":[{"from":"relay","to":7,"fee_asset":"0","fee":"10"}]}"#,
                "read",
            ),
        ],
    )
}
