//! What entries say of one another, and sums.
use crate::reading::{all_are, said};
use std::test::Fail;

#[test]
fn entries_beside_one_another(rt: HostRuntime) -> Result<(), Fail> {
    all_are(
        &rt,
        rt.alloc(),
        &[
            (r#"{"chains":[{},{}]}"#, "Repeated at chains 1 fields 0"),
            (
                r#"{"chains":[{"para":7},{"para":7}]}"#,
                "Repeated at chains 1 fields 0",
            ),
            (
                r#"{"chains":[{"assets":[{"id":"0","native":[]},{"id":"0","kind":"class","native":[]}]}]}"#,
                "Repeated at chains 0 assets 1",
            ),
            (
                r#"{"chains":[{"assets":[{"id":"0","native":[7]}]}]}"#,
                "BadValue at chains 0 assets 0",
            ),
            (
                r#"{"chains":[{"assets":[{"id":"0","native":["relay"]}]}]}"#,
                "BadValue at chains 0 assets 0",
            ),
            (
                r#"{"chains":[{"assets":[{"id":"2","native":[]}]}]}"#,
                "BadValue at chains 0 assets 0",
            ),
            (
                r#"{"chains":[{"assets":[{"id":"0/OnlyChild","native":[]}]}]}"#,
                "BadValue at chains 0 assets 0",
            ),
            (
                r#"{"chains":[{"assets":[{"id":"0/0x07/0x07/0x07/0x07/0x07/0x07/0x07","native":[]}]}]}"#,
                "read",
            ),
            (
                r#"{"chains":[{"assets":[{"id":"0/0x07/0x07/0x07/0x07/0x07/0x07/0x07/0x07","native":[]}]}]}"#,
                "LimitPassed at chains 0 assets 0",
            ),
            (
                r#"{"chains":[{"rates":[{"asset":"0","per_second":"1","per_mb":"1"}]}]}"#,
                "BadValue at chains 0 rates 0",
            ),
            (
                r#"{"chains":[{"assets":[{"id":"0","native":[]}],"rates":[{"asset":"0","per_second":"1","per_mb":"1"},{"asset":"0","per_second":"1","per_mb":"1"}]}]}"#,
                "Repeated at chains 0 rates 1",
            ),
            (
                r#"{"chains":[{"pallets":[{"index":1,"name":"a","module_name":"b","major":1,"minor":2,"patch":3},{"index":1,"name":"a","module_name":"b","major":1,"minor":2,"patch":3}]}]}"#,
                "Repeated at chains 0 pallets 1",
            ),
            (
                r#"{"chains":[{"queries":[{"id":1,"from":7},{"id":1,"from":7}]},{"para":7}]}"#,
                "Repeated at chains 0 queries 1",
            ),
            (
                r#"{"chains":[{"para":7}],"channels":[{"from":7,"to":7}]}"#,
                "BadValue at channels 0",
            ),
            (
                r#"{"chains":[{"para":7}],"channels":[{"from":7,"to":8}]}"#,
                "BadValue at channels 0",
            ),
            (
                r#"{"chains":[{"para":7}],"channels":[{"from":7,"to":"relay"},{"from":7,"to":"relay"}]}"#,
                "Repeated at channels 1",
            ),
        ],
    )
}

#[test]
fn sums_stay_below_the_limit(rt: HostRuntime) -> Result<(), Fail> {
    let alloc = rt.alloc();
    let front =
        r#"{"chains":[{"assets":[{"id":"0","native":[]}],"accounts":[{"who":"0x0101010101010101010101010101010101010101010101010101010101010101","asset":"0","amount":"170141183460469231731687303715884105727"}"#;
    let more =
        r#",{"who":"0x0202020202020202020202020202020202020202020202020202020202020202","asset":"0","amount":"1"}"#;
    let again =
        r#",{"who":"0x0101010101010101010101010101010101010101010101010101010101010101","asset":"0","amount":"1"}"#;
    let end = "]}]}";
    for (middle, expected) in [
        ("", "read"),
        (more, "LimitPassed at chains 0 accounts 1"),
        (again, "Repeated at chains 0 accounts 1"),
    ] {
        let document = format!(in alloc; "{front}{middle}{end}")?;
        assert_eq!(rt; said(alloc, document.as_bytes())?.as_str(), expected);
    }
    Ok(())
}

#[test]
fn there_are_at_most_64_chains(rt: HostRuntime) -> Result<(), Fail> {
    let alloc = rt.alloc();
    for (paras, relay, expected) in [
        (63u32, "", "read"),
        (63, ",{}", "read"),
        (64, "", "LimitPassed at top 0"),
        (64, ",{}", "LimitPassed at top 0"),
    ] {
        let mut document = String::from_str(alloc, r#"{"chains":[{"para":0}"#)?;
        for para in 1..paras {
            let entry = format!(in alloc; ",{{\"para\":{para}}}")?;
            document.push_str(entry.as_str())?;
        }
        document.push_str(relay)?;
        document.push_str("]}")?;
        assert_eq!(rt; said(alloc, document.as_bytes())?.as_str(), expected);
    }
    Ok(())
}
