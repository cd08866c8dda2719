//! The pools of chains.
use crate::reading::all_are;
use std::test::Fail;

#[test]
fn pools_and_their_fields(rt: HostRuntime) -> Result<(), Fail> {
    all_are(
        &rt,
        rt.alloc(),
        &[
            (r#"{"format":2,"chains":[{"pools":[]}]}"#, "read"),
            (
                r#"{"chains":[{"pools":[]}]}"#,
                "UnknownField at chains 0 fields 0",
            ),
            (
                r#"{"format":2,"chains":[{"pools":{}}]}"#,
                "WrongKind at chains 0 fields 0",
            ),
            (
                r#"{"format":2,"chains":[{"locks":1,"pools":{}}]}"#,
                "WrongKind at chains 0 fields 0",
            ),
            (
                r#"{"format":2,"chains":[{"pools":[0,0,0,0,0,0,0,0,0,0,0,0,0,0,0,0,0]}]}"#,
                "LimitPassed at chains 0 fields 0",
            ),
            (
                r#"{"format":2,"chains":[{"pools":[7]}]}"#,
                "WrongKind at chains 0 pools 0",
            ),
            (
                r#"{"format":2,"chains":[{"pools":[{"first":"0","second":"0","fee":3,"third":"0"}]}]}"#,
                "UnknownField at chains 0 pools 0",
            ),
            (
                r#"{"format":2,"chains":[{"pools":[{"second":"0","fee":3}]}]}"#,
                "MissingField at chains 0 pools 0",
            ),
            (
                r#"{"format":2,"chains":[{"pools":[{"first":"0","fee":3}]}]}"#,
                "MissingField at chains 0 pools 0",
            ),
            (
                r#"{"format":2,"chains":[{"pools":[{"first":"0","second":"0"}]}]}"#,
                "MissingField at chains 0 pools 0",
            ),
            (
                r#"{"format":2,"chains":[{"pools":[{"first":0,"second":"0","fee":3}]}]}"#,
                "WrongKind at chains 0 pools 0",
            ),
            (
                r#"{"format":2,"chains":[{"pools":[{"first":"x","second":"0","fee":3}]}]}"#,
                "BadValue at chains 0 pools 0",
            ),
            (
                r#"{"format":2,"chains":[{"pools":[{"first":"0","second":["0"],"fee":3}]}]}"#,
                "WrongKind at chains 0 pools 0",
            ),
            (
                r#"{"format":2,"chains":[{"pools":[{"first":"0","second":"0","fee":"3"}]}]}"#,
                "WrongKind at chains 0 pools 0",
            ),
            (
                r#"{"format":2,"chains":[{"pools":[{"first":"0","second":"0","fee":-1}]}]}"#,
                "WrongKind at chains 0 pools 0",
            ),
            (
                r#"{"format":2,"chains":[{"pools":[{"first":"0","second":"0","fee":1000}]}]}"#,
                "BadValue at chains 0 pools 0",
            ),
        ],
    )
}

#[test]
fn pools_beside_assets_and_one_another(rt: HostRuntime) -> Result<(), Fail> {
    all_are(
        &rt,
        rt.alloc(),
        &[
            (
                r#"{"format":2,"chains":[{"assets":[{"id":"0","native":[]},{"id":"0/GeneralIndex(1)","native":[]},{"id":"0/GeneralIndex(2)","kind":"class","native":[]}],"pools":[{"first":"0","second":"0/GeneralIndex(1)","fee":0}]}]}"#,
                "read",
            ),
            (
                r#"{"format":2,"chains":[{"assets":[{"id":"0","native":[]},{"id":"0/GeneralIndex(1)","native":[]},{"id":"0/GeneralIndex(2)","kind":"class","native":[]}],"pools":[{"first":"0","second":"0/GeneralIndex(1)","fee":999}]}]}"#,
                "read",
            ),
            (
                r#"{"format":2,"chains":[{"assets":[{"id":"0","native":[]},{"id":"0/GeneralIndex(1)","native":[]},{"id":"0/GeneralIndex(2)","kind":"class","native":[]}],"pools":[{"first":"0","second":"0","fee":3}]}]}"#,
                "BadValue at chains 0 pools 0",
            ),
            (
                r#"{"format":2,"chains":[{"assets":[{"id":"0","native":[]},{"id":"0/GeneralIndex(1)","native":[]},{"id":"0/GeneralIndex(2)","kind":"class","native":[]}],"pools":[{"first":"0","second":"0/GeneralIndex(2)","fee":3}]}]}"#,
                "BadValue at chains 0 pools 0",
            ),
            (
                r#"{"format":2,"chains":[{"assets":[{"id":"0","native":[]},{"id":"0/GeneralIndex(1)","native":[]},{"id":"0/GeneralIndex(2)","kind":"class","native":[]}],"pools":[{"first":"0/GeneralIndex(2)","second":"0","fee":3}]}]}"#,
                "BadValue at chains 0 pools 0",
            ),
            (
                r#"{"format":2,"chains":[{"assets":[{"id":"0","native":[]},{"id":"0/GeneralIndex(1)","native":[]},{"id":"0/GeneralIndex(2)","kind":"class","native":[]}],"pools":[{"first":"0/GeneralIndex(3)","second":"0","fee":3}]}]}"#,
                "BadValue at chains 0 pools 0",
            ),
            (
                r#"{"format":2,"chains":[{"assets":[{"id":"0","native":[]},{"id":"0/GeneralIndex(1)","native":[]},{"id":"0/GeneralIndex(2)","kind":"class","native":[]}],"pools":[{"first":"0","second":"0/GeneralIndex(1)","fee":3},{"first":"0","second":"0/GeneralIndex(1)","fee":3}]}]}"#,
                "Repeated at chains 0 pools 1",
            ),
            (
                r#"{"format":2,"chains":[{"assets":[{"id":"0","native":[]},{"id":"0/GeneralIndex(1)","native":[]},{"id":"0/GeneralIndex(2)","kind":"class","native":[]}],"pools":[{"first":"0","second":"0/GeneralIndex(1)","fee":3},{"first":"0/GeneralIndex(1)","second":"0","fee":4}]}]}"#,
                "Repeated at chains 0 pools 1",
            ),
            (
                r#"{"format":2,"chains":[{"assets":[{"id":"0","native":[]},{"id":"0/GeneralIndex(1)","native":[]},{"id":"0/GeneralIndex(2)","kind":"class","native":[]}],"pools":[{"first":"0","second":"0","fee":3},{"first":"0","second":"0","fee":3}]}]}"#,
                "BadValue at chains 0 pools 0",
            ),
        ],
    )
}
