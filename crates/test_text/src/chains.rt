//! The document as a whole, and the fields of its chains.
use crate::reading::all_are;
use std::test::Fail;

#[test]
fn the_fields_at_the_top(rt: HostRuntime) -> Result<(), Fail> {
    all_are(
        &rt,
        rt.alloc(),
        &[
            ("{}", "read"),
            (r#"{"chain":[]}"#, "UnknownField at top 0"),
            (r#"{"network":"Kusama"}"#, "read"),
            (r#"{"network":"kusama"}"#, "BadValue at top 0"),
            (r#"{"network":7}"#, "WrongKind at top 0"),
            (
                r#"{"network":"0x0101010101010101010101010101010101010101010101010101010101010101"}"#,
                "read",
            ),
            (r#"{"network":"0x01"}"#, "BadValue at top 0"),
            (r#"{"chains":{}}"#, "WrongKind at top 0"),
            (r#"{"channels":7}"#, "WrongKind at top 0"),
            (r#"{"format":2}"#, "read"),
            (r#"{"format":3}"#, "BadValue at top 0"),
            (r#"{"format":0}"#, "BadValue at top 0"),
            (r#"{"chains":[7],"channels":7}"#, "WrongKind at top 0"),
        ],
    )
}

#[test]
fn the_fields_of_a_chain(rt: HostRuntime) -> Result<(), Fail> {
    all_are(
        &rt,
        rt.alloc(),
        &[
            (r#"{"chains":[{}]}"#, "read"),
            (r#"{"chains":[7]}"#, "WrongKind at chains 0 fields 0"),
            (
                r#"{"chains":[{},{"parra":1}]}"#,
                "UnknownField at chains 1 fields 0",
            ),
            (r#"{"chains":[{"para":4294967295}]}"#, "read"),
            (
                r#"{"chains":[{"para":4294967296}]}"#,
                "BadValue at chains 0 fields 0",
            ),
            (
                r#"{"chains":[{"para":"relay"}]}"#,
                "WrongKind at chains 0 fields 0",
            ),
            (
                r#"{"chains":[{"max_holding":19}]}"#,
                "BadValue at chains 0 fields 0",
            ),
            (r#"{"chains":[{"max_holding":20}]}"#, "read"),
            (
                r#"{"chains":[{"max_holding":65}]}"#,
                "BadValue at chains 0 fields 0",
            ),
            (
                r#"{"chains":[{"max_instructions":0}]}"#,
                "BadValue at chains 0 fields 0",
            ),
            (
                r#"{"chains":[{"max_instructions":101}]}"#,
                "BadValue at chains 0 fields 0",
            ),
            (r#"{"chains":[{"unit_weight":[1,2]}]}"#, "read"),
            (
                r#"{"chains":[{"unit_weight":[1]}]}"#,
                "BadValue at chains 0 fields 0",
            ),
            (
                r#"{"chains":[{"unit_weight":[1,2,3]}]}"#,
                "BadValue at chains 0 fields 0",
            ),
            (
                r#"{"chains":[{"unit_weight":[1,2,"3"]}]}"#,
                "WrongKind at chains 0 fields 0",
            ),
            (
                r#"{"chains":[{"max_weight":{}}]}"#,
                "WrongKind at chains 0 fields 0",
            ),
            (
                r#"{"chains":[{"fee_account":"0x00"}]}"#,
                "BadValue at chains 0 fields 0",
            ),
            (
                r#"{"chains":[{"fee_account":7}]}"#,
                "WrongKind at chains 0 fields 0",
            ),
            (r#"{"format":2,"chains":[{"calls":true}]}"#, "read"),
            (
                r#"{"format":2,"chains":[{"calls":1}]}"#,
                "WrongKind at chains 0 fields 0",
            ),
            (
                r#"{"chains":[{"calls":true}]}"#,
                "UnknownField at chains 0 fields 0",
            ),
            (r#"{"format":2,"chains":[{"locks":true}]}"#, "read"),
            (
                r#"{"format":2,"chains":[{"calls":true,"locks":false}]}"#,
                "read",
            ),
            (
                r#"{"format":2,"chains":[{"locks":"true"}]}"#,
                "WrongKind at chains 0 fields 0",
            ),
            (
                r#"{"chains":[{"locks":true}]}"#,
                "UnknownField at chains 0 fields 0",
            ),
            (
                r#"{"chains":[{"rates":{},"barriers":[7]}]}"#,
                "WrongKind at chains 0 fields 0",
            ),
        ],
    )
}
