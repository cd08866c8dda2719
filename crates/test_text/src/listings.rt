//! Networks whose lists of assets agree or don't.
use crate::coherent_documents::all_are;
use std::test::Fail;

#[test]
fn partners_and_reserves_list_the_asset(rt: HostRuntime) -> Result<(), Fail> {
    all_are(
        &rt,
        rt.alloc(),
        &[
            ("{}", "coherent"),
            (
                r#"{"chains":[{"assets":[{"id":"0","native":[]}]},{"para":2000,"assets":[{"id":"1","reserve":"relay"}]},{"para":2001,"assets":[{"id":"1","reserve":"relay"}]}]}"#,
                "coherent",
            ),
            (
                r#"{"chains":[{"assets":[{"id":"0","native":[]}]},{"para":2000,"assets":[{"id":"1","reserve":"relay"}]},{"para":2001,"assets":[{"id":"1","reserve":2000}]}]}"#,
                "ReserveUnlisted 2001 2000",
            ),
            (
                r#"{"chains":[{"assets":[{"id":"0","native":[1000]}]},{"para":1000,"assets":[{"id":"1","native":["relay"]}]}]}"#,
                "coherent",
            ),
            (
                r#"{"chains":[{"assets":[{"id":"0","native":[1000]}]},{"para":1000,"assets":[{"id":"1","native":[]}]}]}"#,
                "PartnerUnlisted relay 1000",
            ),
            (
                r#"{"chains":[{"assets":[{"id":"0","native":[1000]}]},{"para":1000,"assets":[{"id":"1","kind":"class","native":["relay"]}]}]}"#,
                "PartnerUnlisted relay 1000",
            ),
            (
                r#"{"chains":[{"assets":[{"id":"0","native":[1000]}]},{"para":1000,"assets":[{"id":"1","reserve":"relay"}]}]}"#,
                "PartnerUnlisted relay 1000",
            ),
        ],
    )
}

#[test]
fn a_path_has_one_row_and_one_name(rt: HostRuntime) -> Result<(), Fail> {
    all_are(
        &rt,
        rt.alloc(),
        &[
            (
                r#"{"chains":[{"para":1000,"assets":[{"id":"0","native":[]},{"id":"1/Parachain(1000)","native":[]}]}]}"#,
                "PathTwice 1000 1000",
            ),
            (
                r#"{"chains":[{"para":1000,"assets":[{"id":"0/PalletInstance(3)","native":[]},{"id":"1/Parachain(1000)/PalletInstance(3)","kind":"class","native":[]}]}]}"#,
                "PathTwice 1000 1000",
            ),
            (
                r#"{"chains":[{"para":1000,"assets":[{"id":"1/Parachain(1000)/PalletInstance(3)","native":[]}]}]}"#,
                "IdNotNormal 1000 1000",
            ),
            (
                r#"{"chains":[{"assets":[{"id":"0","native":[7]}]},{"para":7,"assets":[{"id":"1/Parachain(7)/PalletInstance(3)","native":[]}]}]}"#,
                "IdNotNormal 7 7",
            ),
            (
                r#"{"chains":[{"para":7,"assets":[{"id":"1/Parachain(7)/PalletInstance(3)","native":[]}]},{"para":8,"assets":[{"id":"0","native":[]},{"id":"1/Parachain(8)","native":[]}]}]}"#,
                "PathTwice 8 8",
            ),
        ],
    )
}
