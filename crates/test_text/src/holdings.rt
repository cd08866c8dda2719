//! Networks whose accounts cover what other chains count on, or don't.
use crate::coherent_documents::all_are;
use std::test::Fail;

#[test]
fn derivatives_are_covered_at_the_reserve(rt: HostRuntime) -> Result<(), Fail> {
    all_are(
        &rt,
        rt.alloc(),
        &[
            (
                r#"{"chains":[{"assets":[{"id":"0","native":[]}],"accounts":[{"who":"0x0101010101010101010101010101010101010101010101010101010101010101","asset":"0","amount":"1000000"}]},{"para":2000,"assets":[{"id":"1","reserve":"relay"}]},{"para":2001,"assets":[{"id":"1","reserve":"relay"}]}]}"#,
                "coherent",
            ),
            (
                r#"{"chains":[{"assets":[{"id":"0","native":[]}],"accounts":[{"who":"0x0101010101010101010101010101010101010101010101010101010101010101","asset":"0","amount":"1000000"}]},{"para":2000,"assets":[{"id":"1","reserve":"relay"}],"accounts":[{"who":"0x0202020202020202020202020202020202020202020202020202020202020202","asset":"1","amount":"1"}]},{"para":2001,"assets":[{"id":"1","reserve":"relay"}]}]}"#,
                "NotBacked 2000 relay",
            ),
            (
                r#"{"chains":[{"assets":[{"id":"0","native":[]}],"accounts":[{"who":"0x0101010101010101010101010101010101010101010101010101010101010101","asset":"0","amount":"10"},{"who":"0x70617261d0070000000000000000000000000000000000000000000000000000","asset":"0","amount":"5"}]},{"para":2000,"assets":[{"id":"1","reserve":"relay"}],"accounts":[{"who":"0x0202020202020202020202020202020202020202020202020202020202020202","asset":"1","amount":"3"},{"who":"0x0101010101010101010101010101010101010101010101010101010101010101","asset":"1","amount":"2"}]},{"para":2001,"assets":[{"id":"1","reserve":"relay"}]}]}"#,
                "coherent",
            ),
            (
                r#"{"chains":[{"assets":[{"id":"0","native":[]}],"accounts":[{"who":"0x0101010101010101010101010101010101010101010101010101010101010101","asset":"0","amount":"10"},{"who":"0x70617261d0070000000000000000000000000000000000000000000000000000","asset":"0","amount":"5"}]},{"para":2000,"assets":[{"id":"1","reserve":"relay"}],"accounts":[{"who":"0x0202020202020202020202020202020202020202020202020202020202020202","asset":"1","amount":"3"},{"who":"0x0101010101010101010101010101010101010101010101010101010101010101","asset":"1","amount":"3"}]},{"para":2001,"assets":[{"id":"1","reserve":"relay"}]}]}"#,
                "NotBacked 2000 relay",
            ),
            (
                r#"{"chains":[{"assets":[{"id":"0","native":[]}],"accounts":[{"who":"0x0101010101010101010101010101010101010101010101010101010101010101","asset":"0","amount":"10"},{"who":"0x70617261d0070000000000000000000000000000000000000000000000000000","asset":"0","amount":"5"}]},{"para":2000,"assets":[{"id":"1","reserve":"relay"}]},{"para":2001,"assets":[{"id":"1","reserve":"relay"}],"accounts":[{"who":"0x0101010101010101010101010101010101010101010101010101010101010101","asset":"1","amount":"1"}]}]}"#,
                "NotBacked 2001 relay",
            ),
            (
                r#"{"chains":[{"assets":[{"id":"0","native":[]}],"accounts":[{"who":"0x70617261d1070000000000000000000000000000000000000000000000000000","asset":"0","amount":"5"}]},{"para":2000,"assets":[{"id":"1","reserve":"relay"}]},{"para":2001,"assets":[{"id":"1","reserve":"relay"}],"accounts":[{"who":"0x0101010101010101010101010101010101010101010101010101010101010101","asset":"1","amount":"5"}]}]}"#,
                "coherent",
            ),
            (
                r#"{"chains":[{"para":1000,"assets":[{"id":"0","native":[]}],"accounts":[{"who":"0x7369626cd0070000000000000000000000000000000000000000000000000000","asset":"0","amount":"4"}]},{"para":2000,"assets":[{"id":"1/Parachain(1000)","reserve":1000}],"accounts":[{"who":"0x0101010101010101010101010101010101010101010101010101010101010101","asset":"1/Parachain(1000)","amount":"4"}]}]}"#,
                "coherent",
            ),
            (
                r#"{"chains":[{"assets":[{"id":"0/Parachain(1000)","reserve":1000}],"accounts":[{"who":"0x0101010101010101010101010101010101010101010101010101010101010101","asset":"0/Parachain(1000)","amount":"4"}]},{"para":1000,"assets":[{"id":"0","native":[]}],"accounts":[{"who":"0x506172656e740000000000000000000000000000000000000000000000000000","asset":"0","amount":"3"}]}]}"#,
                "NotBacked relay 1000",
            ),
            (
                r#"{"chains":[{"assets":[{"id":"0/PalletInstance(9)","kind":"class","native":[]}],"accounts":[{"who":"0x70617261d0070000000000000000000000000000000000000000000000000000","asset":"0/PalletInstance(9)","instance":"0x0110"}]},{"para":2000,"assets":[{"id":"1/PalletInstance(9)","kind":"class","reserve":"relay"}],"accounts":[{"who":"0x0101010101010101010101010101010101010101010101010101010101010101","asset":"1/PalletInstance(9)","instance":"0x0110"}]}]}"#,
                "coherent",
            ),
            (
                r#"{"chains":[{"assets":[{"id":"0/PalletInstance(9)","kind":"class","native":[]}],"accounts":[{"who":"0x70617261d0070000000000000000000000000000000000000000000000000000","asset":"0/PalletInstance(9)","instance":"0x0114"}]},{"para":2000,"assets":[{"id":"1/PalletInstance(9)","kind":"class","reserve":"relay"}],"accounts":[{"who":"0x0101010101010101010101010101010101010101010101010101010101010101","asset":"1/PalletInstance(9)","instance":"0x0110"}]}]}"#,
                "NotBacked 2000 relay",
            ),
            (
                r#"{"chains":[{"assets":[{"id":"0/PalletInstance(9)","kind":"class","native":[]}],"accounts":[{"who":"0x70617261d0070000000000000000000000000000000000000000000000000000","asset":"0/PalletInstance(9)","instance":"0x0114"},{"who":"0x0101010101010101010101010101010101010101010101010101010101010101","asset":"0/PalletInstance(9)","instance":"0x0110"}]},{"para":2000,"assets":[{"id":"1/PalletInstance(9)","kind":"class","reserve":"relay"}],"accounts":[{"who":"0x0101010101010101010101010101010101010101010101010101010101010101","asset":"1/PalletInstance(9)","instance":"0x0110"}]}]}"#,
                "NotBacked 2000 relay",
            ),
        ],
    )
}

#[test]
fn an_instance_has_an_owner_at_one_home(rt: HostRuntime) -> Result<(), Fail> {
    all_are(
        &rt,
        rt.alloc(),
        &[
            (
                r#"{"chains":[{"assets":[{"id":"0/PalletInstance(9)","kind":"class","native":[1000]}],"accounts":[{"who":"0x0101010101010101010101010101010101010101010101010101010101010101","asset":"0/PalletInstance(9)","instance":"0x0110"}]},{"para":1000,"assets":[{"id":"1/PalletInstance(9)","kind":"class","native":["relay"]}],"accounts":[{"who":"0x0202020202020202020202020202020202020202020202020202020202020202","asset":"1/PalletInstance(9)","instance":"0x0114"}]}]}"#,
                "coherent",
            ),
            (
                r#"{"chains":[{"assets":[{"id":"0/PalletInstance(9)","kind":"class","native":[1000]}],"accounts":[{"who":"0x0101010101010101010101010101010101010101010101010101010101010101","asset":"0/PalletInstance(9)","instance":"0x0114"},{"who":"0x0101010101010101010101010101010101010101010101010101010101010101","asset":"0/PalletInstance(9)","instance":"0x0110"}]},{"para":1000,"assets":[{"id":"1/PalletInstance(9)","kind":"class","native":["relay"]}],"accounts":[{"who":"0x0202020202020202020202020202020202020202020202020202020202020202","asset":"1/PalletInstance(9)","instance":"0x0110"}]}]}"#,
                "InstanceTwice relay 1000",
            ),
        ],
    )
}

#[test]
fn a_checking_account_covers_the_other_homes(rt: HostRuntime) -> Result<(), Fail> {
    all_are(
        &rt,
        rt.alloc(),
        &[
            (
                r#"{"chains":[{"assets":[{"id":"0","native":[1000],"checking":"0"}],"accounts":[{"who":"0x0101010101010101010101010101010101010101010101010101010101010101","asset":"0","amount":"1000"}]},{"para":1000,"assets":[{"id":"1","native":["relay"]}]}]}"#,
                "coherent",
            ),
            (
                r#"{"chains":[{"assets":[{"id":"0","native":[1000],"checking":"0"}]},{"para":1000,"assets":[{"id":"1","native":["relay"]}],"accounts":[{"who":"0x0202020202020202020202020202020202020202020202020202020202020202","asset":"1","amount":"50"}]}]}"#,
                "CheckingShort relay relay",
            ),
            (
                r#"{"chains":[{"assets":[{"id":"0","native":[1000],"checking":"49"}]},{"para":1000,"assets":[{"id":"1","native":["relay"]}],"accounts":[{"who":"0x0202020202020202020202020202020202020202020202020202020202020202","asset":"1","amount":"50"}]}]}"#,
                "CheckingShort relay relay",
            ),
            (
                r#"{"chains":[{"assets":[{"id":"0","native":[1000],"checking":"50"}]},{"para":1000,"assets":[{"id":"1","native":["relay"]}],"accounts":[{"who":"0x0202020202020202020202020202020202020202020202020202020202020202","asset":"1","amount":"30"},{"who":"0x0101010101010101010101010101010101010101010101010101010101010101","asset":"1","amount":"20"}]}]}"#,
                "coherent",
            ),
        ],
    )
}
