//! Network documents that several tables share.

/// A relay chain with an asset at home, of which the first account has 1,000,000; two parachains that hold it in reserve there; channels
/// both ways; and a weight of 1,000 costs 1 at each chain.
pub(crate) const THREE_CHAINS: &str = r#"{"chains":[
{"assets":[{"id":"0","native":[]}],
 "rates":[{"asset":"0","per_second":"1000000000","per_mb":"0"}],
 "accounts":[{"who":"0x0101010101010101010101010101010101010101010101010101010101010101","asset":"0","amount":"1000000"}]},
{"para":2000,"assets":[{"id":"1","reserve":"relay"}],
 "rates":[{"asset":"1","per_second":"1000000000","per_mb":"0"}]},
{"para":2001,"assets":[{"id":"1","reserve":"relay"}],
 "rates":[{"asset":"1","per_second":"1000000000","per_mb":"0"}]}],
"channels":[{"from":"relay","to":2000},{"from":2000,"to":"relay"},
{"from":"relay","to":2001},{"from":2001,"to":"relay"}]}"#;

/// A relay chain with an asset at home, of which the first account has 1,000,000.
pub(crate) const ONE_ACCOUNT: &str =
    r#"{"chains":[{"assets":[{"id":"0","native":[]}],"accounts":[{"who":"0x0101010101010101010101010101010101010101010101010101010101010101","asset":"0","amount":"1000000"}]}]}"#;
