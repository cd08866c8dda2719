//! Documents that several tables speak of.

/// A relay chain with an asset, all of which an account has, and two parachains that count on it; channels both ways. Weight costs 1 for a
/// thousand units of time.
pub(crate) const RESERVE: &str = r#"{"chains":[
{"assets":[{"id":"0","native":[]}],
 "rates":[{"asset":"0","per_second":"1000000000","per_mb":"0"}],
 "accounts":[{"who":"A1","asset":"0","amount":"1000000"}]},
{"para":2000,"assets":[{"id":"1","reserve":"relay"}],
 "rates":[{"asset":"1","per_second":"1000000000","per_mb":"0"}]},
{"para":2001,"assets":[{"id":"1","reserve":"relay"}],
 "rates":[{"asset":"1","per_second":"1000000000","per_mb":"0"}]}],
"channels":[{"from":"relay","to":2000},{"from":2000,"to":"relay"},
{"from":"relay","to":2001},{"from":2001,"to":"relay"}]}"#;

/// A network that is coherent.
pub(crate) const COHERENT: &str = "coherent\n";
