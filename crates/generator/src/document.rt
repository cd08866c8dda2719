//! The text of the document.
ghost use Rattle.std.specs.Prelude.{◌≡◌};
ghost use Rattle.generator.specs.Network.{document};

/// The text of the document.
const NETWORK: &str = r#"{"chains":[
{"assets":[{"id":"0","native":[]}],
 "rates":[{"asset":"0","per_second":"1000000000","per_mb":"0"}],
 "accounts":[{"who":"0x0101010101010101010101010101010101010101010101010101010101010101","asset":"0","amount":"1000000"}]},
{"para":2000,"assets":[{"id":"1","reserve":"relay"}],
 "rates":[{"asset":"1","per_second":"1000000000","per_mb":"0"}]},
{"para":2001,"assets":[{"id":"1","reserve":"relay"}],
 "rates":[{"asset":"1","per_second":"1000000000","per_mb":"0"}]}],
"channels":[{"from":"relay","to":2000},{"from":2000,"to":"relay"},
{"from":"relay","to":2001},{"from":2001,"to":"relay"}]}
"#;

/// The document: a relay chain with a native asset, two parachains with a derivative of it, and channels down and up.
pub(crate) fn document_bytes() -> &'static [u8]
    ensures { result.now ≡ document }
{
    NETWORK.as_bytes()
}
