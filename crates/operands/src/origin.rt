//! With which right calls are dispatched.

/// With which right a call is dispatched (XCM format: `OriginKind`).
#[derive(Clone, Copy, Debug, PartialEq, Eq)]
pub enum OriginKind {
    /// The origin that is native to the location, as another chain's own.
    Native,
    /// The account of the location.
    SovereignAccount,
    /// The chain's root, where the location may be that.
    Superuser,
    /// The location itself, as an origin of XCM.
    Xcm,
}
