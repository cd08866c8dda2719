//! The versions of the XCM format.

/// A version of the XCM format. The two spell everything alike but asset ids: version 4 has no ids that are bytes, and so no index
/// in front of an id.
#[derive(Clone, Copy, Debug, PartialEq, Eq)]
pub enum Version {
    /// Version 3.
    V3,
    /// Version 4.
    V4,
}
