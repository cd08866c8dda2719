//! The limit of a network part, in bytes. Those of an input and of a line are `line_serving`'s.

/// The most bytes of the network part.
pub(crate) const MAX_NETWORK: usize = 1_048_576;
