//! What a chain tells of its runs: events, and lines of what was burned or lost.

pub(crate) mod burning;
pub(crate) mod events;
pub(crate) mod lines;
pub(crate) mod losses;
