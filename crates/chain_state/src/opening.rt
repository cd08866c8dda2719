//! How a chain begins: its document's lists, copied, and its first accounts.

pub(crate) mod copies;
pub(crate) mod first;
pub(crate) mod listing;
