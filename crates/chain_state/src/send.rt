//! What leaves a chain: channels and their fees, shipments, deposits for another chain, reports, and lists as another chain names them.

pub(crate) mod around;
pub(crate) mod arrivals;
pub(crate) mod carried;
pub(crate) mod channels;
pub(crate) mod naming;
pub(crate) mod outgoing;
pub(crate) mod posting;
pub(crate) mod reports;
pub(crate) mod sending;
pub(crate) mod shipping;
