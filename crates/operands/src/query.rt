//! Queries between chains, and what answers them.
use crate::{MaybeError, PalletInfos, Weight, XcmError};
use asset_lists::Assets;
use locations::Location;

/// Where a response goes, and what it answers (XCM format: `QueryResponseInfo`).
#[derive(Debug, Drop, PartialEq, Eq)]
pub struct QueryInfo {
    /// Where the response is sent, as seen from the chain that responds.
    pub destination: Location,
    /// The number of the query at the destination.
    pub query_id: u64,
    /// The most that the response may weigh at the destination.
    pub max_weight: Weight,
}

/// What a query is answered with (XCM format: `Response`).
#[derive(Debug, Drop, PartialEq, Eq)]
pub enum Response {
    /// Nothing.
    Null,
    /// Some assets.
    Assets(Assets),
    /// How an execution ended: the instruction's index and its error, or none.
    ExecutionResult(Option<(u32, XcmError)>),
    /// A version of the XCM format.
    Version(u32),
    /// Pallets of the chain, at most 64.
    PalletsInfo(PalletInfos),
    /// How a dispatched call ended.
    DispatchResult(MaybeError),
}

/// A query that is open: no response to it has come yet.
#[derive(Debug, Drop, PartialEq, Eq)]
pub struct OpenQuery {
    /// Its number.
    pub id: u64,
    /// The location that may answer it.
    pub from: Location,
}
