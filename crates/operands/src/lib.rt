//! The operands of XCM instructions but for locations and assets: weights, errors, queries and their responses.
#![tactic(auto)]

mod error;
mod origin;
mod pallet;
mod query;
mod status;
mod version;
mod weight;

pub use error::XcmError;
pub use origin::OriginKind;
pub use pallet::{PalletInfo, PalletInfos, PalletName};
pub use plain_lists::{BoundedVec, LongBytes};
pub use query::{OpenQuery, QueryInfo, Response};
pub use status::{ErrorBytes, MaybeError};
pub use version::Version;
pub use weight::{Weight, WeightLimit};
