//! Assets, and the lists of them that instructions speak in.
#![tactic(auto)]

mod faults;
mod filters;
mod laws;
mod list;
mod stored;
mod units;

pub use faults::{ListFault, ReanchorFault};
pub use filters::{Filter, Wild, WildFun};
pub use laws::{
    law_of_exact_asset_orders, law_of_exact_list_test, law_of_insertion, law_of_reanchored_lists,
    law_of_rising,
};
pub use list::{Assets, MAX_ASSETS, copied, is_rising, push_asset, push_place, push_reanchored};
pub use stored::StoredId;
pub use units::{Asset, AssetId, Fun, Instance, Kind};
