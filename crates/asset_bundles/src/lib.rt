//! Owned assets, which are neither copied nor dropped: bundles, the book of what was burned, and what a chain keeps of what runs left in
//! their holding, until it is claimed.
#![tactic(auto)]

mod book;
mod booking;
mod bundle;
mod burns;
mod digest;
mod faults;
mod items;
mod joining;
mod landing;
mod laws;
mod pieces;
mod portions;
mod rows;
mod shipment;
mod shipping;
mod spending;
mod store;
mod sums;
mod totals;
mod trap;
mod trap_laws;
mod units;
mod wide_sum;

pub use book::{BurnBook, Cause};
pub use bundle::AssetBundle;
pub use faults::TakeFault;
pub use laws::{
    law_of_bundles, law_of_conserved_bundles, law_of_filters, law_of_joins, law_of_landing,
    law_of_listed_assets, law_of_saturating_burn_totals,
};
pub use portions::make_room;
pub use shipment::{Shipment, Way};
pub use store::{TrapStore, Unknown};
pub use totals::Total;
pub use trap::Trap;
pub use trap_laws::law_of_traps;
pub use units::Units;
pub use wide_sum::WideSum;
