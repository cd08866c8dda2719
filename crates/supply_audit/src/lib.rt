//! What a network has of each asset, and whether derivatives are covered.
#![tactic(auto)]

mod asset_places;
mod audit;
mod cover;
mod figure_reader;
mod figures;
mod hints;
mod home_places;
mod last_found;
mod last_held;
mod messages;
mod network_asset;
mod over_places;
mod place;
mod places;
mod row_sums;
mod stale;
mod table;
mod totals;

pub use asset_places::AssetPlaces;
pub use audit::{backing, supply};
pub use cover::{Cover, CoverFigures, backing_at, number_of, touched};
pub use figure_reader::FigureReader;
pub use home_places::HomePlaces;
pub use ledgers::{Backing, Supply};
pub use network_asset::NetworkAsset;
pub use network_coherence::{Incoherent, IncoherentCause, coherent};
pub use over_places::supply_at;
pub use place::Place;
pub use stale::are_touched;
pub use table::Supplies;
