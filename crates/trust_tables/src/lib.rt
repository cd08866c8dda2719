//! Whose account a location is on a chain, and which chains are believed about an asset.
#![tactic(auto)]

mod accounts;
mod chains;
mod laws;
mod rows;
mod trust;

pub use accounts::{account_of, is_sovereign};
pub use chain_ids::ChainId;
pub use chains::{Site, location_of};
pub use laws::{
    law_of_chain_locations, law_of_exact_trust_tests, law_of_listings, law_of_sovereign_accounts,
};
pub use rows::{AssetRole, AssetRow};
pub use trust::{find_row, has_row, is_partner, is_reserve, lies_at};
