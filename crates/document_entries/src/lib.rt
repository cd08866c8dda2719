//! The entries of a network document's lists: barriers, rates, assets, accounts, pallets, queries, pools and channels; the forms of their
//! values; and why and where a document is none.
#![tactic(auto)]

mod accounts;
mod alternatives;
mod assets;
mod barrier;
mod channels;
mod entries;
mod fault;
mod fields;
mod names;
mod numbers;
mod pallets;
mod places;
mod pools;
mod rates;
mod stop;

pub use accounts::account_of;
pub use assets::asset_row_of;
pub use barrier::barrier_of;
pub use channels::channel_of;
pub use entries::{Entry, list_of, pair_of, read_entries};
pub use fault::{NetworkFault, Place, Section};
pub use fields::check_fields;
pub use names::{bytes_of, bytes32, text_of};
pub use numbers::number_of;
pub use pallets::{pallet_of, query_of};
pub use pools::pool_of;
pub use rates::rate_of;
pub use stop::Stop;
