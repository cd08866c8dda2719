//! What a message says, as an indented tree.
#![tactic(auto)]

mod fields;
mod group0;
mod group1;
mod group2;
mod group3;
mod group4;
mod group5;
mod lines;
mod messages;
mod names;
mod own;
mod queries;
mod several;
mod words;

pub use messages::message_text;
pub use words::{asset_text, hex_text, push_asset_text};
