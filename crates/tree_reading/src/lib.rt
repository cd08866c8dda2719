//! What the rows of a tree say, as bytes: each text of a value is read back as its spelling.
#![tactic(auto)]

mod assets;
mod errors;
mod expected;
mod fields;
mod hexes;
mod kinds;
mod lists;
mod numbers;
mod pallets;
mod places;
mod programs;
mod responses;
mod rows;
mod splits;
mod table;
mod trees;

pub use expected::{Expected, TreeFault};
pub use trees::{Numbered, bytes_of_tree};
