//! Finite maps from keys to amounts above 0, and the laws of their sums.
//!
//! The maps are in `specs/`: contracts speak of what a bundle, an account or a book holds by them. There is
//! nothing to run here. Each function has an empty body, and its contract is a law.
#![tactic(auto)]

mod laws;

pub use laws::{
    law_of_a_move, law_of_amounts, law_of_entries, law_of_equal_maps, law_of_maps_as_rows,
    law_of_merging, law_of_parts_put_back, law_of_sums_kept_by_moves, law_of_totals,
    law_of_totals_under_new_keys,
};
