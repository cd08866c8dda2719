//! What a coherent network is, what its chains have of each asset and what they owe, and that no step loses any of it.
#![tactic(auto)]

mod conserving;
mod laws;

pub use conserving::{
    law_of_conserved_histories, law_of_conserving_safe_changes, law_of_paid_oldest_messages,
    law_of_repeated_safe_changes, law_of_safe_moves, law_of_sound_first_worlds,
    law_of_stock_within_supply, law_of_trusted_cargoes,
};
pub use laws::{law_of_coherence, law_of_renaming, law_of_renaming_without_merging};
