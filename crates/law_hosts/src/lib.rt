//! What each call of a host conserves, what accounts must keep of what is locked on them, and what leaves it to them: laws over the definitions
//! alone.
#![tactic(auto)]

mod floors;
mod laws;

pub use floors::{
    law_of_floors_under_calls, law_of_floors_under_exchanges, law_of_floors_under_moves,
    law_of_free_pools,
};
pub use laws::{
    law_of_conserved_account_moves, law_of_conserved_claims, law_of_conserved_fees,
    law_of_conserved_joins_and_burns, law_of_conserved_sends, law_of_conserving_instructions,
    law_of_dispatched_calls, law_of_exchanged_goods,
};
