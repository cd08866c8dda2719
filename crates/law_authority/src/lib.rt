//! Whose amounts a step of a network may lower, what accounts keep of what is locked on them, and who lets locks fall: laws of every network,
//! coherent or not.
#![tactic(auto)]

mod laws;
mod locks;

pub use laws::{
    law_of_accounts_left_alone, law_of_authority, law_of_executions_spending_one_account,
    law_of_origin_registers, law_of_permanent_burns, law_of_pool_products,
    law_of_spending_by_origin_alone, law_of_spent_sovereign_accounts,
};
pub use locks::{
    law_of_chains_without_locks, law_of_falling_locks, law_of_kept_floors, law_of_kept_worlds,
    law_of_rising_locks, law_of_sovereign_locks,
};
