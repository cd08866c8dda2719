//! The pools of a chain: which pool exchanges two assets, what it gives for what is given to it, and what an exchange does to accounts.
#![tactic(auto)]

mod deal;
mod exchange_laws;
mod exchanges;
mod faults;
mod laws;
mod making;
mod pool;
mod prices;

pub use deal::{Deal, deal_at};
pub use exchange_laws::{
    law_of_least_amounts, law_of_no_less_for_more, law_of_products_that_never_fall,
    law_of_round_trips, law_of_usable_reserves,
};
pub use exchanges::{Exchange, exchange_of};
pub use faults::ExchangeFault;
pub use laws::{law_of_exchanges, law_of_pool_accounts, law_of_spending};
pub use making::exchange;
pub use pool::{Pool, is_pool_account, pool_account};
pub use prices::{best_out, least_in};
