//! What each step of the simulated network keeps: in every network each message that waits has one of seven shapes; in a coherent one every
//! asset is conserved and every derivative backed.
#![tactic(auto)]

mod laws;
mod networks;
mod shapes;

pub use laws::{
    law_of_conserved_deliveries, law_of_conserved_executions, law_of_conserved_worlds,
    law_of_kept_runs, law_of_premises_of_conservation, law_of_rising_accounts,
};
pub use networks::{
    law_of_conserved_networks, law_of_kept_network_runs, law_of_opened_networks,
    law_of_shaped_networks, law_of_single_deliveries,
};
pub use shapes::{
    law_of_admitted_messages, law_of_calm_messages, law_of_delivered_messages,
    law_of_drains_that_end, law_of_lost_teleports, law_of_matched_cargoes, law_of_runs_that_send,
    law_of_seven_message_shapes,
};
