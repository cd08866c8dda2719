//! The functions of the instructions about the origin, registers, programs of a run, calls, queries, expectations, locks that fall and notes of
//! locks, and of those that nothing serves.
#![tactic(auto)]

mod calls;
mod comparing;
mod expectations;
mod locks;
mod origin;
mod programs;
mod queries;
mod registers;
mod unconfigured;

pub use calls::transact;
pub use expectations::{
    expect_error, expect_origin, expect_pallet, expect_transact_status, unpaid_execution,
};
pub use locks::{note_unlockable, unlock_asset};
pub use origin::{clear_origin, descend_origin};
pub use programs::{set_appendix, set_error_handler};
pub use queries::query_response;
pub use registers::{
    clear_error, clear_topic, clear_transact_status, set_fees_mode, set_topic, trap,
};
pub use unconfigured::{
    alias_origin, export_message, hrmp_channel_accepted, hrmp_channel_closing,
    hrmp_new_channel_open_request, subscribe_version, universal_origin, unsubscribe_version,
};
