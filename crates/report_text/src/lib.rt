//! The texts of a report: of a step, of what accounts hold, what is trapped and what waits, and the supply block.
#![tactic(auto)]

mod backing_lines;
mod backings;
mod block;
mod chains;
mod figures;
mod laws;
mod natives;
mod plan;
mod queues;
mod sheet;
mod supplies;
mod supply_lines;

pub use block::supply_block;
pub use chains::{balances_text, chain_balances, chain_traps, traps_text};
pub use laws::law_of_natives;
pub use plan::SupplyPlan;
pub use queues::{queue_between, queues_text};
pub use sheet::SupplySheet;
pub use step_text::{Backing, Supply, backing_line, step_text, supply_line};
