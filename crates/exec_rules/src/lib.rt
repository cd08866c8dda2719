//! What each of the 48 instructions refuses and leaves and what it asks of its chain, which programs a chain runs, and what a run and an
//! execution are as a whole.
#![tactic(auto)]

mod admission;
mod admission_laws;
mod call_laws;
mod keeping;
mod laws;
mod rules;
mod runs;

pub use admission::{Admitted, admit};
pub use admission_laws::law_of_admission;
pub use call_laws::{law_of_instructions_as_calls, law_of_orderly_instructions, law_of_readiness};
pub use keeping::{KeptByCalls, law_of_kept_facts};
pub use laws::law_of_origins;
pub use rules::{Barriers, ChainRules};
pub use runs::{KeptByRuns, law_of_kept_relations, law_of_orderly_runs};
