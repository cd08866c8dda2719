//! The network document: from bytes to the network that they describe, or the first fault and its position.
#![tactic(auto)]

mod chains;
mod checks;
mod document;
mod head;
mod holdings;
mod laws;
mod lists;
mod names;
mod network;
mod queries;
mod references;
mod sums;

pub use document_entries::{NetworkFault, Place, Section};
pub use laws::law_of_documents;
pub use network::{comes_before, read_network};
pub use network_spec::{Balance, ChainSpec, ChannelSpec, NetworkSpec, Pool};
pub use references::check_references;
pub use sums::check_sums;
