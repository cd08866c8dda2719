//! How far a run is.

use line_serving::Status;
use report_blocks::AuditedNet;

/// Which part of the input is read.
#[derive(Drop)]
pub(crate) enum Phase {
    /// The network part, of which these bytes have come.
    Network(Vec<u8>),
    /// The lines after it.
    Steps {
        /// The network, as the steps have left it.
        net: AuditedNet,
        /// So many steps are done.
        done: u64,
    },
}

/// How far a run is: so many lines have come, of so many bytes.
#[derive(Drop)]
pub(crate) struct Session {
    /// Whether the audit comes after each step.
    pub(crate) audit: bool,
    pub(crate) phase: Phase,
    pub(crate) lines: u64,
    pub(crate) taken: u64,
}

/// What came of a network part.
#[derive(Drop)]
pub(crate) enum Opened {
    /// The network runs.
    Runs(AuditedNet),
    /// The run is over.
    Over(Status),
}
