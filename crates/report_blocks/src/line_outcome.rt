//! What came of a line.

/// What came of a line after the network.
#[derive(Debug, Drop)]
pub enum LineOutcome {
    /// It asks for nothing.
    Nothing,
    /// A step was run; this is its block in the report.
    Block(String),
    /// There is no such line.
    Unknown,
}
