//! The positions of rows.

/// The position of a row: the chain of the network, and the row of the chain's list, both from 0.
#[derive(Clone, Copy, Debug)]
pub struct Place {
    /// The chain's number in the network.
    pub chain: usize,
    /// The row's number in the chain's list.
    pub row: usize,
}
