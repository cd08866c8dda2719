//! How a chain admits and runs programs.

use barriers::Barrier;
use operands::Weight;
use plain_lists::Listed;
use xcm_program::WeightRule;

/// The barriers of a chain, in the order in which they are tried. Contracts see them as their list.
pub type Barriers = Listed<Barrier>;

/// How a chain admits and runs programs.
#[derive(Debug, Drop)]
pub struct ChainRules {
    /// How programs are weighed.
    pub weight: WeightRule,
    /// The most that a program may weigh.
    pub limit: Weight,
    /// Half of the most kinds of assets that a run may hold.
    pub max_holding: u32,
    /// Which programs are let in.
    pub barriers: Barriers,
}
