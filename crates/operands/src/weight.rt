//! Weights, and limits of weights.

ghost use Rattle.std.specs.Prelude.{◌≡◌, Some, IsTrue, ◌↔◌};
ghost use Rattle.operands.specs.Texts.{weight_text};
ghost use Rattle.operands.specs.Weights.{is_within, IsWithin};

use std::fmt;

/// What executing takes, in both dimensions (XCM format: `Weight`). Its text is both numbers in decimal, with a space
/// between.
#[derive(Clone, Copy, Debug, PartialEq, Eq)]
pub struct Weight {
    /// Time of computation, in picoseconds.
    pub ref_time: u64,
    /// Size of the storage proof, in bytes.
    pub proof_size: u64,
}

impl Weight {
    /// No weight.
    pub const ZERO: Weight = Weight {
        ref_time: 0,
        proof_size: 0,
    };

    /// Whether no dimension is more than that of `most`.
    pub fn is_within(self, most: Weight) -> bool
        ensures exact { result ≡ is_within self most }
        ensures words { IsTrue result ↔ IsWithin self most }
    {
        self.ref_time <= most.ref_time && self.proof_size <= most.proof_size
    }
}

impl fmt::Display for Weight {
    ghost output = { λ w. Some (weight_text w) };

    fn fmt<W: fmt::Write>(&self, f: &mut fmt::Formatter<W>) -> fmt::Result {
        let ref_time = self.ref_time;
        let proof_size = self.proof_size;
        write!(f, "{ref_time} {proof_size}")
    }
}

/// The most weight that an instruction may take (XCM format: `WeightLimit`).
#[derive(Clone, Copy, Debug, PartialEq, Eq)]
pub enum WeightLimit {
    /// No limit.
    Unlimited,
    /// At most so much.
    Limited(Weight),
}
