//! How executions end.

ghost use Rattle.std.specs.Prelude.{Some};
ghost use Rattle.xcm_program.specs.Texts.{outcome_error_text};

use operands::{Weight, XcmError};
use std::fmt;

/// Why an execution isn't complete (xcm-executor's documentation). Its text is its name, that of `Xcm` the error's.
#[derive(Clone, Copy, Debug, PartialEq, Eq)]
pub enum OutcomeError {
    /// An instruction failed, and no handler cleared its error.
    Xcm(XcmError),
    /// No barrier of the chain lets the program in.
    Barrier,
    /// The program's weight has no value within the chain's rule.
    WeightNotComputable,
    /// The program weighs more than the chain's limit.
    WeightLimitReached,
}

/// How an execution ended (xcm-executor's documentation).
#[derive(Clone, Copy, Debug, PartialEq, Eq)]
pub enum Outcome {
    /// All instructions were executed.
    Complete {
        /// The weight that was used.
        used: Weight,
    },
    /// Execution began and ended with an error.
    Incomplete {
        /// The weight that was used.
        used: Weight,
        /// The error.
        error: OutcomeError,
    },
    /// Execution didn't begin.
    Error {
        /// The error.
        error: OutcomeError,
    },
}

impl fmt::Display for OutcomeError {
    ghost output = { λ e. Some (outcome_error_text e) };

    fn fmt<W: fmt::Write>(&self, f: &mut fmt::Formatter<W>) -> fmt::Result {
        match self {
            OutcomeError::Xcm(error) => write!(f, "{error}"),
            OutcomeError::Barrier => write!(f, "Barrier"),
            OutcomeError::WeightNotComputable => write!(f, "WeightNotComputable"),
            OutcomeError::WeightLimitReached => write!(f, "WeightLimitReached"),
        }
    }
}
