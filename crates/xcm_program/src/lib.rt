//! XCM programs, their measures and outcomes.
#![tactic(auto)]

mod conversion;
mod instruction;
mod measure;
mod names;
mod nested;
mod outcome;
mod rule;

pub use conversion::is_convertible;
pub use instruction::{Instruction, Program};
pub use measure::{deep_count, deep_count_one, depth, depth_one, sends};
pub use names::instruction_name_at;
pub use nested::{inner, kept, set_program};
pub use operands::{
    BoundedVec, ErrorBytes, LongBytes, MaybeError, OpenQuery, OriginKind, PalletInfo, PalletInfos,
    PalletName, QueryInfo, Response, Version, Weight, WeightLimit, XcmError,
};
pub use outcome::{Outcome, OutcomeError};
pub use rule::{WeightRule, required};
