//! The XCM format, versions 3 and 4: the one spelling of each operand, instruction, program and message, and which of them have one; and
//! operands as bytes, both ways: weights, errors, queries and their responses.
#![tactic(auto)]

mod laws;
mod operand_laws;
mod parts;
mod writing;

pub use asset_wire::Version;
pub use laws::{law_of_conversions, law_of_writable};
pub use operand_laws::{
    law_of_no_prefix, law_of_one_spelling, law_of_readers, law_of_writable_operands,
};
pub use parts::{
    take_bytes, take_maybe_error, take_optional_failure, take_optional_location, take_origin_kind,
    take_query_info, take_response, take_weight, take_weight_limit,
};
pub use writing::{
    put_bytes, put_maybe_error, put_optional_failure, put_optional_location, put_origin_kind,
    put_query_info, put_response, put_weight, put_weight_limit,
};
