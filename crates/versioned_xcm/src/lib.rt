//! Messages as bytes, both ways: a version, and one program spelled in it, instruction by instruction.
#![tactic(auto)]

mod decoding;
mod encoding;
mod faults;
mod head_laws;
mod heads;
mod laws;
mod program_laws;
mod reading;
mod writing;

pub use asset_wire::{WireFault, read_instance, write_instance};
pub use decoding::decode_message;
pub use encoding::{encode_forwarded, encode_message};
pub use faults::{EncodeFault, MessageFault};
pub use head_laws::{law_of_heads, law_of_no_head_prefix, law_of_writable_heads};
pub use heads::{read_head, write_head};
pub use laws::{law_of_forwarding, law_of_messages, law_of_one_program, law_of_round_trip};
pub use program_laws::{law_of_no_prefix, law_of_one_spelling, law_of_readers, law_of_writable};
pub use reading::{MAX_DEPTH, MAX_INSTRUCTIONS, read_program};
pub use writing::{write_instruction, write_program};
pub use xcm_format::Version;
