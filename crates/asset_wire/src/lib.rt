//! Assets as bytes, both ways, in versions 3 and 4 of the XCM format.
#![tactic(auto)]

mod laws;
mod parts;
mod reading;
mod writing;

pub use laws::{
    law_of_no_prefix, law_of_one_spelling, law_of_readers, law_of_versions, law_of_writable,
};
pub use operands::Version;
pub use parts::{take_assets, take_boxed_asset, take_filter};
pub use reading::read_instance;
pub use scale_codec::WireFault;
pub use writing::{put_asset, put_assets, put_filter, write_instance};
