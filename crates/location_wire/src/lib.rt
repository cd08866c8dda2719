//! Locations as bytes and as texts, both ways.
#![tactic(auto)]

mod laws;
mod parts;
mod reading;
mod text;
mod text_reading;
mod writing;

pub use laws::{law_of_no_prefix, law_of_one_location, law_of_one_spelling, law_of_readers};
pub use parts::{fill_junctions, fill_location, take_junction, take_location, take_network};
pub use reading::{read_junction, read_junctions, read_location, read_network_id};
pub use text::{location_text, path_text, push_location_text, push_path_text};
pub use text_reading::{TextFault, fill_location_from_text, read_location_text};
pub use writing::{
    put_junction, put_junctions, put_location, put_network, write_junction, write_junctions,
    write_location, write_network_id,
};
