//! Where a chain, an account or a part of a chain lies, as the XCM format names it.
#![tactic(auto)]

mod faults;
mod grammar;
mod interior;
mod laws;
mod relative;
mod stored;

pub use faults::{Full, LocationFault, PathFault};
pub use grammar::{BodyId, BodyPart, Junction, NetworkId};
pub use interior::{Junctions, MAX_JUNCTIONS, are_apart};
pub use laws::{law_of_derived_order, law_of_exact_location_orders, law_of_paths};
pub use relative::{Location, invert_target};
pub use stored::StoredLocation;
