//! Locations that several tables use.
ghost use Rattle.std.specs.Prelude.{◌≤◌, length};

use locations::{Junction, Junctions, Location};

/// The account of 32 times the byte 1.
pub(crate) const FIRST: [u8; 32] = [1; 32];

/// The account of 32 times the byte 2.
pub(crate) const SECOND: [u8; 32] = [2; 32];

/// The location of these junctions, so many levels up.
pub(crate) fn place(parents: u8, items: &[Junction]) -> Location
    requires { length items.now ≤ 8 }
{
    let interior = Junctions::from_few(items);
    Location { parents, interior }
}

/// The location of an account of the chain's own.
pub(crate) fn account(id: [u8; 32]) -> Location {
    place(0, &[Junction::AccountId32 { network: None, id }])
}
