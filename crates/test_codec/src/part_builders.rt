//! Locations and bytes that several tables use, and how hex is read.
ghost use Rattle.std.specs.Prelude.{◌≤◌, length};

use locations::{Junction, Junctions, Location};
use std::alloc::{AllocError, Global};
use std::test::Fail;

/// The location of these junctions, so many levels up.
pub(crate) fn place(parents: u8, items: &[Junction]) -> Location
    requires { length items.now ≤ 8 }
{
    let interior = Junctions::from_few(items);
    Location { parents, interior }
}

/// The first bytes, and after them a byte so many times.
pub(crate) fn filled(
    alloc: Global,
    front: &[u8],
    count: usize,
    byte: u8,
) -> Result<Vec<u8>, AllocError> {
    let mut bytes = Vec::new(alloc);
    bytes.extend_from_slice(front)?;
    for _ in 0..count {
        bytes.push(byte)?;
    }
    Ok(bytes)
}

/// The bytes of the hex.
pub(crate) fn unhex(alloc: Global, hex: &str) -> Result<Vec<u8>, Fail> {
    Ok(hex::decode(alloc, hex)?)
}
