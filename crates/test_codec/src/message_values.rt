//! Bytes that several tables speak of, and how hex is read.

use std::alloc::{AllocError, Global};
use std::test::Fail;

/// The first bytes, and after them a byte so many times.
pub(crate) fn filled(
    alloc: Global,
    front: &[u8],
    count: usize,
    byte: u8,
) -> Result<Vec<u8>, AllocError> {
    let mut bytes = Vec::new(alloc);
    bytes.extend_from_slice(front)?;
    for _ in 0..count {
        bytes.push(byte)?;
    }
    Ok(bytes)
}

/// The bytes of the hex.
pub(crate) fn unhex(alloc: Global, hex: &str) -> Result<Vec<u8>, Fail> {
    Ok(hex::decode(alloc, hex)?)
}
