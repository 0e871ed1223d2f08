//! Long inputs.

use std::alloc::{AllocError, Global};

/// A prefix, a part `count` times, and the rest.
pub fn filled(
    alloc: Global,
    prefix: &[u8],
    part: &[u8],
    count: usize,
    rest: &[u8],
) -> Result<Vec<u8>, AllocError> {
    let mut bytes = prefix.to_vec(alloc)?;
    for _ in 0..count {
        bytes.extend_from_slice(part)?;
    }
    bytes.extend_from_slice(rest)?;
    Ok(bytes)
}
