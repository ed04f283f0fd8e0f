// Long sessions.
use std::alloc::{AllocError, Global};

// A count, and so many calls of this letter without operands.
pub(crate) fn session_of(heap: Global, count: u16, letter: u8) -> Result<Vec<u8>, AllocError> {
    let mut bytes = Vec::new(heap);
    bytes.extend_from_slice(&count.to_le_bytes())?;
    for _ in 0..count {
        bytes.extend_from_slice(&[letter, 0, 0])?;
    }
    Ok(bytes)
}
