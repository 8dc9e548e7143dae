//! The parts of what a row says of a call.

use std::alloc::AllocError;

/// Puts bytes in quotes behind their name, where there are any.
pub fn push_part(shown: &mut Vec<u8>, name: &str, bytes: &[u8]) -> Result<(), AllocError> {
    if bytes.is_empty() {
        return Ok(());
    }
    shown.extend_from_slice(b", ")?;
    shown.extend_from_slice(name.as_bytes())?;
    shown.extend_from_slice(b" \"")?;
    shown.extend_from_slice(bytes)?;
    shown.extend_from_slice(b"\"")
}
