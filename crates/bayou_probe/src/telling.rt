//! How answers are spelled.
use std::alloc::{AllocError, Global};
use std::fmt::Debug;

/// The bytes in hexadecimal.
pub(crate) fn hex_of(alloc: Global, bytes: &[u8]) -> Result<String, AllocError> {
    hex::encode(alloc, bytes)
}

/// The fault after `!`.
pub(crate) fn told_fault<T: Debug>(alloc: Global, fault: &T) -> Result<String, AllocError> {
    format!(in alloc; "!{fault:?}")
}

/// The fault, and what is left of a device.
pub(crate) fn told_refusal<T: Debug>(
    alloc: Global,
    fault: &T,
    left: &[u8],
) -> Result<String, AllocError> {
    let left = hex_of(alloc, left)?;
    format!(in alloc; "!{fault:?} {left}")
}
