//! What an append that was cut off may have left, and what it can't have.
ghost use Rattle.std.specs.Prelude.{◌≡◌, ◌↔◌, All, IfNone, IfSome, IsTrue, false, true};
ghost use Rattle.bayou_journal.specs.Torn.{HoldsNoEntry, IsTear};

use crate::chain::first_entry;
use crate::format::{DIGEST_BYTES, ENTRY_BYTES, LENGTH_BYTES};
use bayou_base::MAX_BODY_BYTES;
use std::cmp::Ordering;

/// What an append that was cut off may have left of its entry.
#[derive(Clone, Copy, Debug, PartialEq, Eq)]
pub enum Tear {
    /// Not all of its bytes, by the length that they begin with; or zeros, where no block of it was written yet.
    Unfinished,
    /// As many bytes as it has, of which some are wrong.
    Whole,
}

// Whether each byte is zero.
fn are_zeros(bytes: &[u8]) -> bool
    ensures { IsTrue result ↔ All (λ byte. byte ≡ 0) bytes.now }
{
    bytes.iter().all(|byte| *byte == 0)
}

// Whether an entry stands anywhere in the bytes, after the digest's bytes before it.
fn holds_entry(bytes: &[u8]) -> bool
    ensures none { result ≡ false → HoldsNoEntry bytes.now }
    ensures some { result ≡ true → ¬ HoldsNoEntry bytes.now }
{
    let mut rest = bytes;
    while let Some((before, behind)) = rest.split_first_chunk::<DIGEST_BYTES>() {
        match first_entry(before, behind) {
            Some(_) => return true,
            None => rest = rest.split_at(1).1,
        }
    }
    false
}

// What the bytes after a chain are, where an append that was cut off may have left them: one entry at the most, by its own length.
pub(crate) fn tear_of(bytes: &[u8]) -> Option<Tear>
    ensures some { IfSome result (IsTear bytes.now) }
    ensures none { IfNone result ((tear : Tear) → ¬ IsTear bytes.now tear) }
{
    let [high, low, ..] = bytes else {
        return Some(Tear::Unfinished);
    };
    if bytes.len() <= ENTRY_BYTES && are_zeros(bytes) {
        return Some(Tear::Unfinished);
    }
    let length = usize::from(u16::from_be_bytes([*high, *low]));
    if length == 0 || length > MAX_BODY_BYTES || holds_entry(bytes) {
        return None;
    }
    match bytes.len().cmp(&(LENGTH_BYTES + length + DIGEST_BYTES)) {
        Ordering::Less => Some(Tear::Unfinished),
        Ordering::Equal => Some(Tear::Whole),
        Ordering::Greater => None,
    }
}
