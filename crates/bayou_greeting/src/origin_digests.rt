ghost use Rattle.std.specs.Prelude.{◌≡◌, ◌≢◌, ◌≤◌, ◌<◌, ◌↔◌, ◌++◌, ◌∷◌, [], List, ℕ, IsTrue, None, Some, OnErr, OnOk, length, take};
ghost use Rattle.bayou_greeting.specs.OriginDigests.{AreDigestsOf, digest_of, next_digest, short};

use crate::hmac::DIGEST_BYTES;
use sha2::{Digest, Sha256};
use std::alloc::{AllocError, Global};

/// The digest of no Write, as it is sent.
pub const NO_WRITES: u64 = 0;

/// A digest for each count of an origin's Writes: that of its first so many, in their order, by their bytes as they travel without a tag.
#[derive(Debug, Drop)]
pub struct OriginDigests {
    last: [u8; DIGEST_BYTES],
    kept: Vec<u64>,
}

fn digest_behind(before: &[u8; DIGEST_BYTES], write: &[u8]) -> [u8; DIGEST_BYTES]
    ensures { result ≡ next_digest before.now write.now }
{
    let mut hasher = Sha256::new();
    hasher.update(before);
    hasher.update(write);
    hasher.finalize()
}

fn short_of(digest: &[u8; DIGEST_BYTES]) -> u64
    ensures { result ≡ short digest.now }
{
    let [a, b, c, d, e, f, g, h, ..] = *digest;
    u64::from_be_bytes([a, b, c, d, e, f, g, h])
}

impl OriginDigests {
    /// The digests of no Writes. It takes no memory.
    pub fn new(alloc: Global) -> Self
        ensures { AreDigestsOf result [] }
    {
        let last = [0; DIGEST_BYTES];
        OriginDigests {
            last,
            kept: Vec::new(alloc),
        }
    }

    /// Adds the origin's next Write, by its bytes. Want of memory is the only refusal, and changes nothing.
    pub fn extend(&mut self, write: &[u8]) -> Result<(), AllocError>
        ensures held { (writes : List (List ℕ)) → AreDigestsOf self.old writes → OnOk result (AreDigestsOf self.new (writes ++ write.now ∷ [])) }
        ensures refused { (writes : List (List ℕ)) → AreDigestsOf self.old writes → OnErr result (AreDigestsOf self.new writes) }
    {
        let last = digest_behind(&self.last, write);
        self.kept.push(short_of(&last))?;
        self.last = last;
        Ok(())
    }

    /// How many Writes these are of.
    pub fn len(&self) -> usize
        ensures { (writes : List (List ℕ)) → AreDigestsOf self.now writes → result ≡ length writes }
    {
        self.kept.len()
    }

    /// The digest of the first so many Writes, or `None` where fewer are held.
    pub fn at(&self, count: usize) -> Option<u64>
        ensures held { (writes : List (List ℕ)) → AreDigestsOf self.now writes → count ≤ length writes → result ≡ Some (short (digest_of (take count writes))) }
        ensures beyond { (writes : List (List ℕ)) → AreDigestsOf self.now writes → length writes < count → result ≡ None }
    {
        if count == 0 {
            return Some(NO_WRITES);
        }
        if self.kept.len() < count {
            return None;
        }
        Some(self.kept[count - 1])
    }

    /// Whether other Writes are held than those with this digest at the count. Where fewer are held, that isn't known.
    pub fn differs(&self, count: usize, told: u64) -> bool
        ensures { (writes : List (List ℕ)) → AreDigestsOf self.now writes → IsTrue result ↔ ((count ≤ length writes) × (short (digest_of (take count writes)) ≢ told)) }
    {
        match self.at(count) {
            Some(own) => own != told,
            None => false,
        }
    }
}
