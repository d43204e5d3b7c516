ghost use Rattle.std.specs.Prelude.{◌≡◌, ◌-◌, ◌<◌, ◌≤◌, All, IfSome, length, map, slice_get};

use std::marker::Model;

/// Where a body lies in a journal's bytes, and the version that the chain has there.
#[derive(Clone, Copy, Debug, PartialEq, Eq)]
pub struct Place {
    pub start: usize,
    pub end: usize,
    pub version: u8,
}

/// What an opening found: the bodies of the longest chain, in order, and how many bytes after it were cut. It holds the
/// bytes that were read, once.
#[derive(Drop)]
pub struct Opened {
    bytes: Vec<u8>,
    places: Vec<Place>,
    dropped: usize,
}

impl Model for Opened {
    ghost use Rattle.std.specs.Prelude.{map, All, vec_len};
    ghost use Rattle.bayou_journal.specs.Opened.{Found, IsWithin, body_at};

    ghost Value = { Found };

    ghost view = { λ o. record { bodies = map (body_at o.bytes.items) o.places.items; dropped = o.dropped } };

    ghost invariant = { λ o. All (IsWithin (vec_len o.bytes)) o.places.items };
}

impl Opened {
    ghost use Rattle.bayou_journal.specs.Opened.{IsWithin, body_at};

    // What was found at these places of the bytes, of which those from `end` on are cut.
    pub(crate) fn new(bytes: Vec<u8>, places: Vec<Place>, end: usize) -> Self
        requires within { All (IsWithin (length bytes.items)) places.items }
        requires end { end ≤ length bytes.items }
        ensures bodies { result.bodies ≡ map (body_at bytes.items) places.items }
        ensures dropped { result.dropped ≡ length bytes.items - end }
    {
        let dropped = bytes.len() - end;
        Opened {
            bytes,
            places,
            dropped,
        }
    }

    /// How many bodies there are.
    pub fn len(&self) -> usize
        ensures { result ≡ length self.now.bodies }
    {
        self.places.len()
    }

    /// The bytes of the body at this index.
    pub fn body(&self, index: usize) -> &[u8]
        requires { index < length self.now.bodies }
        ensures { IfSome (slice_get self.now.bodies index) (λ body. result.now ≡ body.bytes) }
    {
        let place = self.places[index];
        &self.bytes[place.start..place.end]
    }

    /// The version of the format in which the body at this index was added.
    pub fn version(&self, index: usize) -> u8
        requires { index < length self.now.bodies }
        ensures { IfSome (slice_get self.now.bodies index) (λ body. result ≡ body.version) }
    {
        self.places[index].version
    }

    /// How many bytes were cut after the chain.
    pub fn dropped(&self) -> usize
        ensures { result ≡ self.now.dropped }
    {
        self.dropped
    }
}
