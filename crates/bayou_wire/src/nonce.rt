ghost use Rattle.std.specs.Prelude.{◌≡◌, length};
ghost use Rattle.bayou_wire.specs.declared.layout.TheConstants.{NONCE_BYTES};

use crate::layout::NONCE_BYTES;
use std::marker::Model;

/// A number that each end draws at random for one greeting, so that no proof is of use in another.
#[derive(Clone, Copy, Debug, PartialEq, Eq)]
pub struct Nonce {
    bytes: [u8; NONCE_BYTES],
}

impl Model for Nonce {
    ghost use Rattle.std.specs.Prelude.{◌≡◌, List, ℕ, length};
    ghost use Rattle.bayou_wire.specs.declared.layout.TheConstants.{NONCE_BYTES};

    ghost Value = { List ℕ };

    ghost view = { λ n. n.bytes };

    ghost invariant = { λ n. length n.bytes ≡ NONCE_BYTES };

    ghost inverse = { λ bytes. record { bytes = bytes } };
}

impl Nonce {
    /// The number of these bytes.
    pub fn new(bytes: [u8; NONCE_BYTES]) -> Self
        ensures { result ≡ bytes }
    {
        Nonce { bytes }
    }

    /// The bytes.
    pub fn bytes(&self) -> &[u8; NONCE_BYTES]
        ensures value { result.now ≡ self.now }
        ensures size { length result.now ≡ NONCE_BYTES }
    {
        &self.bytes
    }
}
