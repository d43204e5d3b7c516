ghost use Rattle.std.specs.Prelude.{◌≡◌, length};
ghost use Rattle.bayou_wire.specs.declared.layout.TheConstants.{PROOF_BYTES};

use crate::layout::PROOF_BYTES;
use std::marker::Model;

/// What only an end that knows the key of its store can make.
#[derive(Clone, Copy, Debug, PartialEq, Eq)]
pub struct Proof {
    bytes: [u8; PROOF_BYTES],
}

impl Model for Proof {
    ghost use Rattle.std.specs.Prelude.{◌≡◌, List, ℕ, length};
    ghost use Rattle.bayou_wire.specs.declared.layout.TheConstants.{PROOF_BYTES};

    ghost Value = { List ℕ };

    ghost view = { λ p. p.bytes };

    ghost invariant = { λ p. length p.bytes ≡ PROOF_BYTES };

    ghost inverse = { λ bytes. record { bytes = bytes } };
}

impl Proof {
    /// The proof of these bytes.
    pub fn new(bytes: [u8; PROOF_BYTES]) -> Self
        ensures { result ≡ bytes }
    {
        Proof { bytes }
    }

    /// The bytes.
    pub fn bytes(&self) -> &[u8; PROOF_BYTES]
        ensures value { result.now ≡ self.now }
        ensures size { length result.now ≡ PROOF_BYTES }
    {
        &self.bytes
    }
}
