ghost use Rattle.std.specs.Prelude.{◌≡◌, length};
ghost use Rattle.hex.specs.Hex.{IsBytes};
ghost use Rattle.bayou_greeting.specs.declared.secret.TheConstants.{SECRET_BYTES};

use std::marker::Model;

/// How many bytes the secret of a key has.
pub const SECRET_BYTES: usize = 32;

/// What only those know who are of a store. It has no `Debug`, so that none is printed by mistake.
#[derive(Clone, Copy)]
pub struct Secret {
    bytes: [u8; SECRET_BYTES],
}

impl Model for Secret {
    ghost use Rattle.std.specs.Prelude.{◌≡◌, List, ℕ, length};
    ghost use Rattle.hex.specs.Hex.{IsBytes};
    ghost use Rattle.bayou_greeting.specs.declared.secret.TheConstants.{SECRET_BYTES};

    ghost Value = { List ℕ };

    ghost view = { λ s. s.bytes };

    ghost invariant = { λ s. (length s.bytes ≡ SECRET_BYTES) × IsBytes s.bytes };

    ghost inverse = { λ bytes. record { bytes = bytes } };
}

impl Secret {
    /// The secret of these bytes.
    pub fn new(list: &[u8]) -> Self
        requires { length list.now ≡ SECRET_BYTES }
        ensures { result ≡ list.now }
    {
        let mut bytes = [0; SECRET_BYTES];
        bytes.copy_from_slice(list);
        Secret { bytes }
    }

    /// The bytes.
    pub fn bytes(&self) -> &[u8; SECRET_BYTES]
        ensures value { result.now ≡ self.now }
        ensures size { length result.now ≡ SECRET_BYTES }
        ensures valid { IsBytes result.now }
    {
        &self.bytes
    }
}
