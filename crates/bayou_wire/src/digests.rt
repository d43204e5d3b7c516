ghost use Rattle.std.specs.Prelude.{◌≡◌, length};
ghost use Rattle.bayou_base.specs.declared.limits.TheConstants.{SERVERS};

use bayou_base::SERVERS;
use std::marker::Model;

/// Of each origin a digest of all its Writes that are held.
#[derive(Clone, Copy, Debug, PartialEq, Eq)]
pub struct Digests {
    each: [u64; SERVERS],
}

impl Model for Digests {
    ghost use Rattle.std.specs.Prelude.{◌≡◌, List, ℕ, length};
    ghost use Rattle.bayou_base.specs.declared.limits.TheConstants.{SERVERS};

    ghost Value = { List ℕ };

    ghost view = { λ d. d.each };

    ghost invariant = { λ d. length d.each ≡ SERVERS };

    ghost inverse = { λ each. record { each = each } };
}

impl Digests {
    /// These digests, one for each server.
    pub fn new(each: [u64; SERVERS]) -> Self
        ensures { result ≡ each }
    {
        Digests { each }
    }

    /// The digests, one for each server.
    pub fn each(&self) -> &[u64; SERVERS]
        ensures value { result.now ≡ self.now }
        ensures size { length result.now ≡ SERVERS }
    {
        &self.each
    }
}
