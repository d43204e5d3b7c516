//! Whose journal it is.
ghost use Rattle.std.specs.Prelude.{◌<◌, ◌≤◌};
ghost use Rattle.bayou_base.specs.declared.limits.TheConstants.{SERVERS};

use bayou_base::ServerId;

/// Whose journal it is: which server's, of how many.
#[derive(Clone, Copy, Debug, PartialEq, Eq)]
pub struct Whose {
    pub id: ServerId,
    pub count: u8,
    pub ghost among: { (id.index < count) × (count ≤ SERVERS) },
}
