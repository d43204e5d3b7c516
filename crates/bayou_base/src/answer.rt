ghost use Rattle.std.specs.Prelude.{◌≡◌};

use crate::stamp::Stamp;
use crate::value::Value;
use crate::vector::Vector;
use crate::wid::Wid;

/// What a server answers to a read that it serves.
#[derive(Debug, Drop, PartialEq, Eq)]
pub struct Seen {
    /// What the key has, if anything.
    pub value: Option<Value>,
    /// What the server held as it served the read.
    pub vector: Vector,
}

/// What a server answers to a Write that it accepts.
#[derive(Clone, Copy, Debug, PartialEq, Eq)]
pub struct Accepted {
    pub wid: Wid,
    pub stamp: Stamp,
    /// What the server held just before.
    pub deps: Vector,
    pub ghost one_origin: { wid.origin ≡ stamp.origin },
}
