ghost use Rattle.std.specs.Prelude.{◌≡◌, ◌<◌, ◌≤◌, ◌↔◌, IsSome, IfSome};
ghost use Rattle.bayou_base.specs.declared.limits.TheConstants.{MAX_WRITES};

use crate::limits::MAX_WRITES;
use crate::server::ServerId;

/// The name of a Write (WID, Terry et al. 1994): the server that accepted it, and its place, from 1 on, among the
/// Writes that this server accepted.
#[derive(Clone, Copy, Debug, PartialEq, Eq, PartialOrd, Ord, Hash)]
pub struct Wid {
    pub origin: ServerId,
    pub seq: u32,
    pub ghost in_range: { (0 < seq) × (seq ≤ MAX_WRITES) },
}

impl Wid {
    /// The Write `seq` of `origin`, or `None` where no server can hold so many.
    pub fn new(origin: ServerId, seq: u32) -> Option<Self>
        ensures within { IsSome result ↔ ((0 < seq) × (seq ≤ MAX_WRITES)) }
        ensures value { IfSome result (λ wid. (wid.origin ≡ origin) × (wid.seq ≡ seq)) }
    {
        if 0 < seq && seq <= MAX_WRITES {
            Some(Wid { origin, seq })
        } else {
            None
        }
    }
}
