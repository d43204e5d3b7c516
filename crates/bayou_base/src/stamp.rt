ghost use Rattle.std.specs.Prelude.{◌≡◌, ◌<◌, ◌≤◌, ◌↔◌, IsSome, IfSome};
ghost use Rattle.bayou_base.specs.declared.limits.TheConstants.{MAX_WRITES};

use crate::limits::MAX_WRITES;
use crate::server::ServerId;

/// The accept stamp of a Write, by which Writes are ordered: the accepting server's clock, then that server. The
/// clock is this project's own: one more than the greatest clock that the server held.
#[derive(Clone, Copy, Debug, PartialEq, Eq, PartialOrd, Ord, Hash)]
pub struct Stamp {
    pub clock: u32,
    pub origin: ServerId,
    pub ghost in_range: { (0 < clock) × (clock ≤ MAX_WRITES) },
}

impl Stamp {
    ghost use Rattle.bayou_base.specs.Order.{is_before};

    /// The stamp of `origin` at this clock, or `None` where no Write can have it.
    pub fn new(clock: u32, origin: ServerId) -> Option<Self>
        ensures within { IsSome result ↔ ((0 < clock) × (clock ≤ MAX_WRITES)) }
        ensures value { IfSome result (λ stamp. (stamp.clock ≡ clock) × (stamp.origin ≡ origin)) }
    {
        if 0 < clock && clock <= MAX_WRITES {
            Some(Stamp { clock, origin })
        } else {
            None
        }
    }

    /// Whether a Write with this stamp is applied before one with the other.
    pub fn is_before(self, other: Stamp) -> bool
        ensures { result ≡ is_before self other }
    {
        self < other
    }
}
