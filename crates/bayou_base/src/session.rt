ghost use Rattle.std.specs.Prelude.{◌≡◌, ◌<◌, ◌↔◌, IsSome, IfSome};
ghost use Rattle.bayou_base.specs.declared.limits.TheConstants.{SESSIONS};

use crate::limits::SESSIONS;

/// The identifier of a session, from 0 on.
#[derive(Clone, Copy, Debug, PartialEq, Eq, PartialOrd, Ord, Hash)]
pub struct SessionId {
    pub index: u8,
    pub ghost in_range: { index < SESSIONS },
}

impl SessionId {
    /// The session of this index, or `None` where there can be no such session.
    pub fn new(index: u8) -> Option<Self>
        ensures within { IsSome result ↔ (index < SESSIONS) }
        ensures value { IfSome result (λ session. session.index ≡ index) }
    {
        if usize::from(index) < SESSIONS {
            Some(SessionId { index })
        } else {
            None
        }
    }
}
