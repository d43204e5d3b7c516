ghost use Rattle.std.specs.Prelude.{◌≡◌, ◌<◌, ◌↔◌, IsSome, IfSome};
ghost use Rattle.bayou_base.specs.declared.limits.TheConstants.{SERVERS};

use crate::limits::SERVERS;

/// The identifier of a server, from 0 on.
#[derive(Clone, Copy, Debug, PartialEq, Eq, PartialOrd, Ord, Hash)]
pub struct ServerId {
    pub index: u8,
    pub ghost in_range: { index < SERVERS },
}

impl ServerId {
    /// The server of this index, or `None` where there can be no such server.
    pub fn new(index: u8) -> Option<Self>
        ensures within { IsSome result ↔ (index < SERVERS) }
        ensures value { IfSome result (λ server. server.index ≡ index) }
    {
        if usize::from(index) < SERVERS {
            Some(ServerId { index })
        } else {
            None
        }
    }
}
