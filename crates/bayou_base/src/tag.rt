ghost use Rattle.std.specs.Prelude.{◌≡◌, ◌<◌, ◌↔◌, IsSome, IfSome};

use crate::session::SessionId;

/// The name of the asking of a Write, which stays the same where the Write is asked again: the session that asked, the run
/// of the program in which it did, and the place, of those that the session began in that run, at which it asked first. Runs
/// and places are counted from 1.
#[derive(Clone, Copy, Debug, PartialEq, Eq, PartialOrd, Ord)]
pub struct Tag {
    pub session: SessionId,
    pub run: u32,
    pub number: u32,
    pub ghost in_range: { (0 < run) × (0 < number) },
}

impl Tag {
    /// The tag of `session`, `run` and `number`, or `None` where one of the two numbers is zero.
    pub fn new(session: SessionId, run: u32, number: u32) -> Option<Self>
        ensures within { IsSome result ↔ ((0 < run) × (0 < number)) }
        ensures value { IfSome result (λ tag. (tag.session ≡ session) × (tag.run ≡ run) × (tag.number ≡ number)) }
    {
        if 0 < run && 0 < number {
            Some(Tag {
                session,
                run,
                number,
            })
        } else {
            None
        }
    }
}
