use bayou_base::{ServerId, SessionId, Wid};

/// One of the four session guarantees (Terry et al. 1994).
#[derive(Clone, Copy, Debug, PartialEq, Eq)]
pub enum Guarantee {
    /// Reads see what the session wrote before.
    ReadYourWrites,
    /// Reads see what the session's reads saw before.
    MonotonicReads,
    /// Writes stand, wherever they stand, after what the session had read before.
    WritesFollowReads,
    /// Writes stand, wherever they stand, after what the session had written before.
    MonotonicWrites,
}

/// Two operations of a session that violate one of its guarantees.
#[derive(Clone, Copy, Debug, PartialEq, Eq)]
pub struct Breach {
    pub guarantee: Guarantee,
    pub session: SessionId,
    /// The place of the earlier operation in its session.
    pub first: u32,
    /// The place of the later one.
    pub second: u32,
    /// Where it shows: the server that the later read was from, or one that has the later Write.
    pub server: ServerId,
    /// The Write that is missing there, or isn't before the later Write.
    pub wid: Wid,
}
