use crate::breach::Breach;
use bayou_base::{ServerId, SessionId};

/// What becomes of what the sessions asked for.
#[derive(Clone, Copy, Debug, PartialEq, Eq)]
pub enum Verdict {
    /// Each session had each guarantee that it asked for.
    Clean,
    /// The least breach of what was asked for.
    Broken(Breach),
}

/// Why entries and dumps stand for no history.
#[derive(Clone, Copy, Debug, PartialEq, Eq)]
pub enum BadEvidence {
    /// The server can't have held what its dump has at this place, from 0 on.
    BadDump(ServerId, usize),
    /// The entry at this place, from 0 on, tells of what can't have been.
    Forged(usize),
}

/// What became of each guarantee in a session, asked for or not: its least breach, or `None` where the session had it.
#[derive(Clone, Copy, Debug, PartialEq, Eq)]
pub struct Surveyed {
    pub session: SessionId,
    /// Read Your Writes.
    pub ryw: Option<Breach>,
    /// Monotonic Reads.
    pub mr: Option<Breach>,
    /// Writes Follow Reads.
    pub wfr: Option<Breach>,
    /// Monotonic Writes.
    pub mw: Option<Breach>,
}
