ghost use Rattle.std.specs.Prelude.{◌<◌};

use bayou_base::{Asks, Key, ServerId, SessionId};
use bayou_lang::RestingProgram;

/// A failure of a device to come.
#[derive(Clone, Copy, Debug, PartialEq, Eq)]
pub struct PlannedFailure {
    /// Which device call from now fails: the first is the next one.
    pub calls: u32,
    /// How many bytes of its piece are added, if it is an append.
    pub kept: usize,
    pub ghost to_come: { 0 < calls },
}

/// What a line asks of the servers and the sessions, after the line that starts the servers.
#[derive(Debug, Drop)]
pub enum Command {
    /// Opens a session that asks for these guarantees.
    Session { session: SessionId, asks: Asks },
    /// A session tries to write, to read, or to write again.
    Operation(Operation),
    /// The next operation that the session tries is to get no reply, whatever becomes of it.
    Drop(SessionId),
    /// What a server's device, or its journal, is put through.
    Trial(Trial),
    /// A server is to take Writes from another.
    Exchange(Exchange),
    /// Something is asked, which changes nothing.
    Question(Question),
    /// A phase ends. A run in one process has none: there it changes nothing and tells nothing.
    Phase,
}

/// What a session tries.
#[derive(Debug, Drop)]
pub struct Operation {
    pub session: SessionId,
    pub attempt: Attempt,
}

/// What is tried.
#[derive(Debug, Drop)]
pub enum Attempt {
    /// It writes at the server.
    Write {
        server: ServerId,
        program: RestingProgram,
    },
    /// It reads the key at the server.
    Read {
        server: ServerId,
        key: Key,
    },
    /// It asks its last Write again, at the server that it asked then.
    Again,
}

/// What a server is put through.
#[derive(Clone, Copy, Debug, PartialEq, Eq)]
pub struct Trial {
    pub server: ServerId,
    pub kind: TrialKind,
}

/// How a server is tried.
#[derive(Clone, Copy, Debug, PartialEq, Eq)]
pub enum TrialKind {
    /// Its device fails, once.
    Fuse(PlannedFailure),
    /// Its device loses so many of its last bytes.
    Lose(usize),
    /// It takes its journal up again, if it is down.
    Reopen,
    /// It is stopped, and started again on its device.
    Restart,
}

/// A server takes Writes from another.
#[derive(Clone, Copy, Debug, PartialEq, Eq)]
pub struct Exchange {
    pub to: ServerId,
    pub from: ServerId,
    pub extent: Extent,
}

/// How much of what the other holds a server takes.
#[derive(Clone, Copy, Debug, PartialEq, Eq)]
pub enum Extent {
    /// What it lacks.
    Lacking {
        /// After how many Writes the stream is cut, if it is.
        cut: Option<u32>,
    },
    /// All that the other holds.
    All,
}

/// What is asked.
#[derive(Clone, Copy, Debug, PartialEq, Eq)]
pub enum Question {
    /// The Writes that the server holds, with the outcome of each.
    Log(ServerId),
    /// The numbers of reads, Writes and refusals that were filed so far, and of slips that are out.
    Totals,
    /// Whether some session wasn't given what it asked for: the first entry that shows it, among those filed so far.
    Judge,
    /// For each session, which of the four guarantees it was given, whatever it asked for.
    Survey,
    /// The audit file of what was filed so far, and of what the servers hold.
    Book,
}
