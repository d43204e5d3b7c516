use bayou_audit::Totals;
use bayou_base::{Accepted, Key, Refusal, Seen, ServerId, SessionId, Vector, Wid};
use bayou_judge::{BadEvidence, Surveyed, Verdict};
use bayou_log::Listed;
use bayou_peer::{PullStopped, Pulled};
use bayou_script::AuditFile;
use bayou_server::StartFault;

/// What a command is answered.
#[derive(Debug, Drop)]
pub enum Answer {
    /// It was done, and nothing is printed.
    Done,
    /// The session's Write was accepted.
    Wrote {
        session: SessionId,
        accepted: Accepted,
    },
    /// The session's read was served.
    Read {
        session: SessionId,
        key: Key,
        seen: Seen,
    },
    /// The session's operation was refused. Of the refusals a read meets but the one that the server is behind what the session needs, and over
    /// a connection that memory ran out.
    Refused {
        session: SessionId,
        refusal: Refusal,
    },
    /// No reply reached the session.
    Lost {
        session: SessionId,
    },
    /// The session has no Write to ask again, and tried nothing.
    NotAgain {
        session: SessionId,
    },
    /// What the server holds: its Writes in stamp order, with their outcomes, and its vector.
    Logged {
        server: ServerId,
        listing: Vec<Listed>,
        vector: Vector,
    },
    /// The server is stopped, and lists nothing.
    Stopped {
        server: ServerId,
    },
    /// What became of a server that was to be reopened or restarted.
    Recovered(Recovery),
    /// What became of a server that was to take Writes from another.
    Exchanged(Transfer),
    /// How much was filed so far.
    Counted(Totals),
    /// The verdict on what was filed so far and what the servers hold.
    Judged(Result<Verdict, BadEvidence>),
    /// What became of each guarantee in each session that was filed so far.
    Surveyed(Result<Vec<Surveyed>, BadEvidence>),
    /// What was filed so far and what the servers hold.
    Booked(AuditFile),
}

/// What became of a server that was to take Writes from another.
#[derive(Clone, Copy, Debug, PartialEq, Eq)]
pub enum Transfer {
    /// One of the two is stopped.
    NotRunning,
    /// It took what came, up to the End or to what ended it before.
    Ended(Result<Pulled, PullStopped>),
}

/// What became of a server that was to be reopened or restarted.
#[derive(Clone, Copy, Debug, PartialEq, Eq)]
pub enum Recovery {
    /// It is up again, with the Write that was in doubt or without it.
    Reopened {
        server: ServerId,
        adopted: Option<Wid>,
    },
    /// It wasn't reopened.
    NotReopened(Refusal),
    /// It is stopped: it isn't reopened, only started again.
    NotRunning,
    /// It was stopped, and started again on what its device has.
    Restarted {
        server: ServerId,
        /// How many Writes it holds.
        holds: usize,
        /// How many bytes were cut after them.
        dropped: usize,
    },
    /// It was stopped, and its start was refused.
    NotRestarted(StartFault),
}
