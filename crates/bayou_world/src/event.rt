use bayou_base::{Key, ServerId, SessionId};
use bayou_lang::RestingProgram;

/// One atomic step: of one server, or of one session by itself.
#[derive(Debug, Drop)]
pub enum Event {
    /// The session asks the server what a key has. The reply goes in flight to it.
    Read {
        session: SessionId,
        server: ServerId,
        key: Key,
    },
    /// The session asks the server to make a Write of the program. The reply goes in flight to it.
    Write {
        session: SessionId,
        server: ServerId,
        program: RestingProgram,
    },
    /// The session asks the last Write that it asked for once more, of the same server, under the tag that it had. The reply goes in flight to it.
    Again(SessionId),
    /// The reply in flight reaches the session.
    Deliver(SessionId),
    /// The reply in flight is lost.
    Lose(SessionId),
    /// What the server holds is kept as the next offer, from 0 on.
    Offer(ServerId),
    /// What the server holds and this offer hasn't goes in flight, as the next items, from 0 on.
    Collect {
        server: ServerId,
        offer: u32,
    },
    /// The server is given this item, which stays in flight.
    Take {
        server: ServerId,
        item: u32,
    },
    /// The `call`-th device call of the server from now fails, once. If it is an append, the first `kept` bytes of its piece are
    /// added, or all if it is shorter. A failure that still waits is forgotten.
    Fuse {
        server: ServerId,
        call: u32,
        kept: usize,
    },
    /// The server opens its journal again, and adopts or forgets the Write in doubt.
    Reopen(ServerId),
    /// The server is stopped, and started on what its device has.
    Restart(ServerId),
    /// The oldest of the session's delivered operations that isn't in the book yet is entered there.
    File(SessionId),
}
