use bayou_base::{Seen, ServerId};
use bayou_server::{
    Behind, ReopenFault, Reopened, StartFault, TakeFault, Took, WriteFault, Written,
};

/// What an event came to.
#[derive(Debug, Drop)]
pub enum Reply {
    /// The server's answer to a read, which is in flight.
    Read(Result<Seen, Behind>),
    /// The server's answer to a program, which is in flight.
    Wrote(Result<Written, WriteFault>),
    /// The answer of this server to a program that it was asked again, which is in flight.
    AskedAgain(ServerId, Result<Written, WriteFault>),
    /// The server's answer to an item.
    Took(Result<Took, TakeFault>),
    /// The offer has this number.
    Kept(u32),
    /// So many items went in flight, numbered from the first on.
    Flown { first: u32, number: u32 },
    /// The reply reached its session.
    Delivered,
    /// It was lost.
    Dropped,
    /// The fuse waits on the server's device.
    Fused,
    /// The server's answer to a reopening.
    Reopened(Result<Reopened, ReopenFault>),
    /// The server holds so many Writes as it starts; or why it didn't start, and is stopped.
    Restarted(Result<usize, StartFault>),
    /// The operation was entered in the book.
    Filed,
    /// Nothing went in flight, as memory was refused.
    NoMemory,
    /// The event named nothing that is there, or a server that is stopped, or a number above the greatest, or a session that can begin nothing now, or has nothing to
    /// ask again.
    Skipped,
}
