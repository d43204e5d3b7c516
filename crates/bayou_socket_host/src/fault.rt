use bayou_net::ListenFault;
use bayou_server::{JournalFault, StartFault};

/// Why nothing is served, or no more.
#[derive(Clone, Copy, Debug, PartialEq, Eq)]
pub(crate) enum Fault {
    /// The words aren't a file and a number of connections.
    Words,
    /// The file can't be opened or locked, or a call of it failed.
    Device,
    NotAJournal,
    OtherServer,
    /// The journal has something else than Writes that this server may hold.
    BadEntry,
    Memory,
    /// There is no port to listen at.
    Port,
    /// A connection couldn't be taken.
    Accept,
    Output,
}

impl Fault {
    pub(crate) fn text(self) -> &'static str {
        match self {
            Fault::Words =>
                "the words are a journal's file and how many connections are served, 1 to 65536",
            Fault::Device => "device",
            Fault::NotAJournal => "not a journal",
            Fault::OtherServer => "the journal of another server",
            Fault::BadEntry => "a bad entry in the journal",
            Fault::Memory => "memory",
            Fault::Port => "no port",
            Fault::Accept => "a connection can't be taken",
            Fault::Output => "output",
        }
    }

    /// The exit status: 2 for words that say nothing to be done.
    pub(crate) fn status(self) -> u8 {
        match self {
            Fault::Words => 2,
            _ => 3,
        }
    }
}

impl From<StartFault> for Fault {
    fn from(fault: StartFault) -> Fault {
        match fault {
            StartFault::Journal(JournalFault::Device) => Fault::Device,
            StartFault::Journal(JournalFault::NotAJournal) => Fault::NotAJournal,
            StartFault::Journal(JournalFault::OtherServer) => Fault::OtherServer,
            StartFault::BadRecord(_) | StartFault::Gap(_) | StartFault::LogFull => Fault::BadEntry,
            StartFault::OutOfMemory => Fault::Memory,
        }
    }
}

impl From<ListenFault> for Fault {
    fn from(fault: ListenFault) -> Fault {
        match fault {
            ListenFault::Accept => Fault::Accept,
            ListenFault::OutOfMemory => Fault::Memory,
        }
    }
}
