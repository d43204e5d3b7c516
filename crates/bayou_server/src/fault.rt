use bayou_base::{Refusal, Vector};
use bayou_journal::OpenFault;
use std::alloc::AllocError;

/// Why a server's journal wasn't opened.
#[derive(Clone, Copy, Debug, PartialEq, Eq)]
pub enum JournalFault {
    /// A device call failed.
    Device,
    /// The bytes are no journal's.
    NotAJournal,
    /// The journal is another server's.
    OtherServer,
}

/// Why a server didn't start. Entries are numbered from 0.
#[derive(Clone, Copy, Debug, PartialEq, Eq)]
pub enum StartFault {
    Journal(JournalFault),
    /// The body of this entry is no record of the server's journal, or one whose tag an earlier Write has.
    BadRecord(u32),
    /// This entry's Write may not follow those before it.
    Gap(u32),
    /// The journal has a Write more than the server may hold.
    LogFull,
    OutOfMemory,
}

/// A server that didn't start: why, and its device.
#[derive(Debug, Drop)]
pub struct NotStarted<D> {
    pub fault: StartFault,
    pub device: D,
}

/// The server doesn't hold all that a session needs.
#[derive(Clone, Copy, Debug, PartialEq, Eq)]
pub struct Behind {
    /// What it holds.
    pub vector: Vector,
}

/// Why a program was made no Write of.
#[derive(Clone, Copy, Debug, PartialEq, Eq)]
pub enum WriteFault {
    /// A Write is held under the tag, of another program, or before which its server didn't hold all that the session needs.
    TagUsed,
    /// A Write is in doubt.
    Down,
    /// The server doesn't hold all that the session needs, but this.
    Behind(Vector),
    /// The server holds as many Writes as it may.
    LogFull,
    OutOfMemory,
    /// A device call failed. The Write is in doubt, and the server is down.
    Journal,
}

/// Why a Write that another server accepted isn't taken.
#[derive(Clone, Copy, Debug, PartialEq, Eq)]
pub enum TakeFault {
    /// Another Write of its name is held.
    Conflict,
    /// A Write is in doubt.
    Down,
    /// The server made it itself, and doesn't hold it.
    OwnLost,
    /// A Write before it is missing, or its origin is none of the servers.
    Gap,
    /// None is missing, but its server didn't hold all of its own before it, or its clock isn't one more than the
    /// greatest that its server held.
    BadStamp,
    /// The server holds as many Writes as it may.
    LogFull,
    OutOfMemory,
    /// A device call failed. The Write is in doubt, and the server is down.
    Journal,
}

/// Why a server that was to be opened again isn't up again.
#[derive(Clone, Copy, Debug, PartialEq, Eq)]
pub enum ReopenFault {
    /// It is up.
    NotDown,
    Journal(JournalFault),
    /// The journal doesn't begin with the Writes that the server holds.
    Lost,
    /// What follows the Writes held, at this place, is neither nothing nor the Write in doubt alone.
    BadRecord(u32),
    OutOfMemory,
}

impl From<OpenFault> for StartFault {
    ghost use Rattle.std.specs.Prelude.{◌≡◌};
    ghost use Rattle.bayou_server.specs.Faults.{start_fault};

    ghost from_gives = { λ refusal fault. fault ≡ start_fault refusal };

    fn from(fault: OpenFault) -> Self {
        match fault {
            OpenFault::Device => StartFault::Journal(JournalFault::Device),
            OpenFault::NotAJournal => StartFault::Journal(JournalFault::NotAJournal),
            OpenFault::OtherServer => StartFault::Journal(JournalFault::OtherServer),
            OpenFault::OutOfMemory => StartFault::OutOfMemory,
        }
    }
}

impl From<AllocError> for StartFault {
    ghost use Rattle.std.specs.Prelude.{◌≡◌};
    ghost use Rattle.bayou_server.specs.declared.fault.StartFault.TheVariants.{OutOfMemory};

    ghost from_gives = { λ _ fault. fault ≡ OutOfMemory };

    fn from(_: AllocError) -> Self {
        StartFault::OutOfMemory
    }
}

impl From<AllocError> for WriteFault {
    ghost use Rattle.std.specs.Prelude.{◌≡◌};
    ghost use Rattle.bayou_server.specs.declared.fault.WriteFault.TheVariants.{OutOfMemory};

    ghost from_gives = { λ _ fault. fault ≡ OutOfMemory };

    fn from(_: AllocError) -> Self {
        WriteFault::OutOfMemory
    }
}

impl From<AllocError> for TakeFault {
    ghost use Rattle.std.specs.Prelude.{◌≡◌};
    ghost use Rattle.bayou_server.specs.declared.fault.TakeFault.TheVariants.{OutOfMemory};

    ghost from_gives = { λ _ fault. fault ≡ OutOfMemory };

    fn from(_: AllocError) -> Self {
        TakeFault::OutOfMemory
    }
}

impl From<OpenFault> for ReopenFault {
    ghost use Rattle.std.specs.Prelude.{◌≡◌};
    ghost use Rattle.bayou_server.specs.Faults.{reopen_fault};

    ghost from_gives = { λ refusal fault. fault ≡ reopen_fault refusal };

    fn from(fault: OpenFault) -> Self {
        match fault {
            OpenFault::Device => ReopenFault::Journal(JournalFault::Device),
            OpenFault::NotAJournal => ReopenFault::Journal(JournalFault::NotAJournal),
            OpenFault::OtherServer => ReopenFault::Journal(JournalFault::OtherServer),
            OpenFault::OutOfMemory => ReopenFault::OutOfMemory,
        }
    }
}

impl From<AllocError> for ReopenFault {
    ghost use Rattle.std.specs.Prelude.{◌≡◌};
    ghost use Rattle.bayou_server.specs.declared.fault.ReopenFault.TheVariants.{OutOfMemory};

    ghost from_gives = { λ _ fault. fault ≡ OutOfMemory };

    fn from(_: AllocError) -> Self {
        ReopenFault::OutOfMemory
    }
}

impl From<WriteFault> for Refusal {
    ghost use Rattle.std.specs.Prelude.{◌≡◌};
    ghost use Rattle.bayou_server.specs.Faults.{write_refusal};

    ghost from_gives = { λ fault refusal. refusal ≡ write_refusal fault };

    fn from(fault: WriteFault) -> Self {
        match fault {
            WriteFault::TagUsed => Refusal::TagUsed,
            WriteFault::Down => Refusal::Down,
            WriteFault::Behind(vector) => Refusal::Behind(vector),
            WriteFault::LogFull => Refusal::LogFull,
            WriteFault::OutOfMemory => Refusal::OutOfMemory,
            WriteFault::Journal => Refusal::Journal,
        }
    }
}

impl From<ReopenFault> for Refusal {
    ghost use Rattle.std.specs.Prelude.{◌≡◌};
    ghost use Rattle.bayou_server.specs.Faults.{reopen_refusal};

    ghost from_gives = { λ fault refusal. refusal ≡ reopen_refusal fault };

    fn from(fault: ReopenFault) -> Self {
        match fault {
            ReopenFault::NotDown => Refusal::NotDown,
            ReopenFault::Journal(_) => Refusal::Journal,
            ReopenFault::Lost => Refusal::Lost,
            ReopenFault::BadRecord(at) => Refusal::BadRecord(at),
            ReopenFault::OutOfMemory => Refusal::OutOfMemory,
        }
    }
}
