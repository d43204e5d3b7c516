//! Why nothing is renewed.
ghost use Rattle.std.specs.Prelude.{◌≡◌};
ghost use Rattle.bayou_renew.specs.Renewing.{unread_as};

use bayou_base::Vector;
use bayou_journal::Damage;
use bayou_server::{JournalFault, StartFault};
use std::alloc::AllocError;
use thiserror::Error;

/// Why a journal isn't read that is to be renewed.
#[derive(Clone, Copy, Debug, PartialEq, Eq, Error)]
pub enum ReadingFault {
    #[error("there is no journal")]
    Missing,
    /// The file can't be opened or locked.
    #[error("it can't be opened, or another process has it")]
    NotOpened,
    /// A call of the file failed.
    #[error("a call of the file failed")]
    Device,
    /// What stands after the whole entries is more than one that was torn.
    #[error("{0}")]
    Damaged(Damage),
    #[error("it is no journal")]
    NotAJournal,
    #[error("it is another server's journal")]
    OtherServer,
    /// The body of this entry, from 0 on, is no record.
    #[error("its entry {0} is no Write that may stand there")]
    BadRecord(u32),
    /// The Write of this entry may not follow those before it.
    #[error("its entry {0} may not follow those before it")]
    Gap(u32),
    #[error("it has more Writes than a server may hold")]
    LogFull,
    #[error("memory")]
    Memory,
}

/// Why the Writes of a new store aren't made.
#[derive(Clone, Copy, Debug, PartialEq, Eq)]
pub enum RenewFault {
    /// The journal isn't read.
    Unread(ReadingFault),
    /// The server holds this, and not what it must hold.
    Elsewhere(Vector),
    /// The database takes so many Writes, which are more than it may.
    TooMany(usize),
    OutOfMemory,
}

/// Why the new journal isn't there.
#[derive(Clone, Copy, Debug, PartialEq, Eq, Error)]
pub enum WritingFault {
    #[error("there is one already")]
    Present,
    /// The file that is to be the journal can't be opened or locked.
    #[error("its .part can't be opened, or another process has it")]
    NotOpened,
    /// A call of that file failed.
    #[error("a call of its .part failed")]
    Device,
}

impl From<AllocError> for RenewFault {
    ghost use Rattle.std.specs.Prelude.{◌≡◌};
    ghost use Rattle.bayou_renew.specs.declared.fault.RenewFault.TheVariants.{OutOfMemory};

    ghost from_gives = { λ _ fault. fault ≡ OutOfMemory };

    fn from(_error: AllocError) -> RenewFault {
        RenewFault::OutOfMemory
    }
}

/// What a start that was refused is reported as. A device that refused a cut tells the damage.
pub(crate) fn unread(refused: StartFault, damage: Option<Damage>) -> ReadingFault
    ensures { result ≡ unread_as refused damage }
{
    match (refused, damage) {
        (StartFault::Journal(JournalFault::Device), Some(damage)) => ReadingFault::Damaged(damage),
        (StartFault::Journal(JournalFault::Device), None) => ReadingFault::Device,
        (StartFault::Journal(JournalFault::NotAJournal), _) => ReadingFault::NotAJournal,
        (StartFault::Journal(JournalFault::OtherServer), _) => ReadingFault::OtherServer,
        (StartFault::BadRecord(at), _) => ReadingFault::BadRecord(at),
        (StartFault::Gap(at), _) => ReadingFault::Gap(at),
        (StartFault::LogFull, _) => ReadingFault::LogFull,
        (StartFault::OutOfMemory, _) => ReadingFault::Memory,
    }
}
