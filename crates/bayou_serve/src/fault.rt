ghost use Rattle.std.specs.Prelude.{◌≡◌};
ghost use Rattle.bayou_serve.specs.Faults.{told_as, untaken_as};

use bayou_base::ServerId;
use bayou_journal::Damage;
use bayou_key_file::{LabelFault, StoreName};
use bayou_restore::RestoreFault;
use bayou_server::{JournalFault, StartFault, TakeFault};
use std::alloc::AllocError;
use thiserror::Error;

/// Why a lost journal wasn't made again.
#[derive(Clone, Copy, Debug, PartialEq, Eq, Error)]
pub enum Unrestored {
    #[error("no peer was reached")]
    NoPeer,
    /// This server wasn't reached.
    #[error("server {0} is away: bring it up, or put --without {0} in the place of its --peer")]
    Away(u8),
    /// The answer of this server ended early, or can't be one, or another server answered.
    #[error("server {0} didn't answer whole: mend it, or put --without {0} in the place of its --peer")]
    BadAnswer(u8),
    /// Under this number these two servers have other Writes of this one: it gave the name twice.
    #[error("servers {one} and {other} have different Writes {number} of this server")]
    Differ { one: u8, other: u8, number: u32 },
    /// The own Write of this number can't have been made after those that it counts.
    #[error("the peers' Write {0} of this server can't be its own")]
    Misfit(u32),
    /// This server has another Write under the name of one that another server has.
    #[error("server {0} has another Write under a name that one before it has")]
    Conflict(u8),
    /// This server has more Writes of the one that is restored than all had before, and nobody else can make any.
    #[error("server {0} has Writes of this server that weren't there before")]
    MoreOwn(u8),
    /// This server has a Write that may not follow those that are taken.
    #[error("server {0} has a Write that fits nowhere")]
    Unfit(u8),
    #[error("it would have more Writes than --limit")]
    LogFull,
    /// The file that is to be the journal can't be opened or locked.
    #[error("its .part can't be opened, or another process has it")]
    NotOpened,
    /// A call of that file failed.
    #[error("a call of its .part failed")]
    Device,
    #[error("no random number")]
    Random,
    /// What tells without whom it is made again can't be kept.
    #[error("its .without can't be written, or another process has it")]
    LeftOut,
}

/// Why nothing is served, or no more.
#[derive(Clone, Copy, Debug, PartialEq, Eq, Error)]
pub enum ServeFault {
    /// The journal's file can't be opened or locked.
    #[error("it can't be opened, or another process has it")]
    NotOpened,
    #[error("there is no journal; --new makes one, and --restore makes a lost one again")]
    Missing,
    #[error("there is a journal; without --new and --restore it is gone on from")]
    Present,
    /// A call of the file failed.
    #[error("a call of the file failed")]
    Device,
    /// What stands after the whole entries is more than one that was torn.
    #[error("{0}")]
    Damaged(Damage),
    #[error("it is no journal")]
    NotAJournal,
    #[error("it is another server's journal")]
    OtherServer,
    /// The body of this entry, from 0 on, is no record.
    #[error("its entry {0} is no Write that may stand there")]
    BadRecord(u32),
    /// The Write of this entry may not follow those before it.
    #[error("its entry {0} may not follow those before it")]
    Gap(u32),
    #[error("it has more Writes than --limit")]
    LogFull,
    /// A peer, of this number, has a Write of this server, which its journal lacks.
    #[error("it lacks Writes of its own server that server {0} has")]
    OwnLost(u8),
    /// Its mark says so, whatever its peers say.
    #[error("it lost Writes of its own; move it away and start it with --restore")]
    Lost,
    /// The mark can't be opened or locked, or a call of it failed.
    #[error("its .mark can't be read or written, or another process has it")]
    MarkFailed,
    /// Its label says that it is of the store of this name, whose key wasn't given.
    #[error("it is of the store {0}; give its key by --key")]
    OtherStore(StoreName),
    /// The label can't be read or written, or is none.
    #[error("its .store can't be read or written, or says no store")]
    NotALabel,
    /// What tells without whom it was made again can't be opened or read, or names no server.
    #[error("its .without can't be read, or names no server")]
    LeftOutFailed,
    #[error("not restored: {0}")]
    NotRestored(Unrestored),
    #[error("memory")]
    Memory,
    #[error("no socket can be listened at there")]
    Port,
    /// A connection takes one.
    #[error("no more files may be open, so no connection can be taken: raise that limit (ulimit -n)")]
    NoDescriptor,
    #[error("output")]
    Output,
}

impl ServeFault {
    ghost use Rattle.std.specs.Prelude.{◌≡◌, ◌↔◌, true};
    ghost use Rattle.bayou_serve.specs.Faults.{IsOfJournal};

    /// Whether it is the journal's, so that its file is to be named.
    pub fn is_of_journal(self) -> bool
        ensures { result ≡ true ↔ IsOfJournal self }
    {
        !matches!(
            self,
            ServeFault::Memory | ServeFault::Port | ServeFault::NoDescriptor | ServeFault::Output
        )
    }
}

impl From<AllocError> for ServeFault {
    ghost use Rattle.std.specs.Prelude.{◌≡◌};
    ghost use Rattle.bayou_serve.specs.declared.fault.ServeFault.TheVariants.{Memory};

    ghost from_gives = { λ _ fault. fault ≡ Memory };

    fn from(_error: AllocError) -> ServeFault {
        ServeFault::Memory
    }
}

impl From<LabelFault> for ServeFault {
    ghost use Rattle.std.specs.Prelude.{◌≡◌};
    ghost use Rattle.bayou_serve.specs.Faults.{labelled_as};

    ghost from_gives = { λ refusal fault. fault ≡ labelled_as refusal };

    fn from(fault: LabelFault) -> ServeFault {
        match fault {
            LabelFault::OtherStore(name) => ServeFault::OtherStore(name),
            LabelFault::NotALabel => ServeFault::NotALabel,
            LabelFault::OutOfMemory => ServeFault::Memory,
        }
    }
}

impl From<RestoreFault> for ServeFault {
    ghost use Rattle.std.specs.Prelude.{◌≡◌};
    ghost use Rattle.bayou_serve.specs.Faults.{unrestored_as};

    ghost from_gives = { λ refusal fault. fault ≡ unrestored_as refusal };

    fn from(fault: RestoreFault) -> ServeFault {
        match fault {
            RestoreFault::Misfit(number) => ServeFault::NotRestored(Unrestored::Misfit(number)),
            RestoreFault::LogFull => ServeFault::NotRestored(Unrestored::LogFull),
            RestoreFault::Device | RestoreFault::NotEmpty => {
                ServeFault::NotRestored(Unrestored::Device)
            }
            RestoreFault::OutOfMemory => ServeFault::Memory,
        }
    }
}

/// The fault of a Write of this peer that a server which is restored doesn't take.
pub(crate) fn untaken(peer: ServerId, fault: TakeFault) -> ServeFault
    ensures { result ≡ untaken_as peer.index fault }
{
    let why = match fault {
        TakeFault::Conflict => Unrestored::Conflict(peer.index),
        TakeFault::OwnLost => Unrestored::MoreOwn(peer.index),
        TakeFault::Gap | TakeFault::BadStamp => Unrestored::Unfit(peer.index),
        TakeFault::LogFull => Unrestored::LogFull,
        TakeFault::Down | TakeFault::Journal => Unrestored::Device,
        TakeFault::OutOfMemory => return ServeFault::Memory,
    };
    ServeFault::NotRestored(why)
}

/// What a start that was refused is reported as. A device that refused a cut tells the damage.
pub(crate) fn fault_of(refused: StartFault, damage: Option<Damage>) -> ServeFault
    ensures { result ≡ told_as refused damage }
{
    match (refused, damage) {
        (StartFault::Journal(JournalFault::Device), Some(damage)) => ServeFault::Damaged(damage),
        (StartFault::Journal(JournalFault::Device), None) => ServeFault::Device,
        (StartFault::Journal(JournalFault::NotAJournal), _) => ServeFault::NotAJournal,
        (StartFault::Journal(JournalFault::OtherServer), _) => ServeFault::OtherServer,
        (StartFault::BadRecord(at), _) => ServeFault::BadRecord(at),
        (StartFault::Gap(at), _) => ServeFault::Gap(at),
        (StartFault::LogFull, _) => ServeFault::LogFull,
        (StartFault::OutOfMemory, _) => ServeFault::Memory,
    }
}
