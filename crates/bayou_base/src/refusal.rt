//! Why a server refuses a request: one type, from the server to the person who asked.
ghost use Rattle.std.specs.Prelude.{◌≡◌};
ghost use Rattle.bayou_base.specs.Refusal.{refusal_code, refusal_word, refuses_operation as may_refuse_operation, refuses_reopening as may_refuse_reopening};

use crate::vector::Vector;

/// The code of [`Refusal::Down`].
pub const CODE_DOWN: u8 = 1;
/// The code of [`Refusal::Behind`].
pub const CODE_BEHIND: u8 = 2;
/// The code of [`Refusal::LogFull`].
pub const CODE_LOG_FULL: u8 = 3;
/// The code of [`Refusal::Journal`].
pub const CODE_JOURNAL: u8 = 4;
/// The code of [`Refusal::NotDown`].
pub const CODE_NOT_DOWN: u8 = 5;
/// The code of [`Refusal::BadRecord`].
pub const CODE_BAD_RECORD: u8 = 6;
/// The code of [`Refusal::Lost`].
pub const CODE_LOST: u8 = 7;
/// The code of [`Refusal::OutOfMemory`].
pub const CODE_OUT_OF_MEMORY: u8 = 8;
/// The code of [`Refusal::TagUsed`].
pub const CODE_TAG_USED: u8 = 9;

/// Why a server refuses a request. A read is refused as behind alone; only a reopening is refused as not down, as lost, or by a record.
#[derive(Clone, Copy, Debug, PartialEq, Eq)]
pub enum Refusal {
    /// It is down: a Write is in doubt.
    Down,
    /// It doesn't hold all that the session needs, but this.
    Behind(Vector),
    /// It holds as many Writes as it may.
    LogFull,
    /// Its journal failed. Where a Write was asked for, that is in doubt, and the server is down.
    Journal,
    /// It is up, so there is nothing to open again.
    NotDown,
    /// What follows the Writes held in its journal, at this place, from 0 on, is neither nothing nor the Write in doubt alone.
    BadRecord(u32),
    /// Its journal doesn't begin with the Writes that it holds.
    Lost,
    /// Its memory ran out.
    OutOfMemory,
    /// It holds a Write of this tag: of another program, or before which its server didn't hold all that the session needs.
    TagUsed,
}

impl Refusal {
    /// The number that stands for it in a frame, from 1 to 9.
    pub fn code(&self) -> u8
        ensures { result ≡ refusal_code self.now }
    {
        match self {
            Refusal::Down => CODE_DOWN,
            Refusal::Behind(_) => CODE_BEHIND,
            Refusal::LogFull => CODE_LOG_FULL,
            Refusal::Journal => CODE_JOURNAL,
            Refusal::NotDown => CODE_NOT_DOWN,
            Refusal::BadRecord(_) => CODE_BAD_RECORD,
            Refusal::Lost => CODE_LOST,
            Refusal::OutOfMemory => CODE_OUT_OF_MEMORY,
            Refusal::TagUsed => CODE_TAG_USED,
        }
    }

    /// The word that a person reads.
    pub fn word(&self) -> &'static str
        ensures { result.now ≡ refusal_word self.now }
    {
        match self {
            Refusal::Down => "down",
            Refusal::Behind(_) => "behind",
            Refusal::LogFull => "full",
            Refusal::Journal => "journal",
            Refusal::NotDown => "notdown",
            Refusal::BadRecord(_) => "record",
            Refusal::Lost => "lost",
            Refusal::OutOfMemory => "memory",
            Refusal::TagUsed => "used",
        }
    }

    /// Whether a read or a Write may be refused so.
    pub fn refuses_operation(&self) -> bool
        ensures { result ≡ may_refuse_operation self.now }
    {
        !matches!(
            self,
            Refusal::NotDown | Refusal::BadRecord(_) | Refusal::Lost
        )
    }

    /// Whether a reopening may be refused so.
    pub fn refuses_reopening(&self) -> bool
        ensures { result ≡ may_refuse_reopening self.now }
    {
        matches!(
            self,
            Refusal::Journal
                | Refusal::NotDown
                | Refusal::BadRecord(_)
                | Refusal::Lost
                | Refusal::OutOfMemory
        )
    }
}
