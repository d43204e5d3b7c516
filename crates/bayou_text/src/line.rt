use crate::audit::AuditLine;
use crate::command::Command;
use bayou_base::KeyFault;
use bayou_lang::ProgramFault;
use std::alloc::{AllocError, AllocFailed};

/// A line of a script or of an audit file.
#[derive(Debug, Drop)]
pub enum Line {
    /// Starts this many servers, each with a log of this many Writes at the most.
    Servers {
        count: u8,
        /// `None` where the line doesn't say.
        limit: Option<u32>,
    },
    /// Asks something of the servers and the sessions.
    Command(Command),
    /// Tells something of a run that was.
    Audit(AuditLine),
}

/// What of a line has a shape that no line has.
#[derive(Clone, Copy, Debug, PartialEq, Eq)]
pub enum Shape {
    /// The line is too long, or no array that begins with a text.
    Line,
    /// The first word is no command.
    Command,
    /// An array has another number of members.
    Arity,
    /// A number isn't an integer, or lies outside of its range.
    Number,
    /// A word within the line is unknown there.
    Word,
    /// A key or a prefix isn't a text.
    Name,
    /// A value is neither an integer of `i64` nor a text of a value's length.
    Worth,
    /// A part has another form, or an object another member.
    Form,
}

/// Why a line wasn't read.
#[derive(Clone, Copy, Debug, PartialEq, Eq)]
pub enum LineFault {
    /// An allocation was refused. It says nothing of the line.
    OutOfMemory,
    /// The line isn't UTF-8, isn't JSON, or nests deeper than the reader goes.
    NotJson,
    /// The line is JSON that is no line.
    BadShape(Shape),
    /// A text is no key, or no prefix.
    Key(KeyFault),
    /// Lists make no program.
    Program(ProgramFault),
}

impl From<AllocError> for LineFault {
    ghost use Rattle.std.specs.Prelude.{◌≡◌};
    ghost use Rattle.bayou_text.specs.declared.line.LineFault.TheVariants.{OutOfMemory};

    ghost from_gives = { λ _ fault. fault ≡ OutOfMemory };

    fn from(_refused: AllocError) -> LineFault {
        LineFault::OutOfMemory
    }
}

impl<T: Drop> From<AllocFailed<T>> for LineFault {
    ghost use Rattle.std.specs.Prelude.{◌≡◌};
    ghost use Rattle.bayou_text.specs.declared.line.LineFault.TheVariants.{OutOfMemory};

    ghost from_gives = { λ _ fault. fault ≡ OutOfMemory };

    fn from(_refused: AllocFailed<T>) -> LineFault {
        LineFault::OutOfMemory
    }
}
