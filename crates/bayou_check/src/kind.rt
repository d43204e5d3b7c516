//! Which kind of text it is.
ghost use Rattle.std.specs.Prelude.{◌≡◌};
ghost use Rattle.bayou_check.specs.Shown.{command_text};

use crate::forms::{COMMANDS, TOLD};
use std::fmt;

/// What a text is checked as.
#[derive(Clone, Copy, Debug, PartialEq, Eq)]
pub enum TextKind {
    /// A script, which `bayou run` takes.
    Script,
    /// An audit file, which `bayou audit` takes.
    Audit,
}

impl TextKind {
    /// The words that its lines begin with.
    pub(crate) fn known(self) -> &'static [&'static str] {
        match self {
            TextKind::Script => &COMMANDS,
            TextKind::Audit => &TOLD,
        }
    }

    pub(crate) fn words(self) -> &'static str {
        match self {
            TextKind::Script => {
                "a command: servers, session, write, read, again, drop, log, fuse, lose, reopen, restart, pull, resend, totals, judge, survey, book or phase"
            }
            TextKind::Audit => "servers, entry or held",
        }
    }

    /// The command that takes it.
    pub fn command(self) -> &'static str
        ensures { result.now ≡ command_text self }
    {
        match self {
            TextKind::Script => "run",
            TextKind::Audit => "audit",
        }
    }
}

impl fmt::Display for TextKind {
    fn fmt<W: fmt::Write>(&self, f: &mut fmt::Formatter<W>) -> fmt::Result {
        f.write_str(match *self {
            TextKind::Script => "script",
            TextKind::Audit => "audit file",
        })
    }
}
