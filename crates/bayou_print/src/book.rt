//! The lines of an audit file.
ghost use Rattle.std.specs.Prelude.{◌≡◌, ◌<◌, ◌≤◌, IfOk, None, string_bytes};
ghost use Rattle.bayou_base.specs.declared.limits.TheConstants.{SERVERS as SERVERS_NUMBER};
ghost use Rattle.bayou_print.specs.Booked.{entry_said, line_text};
ghost use Rattle.bayou_print.specs.Laws.Ends.{line_ends};
ghost use Rattle.bayou_text.specs.Said.{held, servers};
ghost use Rattle.bayou_text.specs.Said.{said};

use crate::printer::Printer;
use bayou_base::{Entry, ServerId, What};
use bayou_lang::RestingWrite;
use bayou_text::{AuditLine, Line};
use bayou_text_writer::write_line;
use std::alloc::{AllocError, Global};

/// The spelling of the line, with its line feed.
fn line_of(alloc: Global, line: &Line) -> Result<String, AllocError>
    ensures { IfOk result (λ text. string_bytes text ≡ line_text (said line.now)) }
{
    let mut text = write_line(alloc, line)?;
    text.push_str("\n")?;
    Ok(text)
}

/// The first line, which tells how many servers there are.
pub fn servers_line(alloc: Global, count: u8) -> Result<String, AllocError>
    requires { (0 < count) × (count ≤ SERVERS_NUMBER) }
    ensures { IfOk result (λ text. string_bytes text ≡ line_text (servers count None)) }
{
    let line = Line::Servers { count, limit: None };
    line_of(alloc, &line)
}

/// The entries of an audit file of so many servers.
#[derive(Clone, Copy, Debug)]
pub struct Entries {
    pub count: u8,
    pub ghost in_range: { (0 < count) × (count ≤ SERVERS_NUMBER) },
}

impl Printer for Entries {
    type Part = Entry;

    ghost text = { λ entries entry. line_text (entry_said entries.count entry) };

    fn line(&self, alloc: Global, part: &Entry) -> Result<String, AllocError> {
        let counts = match part.what {
            What::Read(..) | What::Write(..) => Some(self.count),
            What::Refused => None,
        };
        let line = Line::Audit(AuditLine::Entry {
            entry: part.copy(),
            counts,
        });
        line_of(alloc, &line)
    }

    ghost ends = { λ entries entry. line_ends (entry_said entries.count entry) };
}

/// The Writes that a server holds, in an audit file of so many servers.
#[derive(Clone, Copy, Debug)]
pub struct Holding {
    pub server: ServerId,
    pub count: u8,
    pub ghost in_range: { (0 < count) × (count ≤ SERVERS_NUMBER) },
}

impl Printer for Holding {
    type Part = RestingWrite;

    ghost text = { λ holding write. line_text (held holding.server.index write holding.count) };

    fn line(&self, alloc: Global, part: &RestingWrite) -> Result<String, AllocError> {
        let line = Line::Audit(AuditLine::Held {
            server: self.server,
            write: part.copy(alloc)?,
            counts: self.count,
        });
        line_of(alloc, &line)
    }

    ghost ends = { λ holding write. line_ends (held holding.server.index write holding.count) };
}
