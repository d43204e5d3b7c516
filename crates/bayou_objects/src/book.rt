//! The lines of an audit file, an object for each.
ghost use Rattle.std.specs.Prelude.{◌≡◌, ◌<◌, ◌≤◌, IfOk, None, string_bytes};
ghost use Rattle.bayou_base.specs.declared.limits.TheConstants.{SERVERS as SERVERS_NUMBER};
ghost use Rattle.bayou_objects.specs.Objects.{booked_json};
ghost use Rattle.bayou_objects.specs.Laws.Ends.{booked_ends};
ghost use Rattle.bayou_print.specs.Booked.{entry_said};
ghost use Rattle.bayou_text.specs.Said.{held, said, servers};

use bayou_base::{Entry, ServerId, What};
use bayou_lang::RestingWrite;
use bayou_print::Printer;
use bayou_text::{AuditLine, Line};
use bayou_text_writer::write_line;
use std::alloc::{AllocError, Global};

/// The object of the line, which has its spelling.
fn object_of(alloc: Global, line: &Line) -> Result<String, AllocError>
    ensures { IfOk result (λ text. string_bytes text ≡ booked_json (said line.now)) }
{
    let line = write_line(alloc, line)?;
    format!(in alloc; "{{\"kind\":\"book\",\"line\":{line}}}\n")
}

/// The object of the first line, which tells how many servers there are.
pub(crate) fn servers_object(alloc: Global, count: u8) -> Result<String, AllocError>
    requires { (0 < count) × (count ≤ SERVERS_NUMBER) }
    ensures { IfOk result (λ text. string_bytes text ≡ booked_json (servers count None)) }
{
    let line = Line::Servers { count, limit: None };
    object_of(alloc, &line)
}

/// The entries of an audit file of so many servers.
#[derive(Clone, Copy)]
pub(crate) struct EntryObjects {
    pub count: u8,
    pub ghost in_range: { (0 < count) × (count ≤ SERVERS_NUMBER) },
}

impl Printer for EntryObjects {
    type Part = Entry;

    ghost text = { λ entries entry. booked_json (entry_said entries.count entry) };

    fn line(&self, alloc: Global, part: &Entry) -> Result<String, AllocError> {
        let counts = match part.what {
            What::Read(..) | What::Write(..) => Some(self.count),
            What::Refused => None,
        };
        let line = Line::Audit(AuditLine::Entry {
            entry: part.copy(),
            counts,
        });
        object_of(alloc, &line)
    }

    ghost ends = { λ entries entry. booked_ends (entry_said entries.count entry) };
}

/// The Writes that a server holds, in an audit file of so many servers.
#[derive(Clone, Copy)]
pub(crate) struct HoldingObjects {
    pub server: ServerId,
    pub count: u8,
    pub ghost in_range: { (0 < count) × (count ≤ SERVERS_NUMBER) },
}

impl Printer for HoldingObjects {
    type Part = RestingWrite;

    ghost text = { λ holding write. booked_json (held holding.server.index write holding.count) };

    fn line(&self, alloc: Global, part: &RestingWrite) -> Result<String, AllocError> {
        let line = Line::Audit(AuditLine::Held {
            server: self.server,
            write: part.copy(alloc)?,
            counts: self.count,
        });
        object_of(alloc, &line)
    }

    ghost ends = { λ holding write. booked_ends (held holding.server.index write holding.count) };
}
