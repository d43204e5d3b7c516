//! Which lines a breach touches, and where its Write is missing.
use crate::marks::Marked;
use bayou_base::{Entry, ServerId, What, Wid};
use bayou_explain::{Located, ShownLine};
use bayou_judge::{BadEvidence, Breach};
use bayou_text::AuditLine;

// The entry of the breach's later operation.
fn later_of<'l>(lines: &'l [Located<'_>], breach: &Breach) -> Option<&'l Entry> {
    for line in lines {
        if line.is_operation(breach.session, breach.second) {
            return match &line.told {
                AuditLine::Entry { entry, .. } => Some(entry),
                AuditLine::Held { .. } => None,
            };
        }
    }
    None
}

/// The Write that the breach's later operation is, where it is one.
pub(crate) fn later_wid(lines: &[Located<'_>], breach: &Breach) -> Option<Wid> {
    match &later_of(lines, breach)?.what {
        What::Write(wid, _, _) => Some(*wid),
        What::Read(_, _) | What::Refused => None,
    }
}

/// Whether the line tells a Write that this server holds.
pub(crate) fn is_held_by(line: &Located<'_>, server: ServerId) -> bool {
    match &line.told {
        AuditLine::Entry { .. } => false,
        AuditLine::Held { server: holder, .. } => holder.index == server.index,
    }
}

// How many Writes stand before this one in the server's dump.
fn place_in(lines: &[Located<'_>], server: ServerId, wid: Wid) -> Option<usize> {
    let mut before = 0usize;
    for line in lines {
        if line.is_held(server, wid) {
            return Some(before);
        }
        if is_held_by(line, server) {
            before = before.saturating_add(1);
        }
    }
    None
}

/// How many Writes stand before the place, in the dump of the breach's server, at which the Write is missing: those of the database that the read was
/// served from, or those before the later Write.
pub(crate) fn missing_at(lines: &[Located<'_>], breach: &Breach) -> Option<usize> {
    match &later_of(lines, breach)?.what {
        What::Read(_, vector) => Some(vector.total() as usize),
        What::Write(wid, _, _) => place_in(lines, breach.server, *wid),
        What::Refused => None,
    }
}

// Whether it is this line.
fn is_at(shown: Option<ShownLine<'_>>, at: usize) -> bool {
    match shown {
        Some(shown) => shown.at == at,
        None => false,
    }
}

// Whether the line tells the Write of the breach's later operation, as the breach's server holds it.
fn is_later(marked: &Marked<'_>, line: &Located<'_>) -> bool {
    match marked.later {
        Some(wid) => line.is_held(marked.explained.breach.server, wid),
        None => false,
    }
}

/// Whether the breach touches the line: it tells one of its operations, its Write, or where that is missing.
pub(crate) fn touches(marked: &Marked<'_>, line: &Located<'_>) -> bool {
    let explained = marked.explained;
    is_at(explained.first, line.at)
        || is_at(explained.second, line.at)
        || is_at(explained.write, line.at)
        || is_at(explained.there, line.at)
        || is_later(marked, line)
}

/// Whether it is the line, of this number among those of its kind, that can't be true.
pub(crate) fn is_bad(bad: Option<BadEvidence>, line: &Located<'_>, number: usize) -> bool {
    match bad {
        Some(BadEvidence::Forged(entry)) => line.is_entry() && number == entry,
        Some(BadEvidence::BadDump(server, place)) => is_held_by(line, server) && number == place,
        None => false,
    }
}
