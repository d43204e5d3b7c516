//! Which condition an entry fails that can't be true.
ghost use Rattle.std.specs.Prelude.{◌≡◌, ◌↔◌, ◌≤◌, ℕ, IsTrue, MatchOption, length};
ghost use Rattle.std.specs.List.{filter};
ghost use Rattle.bayou_base.specs.declared.entry.What.TheVariants.{Write};
ghost use Rattle.bayou_text.specs.Said.{audit_said};
ghost use Rattle.bayou_explain.specs.Explained.{IsFound};
ghost use Rattle.bayou_explain.specs.Located.{tells_entry};
ghost use Rattle.bayou_explain.specs.Refused.{AsksOther, IsBlameless, IsCause, IsCauseOf, IsEntryNumber, IsForged, IsHeldOtherwise, IsNotBelow, IsSound, NamesWrite};

use crate::explained::{ShownLine, held, shown_as};
use crate::line::Located;
use bayou_base::{Asks, Entry, ServerId, SessionId, Stamp, Vector, What, Wid};
use bayou_lang::RestingWrite;
use bayou_text::AuditLine;

/// Which condition an entry fails.
#[derive(Clone, Copy)]
pub enum Cause<'a> {
    /// Its place isn't above the one that this earlier entry of its session has.
    Place(ShownLine<'a>),
    /// Its session asked for something else in this earlier entry.
    Asks(ShownLine<'a>),
    /// It names a Write of another server than its own.
    Origin,
    /// This earlier entry names the same Write.
    Again(ShownLine<'a>),
    /// Its server's dump hasn't the Write that it names.
    Lost,
    /// Its server's dump has that Write with another clock or another past.
    Differs(ShownLine<'a>),
    /// It is a read: its server never had the database that it names.
    Database,
}

// Whether the line is an entry of the session whose place isn't below this one.
fn is_not_below(line: &Located<'_>, session: SessionId, place: u32) -> bool
    ensures { IsTrue result ↔ IsNotBelow session.index place (audit_said line.now.told) }
{
    match &line.told {
        AuditLine::Entry { entry, .. } => {
            entry.session.index == session.index && place <= entry.place
        }
        AuditLine::Held { .. } => false,
    }
}

// Whether the line is an entry of the session that asks for something else.
fn asks_other(line: &Located<'_>, session: SessionId, asks: Asks) -> bool
    ensures { IsTrue result ↔ AsksOther session.index asks (audit_said line.now.told) }
{
    match &line.told {
        AuditLine::Entry { entry, .. } => {
            entry.session.index == session.index && entry.asks != asks
        }
        AuditLine::Held { .. } => false,
    }
}

// Whether the line is an entry that names the Write.
fn names(line: &Located<'_>, wid: Wid) -> bool
    ensures { IsTrue result ↔ NamesWrite wid (audit_said line.now.told) }
{
    match &line.told {
        AuditLine::Entry { entry, .. } => match &entry.what {
            What::Write(name, _, _) => *name == wid,
            What::Read(_, _) | What::Refused => false,
        },
        AuditLine::Held { .. } => false,
    }
}

// Whether the Write has this stamp and this past.
fn is_same(write: &RestingWrite, stamp: Stamp, deps: &Vector) -> bool
    ensures { IsTrue result ↔ ((write.now.stamp ≡ stamp) × (write.now.deps ≡ deps.now)) }
{
    write.stamp() == stamp && write.deps() == deps
}

// Whether the line says that the server holds the Write with another stamp or another past.
fn is_held_otherwise(
    line: &Located<'_>,
    server: ServerId,
    wid: Wid,
    stamp: Stamp,
    deps: &Vector,
) -> bool
    ensures { IsTrue result ↔ IsHeldOtherwise server.index wid stamp deps.now (audit_said line.now.told) }
{
    match &line.told {
        AuditLine::Entry { .. } => false,
        AuditLine::Held {
            server: holder,
            write,
            ..
        } => { holder.index == server.index && write.wid() == wid && !is_same(write, stamp, deps) }
    }
}

// The first of these lines that is an entry of the session whose place isn't below this one.
fn not_below<'a>(lines: &[Located<'a>], session: SessionId, place: u32) -> Option<ShownLine<'a>>
    ensures { IsFound lines.now (IsNotBelow session.index place) result }
{
    for line in lines {
        if is_not_below(line, session, place) {
            return Some(shown_as(line));
        }
    }
    None
}

// The first of these lines that is an entry of the session that asks for something else.
fn other_asks<'a>(lines: &[Located<'a>], session: SessionId, asks: Asks) -> Option<ShownLine<'a>>
    ensures { IsFound lines.now (AsksOther session.index asks) result }
{
    for line in lines {
        if asks_other(line, session, asks) {
            return Some(shown_as(line));
        }
    }
    None
}

// The first of these lines that is an entry that names the Write.
fn named<'a>(lines: &[Located<'a>], wid: Wid) -> Option<ShownLine<'a>>
    ensures { IsFound lines.now (NamesWrite wid) result }
{
    for line in lines {
        if names(line, wid) {
            return Some(shown_as(line));
        }
    }
    None
}

// The first of these lines by which the server holds the Write with another stamp or another past.
fn differing<'a>(
    lines: &[Located<'a>],
    server: ServerId,
    wid: Wid,
    stamp: Stamp,
    deps: &Vector,
) -> Option<ShownLine<'a>>
    ensures { IsFound lines.now (IsHeldOtherwise server.index wid stamp deps.now) result }
{
    for line in lines {
        if is_held_otherwise(line, server, wid, stamp, deps) {
            return Some(shown_as(line));
        }
    }
    None
}

// Which condition an entry of this server fails that names this Write, after these lines.
fn write_cause<'a>(
    before: &[Located<'a>],
    lines: &[Located<'a>],
    server: ServerId,
    wid: Wid,
    stamp: Stamp,
    deps: &Vector,
) -> Option<Cause<'a>>
    ensures { MatchOption result (IsSound before.now lines.now server (Write wid stamp deps.now)) (IsCauseOf before.now lines.now server (Write wid stamp deps.now)) }
{
    if wid.origin.index != server.index {
        return Some(Cause::Origin);
    }
    if let Some(shown) = named(before, wid) {
        return Some(Cause::Again(shown));
    }
    let Some(_) = held(lines, server, wid) else {
        return Some(Cause::Lost);
    };
    match differing(lines, server, wid, stamp, deps) {
        Some(shown) => Some(Cause::Differs(shown)),
        None => None,
    }
}

// Which condition the entry fails, after these lines.
fn cause_of<'a>(before: &[Located<'a>], lines: &[Located<'a>], entry: &Entry) -> Option<Cause<'a>>
    ensures { MatchOption result (IsBlameless before.now lines.now entry.now) (IsCause before.now lines.now entry.now) }
{
    if let Some(shown) = not_below(before, entry.session, entry.place) {
        return Some(Cause::Place(shown));
    }
    if let Some(shown) = other_asks(before, entry.session, entry.asks) {
        return Some(Cause::Asks(shown));
    }
    match &entry.what {
        What::Write(wid, stamp, deps) => {
            write_cause(before, lines, entry.server, *wid, *stamp, deps)
        }
        What::Read(_, _) => Some(Cause::Database),
        What::Refused => None,
    }
}

/// An entry that can't be true.
#[derive(Clone, Copy)]
pub struct Forged<'a> {
    pub entry: ShownLine<'a>,
    /// Which condition it fails first; `None` where the lines show none.
    pub cause: Option<Cause<'a>>,
}

// Where the entry of this number stands among these lines, both from 0 on.
fn place_of_entry(lines: &[Located<'_>], number: usize) -> Option<usize>
    ensures { MatchOption result (length (filter tells_entry lines.now) ≤ number) (IsEntryNumber lines.now number) }
{
    let mut seen = 0;
    for (at, line) in lines.iter().enumerate() {
        if !line.is_entry() {
            continue;
        }
        if seen == number {
            return Some(at);
        }
        seen += 1;
    }
    None
}

/// The entry of this number, from 0 on, as one that can't be true: which condition it fails. It is `None` where there is no such entry.
pub fn explain_forged<'a>(lines: &[Located<'a>], number: usize) -> Option<Forged<'a>>
    ensures { MatchOption result (length (filter tells_entry lines.now) ≤ number) (IsForged lines.now number) }
{
    let Some(at) = place_of_entry(lines, number) else {
        return None;
    };
    let line = &lines[at];
    let AuditLine::Entry { entry, .. } = &line.told else {
        return None;
    };
    Some(Forged {
        entry: shown_as(line),
        cause: cause_of(&lines[..at], lines, entry),
    })
}
