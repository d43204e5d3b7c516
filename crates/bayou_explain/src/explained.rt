//! Breaches, and the lines that show them.
ghost use Rattle.std.specs.Prelude.{◌≡◌, ◌++◌, ℕ, All, IfOk, List, OnOk, map};
ghost use Rattle.bayou_explain.specs.Explained.{IsFound, IsOfLine, IsShown, breach_list, breaches_all, breaches_in, breaches_of, breaches_told, every_of};
ghost use Rattle.bayou_explain.specs.Located.{IsHeldBy, IsOperationAt};

use crate::line::Located;
use bayou_base::{ServerId, SessionId, Wid};
use bayou_judge::{Breach, SessionBreaches, Surveyed};
use std::alloc::{AllocError, Global};

/// A line of a text.
#[derive(Clone, Copy)]
pub struct ShownLine<'a> {
    /// Its place among the lines, from 0 on.
    pub at: usize,
    pub bytes: &'a [u8],
}

/// A breach, and the lines that show it; `None` where no line does.
#[derive(Clone, Copy)]
pub struct Explained<'a> {
    pub breach: Breach,
    /// The earlier operation.
    pub first: Option<ShownLine<'a>>,
    /// The later one.
    pub second: Option<ShownLine<'a>>,
    /// The Write that is missing, as its own server holds it.
    pub write: Option<ShownLine<'a>>,
    /// The same, as the server holds it at which it was missing.
    pub there: Option<ShownLine<'a>>,
}

/// The line as it is shown.
pub(crate) fn shown_as<'a>(line: &Located<'a>) -> ShownLine<'a>
    ensures { IsOfLine line.now result }
{
    ShownLine {
        at: line.at,
        bytes: line.bytes,
    }
}

// The line of the operation at this place of the session.
fn operation<'a>(lines: &[Located<'a>], session: SessionId, place: u32) -> Option<ShownLine<'a>>
    ensures { IsFound lines.now (IsOperationAt session.index place) result }
{
    for line in lines {
        if line.is_operation(session, place) {
            return Some(shown_as(line));
        }
    }
    None
}

/// The line of the Write of this name, as the server holds it.
pub(crate) fn held<'a>(lines: &[Located<'a>], server: ServerId, wid: Wid) -> Option<ShownLine<'a>>
    ensures { IsFound lines.now (IsHeldBy server.index wid) result }
{
    for line in lines {
        if line.is_held(server, wid) {
            return Some(shown_as(line));
        }
    }
    None
}

/// The breach with the lines that show it.
pub fn explain_breach<'a>(lines: &[Located<'a>], breach: Breach) -> Explained<'a>
    ensures breach { result.breach ≡ breach }
    ensures lines { IsShown lines.now result }
{
    Explained {
        breach,
        first: operation(lines, breach.session, breach.first),
        second: operation(lines, breach.session, breach.second),
        write: held(lines, breach.wid.origin, breach.wid),
        there: held(lines, breach.server, breach.wid),
    }
}

// Adds the breach, if there is one.
fn add<'a>(
    lines: &[Located<'a>],
    list: &mut Vec<Explained<'a>>,
    found: Option<Breach>,
) -> Result<(), AllocError>
    ensures breaches { OnOk result (breaches_told list.new.items ≡ breaches_told list.old.items ++ breach_list found) }
    ensures lines { All (IsShown lines.now) list.old.items → OnOk result (All (IsShown lines.now) list.new.items) }
{
    if let Some(breach) = found {
        list.push(explain_breach(lines, breach))?;
    }
    Ok(())
}

// Adds the breaches of a session.
fn add_all<'a>(
    lines: &[Located<'a>],
    list: &mut Vec<Explained<'a>>,
    surveyed: &Surveyed,
) -> Result<(), AllocError>
    ensures breaches { OnOk result (breaches_told list.new.items ≡ breaches_told list.old.items ++ breaches_in surveyed.now) }
    ensures lines { All (IsShown lines.now) list.old.items → OnOk result (All (IsShown lines.now) list.new.items) }
{
    add(lines, list, surveyed.ryw)?;
    add(lines, list, surveyed.mr)?;
    add(lines, list, surveyed.wfr)?;
    add(lines, list, surveyed.mw)
}

/// These breaches, in their order, each with the lines that show it.
pub fn explain_each<'a>(
    alloc: Global,
    lines: &[Located<'a>],
    breaches: &[Breach],
) -> Result<Vec<Explained<'a>>, AllocError>
    ensures breaches { IfOk result (λ list. breaches_told list.items ≡ breaches.now) }
    ensures lines { IfOk result (λ list. All (IsShown lines.now) list.items) }
{
    let mut list = Vec::new(alloc);
    for breach in breaches {
        list.push(explain_breach(lines, *breach))?;
    }
    Ok(list)
}

// Puts the breach, if there is one, after the others.
fn put(list: &mut Vec<Breach>, found: Option<Breach>) -> Result<(), AllocError>
    ensures { OnOk result (list.new.items ≡ list.old.items ++ breach_list found) }
{
    if let Some(breach) = found {
        list.push(breach)?;
    }
    Ok(())
}

// Puts the breaches of a session after the others.
fn put_all(list: &mut Vec<Breach>, surveyed: &Surveyed) -> Result<(), AllocError>
    ensures { OnOk result (list.new.items ≡ list.old.items ++ breaches_in surveyed.now) }
{
    put(list, surveyed.ryw)?;
    put(list, surveyed.mr)?;
    put(list, surveyed.wfr)?;
    put(list, surveyed.mw)
}

/// The breaches of a survey, in their order: of each guarantee in each session the least.
pub fn least_breaches(alloc: Global, survey: &[Surveyed]) -> Result<Vec<Breach>, AllocError>
    ensures { IfOk result (λ list. list.items ≡ breaches_of survey.now) }
{
    let mut list = Vec::new(alloc);
    for surveyed in survey {
        put_all(&mut list, surveyed)?;
    }
    Ok(list)
}

// Puts every breach of a session after the others.
fn put_every(list: &mut Vec<Breach>, found: &SessionBreaches) -> Result<(), AllocError>
    ensures { OnOk result (list.new.items ≡ list.old.items ++ breaches_all found.now) }
{
    list.extend_from_slice(&found.ryw)?;
    list.extend_from_slice(&found.mr)?;
    list.extend_from_slice(&found.wfr)?;
    list.extend_from_slice(&found.mw)
}

/// Every breach that was found, in the order of sessions, guarantees and places.
pub fn every_breach(alloc: Global, found: &[SessionBreaches]) -> Result<Vec<Breach>, AllocError>
    ensures { IfOk result (λ list. list.items ≡ every_of found.now) }
{
    let mut list = Vec::new(alloc);
    for session in found {
        put_every(&mut list, session)?;
    }
    Ok(list)
}

/// The breaches of a survey, in their order, each with the lines that show it.
pub fn explain<'a>(
    alloc: Global,
    lines: &[Located<'a>],
    survey: &[Surveyed],
) -> Result<Vec<Explained<'a>>, AllocError>
    ensures breaches { IfOk result (λ list. breaches_told list.items ≡ breaches_of survey.now) }
    ensures lines { IfOk result (λ list. All (IsShown lines.now) list.items) }
{
    let mut list = Vec::new(alloc);
    for surveyed in survey {
        add_all(lines, &mut list, surveyed)?;
    }
    Ok(list)
}
