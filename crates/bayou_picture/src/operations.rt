//! Sessions and their operations.
use crate::canvas::{Canvas, HALF_WIDTH, drawable, hued, plain};
use crate::layout::{Layout, NAMES, entry_of};
use crate::marks::{Mark, Marks};
use crate::shape::{Point, ShapeKind};
use bayou_base::{Asks, Entry, SESSIONS, What};
use bayou_explain::Located;
use std::alloc::{AllocError, Global};

/// How far above the middle of a box the text above it stands.
const ABOVE: u32 = 16;

/// How far below it the one below.
const BELOW: u32 = 24;

/// A line of the file, by its number, as a reader is shown it.
pub(crate) fn hint_of(alloc: Global, line: &Located<'_>) -> Result<String, AllocError> {
    let number = (line.at as u64).saturating_add(1);
    let text = drawable(alloc, line.bytes)?;
    format!(in alloc; "line {number}  {text}")
}

// What a session asks for.
fn asks_text(alloc: Global, asks: Asks) -> Result<String, AllocError> {
    let words = [
        (asks.ryw, "ryw"),
        (asks.mr, "mr"),
        (asks.wfr, "wfr"),
        (asks.mw, "mw"),
    ];
    let mut text = String::from_str(alloc, "asks")?;
    for (is_asked, word) in words {
        if is_asked {
            text.push_str(" ")?;
            text.push_str(word)?;
        }
    }
    if text.as_str() == "asks" {
        text.push_str(" for nothing")?;
    }
    Ok(text)
}

// What the first operation of the session that is drawn says that it asks for.
fn asks_of(lines: &[Located<'_>], marks: &Marks<'_>, session: usize) -> Option<Asks> {
    for mark in marks.operations.as_slice() {
        if let Some(entry) = entry_of(lines, *mark) {
            if usize::from(entry.session.index) == session {
                return Some(entry.asks);
            }
        }
    }
    None
}

// Draws the line of a session.
fn draw_session(
    alloc: Global,
    canvas: &mut Canvas,
    session: usize,
    asks: Option<Asks>,
    y: u32,
    width: u32,
) -> Result<(), AllocError> {
    let at = Point { x: NAMES, y };
    canvas.rail(at.by(96, 0), width)?;
    canvas.label(
        at,
        plain(ShapeKind::Name),
        format!(in alloc; "session {session}")?,
    )?;
    if let Some(asks) = asks {
        canvas.label(
            at.by(0, 15),
            plain(ShapeKind::Note),
            asks_text(alloc, asks)?,
        )?;
    }
    Ok(())
}

/// Draws the lines of the sessions.
pub(crate) fn draw_sessions(
    alloc: Global,
    canvas: &mut Canvas,
    lines: &[Located<'_>],
    marks: &Marks<'_>,
    layout: &Layout,
) -> Result<(), AllocError> {
    for session in 0..SESSIONS {
        if let Some(y) = layout.rows.sessions[session] {
            let asks = asks_of(lines, marks, session);
            draw_session(alloc, canvas, session, asks, y, layout.width)?;
        }
    }
    Ok(())
}

// Draws the box of an operation.
fn draw_box(
    alloc: Global,
    canvas: &mut Canvas,
    line: &Located<'_>,
    entry: &Entry,
    at: Point,
) -> Result<(), AllocError> {
    let hint = hint_of(alloc, line)?;
    let server = entry.server.index;
    match &entry.what {
        What::Write(wid, _, _) => {
            let (origin, seq) = (wid.origin.index, wid.seq);
            canvas.boxed(at, hued(ShapeKind::Write, server), hint)?;
            canvas.inside(at, ShapeKind::Inside, format!(in alloc; "{origin}:{seq}")?)
        }
        What::Read(_, _) => {
            canvas.boxed(at, hued(ShapeKind::Read, server), hint)?;
            canvas.inside(at, ShapeKind::InsideRead, "read".to_string(alloc)?)
        }
        What::Refused => {
            canvas.boxed(at, plain(ShapeKind::Refused), hint)?;
            canvas.inside(at, ShapeKind::InsideRead, "no".to_string(alloc)?)
        }
    }
}

// Draws an operation: its place above it, and its server below.
fn draw_operation(
    alloc: Global,
    canvas: &mut Canvas,
    lines: &[Located<'_>],
    mark: Mark,
    at: Point,
) -> Result<(), AllocError> {
    let (Some(line), Some(entry)) = (lines.get(mark.line), entry_of(lines, mark)) else {
        return Ok(());
    };
    let (place, server) = (entry.place, entry.server.index);
    draw_box(alloc, canvas, line, entry, at)?;
    canvas.label(
        at.left(HALF_WIDTH).up(ABOVE),
        plain(ShapeKind::Mark),
        format!(in alloc; "{place}")?,
    )?;
    canvas.label(
        at.left(HALF_WIDTH).by(0, BELOW),
        plain(ShapeKind::Mark),
        format!(in alloc; "at {server}")?,
    )
}

/// Draws the operations.
pub(crate) fn draw_operations(
    alloc: Global,
    canvas: &mut Canvas,
    lines: &[Located<'_>],
    marks: &Marks<'_>,
    layout: &Layout,
) -> Result<(), AllocError> {
    let points = layout.operations.as_slice();
    for (mark, at) in marks.operations.as_slice().iter().zip(points) {
        draw_operation(alloc, canvas, lines, *mark, *at)?;
    }
    Ok(())
}
