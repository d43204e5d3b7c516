//! What stands beside the lines: headings, what is bad, and what the marks mean.
use crate::canvas::{Canvas, drawable, hued, plain};
use crate::layout::{Layout, NAMES};
use crate::marks::Marks;
use crate::shape::{Point, ShapeForm, ShapeKind};
use crate::touched::is_bad;
use bayou_explain::{Located, explain_forged, reason_line};
use bayou_judge::BadEvidence;
use std::alloc::{AllocError, Global};

/// What is wrong with a Write that can't stand in a dump.
const MISFIT: &str =
    "it doesn't follow from those before it, or a smaller server has another Write of its name";

// What of all is drawn.
fn extent(alloc: Global, marks: &Marks<'_>) -> Result<String, AllocError> {
    let (entries, held) = (marks.seen.entries, marks.seen.writes());
    let breaches = marks.breaches.len();
    if marks.seen.is_small() {
        return format!(in alloc; "operations {entries}, Writes held {held}, breaches {breaches}");
    }
    let (operations, writes) = (marks.operations.len(), marks.writes.len());
    format!(in alloc;
        "breaches {breaches}; cut to what they touch: {operations} of {entries} operations, {writes} of {held} Writes held"
    )
}

// Why it can't be.
fn reason_of(lines: &[Located<'_>], bad: BadEvidence) -> &'static str {
    match bad {
        BadEvidence::BadDump(_, _) => MISFIT,
        BadEvidence::Forged(number) => match explain_forged(lines, number) {
            Some(forged) => reason_line(forged.cause),
            None => "",
        },
    }
}

// What can't be true.
fn bad_text(alloc: Global, bad: BadEvidence) -> Result<String, AllocError> {
    match bad {
        BadEvidence::BadDump(server, place) => {
            let server = server.index;
            format!(in alloc;
                "judge refused dump {server} {place}: the Write in the red box can't be there"
            )
        }
        BadEvidence::Forged(number) => {
            format!(in alloc;
                "judge refused forged {number}: the operation in the red box can't be true"
            )
        }
    }
}

/// Draws why the verdict is refused, where it is.
pub(crate) fn draw_reason(
    canvas: &mut Canvas,
    lines: &[Located<'_>],
    marks: &Marks<'_>,
    layout: &Layout,
) -> Result<(), AllocError> {
    let Some(bad) = marks.bad else {
        return Ok(());
    };
    let at = Point {
        x: NAMES,
        y: layout.rows.told_from.saturating_sub(30),
    };
    let reason = reason_of(lines, bad).trim().to_string(canvas.alloc)?;
    canvas.label(at, hued(ShapeKind::Told, 16), reason)
}

/// Draws the ground, and the headings.
pub(crate) fn draw_headings(
    alloc: Global,
    canvas: &mut Canvas,
    name: &str,
    marks: &Marks<'_>,
    layout: &Layout,
    height: u32,
) -> Result<(), AllocError> {
    let corner = Point { x: 0, y: 0 };
    let at = Point { x: NAMES, y: 26 };
    canvas.shape(
        ShapeForm::Box(corner, layout.width, height),
        plain(ShapeKind::Ground),
    )?;
    canvas.label(
        at,
        plain(ShapeKind::Heading),
        drawable(alloc, name.as_bytes())?,
    )?;
    canvas.label(at.by(0, 20), plain(ShapeKind::Note), extent(alloc, marks)?)?;
    if let Some(bad) = marks.bad {
        canvas.label(
            at.by(0, 38),
            hued(ShapeKind::Told, 16),
            bad_text(alloc, bad)?,
        )?;
    }
    canvas.words(
        at.by(0, 58),
        ShapeKind::Note,
        "Sessions: what each did, in the order of the file. Above a box its place in the session, below it the server.",
    )?;
    let servers = Point {
        x: NAMES,
        y: layout.rows.servers_from.saturating_sub(12),
    };
    canvas.words(
        servers,
        ShapeKind::Note,
        "Servers: what each holds, in order of receipt. Above a box its place, from 0 on. Its colour is the server's that accepted the Write.",
    )
}

/// Draws what the marks of a breach mean, where there is one.
pub(crate) fn draw_legend(
    canvas: &mut Canvas,
    marks: &Marks<'_>,
    layout: &Layout,
) -> Result<(), AllocError> {
    if marks.breaches.is_empty() {
        return Ok(());
    }
    let at = Point {
        x: NAMES,
        y: layout.rows.told_from.saturating_sub(30),
    };
    canvas.words(
        at,
        ShapeKind::Note,
        "A breach: an arc from its earlier operation to the later one; a ring round the Write, a broken ring where it came too late; a bar where it is missing.",
    )
}

/// Draws a box round what can't be true.
pub(crate) fn draw_bad(
    canvas: &mut Canvas,
    lines: &[Located<'_>],
    marks: &Marks<'_>,
    layout: &Layout,
) -> Result<(), AllocError> {
    let all = marks
        .operations
        .as_slice()
        .iter()
        .chain(marks.writes.as_slice());
    let points = layout
        .operations
        .as_slice()
        .iter()
        .chain(layout.writes.as_slice());
    for (mark, at) in all.zip(points) {
        if let Some(line) = lines.get(mark.line) {
            if is_bad(marks.bad, line, mark.number) {
                canvas.ringed(*at, plain(ShapeKind::Wrong), 3)?;
            }
        }
    }
    Ok(())
}
