//! Servers and what they hold.
use crate::canvas::{Canvas, HALF_WIDTH, hued, plain};
use crate::layout::{Layout, NAMES};
use crate::marks::{Mark, Marks};
use crate::operations::hint_of;
use crate::shape::{Point, ShapeKind};
use bayou_base::SERVERS;
use bayou_explain::Located;
use bayou_text::AuditLine;
use std::alloc::{AllocError, Global};

/// How far above the middle of a box its number stands.
const ABOVE: u32 = 16;

// Draws the line of a server.
fn draw_server(
    alloc: Global,
    canvas: &mut Canvas,
    server: usize,
    held: usize,
    y: u32,
    width: u32,
) -> Result<(), AllocError> {
    let at = Point { x: NAMES, y };
    canvas.rail(at.by(96, 0), width)?;
    canvas.label(
        at,
        plain(ShapeKind::Name),
        format!(in alloc; "server {server}")?,
    )?;
    canvas.label(
        at.by(0, 15),
        plain(ShapeKind::Note),
        format!(in alloc; "holds {held}")?,
    )
}

/// Draws the lines of the servers.
pub(crate) fn draw_servers(
    alloc: Global,
    canvas: &mut Canvas,
    marks: &Marks<'_>,
    layout: &Layout,
) -> Result<(), AllocError> {
    for server in 0..SERVERS {
        if let Some(y) = layout.rows.servers[server] {
            draw_server(
                alloc,
                canvas,
                server,
                marks.seen.held[server],
                y,
                layout.width,
            )?;
        }
    }
    Ok(())
}

// Draws a Write that a server holds: its number in the dump above it.
fn draw_write(
    alloc: Global,
    canvas: &mut Canvas,
    lines: &[Located<'_>],
    mark: Mark,
    at: Point,
) -> Result<(), AllocError> {
    let Some(line) = lines.get(mark.line) else {
        return Ok(());
    };
    let AuditLine::Held { write, .. } = &line.told else {
        return Ok(());
    };
    let (wid, number) = (write.wid(), mark.number);
    let (origin, seq) = (wid.origin.index, wid.seq);
    let hint = hint_of(alloc, line)?;
    canvas.boxed(at, hued(ShapeKind::Write, origin), hint)?;
    canvas.inside(at, ShapeKind::Inside, format!(in alloc; "{origin}:{seq}")?)?;
    canvas.label(
        at.left(HALF_WIDTH).up(ABOVE),
        plain(ShapeKind::Mark),
        format!(in alloc; "{number}")?,
    )
}

/// Draws the Writes that servers hold.
pub(crate) fn draw_writes(
    alloc: Global,
    canvas: &mut Canvas,
    lines: &[Located<'_>],
    marks: &Marks<'_>,
    layout: &Layout,
) -> Result<(), AllocError> {
    let points = layout.writes.as_slice();
    for (mark, at) in marks.writes.as_slice().iter().zip(points) {
        draw_write(alloc, canvas, lines, *mark, *at)?;
    }
    Ok(())
}
