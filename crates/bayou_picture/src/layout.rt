//! Where everything stands.
use crate::marks::{Mark, Marks};
use crate::shape::Point;
use bayou_base::{Entry, SERVERS, SESSIONS, ServerId};
use bayou_explain::{Located, ShownLine};
use bayou_text::AuditLine;
use std::alloc::{AllocError, Global};

/// Where the names of lines begin.
pub(crate) const NAMES: u32 = 16;

/// Where the first line begins.
const LEFT: u32 = 130;

/// Where the sessions begin.
const TOP: u32 = 92;

/// From one operation, or Write, to the next.
const COLUMN: u32 = 46;

/// The height of a line with nothing told of it.
const ROW: u32 = 58;

/// The height of one breach's text beside a line.
pub(crate) const LANE: u32 = 18;

/// Between sessions and servers.
const BETWEEN: u32 = 44;

/// How wide a picture is at the least.
const LEAST_WIDTH: u32 = 860;

/// The sum of a start and so many steps.
pub(crate) fn along(start: u32, step: u32, count: usize) -> u32 {
    let count = u32::try_from(count).unwrap_or(u32::MAX);
    start.saturating_add(step.saturating_mul(count))
}

/// Where the lines of sessions and of servers are.
#[derive(Clone, Copy)]
pub(crate) struct LineRows {
    /// The height at which each session's line is; `None` where it isn't drawn.
    pub(crate) sessions: [Option<u32>; SESSIONS],
    /// The same of each server.
    pub(crate) servers: [Option<u32>; SERVERS],
    /// Where the servers begin.
    pub(crate) servers_from: u32,
    /// Where the text of the breaches begins.
    pub(crate) told_from: u32,
}

/// Where everything stands.
#[derive(Drop)]
pub(crate) struct Layout {
    pub(crate) rows: LineRows,
    /// Where each operation is.
    pub(crate) operations: Vec<Point>,
    /// Where each Write is.
    pub(crate) writes: Vec<Point>,
    pub(crate) width: u32,
}

/// The entry of a mark.
pub(crate) fn entry_of<'l>(lines: &'l [Located<'_>], mark: Mark) -> Option<&'l Entry> {
    match &lines.get(mark.line)?.told {
        AuditLine::Entry { entry, .. } => Some(entry),
        AuditLine::Held { .. } => None,
    }
}

/// The server that holds the Write of a mark.
pub(crate) fn holder_of(lines: &[Located<'_>], mark: Mark) -> Option<ServerId> {
    match &lines.get(mark.line)?.told {
        AuditLine::Entry { .. } => None,
        AuditLine::Held { server, .. } => Some(*server),
    }
}

// How many of the breaches are of each session.
fn lanes_of_sessions(marks: &Marks<'_>) -> [usize; SESSIONS] {
    let mut lanes = [0usize; SESSIONS];
    for marked in marks.breaches.as_slice() {
        let session = usize::from(marked.explained.breach.session.index);
        lanes[session] = lanes[session].saturating_add(1);
    }
    lanes
}

// How many of the breaches show at each server.
fn lanes_of_servers(marks: &Marks<'_>) -> [usize; SERVERS] {
    let mut lanes = [0usize; SERVERS];
    for marked in marks.breaches.as_slice() {
        let server = usize::from(marked.explained.breach.server.index);
        lanes[server] = lanes[server].saturating_add(1);
    }
    lanes
}

// Which sessions have an operation that is drawn.
fn sessions_drawn(lines: &[Located<'_>], marks: &Marks<'_>) -> [bool; SESSIONS] {
    let mut drawn = [false; SESSIONS];
    for mark in marks.operations.as_slice() {
        if let Some(entry) = entry_of(lines, *mark) {
            drawn[usize::from(entry.session.index)] = true;
        }
    }
    drawn
}

// The rows, one below another.
fn rows_of(lines: &[Located<'_>], marks: &Marks<'_>, count: u8) -> LineRows {
    let drawn = sessions_drawn(lines, marks);
    let (above, below) = (lanes_of_sessions(marks), lanes_of_servers(marks));
    let mut sessions = [None; SESSIONS];
    let mut from = TOP;
    for session in 0..SESSIONS {
        if drawn[session] {
            let rail = along(from, LANE, above[session]).saturating_add(ROW / 2);
            sessions[session] = Some(rail);
            from = rail.saturating_add(ROW / 2);
        }
    }
    let servers_from = from.saturating_add(BETWEEN);
    let (servers, told_from) = server_rows(&below, servers_from, count);
    LineRows {
        sessions,
        servers,
        servers_from,
        told_from,
    }
}

// The rows of the servers, and where they end.
fn server_rows(below: &[usize; SERVERS], from: u32, count: u8) -> ([Option<u32>; SERVERS], u32) {
    let mut servers = [None; SERVERS];
    let mut from = from;
    for server in 0..SERVERS {
        if server < usize::from(count) {
            let rail = from.saturating_add(ROW / 2);
            servers[server] = Some(rail);
            from = along(rail, LANE, below[server]).saturating_add(ROW / 2);
        }
    }
    (servers, from.saturating_add(BETWEEN))
}

// The middle of the column of this number.
fn column(number: usize) -> u32 {
    along(LEFT, COLUMN, number).saturating_add(COLUMN / 2)
}

// Where each operation is.
fn operation_points(
    alloc: Global,
    lines: &[Located<'_>],
    marks: &Marks<'_>,
    rows: &LineRows,
) -> Result<Vec<Point>, AllocError> {
    let mut points = Vec::new(alloc);
    for (number, mark) in marks.operations.as_slice().iter().enumerate() {
        let row = match entry_of(lines, *mark) {
            Some(entry) => rows.sessions[usize::from(entry.session.index)],
            None => None,
        };
        points.push(Point {
            x: column(number),
            y: row.unwrap_or(0),
        })?;
    }
    Ok(points)
}

// Where each Write is: those of a server follow each other.
fn write_points(
    alloc: Global,
    lines: &[Located<'_>],
    marks: &Marks<'_>,
    rows: &LineRows,
) -> Result<Vec<Point>, AllocError> {
    let mut points = Vec::new(alloc);
    let mut slots = [0usize; SERVERS];
    for mark in marks.writes.as_slice() {
        let server = match holder_of(lines, *mark) {
            Some(server) => usize::from(server.index),
            None => 0,
        };
        points.push(Point {
            x: column(slots[server]),
            y: rows.servers[server].unwrap_or(0),
        })?;
        slots[server] = slots[server].saturating_add(1);
    }
    Ok(points)
}

// How wide it all is.
fn width_of(operations: &[Point], writes: &[Point]) -> u32 {
    let mut width = LEAST_WIDTH;
    for point in operations.iter().chain(writes) {
        width = width.max(point.x.saturating_add(COLUMN));
    }
    width
}

/// Where everything stands of these marks, with so many servers.
pub(crate) fn lay_out(
    alloc: Global,
    lines: &[Located<'_>],
    marks: &Marks<'_>,
    count: u8,
) -> Result<Layout, AllocError> {
    let rows = rows_of(lines, marks, count);
    let operations = operation_points(alloc, lines, marks, &rows)?;
    let writes = write_points(alloc, lines, marks, &rows)?;
    let width = width_of(&operations, &writes);
    Ok(Layout {
        rows,
        operations,
        writes,
        width,
    })
}

// Where the mark of this line stands.
fn point_of(lines: &[Located<'_>], marks: &[Mark], points: &[Point], at: usize) -> Option<Point> {
    for (mark, point) in marks.iter().zip(points) {
        if let Some(line) = lines.get(mark.line) {
            if line.at == at {
                return Some(*point);
            }
        }
    }
    None
}

impl Layout {
    /// Where an operation stands that is shown by this line.
    pub(crate) fn operation(
        &self,
        lines: &[Located<'_>],
        marks: &Marks<'_>,
        shown: Option<ShownLine<'_>>,
    ) -> Option<Point> {
        point_of(lines, &marks.operations, &self.operations, shown?.at)
    }

    /// Where a Write stands that is shown by this line.
    pub(crate) fn write(
        &self,
        lines: &[Located<'_>],
        marks: &Marks<'_>,
        shown: Option<ShownLine<'_>>,
    ) -> Option<Point> {
        point_of(lines, &marks.writes, &self.writes, shown?.at)
    }

    /// The place in the server's line before the first Write that is drawn of those from this number on, or after all.
    pub(crate) fn before(
        &self,
        lines: &[Located<'_>],
        marks: &Marks<'_>,
        server: ServerId,
        number: usize,
    ) -> Option<Point> {
        let y = self.rows.servers[usize::from(server.index)]?;
        let mut slots = 0usize;
        for mark in marks.writes.as_slice() {
            match holder_of(lines, *mark) {
                Some(holder) if holder.index == server.index && mark.number < number => {
                    slots = slots.saturating_add(1);
                }
                _ => {}
            }
        }
        Some(Point {
            x: along(LEFT, COLUMN, slots),
            y,
        })
    }
}
