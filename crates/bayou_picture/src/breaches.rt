//! Breaches: their operations, the Write that is missing, and where.
ghost use Rattle.std.specs.Prelude.{◌≡◌, IfOk};
ghost use Rattle.bayou_picture.specs.Marks.{breaches_drawn, breaches_marked};

use crate::canvas::{Canvas, HALF_HEIGHT, hued, plain};
use crate::drawing::Drawn;
use crate::layout::{LANE, Layout, NAMES, along};
use crate::marks::{Marked, Marks};
use crate::shape::{Point, ShapeForm, ShapeKind};
use bayou_base::Wid;
use bayou_explain::{Located, breach_sentence, breach_title};
use bayou_judge::Breach;
use std::alloc::{AllocError, Global};

/// The first colour of a breach.
const FIRST_HUE: u8 = 16;

/// How many colours breaches have.
const HUES: usize = 6;

/// How high the lowest arc of a session is.
const ARC: u32 = 24;

/// How far the mark of a missing Write goes above and below its line.
const GAP: u32 = 19;

/// How far one bar beside another is.
const BESIDE: u32 = 6;

/// How much larger than a box the ring round it is, and the next one.
const RING: u32 = 3;

/// How many rings have a size of their own.
const RINGS: usize = 4;

/// The radius of a number's disc.
const RADIUS: u32 = 8;

/// How high the text of a breach is.
pub(crate) const TOLD: u32 = 40;

/// A breach, and what marks it off from the others.
#[derive(Clone, Copy)]
struct Numbered<'a> {
    marked: Marked<'a>,
    /// Its number, from 1 on.
    number: usize,
    hue: u8,
    /// How many breaches of its session were drawn before it.
    above: usize,
    /// How many at its server.
    below: usize,
    /// How many of the same Write.
    round: usize,
    /// How many that miss it at the same place.
    beside: usize,
}

// The colour of the breach of this number.
fn hue_of(number: usize) -> u8 {
    match number % HUES {
        1 => FIRST_HUE,
        2 => FIRST_HUE + 1,
        3 => FIRST_HUE + 2,
        4 => FIRST_HUE + 3,
        5 => FIRST_HUE + 4,
        _ => FIRST_HUE + 5,
    }
}

// Which breaches it shares a session with, and a server, of those before it.
fn number_breach<'a>(before: &[Marked<'a>], marked: Marked<'a>) -> Numbered<'a> {
    let breach = marked.explained.breach;
    let number = before.len().saturating_add(1);
    let (mut above, mut below) = (0usize, 0usize);
    let (mut round, mut beside) = (0usize, 0usize);
    for earlier in before {
        let other = earlier.explained.breach;
        if other.wid == breach.wid {
            round = round.saturating_add(1);
        }
        if other.server.index == breach.server.index && earlier.missing_at == marked.missing_at {
            beside = beside.saturating_add(1);
        }
        if other.session.index == breach.session.index {
            above = above.saturating_add(1);
        }
        if other.server.index == breach.server.index {
            below = below.saturating_add(1);
        }
    }
    Numbered {
        marked,
        number,
        hue: hue_of(number),
        above,
        below,
        round,
        beside,
    }
}

// Draws the number of a breach in a disc.
fn draw_number(
    alloc: Global,
    canvas: &mut Canvas,
    numbered: &Numbered<'_>,
    at: Point,
) -> Result<(), AllocError> {
    let number = numbered.number;
    canvas.shape(
        ShapeForm::Disc(at, RADIUS),
        hued(ShapeKind::Number, numbered.hue),
    )?;
    canvas.inside(at, ShapeKind::Number, format!(in alloc; "{number}")?)
}

// Draws from the earlier operation to the later one.
fn draw_arc(
    alloc: Global,
    canvas: &mut Canvas,
    numbered: &Numbered<'_>,
    first: Point,
    second: Point,
) -> Result<(), AllocError> {
    let height = along(ARC, LANE, numbered.above);
    let (from, to) = (first.up(HALF_HEIGHT), second.up(HALF_HEIGHT));
    let middle = Point {
        x: first
            .x
            .min(second.x)
            .saturating_add(first.x.abs_diff(second.x) / 2),
        y: from.y,
    };
    let form = ShapeForm::Bend(from, middle.up(height.saturating_mul(2)), to);
    canvas.shape(form, hued(ShapeKind::Arc, numbered.hue))?;
    draw_number(alloc, canvas, numbered, middle.up(height))
}

// Draws from an operation to a place in a server's line.
fn draw_reach(
    canvas: &mut Canvas,
    hue: u8,
    operation: Option<Point>,
    place: Option<Point>,
    down: u32,
) -> Result<(), AllocError> {
    let (Some(from), Some(to)) = (operation, place) else {
        return Ok(());
    };
    let form = ShapeForm::Line(from.by(0, HALF_HEIGHT), to.up(down));
    canvas.shape(form, hued(ShapeKind::Reach, hue))
}

// Draws where the Write is missing.
fn draw_gap(
    alloc: Global,
    canvas: &mut Canvas,
    numbered: &Numbered<'_>,
    wid: Wid,
    at: Point,
) -> Result<(), AllocError> {
    let (origin, seq) = (wid.origin.index, wid.seq);
    let low = at.by(0, along(GAP, LANE, numbered.below));
    canvas.shape(
        ShapeForm::Line(at.up(GAP), low),
        hued(ShapeKind::Gap, numbered.hue),
    )?;
    draw_number(alloc, canvas, numbered, low.by(0, 6))?;
    canvas.label(
        low.by(12, 10),
        hued(ShapeKind::Told, numbered.hue),
        format!(in alloc; "no {origin}:{seq} here")?,
    )
}

// Draws rings round the Write that is missing, where it is held.
fn draw_rings(
    canvas: &mut Canvas,
    numbered: &Numbered<'_>,
    write: Option<Point>,
    there: Option<Point>,
) -> Result<(), AllocError> {
    let (hue, by) = (numbered.hue, along(RING, RING, numbered.round % RINGS));
    if let Some(at) = write {
        canvas.ringed(at, hued(ShapeKind::Ring, hue), by)?;
    }
    match there {
        Some(at) if there != write => canvas.ringed(at, hued(ShapeKind::LateRing, hue), by),
        _ => Ok(()),
    }
}

// Draws the text of a breach.
fn draw_told(
    alloc: Global,
    canvas: &mut Canvas,
    numbered: &Numbered<'_>,
    breach: &Breach,
    at: Point,
) -> Result<(), AllocError> {
    let title = breach_title(alloc, breach)?;
    let sentence = breach_sentence(alloc, breach)?;
    draw_number(alloc, canvas, numbered, at.by(8, 0))?;
    canvas.label(
        at.by(24, 4),
        hued(ShapeKind::Told, numbered.hue),
        title.as_str().trim().to_string(alloc)?,
    )?;
    canvas.words(at.by(24, 20), ShapeKind::Note, sentence.as_str().trim())
}

// Draws a breach.
fn draw_breach(
    alloc: Global,
    lines: &[Located<'_>],
    marks: &Marks<'_>,
    layout: &Layout,
    numbered: &Numbered<'_>,
) -> Result<Canvas, AllocError> {
    let mut canvas = Canvas::new(alloc);
    let (explained, hue) = (numbered.marked.explained, numbered.hue);
    let breach = explained.breach;
    let first = layout.operation(lines, marks, explained.first);
    let second = layout.operation(lines, marks, explained.second);
    let write = layout.write(lines, marks, explained.write);
    let there = layout.write(lines, marks, explained.there);
    let gap = match numbered.marked.missing_at {
        Some(number) => layout.before(lines, marks, breach.server, number),
        None => None,
    };
    let gap = match gap {
        Some(at) => Some(at.by(along(0, BESIDE, numbered.beside), 0)),
        None => None,
    };
    draw_reach(&mut canvas, hue, first, write, HALF_HEIGHT)?;
    draw_reach(&mut canvas, hue, second, gap, GAP)?;
    if let (Some(first), Some(second)) = (first, second) {
        draw_arc(alloc, &mut canvas, numbered, first, second)?;
    }
    draw_rings(&mut canvas, numbered, write, there)?;
    if let Some(gap) = gap {
        draw_gap(alloc, &mut canvas, numbered, breach.wid, gap)?;
    }
    let at = Point {
        x: NAMES,
        y: along(
            layout.rows.told_from,
            TOLD,
            numbered.number.saturating_sub(1),
        ),
    };
    draw_told(alloc, &mut canvas, numbered, &breach, at)?;
    Ok(canvas)
}

/// Each breach as it is drawn, in their order.
pub(crate) fn draw_breaches(
    alloc: Global,
    lines: &[Located<'_>],
    marks: &Marks<'_>,
    layout: &Layout,
) -> Result<Vec<Drawn>, AllocError>
    ensures { IfOk result (λ list. breaches_drawn list.items ≡ breaches_marked marks.now.breaches.items) }
{
    let breaches = marks.breaches.as_slice();
    let mut drawn = Vec::new(alloc);
    for (at, marked) in breaches.iter().enumerate() {
        let numbered = number_breach(&breaches[..at], *marked);
        let canvas = draw_breach(alloc, lines, marks, layout, &numbered)?;
        drawn.push(Drawn {
            breach: marked.explained.breach,
            shapes: canvas.shapes,
        })?;
    }
    Ok(drawn)
}
