//! The picture of an audit.
ghost use Rattle.std.specs.Prelude.{◌≡◌, IfOk};
ghost use Rattle.bayou_explain.specs.Explained.{breaches_of};
ghost use Rattle.bayou_picture.specs.Marks.{breaches_drawn, breaches_found, breaches_marked};
ghost use Rattle.bayou_picture.specs.Picture.{Pictures};

use crate::breaches::{TOLD, draw_breaches};
use crate::canvas::Canvas;
use crate::drawing::Drawing;
use crate::dumps::{draw_servers, draw_writes};
use crate::layout::{Layout, along, lay_out};
use crate::marks::{Marks, make_marks};
use crate::operations::{draw_operations, draw_sessions};
use crate::page::{draw_bad, draw_headings, draw_legend, draw_reason};
use crate::shape::DrawnShape;
use crate::spelling::spell;
use bayou_explain::Located;
use bayou_judge::{BadEvidence, Surveyed};
use std::alloc::{AllocError, Global};

// What is drawn below the breaches.
fn ground(
    alloc: Global,
    name: &str,
    lines: &[Located<'_>],
    marks: &Marks<'_>,
    layout: &Layout,
    height: u32,
) -> Result<Vec<DrawnShape>, AllocError> {
    let mut canvas = Canvas::new(alloc);
    draw_headings(alloc, &mut canvas, name, marks, layout, height)?;
    draw_sessions(alloc, &mut canvas, lines, marks, layout)?;
    draw_servers(alloc, &mut canvas, marks, layout)?;
    draw_operations(alloc, &mut canvas, lines, marks, layout)?;
    draw_writes(alloc, &mut canvas, lines, marks, layout)?;
    draw_bad(&mut canvas, lines, marks, layout)?;
    draw_legend(&mut canvas, marks, layout)?;
    draw_reason(&mut canvas, lines, marks, layout)?;
    Ok(canvas.shapes)
}

/// The marks, each at its place, of a file of this name with so many servers.
pub fn draw(
    alloc: Global,
    name: &str,
    count: u8,
    lines: &[Located<'_>],
    marks: &Marks<'_>,
) -> Result<Drawing, AllocError>
    ensures { IfOk result (λ drawing. breaches_drawn drawing.breaches.items ≡ breaches_marked marks.now.breaches.items) }
{
    let layout = lay_out(alloc, lines, marks, count)?;
    let height = along(layout.rows.told_from, TOLD, marks.breaches.len());
    let ground = ground(alloc, name, lines, marks, &layout, height)?;
    let breaches = draw_breaches(alloc, lines, marks, &layout)?;
    Ok(Drawing {
        width: layout.width,
        height,
        ground,
        breaches,
    })
}

// What the judge told: the breaches, or what can't be true.
fn told(surveyed: &Result<Vec<Surveyed>, BadEvidence>) -> (&[Surveyed], Option<BadEvidence>)
    ensures { breaches_of result.0.now ≡ breaches_found surveyed.now }
{
    match surveyed {
        Ok(list) => (list.as_slice(), None),
        Err(bad) => (&[], Some(*bad)),
    }
}

/// The picture of a file of this name with so many servers: of its lines, and of what the judge told of them.
pub fn picture_text(
    alloc: Global,
    name: &str,
    count: u8,
    lines: &[Located<'_>],
    surveyed: &Result<Vec<Surveyed>, BadEvidence>,
) -> Result<Vec<u8>, AllocError>
    // Each breach that the judge told is drawn, and no other; and what is from outside stands escaped.
    ensures { IfOk result (λ text. Pictures (breaches_found surveyed.now) text.items) }
{
    let (survey, bad) = told(surveyed);
    let marks = make_marks(alloc, lines, survey, bad)?;
    let drawing = draw(alloc, name, count, lines, &marks)?;
    spell(alloc, &drawing)
}
