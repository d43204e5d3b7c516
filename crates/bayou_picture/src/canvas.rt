//! Shapes, one after another.
use crate::shape::{DrawnShape, Point, ShapeForm, ShapeKind, Style};
use bayou_explain::shown_line;
use std::alloc::{AllocError, Global};

/// Half of the width of a box.
pub(crate) const HALF_WIDTH: u32 = 18;

/// Half of its height.
pub(crate) const HALF_HEIGHT: u32 = 12;

/// How far below its line the middle of a small text is.
const BASE: u32 = 4;

/// The shapes that are drawn so far.
#[derive(Drop)]
pub(crate) struct Canvas {
    pub(crate) alloc: Global,
    pub(crate) shapes: Vec<DrawnShape>,
}

/// A text from outside as it is drawn: cut, and with no character that may not stand in XML.
pub(crate) fn drawable(alloc: Global, bytes: &[u8]) -> Result<String, AllocError> {
    let mut text = String::new(alloc);
    for character in shown_line(alloc, bytes)?.as_str().chars() {
        text.push(match character {
            '\u{fffe}' | '\u{ffff}' => '?',
            _ => character,
        })?;
    }
    Ok(text)
}

/// A kind with no colour of its own.
pub(crate) fn plain(kind: ShapeKind) -> Style {
    Style { kind, hue: None }
}

/// A kind in a colour.
pub(crate) fn hued(kind: ShapeKind, hue: u8) -> Style {
    Style {
        kind,
        hue: Some(hue),
    }
}

impl Canvas {
    pub(crate) fn new(alloc: Global) -> Canvas {
        Canvas {
            alloc,
            shapes: Vec::new(alloc),
        }
    }

    /// Adds a shape, with what is shown where a reader points at it.
    pub(crate) fn hinted(
        &mut self,
        form: ShapeForm,
        style: Style,
        hint: String,
    ) -> Result<(), AllocError> {
        self.shapes.push(DrawnShape { form, style, hint })?;
        Ok(())
    }

    /// Adds a shape.
    pub(crate) fn shape(&mut self, form: ShapeForm, style: Style) -> Result<(), AllocError> {
        let hint = String::new(self.alloc);
        self.hinted(form, style, hint)
    }

    /// Adds a text.
    pub(crate) fn label(
        &mut self,
        at: Point,
        style: Style,
        text: String,
    ) -> Result<(), AllocError> {
        self.shape(ShapeForm::Label(at, text), style)
    }

    /// Adds a text of the program's own.
    pub(crate) fn words(
        &mut self,
        at: Point,
        kind: ShapeKind,
        text: &str,
    ) -> Result<(), AllocError> {
        let text = text.to_string(self.alloc)?;
        self.label(at, plain(kind), text)
    }

    /// Adds a box round this place.
    pub(crate) fn boxed(
        &mut self,
        middle: Point,
        style: Style,
        hint: String,
    ) -> Result<(), AllocError> {
        let corner = Point {
            x: middle.x.saturating_sub(HALF_WIDTH),
            y: middle.y.saturating_sub(HALF_HEIGHT),
        };
        let form = ShapeForm::Box(
            corner,
            HALF_WIDTH.saturating_mul(2),
            HALF_HEIGHT.saturating_mul(2),
        );
        self.hinted(form, style, hint)
    }

    /// Adds a box round this place that is larger by so much.
    pub(crate) fn ringed(
        &mut self,
        middle: Point,
        style: Style,
        by: u32,
    ) -> Result<(), AllocError> {
        let (width, height) = (
            HALF_WIDTH.saturating_add(by),
            HALF_HEIGHT.saturating_add(by),
        );
        let corner = Point {
            x: middle.x.saturating_sub(width),
            y: middle.y.saturating_sub(height),
        };
        let form = ShapeForm::Box(corner, width.saturating_mul(2), height.saturating_mul(2));
        self.shape(form, style)
    }

    /// Adds a text in the middle of this place.
    pub(crate) fn inside(
        &mut self,
        middle: Point,
        kind: ShapeKind,
        text: String,
    ) -> Result<(), AllocError> {
        self.label(middle.by(0, BASE), plain(kind), text)
    }

    /// Adds a line of the picture: that of a session or of a server.
    pub(crate) fn rail(&mut self, from: Point, width: u32) -> Result<(), AllocError> {
        let to = Point {
            x: width,
            y: from.y,
        };
        self.shape(ShapeForm::Line(from, to), plain(ShapeKind::Rail))
    }
}
