//! What a picture is made of.

/// A place, from the upper left corner.
#[derive(Clone, Copy, Debug, PartialEq, Eq)]
pub struct Point {
    pub x: u32,
    pub y: u32,
}

impl Point {
    /// The place so far to the right and down.
    pub(crate) fn by(self, right: u32, down: u32) -> Point {
        Point {
            x: self.x.saturating_add(right),
            y: self.y.saturating_add(down),
        }
    }

    /// The place so far to the left.
    pub(crate) fn left(self, by: u32) -> Point {
        Point {
            x: self.x.saturating_sub(by),
            y: self.y,
        }
    }

    /// The place so far up.
    pub(crate) fn up(self, by: u32) -> Point {
        Point {
            x: self.x,
            y: self.y.saturating_sub(by),
        }
    }
}

/// What a shape stands for.
#[derive(Clone, Copy, Debug, PartialEq, Eq)]
pub enum ShapeKind {
    /// The ground of the whole.
    Ground,
    /// The line of a session or of a server.
    Rail,
    /// A heading.
    Heading,
    /// The name of a line.
    Name,
    /// A small text.
    Note,
    /// A small text in the middle of its place.
    Mark,
    /// A Write of a session, or one that a server holds.
    Write,
    /// The text in it.
    Inside,
    /// A read.
    Read,
    /// The text in it.
    InsideRead,
    /// An operation that was refused.
    Refused,
    /// What can't be true.
    Wrong,
    /// From the earlier operation of a breach to the later one.
    Arc,
    /// From an operation to a dump.
    Reach,
    /// Round the Write that is missing.
    Ring,
    /// Round the same where it came too late.
    LateRing,
    /// Where it is missing.
    Gap,
    /// The number of a breach.
    Number,
    /// The text of a breach.
    Told,
}

/// How a shape looks: what it stands for, and its colour, if it has one of its own.
#[derive(Clone, Copy, Debug, PartialEq, Eq)]
pub struct Style {
    pub kind: ShapeKind,
    pub hue: Option<u8>,
}

/// The form of a shape.
#[derive(Debug, Drop)]
pub enum ShapeForm {
    /// A line from one place to another.
    Line(Point, Point),
    /// A box: its upper left corner, its width and its height.
    Box(Point, u32, u32),
    /// A disc round a place, of this radius.
    Disc(Point, u32),
    /// A bend from a place to another, drawn towards a third.
    Bend(Point, Point, Point),
    /// A text.
    Label(Point, String),
}

/// A shape, and what is shown of it where a reader points at it; nothing where that is empty.
#[derive(Debug, Drop)]
pub struct DrawnShape {
    pub form: ShapeForm,
    pub style: Style,
    pub hint: String,
}
