//! A picture of an audit: what each session did, what each server holds, and each breach of the survey, as an SVG.
//!
//! Callers give the lines of an audit file, as `bayou_explain` locates them, and what the judge told of them. [`make_marks`] makes of these the pure list of what
//! is drawn: which operations, which Writes of which dump, and each breach of the survey with the lines that show it. [`draw`] gives each of them a place, and
//! [`spell`] is the text. [`picture_text`] is all three. A history that is larger than [`MAX_WHOLE`] is cut to what the breaches touch, and says so.
//!
//! Callers owe nothing. Where the survey isn't of these lines, an end of a breach may be missing, and is not drawn. It isn't promised that memory suffices,
//! or where a mark stands.
#![tactic(auto)]

mod breaches;
mod canvas;
pub mod drawing;
mod dumps;
pub mod escape;
mod layout;
pub mod marks;
mod operations;
mod page;
pub mod picture;
mod seen;
pub mod shape;
mod spelling;
mod touched;

pub use drawing::{Drawing, Drawn};
pub use escape::escaped_text_has_no_marks;
pub use marks::{MAX_WHOLE, Mark, Marked, Marks, make_marks};
pub use picture::{draw, picture_text};
pub use seen::Amounts;
pub use shape::{DrawnShape, Point, ShapeForm, ShapeKind, Style};
pub use spelling::spell;
