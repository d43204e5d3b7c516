//! The one spelling of each line of a script and of an audit file.
//!
//! Callers see a line as `bayou_text` does, and what is written as its bytes: [`write_line`] gives the spelling of that
//! crate's `specs/Spelling`, and what it wrote is read as the line that was written. Who makes
//! scripts writes their lines, and so does who keeps a run for an audit. A new command is an arm of the writer of its
//! kind, in `write/command.rt`.
//!
//! Nothing is kept between two calls. A caller adds the line feed. Not promised here: that the line fits its place in a
//! script, and that memory was short where it is said to be.
#![tactic(auto)]

pub mod write;

pub use write::write_line;
