//! Every fault of a script or of an audit file, and what is reported of it.
//!
//! Callers see a [`Report`]: which kind of text it is, the least line with a fault, and the lines with a fault after it. The least one is the line for
//! which `bayou_script` refuses the text, with the same fault: that crate's own reader names it ([`least_fault`]), so that a text with no fault is one
//! that is taken. What more is reported of a line (the member, what was found, what is expected, the nearest word, a line that it may be meant as) comes of a
//! second look at that line alone, which believes nothing of it; no clause speaks of that. A line that a report gives as meant is one that is read.
//!
//! A line with a fault is as if it weren't there, but for the servers and the session that it speaks of, which are presumed; so one mistake is reported once.
//!
//! Callers owe nothing. It isn't promised that memory suffices. A text is held whole.
#![tactic(auto)]

pub mod check;
mod cut;
pub mod expected;
pub mod forms;
pub mod found;
pub mod json_lines;
pub mod kind;
mod leaf;
pub mod least;
mod look;
pub mod meant;
mod nearest;
mod no_json;
pub mod page;
pub mod parts;
pub mod report;
pub mod show;
mod span;
pub mod standing;
mod telling;
mod text;
pub mod told;
mod within;

pub use check::{check_audit, check_script, check_text, kind_of};
pub use json_lines::{summary_json, told_json};
pub use kind::TextKind;
pub use least::{Least, least_fault};
pub use meant::Meant;
pub use report::Report;
pub use show::{summary_text, told_text};
pub use told::{FaultyLine, Step, TextSpan};
