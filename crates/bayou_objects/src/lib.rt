//! What `bayou run --json` prints for the answers of a script: objects of JSON, one a line.
//!
//! Callers see an object as its text, which `specs/` has for each answer: `last_json` for what is printed last, and for a log and a book a text for
//! each part. Verdicts and surveys are the objects of `bayou_explain`. A line of a book is spelled by `bayou_text_writer`, and stands in an object.
//!
//! [`write_answer_objects`] and [`write_book_objects`] put them after what waits to be written (`Waiting` of `bayou_print`). They promise of these
//! texts what `write_answer` and `write_book` of `bayou_print` promise of printed lines.
//!
//! Callers owe nothing but the number of servers. It isn't promised that memory suffices, or that an output takes anything.
#![tactic(auto)]

mod answer;
mod book;
mod listing;
mod object;
mod telling;

pub use telling::{write_answer_objects, write_book_objects};
