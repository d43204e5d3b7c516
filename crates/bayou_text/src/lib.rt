//! Lines of JSON: what each line of a script or of an audit file says, and the one spelling of what is said.
//!
//! Callers see a [`Line`] as what it says, `said`: a command with its numbers, its key or its program, the entry of an
//! audit, or a Write that is held, with how many counts of its vector are given. `Spells` in
//! `specs/Table` is the table of the lines: which JSON data spells which command, member by member. [`read_line`]
//! answers exactly what the bytes spell, or the first fault, which `specs/Lines` and the files below it compute.
//! `specs/Spelling` has one spelling of each line, which `bayou_text_writer` writes; those of an entry and of a held Write, by which the reader
//! knows most lines of an audit file, are made here ([`entry_spelling`], [`held_spelling`]).
//! Commands are told apart by kind, so that a place above matches the kinds that it does: a [`Command`] opens a session, is an
//! [`Operation`], a [`Trial`], an [`Exchange`] or a [`Question`], or ends a phase. What they say is one flat table, `Said`.
//! A new command is an arm of its kind, of that kind's reader and of its writer, of the kind's word in `specs/Said`, of
//! `command_of` or what stands below it and `line_json` in the grammar, of `LineIs` in the table, and of the ranges that its
//! types keep.
//!
//! A caller cuts its text into lines: a line feed is no part of one. Nothing is kept between two calls, so a refusal
//! leaves nothing behind. Not promised here: that a line fits its place in a script or an audit file (that a session was
//! opened, a server started, or that a vector has a count for each server), and that memory was short where
//! [`LineFault::OutOfMemory`] is answered.
#![tactic(auto)]

pub mod audit;
pub mod command;
pub mod laws;
pub mod line;
pub mod read;

pub use audit::AuditLine;
pub use command::{
    Attempt, Command, Exchange, Extent, Operation, PlannedFailure, Question, Trial, TrialKind,
};
pub use line::{Line, LineFault, Shape};
pub use read::read_line;
pub use read::spelled::entry_spelling;
pub use read::spelled_held::held_spelling;
pub use read::spelled_program::is_update;
