//! Printed lines: what the program writes for each answer and for a verdict, and what a run ends with.
//!
//! Callers see a line as its text, which `specs/` has for each answer: `last_text` for the line that each answer ends in, and for those of
//! many lines a text for each part. A [`Printer`] has the line of each part of such an answer. An audit file is spelled by
//! `bayou_text_writer`, so that what is printed of a book is read again as it was.
//!
//! [`write_answer`] and [`write_each`] put such lines after what waits to be written ([`Waiting`]), which goes to the output (`bayou_streams`)
//! in pieces: `Gathers` says what was taken and what waits. An output is at fault only where a call of it failed, or no turn was left. A run
//! ends with what its verdicts came to ([`Ended`]), or with a [`RunFault`]; each has its exit status.
//!
//! Callers owe nothing but the number of servers. It isn't promised that memory suffices, or that an output takes anything.
#![tactic(auto)]

pub mod book;
pub mod connected;
pub mod ended;
pub mod fault;
pub mod living;
pub mod printed;
pub mod printer;
pub mod standing;
pub mod telling;
pub mod verdict;
pub mod waiting;
pub mod writing;

pub use book::{Entries, Holding, servers_line};
pub use connected::{
    Holds, LIST_LOST, REOPEN_AWAY, away_line, became_line, dumped_line, row_line, rows_line,
    seat_line, server_line,
};
pub use ended::Ended;
pub use fault::RunFault;
pub use living::{held_line, serving_line};
pub use printed::{Counts, last_line, pulling_word, settled_line};
pub use printer::{Listing, Printer, Survey};
pub use standing::{forgotten_line, key_standing_line, standing_line, standing_row_line};
pub use telling::{write_answer, write_book, write_each};
pub use verdict::verdict_line;
pub use waiting::Waiting;
pub use writing::write_text;
