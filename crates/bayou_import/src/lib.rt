//! The lines of an export, read again, and what is kept of an import.
//!
//! Callers see the rows that a text says ([`read_export`]): each line that is read is one, as `bayou_text` reads the op of a program that puts it. Who puts
//! them into a store keeps a [`ImportMark`] on a device: of which text the import is, at which server, and the run under which its Writes are asked. A text whose
//! rows were put in part is put from there on under the same run, so that a Write that is sent again acts once.
//!
//! Callers owe that one process has the device at a time. It isn't promised that memory suffices.
#![tactic(auto)]

pub mod mark;
pub mod reading;
pub mod row;

pub use mark::{ImportMark, MarkFault, kept_run, mark_of};
pub use reading::{LinesFault, read_export};
