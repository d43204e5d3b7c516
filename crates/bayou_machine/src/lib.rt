//! The machine of a script: its servers, its sessions, the book of what they were served, and what each command is answered.
//!
//! Callers see a [`Machine`] as a `ScriptState`: how the script stands (`Standing`: how many servers there are and how many Writes each may hold,
//! where each of them stands, and the sessions, each with what it may ask again), and its book (`Filings`: how many entries it may have, and what was filed). A server
//! is a [`ScriptServer`], which serves on a device in memory, up or down, or is stopped. [`Machine::answer`] answers one command, as a relation
//! (`Turn`) between the state before, the `Answer` (`bayou_answers`) and the state after: what the command names changes as the servers and
//! sessions below promise, and nothing else, and of an operation just the entry of what its session heard is filed, after what was. A
//! `ScriptRun` is one command after another, from servers that were just started on empty devices.
//!
//! A caller owes that each command stands where it may: its servers are some of the machine's, and the book has room left for an operation,
//! as one with `capacity_for` (`bayou_script`) all commands has. It isn't promised that memory suffices: a server that finds none says so in its
//! answer, and only where a log finds none is there no answer; then nothing changed.
#![tactic(auto)]

mod exchange;
pub mod lent;
pub mod machine;
mod parties;
mod script_book;
pub mod script_server;
mod seat;

pub use lent::Lent;
pub use machine::Machine;
pub use script_server::ScriptServer;
