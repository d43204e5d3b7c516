//! Scripts and audit files: what the lines of a text say, each in its place.
//!
//! Callers see a [`Script`] as its [`plan_of`](self): how many servers it starts, how many Writes each may hold, and what its
//! other lines say. One [`TextReader`] is given a text of any kind in pieces, and answers what it says, or the least line with
//! a fault, as soon as that is sure; a fault of the line itself comes before its place. It keeps what the lines say and no more
//! of the text than a line. Which text it is, is its [`Front`]: a [`ScriptReader`] answers a script, by the table of the lines
//! and the order that `specs/Script` states, a [`NetworkScriptReader`] a [`NetworkScript`], whose type has no command that
//! servers over a network can't be asked, by `specs/Network`, and an [`AuditReader`] an [`AuditFile`], seen as its evidence, by
//! `specs/AuditFile`. Of the files of `specs/`, those at the top must be believed; public clauses cite the words of `specs/Inner`
//! only as what a front keeps.
//!
//! What is an order, and which line is refused under one, is said once, in `specs/Order`; so is how a text is cut, by a
//! reader over what keeps its lines.
//!
//! What a line of a script uses (which session it opens or speaks for, which servers it speaks to) is said once, by `use_of`, and
//! everything that is asked of its place follows from it: a new command is an arm there, and one of `used_by` and of
//! `NetworkCommand::of` below its kind.
//!
//! Not promised: that memory was short where want of memory is answered. Lines are counted in 64 bits, and a line feed that ends
//! the last that can be counted, the one of number 2^64 - 1, is answered so too.
#![tactic(auto)]

pub mod audit;
mod audit_draft;
pub mod capacity;
mod draft;
pub mod fault;
pub mod laws;
pub mod network;
mod network_draft;
pub mod phases;
pub mod reader;
pub mod script;
pub mod spoken;
mod stage;
pub mod text;
mod uses;

pub use audit::AuditFile;
pub use audit_draft::AuditDraft;
pub use capacity::capacity_for;
pub use draft::Draft;
pub use fault::{InputRefusal, ScriptFault};
pub use network::NetworkCommand;
pub use network_draft::NetworkDraft;
pub use phases::{Part, next_phase};
pub use reader::{AuditReader, NetworkScriptReader, ScriptReader};
pub use script::{NetworkScript, Script, Servers};
pub use spoken::Spoken;
pub use text::{Front, TextReader};
