//! A person, or a program that pipes lines, at the servers of a store.
//!
//! Callers see [`connect_plan`], which does the lines of an input as they come, until it ends: a script's own lines of sessions, reads, Writes and
//! reopenings, each at just the server that it names, and short lines (`bayou_person`), each at one server after another until one of them
//! serves it, or may have done it ([`in_rounds`]). What a session read and wrote is kept on a device (`bayou_remember`), where the
//! [`SessionPlan`] names one, before anything of it is printed; a Write is kept before it is sent. [`take_plan`] has the rows of one server's database, of no
//! session that is kept; [`put_rows`] puts rows at one server, each Write under a name by which it acts once.
//!
//! Callers owe that one process has a state file at a time. It isn't promised that a server answers, that a file holds what was written to
//! it, or that a socket's time runs out.
#![tactic(auto)]

mod anywhere;
pub mod asking;
mod audit_file;
mod claiming;
mod commanding;
pub mod connecting;
pub mod deadline;
mod desk;
pub mod doing;
pub mod exporting;
pub mod fault;
mod finals;
mod help;
pub mod importing;
mod inquiring;
mod lines;
mod listing;
mod looking;
mod objects;
pub mod open_desk;
mod outcome;
pub mod plan;
mod putting_told;
mod reach;
mod remembering;
pub mod round;
mod saying;
pub mod seeing;
mod store;
pub mod told;
mod trying;
mod views_file;
mod wishes;

pub use connecting::{Input, LinesEnded, Names, connect_plan};
pub use doing::Wrong;
pub use exporting::{ExportedRows, NotTaken, take_plan};
pub use fault::ConnectFault;
pub use importing::{NotPut, Put, Target, put_rows};
pub use open_desk::{OpenDesk, SeenServer};
pub use plan::{ServerPlace, SessionPlan, SessionPlanFault};
pub use round::{ROUNDS_PER_SECOND, Ways, first_served, in_rounds};
pub use seeing::{SeenRow, SeenRows};
pub use told::ServerTold;
