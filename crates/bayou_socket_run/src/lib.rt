//! A script over sockets: its servers with their journals in files, its phases one after another, and the books at the end.
//!
//! Callers see [`run_on_sockets`] as what it puts after what an output holds, and how it ends: `IsNetFault` says which faults may end it,
//! `KeepsUnstarted` that nothing is printed where a server doesn't start. Which lines are printed, no clause says. Servers listen at ports of the
//! loopback address that the system picks, and each session has a thread of its own (`bayou_fleet`).
//!
//! Callers owe a folder that one run has at a time: a journal in use is refused. It may wait for locks, connections and threads. It isn't
//! promised that it ends, that memory suffices, or that a file holds what was written to it.
#![tactic(auto)]

mod faults;
mod journals;
mod phases;
mod settling;
pub mod sockets;

pub use sockets::{run_commands, run_on_sockets};
