//! The servers of one run, each in a thread of its own and at a socket of its own, and the sessions that reach them over links.
//!
//! Nodes (`bayou_node`) differ in their ledgers, so the thread that keeps a server picks the ledger of its node, and no value of that type leaves
//! the thread. Other threads reach the server by its socket, or by its [`Mailbox`], in which they leave an order and find the answer. A
//! [`Network`] has a mailbox and a socket for each server, and the book of what is served; [`start_servers`] and [`join_servers`] begin and end
//! their threads. A [`RunSession`] is a session that may be opened, with its share of the book; an [`OpenSession`] has a link to each server, which
//! it keeps for the run, but that it asks a Write again over a new one, which it keeps from then on. The commands of a [`Phase`] go on side by
//! side, in threads: [`run_together`] has each session do its operations in order, and all pulls in order beside them; [`Inquiry::answer`] does what
//! closes the phase, one by one, when these have ended.
//!
//! What a command is answered is an `Answer` (`bayou_answers`); how it is printed isn't known here. A caller owes that each command
//! stands where it may. It isn't promised that a thread gets on, or that a reply arrives: an operation without one is reported as lost.
#![tactic(auto)]

pub mod begun;
pub mod fault;
pub mod inquiry;
mod keeping;
pub mod links;
pub mod mailbox;
mod messages;
pub mod network;
pub mod phase;
pub mod pulls;
pub mod run_session;
pub mod together;

pub use begun::Begun;
pub use fault::FleetFault;
pub use inquiry::Inquiry;
pub use keeping::Kept;
pub use mailbox::Mailbox;
pub use network::{FleetSettled, Keeping, Network, join_servers, start_servers};
pub use phase::{Closing, Opening, Phase, Pull};
pub use run_session::{OpenSession, RunSession};
pub use together::run_together;
