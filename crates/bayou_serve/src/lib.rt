//! A server that lives: one server of a store at a socket, with its journal in a file, which pulls from its peers by itself.
//!
//! Callers see [`serve_plan`], which serves what a [`ServicePlan`] says until it is asked to end, or for ever. Each connection is served at a desk
//! of its own (`bayou_net`), as long as there is patience with it: a client that says nothing holds nobody up. One thread a peer pulls every
//! so often; one more opens the journal again where a fault of the device took the server down, and tells when the server fills up. A journal that is
//! lost is made again of what the peers have (`bayou_restore`), where the plan asks for that. A server that finds that it lost Writes of its own,
//! by what a peer sends, takes no more; it tells so, and keeps a mark of it beside its journal, with which it isn't started until that was made again.
//!
//! Callers owe a folder in which one process has the journal of a server at a time: a journal in use is refused. It isn't promised that
//! a thread gets on, that a peer answers, or that a file holds what was written to it.
#![tactic(auto)]

mod answering;
mod compared_way;
mod comparing;
pub mod deferred;
mod descriptors;
pub mod fault;
pub mod filling;
pub mod greeting;
mod hall;
pub mod held_digests;
mod keeper;
mod left_out;
mod lines;
mod lookups;
mod marking;
pub mod notice;
pub mod pace;
mod peers;
pub mod plan;
mod reception;
mod remaking;
pub mod reminding;
mod restoring;
mod rollcall;
pub mod rooms;
mod searching;
pub mod serving;
mod starting;
mod staying;
pub mod straying;
pub mod teller;
pub mod visit;
pub mod waiting;
pub mod watched;

pub use fault::{ServeFault, Unrestored};
pub use plan::{Beginning, Peer, ServiceHabits, ServicePlan, ServicePlanFault};
pub use serving::{ServicePaths, serve_plan};
pub use teller::Teller;
