//! Requests over streams: what a server does of what it is asked, and what it replies.
//!
//! Callers see something that is [`Served`] as a `Steps`: the Writes that it holds, where it tells them, and how it answers a read, a
//! program and a reopening. [`serve_on`] is lent one, and a channel (`bayou_streams`): it does each request in its order and writes its
//! reply, until the input ends between two frames. [`serve`] does so at a node (`bayou_node`), for whoever has a desk there, and
//! [`serve_with_leave`] where Writes are made only as long as there is leave, and else refused. By
//! [`answer_offer`], [`serve_offer`], [`pull`] and [`pull_from`] a node takes part in anti-entropy (`bayou_peer`): its lock is free between two
//! batches that it sends and between a few Writes that it takes, so that others are served meanwhile; the clauses
//! say no more of what it holds than that it may be behind its lock. [`lookup_reply`] answers a List or a Became, which only who greeted may ask.
//!
//! Callers owe nothing: strangers may send any bytes, and what is no request ends the connection without a reply. Want of memory is an
//! answer, or a reply, only where a growth was refused. A program that is asked again under its tag is answered as it was, by the same reply: it
//! is no second Write. It isn't promised that a stream gives or takes anything.
#![tactic(auto)]

pub mod at_desk;
mod at_node;
pub mod attending;
mod dumping;
pub mod gate;
pub mod halting;
pub mod host;
pub mod lent;
pub mod listening;
pub mod lookups;
pub mod node;
pub mod replying;
pub mod served;
pub mod serving;
pub mod sockets;

pub use at_desk::serve;
pub use attending::{Attendant, Door, attend, shut};
pub use gate::{NoGate, RequestGate};
pub use halting::{Leave, serve_with_leave};
pub use host::{Host, drop_rest, serve_connection};
pub use listening::{ListenFault, ListenerBroken, ListenerEnded, listen, listen_on};
pub use lookups::{is_lookup, lookup_reply};
pub use node::{answer_offer, pull, pull_from, serve_offer};
pub use served::Served;
pub use serving::serve_on;
pub use sockets::Sockets;
