//! A greeting over a stream, from either end: who is there, and whether both are of one store.
//!
//! Callers see a channel (`bayou_streams`), the greetings (`bayou_wire`) and what judges them (`bayou_greeting`). At a server [`receive`] answers a
//! Hello and lets in who proves to be of its store; what it tells that one then, [`make_known`] sends. Who asks a server greets it by [`greet_server`],
//! and knows it then, or why it is a [`Stranger`](bayou_greeting::Stranger). Each reads the bytes of its greetings and not one more, so that requests
//! may follow on the same channel.
//!
//! Callers owe a nonce that was drawn at random for each greeting. Strangers may send any bytes. Want of memory is an answer only where a growth was
//! refused. It isn't promised that a stream gives or takes anything.
#![tactic(auto)]

pub mod client_end;
pub mod reading;
mod sending;
pub mod server_end;

pub use client_end::{GreetingFault, Met, OLDER_AFTER, greet_server, meet_server};
pub use reading::{MAX_GREETING_BYTES, read_greeting, read_text};
pub use server_end::{Guest, NotReceived, StoreServer, make_known, receive};

#[cfg(test)]
mod tests;
