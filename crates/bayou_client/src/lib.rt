//! A session's end of a connection: what it asks of a server, what it hears, and what is entered of it in a book.
//!
//! A [`Link`] is a connection to one server, over which one request has one reply. Once no whole reply came to a request it is closed,
//! since what comes next might belong to that request; whoever goes on opens another. An [`Asker`] is a session with the Write that it may ask
//! again: callers see the two, and what becomes of them in words of the reply that was read. It begins a place for each operation, sends the
//! session's need, and tells the session just what a reply to that request says; what is to be entered of it in a book it hands out
//! ([`Heard`]). A Write is begun first, and then sent, under the tag of its place, so that it may be kept between the two. The asker keeps its
//! program and the server, and asks it again over another link, under that tag and at the session's next place: until it is reported as accepted,
//! or a read or another Write is begun. A [`Client`] is an asker with its share of the book, which claims a slip for each operation and spends it
//! on what is to be entered.
//!
//! Beside reads of one key an asker asks for rows of a database, and what became of a Write, over a link on which nothing else was asked: that is a
//! read too, and is entered as one.
//!
//! A caller owes that the session has a place left, that session and share name one session, that there is something to ask again where it
//! is asked again, and that each link leads to the server that it is for: for what is asked again, the one that the asker names. Servers may
//! send any bytes: what is no reply to the request is a bad frame. It isn't promised that a server did anything, nor, where a reply is lost, that
//! it did nothing.
#![tactic(auto)]

pub mod asker;
pub mod client;
pub mod fault;
mod judging;
pub mod link;
pub mod lookup;
mod reading;

pub use asker::{Asked, Asker, Heard};
pub use client::Client;
pub use fault::{ClientFault, LinkFault};
pub use link::Link;
