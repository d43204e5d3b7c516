//! The names and values that every other crate speaks of: servers, Writes' names and stamps, version vectors, keys,
//! values, what a session asks for and is answered, and the entry of an audit that tells of it. It has no collection that
//! grows and takes no memory.
//!
//! Callers see a [`ServerId`], a [`Wid`], a [`Stamp`] and a [`Tag`] as their numbers, with the ranges kept by the types; a
//! [`Vector`] as the list of its [`SERVERS`] counts; a [`Key`], a [`Prefix`] and a [`Text`] as the
//! list of their bytes. Constructors
//! refuse exactly what lies outside the limits, by the first fault. It doesn't promise that a name stands for a Write
//! that some server holds.
#![tactic(auto)]

pub mod answer;
pub mod asks;
pub mod entry;
pub mod key;
pub mod limits;
pub mod prefix;
pub mod refusal;
pub mod server;
pub mod session;
pub mod stamp;
pub mod tag;
pub mod value;
pub mod vector;
pub mod wid;

pub use answer::{Accepted, Seen};
pub use asks::Asks;
pub use entry::{Entry, What};
pub use key::{Key, KeyFault};
pub use limits::{
    DEFAULT_LIMIT, MAX_ALTERNATIVES, MAX_BODY_BYTES, MAX_CONDITIONS, MAX_ENTRIES, MAX_FRAME_BYTES,
    MAX_KEY_BYTES, MAX_LINE_BYTES, MAX_LINES, MAX_NUMBER, MAX_OPS, MAX_PLACES, MAX_TEXT_BYTES,
    MAX_TURNS, MAX_WRITE_BYTES, MAX_WRITES, NET_SERVERS, OLD_SERVERS, SERVERS, SESSIONS,
};
pub use prefix::Prefix;
pub use refusal::Refusal;
pub use server::ServerId;
pub use session::SessionId;
pub use stamp::Stamp;
pub use tag::Tag;
pub use value::{Text, Value};
pub use vector::Vector;
pub use wid::Wid;
