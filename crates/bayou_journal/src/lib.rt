//! A server's journal: a chain of entries on a device.
//!
//! Callers see a [`Journal`] as its device, the server whose it is, the digest that the next entry stands after, and
//! whether it is down. What the device holds is no part of the journal, since [`Journal::device`] lends it out: an opening
//! says what it finds in the bytes and what it leaves, and an append what it adds after them. An entry carries a body and
//! the digest (SHA-256, FIPS 180-4) over the digest before it, the body's length and the body; the chain is the longest
//! run of such entries from the header on, and there is one. At every exit, each chain that was synced at entry is there.
//!
//! The header names a version of the format, from the first to the newest. An entry's body of one byte, which is a later
//! version than the chain has there, is a mark: the chain has that version from there on. Callers don't see marks; they see
//! each other body, in the version that the chain has there. An opening raises an older chain to the newest version by a
//! mark after it, and changes nothing before that, so bodies are added in the newest version alone.
//!
//! A caller appends bodies of 1 to [`MAX_BODY_BYTES`](bayou_base::MAX_BODY_BYTES) bytes, one by one, or several by one append and one sync. The crate doesn't promise what a
//! real file holds, nor that a digest is never met by chance.
#![tactic(auto)]

pub mod careful;
mod chain;
pub mod fault;
pub mod format;
pub mod journal;
pub mod laws;
pub mod opened;
mod restore;
pub mod torn;

pub use careful::{CarefulDevice, Damage, DamagedEntry};
pub use fault::{AppendFault, NotOpened, OpenFault};
pub use journal::Journal;
pub use opened::Opened;
pub use torn::Tear;
