//! A log of Writes and the database that they make.
//!
//! Callers see a [`Db`] as what it has at each key and the keys that it has room for, and a [`WriteLog`] as the Writes
//! that it holds, in order of receipt, beside the room that is taken ahead for one more. What a log answers is a
//! function of those Writes alone: a key has what `replay` gives, the empty database after the Writes in stamp order.
//! Nothing that callers see says how Writes are stored.
//!
//! A log holds Writes each of which fits those before it: none of its own server's is missing before it, and none that
//! its server held, and its stamp is the one that its server had to give it. So no two have one name or one stamp, and
//! the log's vector counts the Writes of each server; what else follows for such Writes is among
//! `bayou_lang`'s laws.
//!
//! Writes may wait to be applied, so that many that come late cost one replay: [`WriteLog::place`] adds one that waits, and
//! [`WriteLog::catch_up`] applies all that do. Meanwhile the database and the listing are those of the others, and all else is of all.
//!
//! A caller asks whether a Write fits ([`WriteLog::fits`]), or knows it of one that it makes itself, reserves before it
//! inserts, and inserts none into a full log. The crate doesn't promise whose log it is: that a server's own Writes
//! say all that was held before them is for the caller to keep.
#![tactic(auto)]

mod change_list;
pub mod db;
pub mod fitting;
mod index;
pub mod laws;
pub mod listing;
mod next;
mod order;
pub mod plain;
mod present;
mod rows;
mod undo;
pub mod write_log;

pub use db::{Db, Undo};
pub use fitting::Misfit;
pub use listing::Listed;
pub use write_log::WriteLog;
