//! What is seen of a store, kept, and the text of JSON that tells it.
//!
//! Callers see a [`StoreSeen`], which they change as servers tell more, and which spells what of it is asked for. What became of a line is spelled
//! by [`done_text`]. Who asked the servers, and when, this crate doesn't know.
#![tactic(auto)]

pub mod done;
mod parts;
pub mod row;
mod rows;
pub mod seen;

pub use done::{LineDone, done_text};
pub use row::Row;
pub use seen::{NewsItem, Own, OwnTold, SeenSession, ServerSeen, StoreSeen};
