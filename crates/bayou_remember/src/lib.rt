//! What is kept of a session from one call of a program to the next, so that its guarantees hold over all of them.
//!
//! Callers keep an [`Asker`](bayou_client::Asker): a session, and the Write that it may ask again. [`encode_kept`] gives its one spelling and
//! [`decode_kept`] reads it (`specs/Spelling`); the run of a session that has nothing to ask again isn't kept, since the next call takes one of
//! its own. A [`Memory`] is a journal (`bayou_journal`) of such spellings on a device, of which the last of each session counts: what was kept
//! is there again, and a torn end is cut, which was never reported.
//!
//! A caller has a file's device locked as long as it is used, keeps a session before anybody hears of what it was served, and keeps a Write
//! that is asked before it is sent. It isn't promised what a real file holds. Nothing says which store a session is of.
#![tactic(auto)]

pub mod decode;
pub mod encode;
mod head;
pub mod laws;
pub mod layout;
pub mod memory;

pub use decode::decode_kept;
pub use encode::encode_kept;
pub use memory::{KeepFault, Memory, NotRemembered, RememberFault, nothing_kept};
