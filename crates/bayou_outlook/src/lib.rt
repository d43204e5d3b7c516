//! What a client keeps of what is final at a store: what it heard of the servers, how far Writes are known to be final, and its own Writes that
//! weren't reported as final yet.
//!
//! Callers see an [`Outlook`]. They tell it the Writes that servers accepted of theirs ([`Outlook::made`]), have it hear what servers tell
//! ([`Finality`](bayou_final::Finality)), and ask what is news where a server tells what became of an own Write ([`Outlook::told`]): what is final is news once, and
//! what is tentative where it isn't what was reported before. [`spell_outlook`] gives the text that keeps an outlook, and [`read_outlook`] reads it.
//!
//! The crate knows nothing of sockets and files, nor of which server is asked.
#![tactic(auto)]

pub mod outlook;
pub mod reading;
pub mod spelling;

pub use outlook::{Outlook, OwnWrite};
pub use reading::read_outlook;
pub use spelling::spell_outlook;

#[cfg(test)]
mod tests;
