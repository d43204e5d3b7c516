//! Readers and writers that are called a counted number of times.
//!
//! A turn is one call of a reader's `read` or of a writer's `write`, and nothing but a turn calls a stream. Callers see a
//! [`CountedChannel`] as its reader, its writer, the turns that are left to the two together, and whether a call of either failed.
//! Each of its calls is one turn, and where none is left it does nothing: so a channel spends a turn exactly where it tells
//! one. Only making one gives turns: an engine that is lent a channel spends what is left, at most
//! [`MAX_TURNS`](bayou_base::MAX_TURNS), and can't give itself more. Who goes on after an interruption spends another. A side
//! that an engine doesn't have is `()`.
//!
//! An [`Output`] is a writer of lines. Each line has [`MAX_TURNS`](bayou_base::MAX_TURNS) turns: they begin anew where the
//! writer took the line feed before it, and nowhere else. It counts the turns that were made and the line feeds that were
//! taken, and callers see what was paid for what was written (`TakesBytes` and `Pays` in `specs/`).
//!
//! Callers owe nothing. What a reader has left and a writer holds is said of those that tell their bytes, as those over
//! memory do; of others only the turns are promised, and that the channel keeps each failure that it tells. It isn't promised
//! that a stream gives or takes anything.
#![tactic(auto)]

pub mod called;
pub mod channel;
pub mod output;
pub mod patient;

pub use called::CalledReader;
pub use channel::{CountedChannel, StreamFault, Turn};
pub use output::Output;
pub use patient::{Patience, Patient};
