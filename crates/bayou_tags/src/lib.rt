//! The tags of the Writes that a server holds, beside these Writes: which Write has a tag is found by looking at few of them.
//!
//! Callers see [`Tags`] as a list with a place for each Write, in order of receipt, that has its tag or none; the tag that
//! comes, if there is one; and for how many more places room is taken. No tag is at two places, and the one that comes is at none.
//!
//! A caller asks whether a Write's tag is found, reserves a place for it before the Write is stored, and settles the place once the
//! Write is held, or forgets the tag that came. The crate doesn't promise whose tags they are, nor which Write stands at a place:
//! the list of Writes is the caller's.
#![tactic(auto)]

pub mod tags;

pub use tags::Tags;
