//! The judge: whether what sessions were served kept the guarantees that they asked for.
//!
//! Callers give entries, what each session tried and was answered, and dumps, what each server holds at the end in order of
//! receipt, from wherever they have them. [`judge`] sees them as a [`History`](../specs/History.antt): the fronts of a dump
//! are the databases that its server had, a read was served from the front that its vector counts, and a Write is the one of its
//! name. Where they can't be of servers that keep to the rules they are refused, the least bad place of a dump first, then
//! the first forged entry. Otherwise the verdict is whether that history keeps the four session guarantees (Terry et al. 1994),
//! and a breach names the least pair of operations that violates one. [`survey`] tells of each guarantee in each session, and
//! [`verdict_of`] makes the verdict of what it told, so that one pass over the entries gives both. [`breaches`] has every operation that breaks one.
//!
//! Callers owe so many dumps as there are servers, and only lend them: [`lend_dumps`] makes such slices. It isn't promised
//! that the value which a read gave was right, nor that entries and dumps are all that there was. Want of memory is an answer only
//! where a growth was refused.
#![tactic(auto)]

pub mod breach;
mod demand;
mod dumps;
mod entries;
pub mod every;
mod evidence;
mod finding;
mod fitting;
mod index;
mod judge_all;
mod kinds;
pub mod laws;
mod lending;
mod locate;
mod needs;
mod passes;
mod survey_all;
mod told;
pub mod verdict;

pub use breach::{Breach, Guarantee};
pub use every::{SessionBreaches, breaches};
pub use judge_all::{judge, verdict_of};
pub use lending::lend_dumps;
pub use survey_all::survey;
pub use verdict::{BadEvidence, Surveyed, Verdict};
