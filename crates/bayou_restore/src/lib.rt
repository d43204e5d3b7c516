//! How the journal of a server is made again that is lost, of the Writes that another server has.
//!
//! Callers see what another server handed over as [`Gathered`], the list of its Writes, each of which fits those before it; anti-entropy fills
//! it (`bayou_peer`). [`restore`] makes the server's own Writes of that list again, on a server that holds nothing yet, in their order: before
//! each it takes just those Writes of others that it counts. What a server makes of a program follows from what it holds, so each own Write is
//! the very same again, with its name, its stamp and its past; one that isn't, or that couldn't be made there, ends it. `laws` says that what a server
//! made is never refused so. [`first_difference`] tells where two lists have other Writes of one name.
//!
//! Callers owe a server that is dropped, with its journal, where it ends so. It isn't promised that the list has all Writes that the server made,
//! nor that their tags are those that they had: these are handed on to nobody.
#![tactic(auto)]

pub mod differing;
pub mod fault;
pub mod gathering;
pub mod laws;
pub mod restoring;

pub use differing::first_difference;
pub use fault::RestoreFault;
pub use gathering::Gathered;
pub use restoring::restore;
