//! What is final of a store's Writes, by what its servers told of what they hold (`specs/Known`; of messages the same is known as stability, Birman).
//!
//! Callers see [`Views`] as what was heard of each server: a *view* is a vector that it told at some time, and those of one server are joined. From
//! views of all servers a caller finds the longest beginning of a server's Writes, in stamp order, each of which every server is known to hold
//! ([`Views::known_front`]). [`Finality`] keeps how far that went, and goes on from there: it is handed what a server has beyond that.
//!
//! Callers owe views that servers told, the store's number of servers, and Writes in stamp order, all that a server has beyond what is known as final.
//! That what is final stays so is a law over all servers and runs (`bayou_world`). The crate knows nothing of how anything is asked or kept.
#![tactic(auto)]

pub mod finality;
pub mod laws;
pub mod standing;
pub mod views;

pub use finality::Finality;
pub use standing::Standing;
pub use views::Views;
