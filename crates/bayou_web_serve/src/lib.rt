//! A site (`bayou_web`) at a socket: one request a connection, for as long as there is patience.
//!
//! Callers see [`serve_stream`], which serves one connection of a socket, and closes it; and [`serve_site`], which serves one over any streams: what its
//! calls leave of the desk is a theorem. A [`SiteHall`] is what threads share: what is seen, and the [`Counter`] at which lines are handed in to the one
//! that has the desk. A [`SiteReception`] is a host of `bayou_net`, whose desks are sites at that counter.
//!
//! Callers owe nothing. It isn't promised that a time is kept, nor anything of a socket's bytes.
#![tactic(auto)]

pub mod counter;
pub mod hall;
pub mod page;
pub mod serving;
pub mod timed;

pub use counter::{Counter, NotDone};
pub use hall::{AtCounter, ShownState, SiteHall, SiteReception};
pub use page::{PageFault, SitePage};
pub use serving::{SiteHabits, serve_over, serve_site, serve_stream};
pub use timed::{Limit, LimitedStream, milliseconds};
