//! What a request to the page of a store is answered by: the page, what a desk shows, or what became of a line at it.
//!
//! A [`Site`] is the service: a [`PageDoor`], which says what a request may want, and a [`PageDesk`], which shows and does. A request that may ask nothing
//! leaves the desk as it was (`Answers` in `specs/`). The crate knows nothing of sockets, stores and sessions.
//!
//! Callers owe nothing. It isn't promised that memory suffices: where it doesn't before anything was done, the connection ends; after that, 500 is answered.
#![tactic(auto)]

pub mod asked;
pub mod body;
pub mod desk;
pub mod door;
mod reply;
pub mod site;
pub mod wish;

pub use body::{BodyFault, line_of};
pub use desk::PageDesk;
pub use door::PageDoor;
pub use site::Site;
pub use wish::{PageWish, RequestRefusal};
