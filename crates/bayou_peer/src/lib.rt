//! Anti-entropy (Petersen et al. 1997) over a stream: the one server says what it counts, the other sends what is lacking, in
//! stamp order, and what was taken is kept however the stream ends.
//!
//! Callers see a [`Replica`] as the list of the Writes that it holds, where it tells it, and as the relation by which it takes
//! one. An engine is lent a replica and a channel (`bayou_streams`), spends the channel's turns, and ends with an answer or the
//! fault that ended it. [`answer_offer_on`] and [`serve_offer_on`] send, [`pull_on`] and [`pull_from_on`] take; [`take_answer`] takes an answer
//! that is in memory, which no stream brings. [`has_lost`] asks whether another has Writes of a server's own that it lost, and takes none. The Items of one read are taken together ([`Replica::take_all`]), before the next read.
//!
//! Callers owe nothing: strangers may send any bytes. Want of memory is an answer only where a growth was refused. It isn't
//! promised that a stream gives or takes anything, nor, of a replica that doesn't tell its list, what was sent.
#![tactic(auto)]

pub mod answering;
pub mod fault;
pub mod laws;
mod lent;
pub mod losing;
pub mod meeting;
pub mod pulling;
pub mod replica;
pub mod sending;

pub use answering::{answer_offer_on, serve_offer_on};
pub use fault::PullFault;
pub use losing::{all_but_own, has_lost};
pub use meeting::cut_after;
pub use pulling::{PullStopped, Pulled, pull_from_on, pull_on, take_answer};
pub use replica::Replica;
pub use sending::gather;
