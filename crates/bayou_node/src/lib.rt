//! One server of the store behind a lock, which the threads of all sessions and pulls share, with exact books.
//!
//! Callers see a [`Node`] as the server that it has. The lock's value is a [`Held`], which is seen as a `Booked`: the server, how
//! many Writes the server had made itself as the node was made, how many programs of the node's desks were accepted since, and how
//! many of the server's own Writes were adopted since. Whenever the lock is free these books are exact: the server is sound, and
//! its own Writes are those that it began with, those accepted and those adopted, and no others. A [`Desk`] is seen as the number of
//! Writes that were accepted for it; [`Node::write`] needs one, and pays it where, and only where, it answers with a new Write: one that
//! was made before and is asked again is answered, and not paid again. A [`Ledger`](std::sync::ledger::Ledger) carries this across threads.
//!
//! The steps are those of [`Held`], which are lent the value: each is the server's step, and leaves every Write that was held. Each
//! call of [`Node`] takes the lock once, and holds none other; so it may wait for the lock. Its clauses say that its answer is one
//! that a sound server of the books gives; which one of all that stood behind the lock in time, no clause can say.
//!
//! A caller gives [`Node::new`] a blank ledger with a part for each desk. Want of memory is an answer only where a growth was
//! refused. It isn't promised that a call which waits gets on.
#![tactic(auto)]

pub mod desk;
pub mod held;
pub mod node;
pub mod node_settled;

pub use desk::{Desk, Desks};
pub use held::Held;
pub use node::Node;
pub use node_settled::{DeskMissing, NodeSettled, NotMade};
