//! The book of what was served: who audits a system of servers and sessions needs a list of every operation that was served
//! or refused, which holds each once and nothing else, also where many sessions file at once.
//!
//! Callers see a [`Book`] as a `Booked`: how many shares were made of it, how many entries it may have, its entries in the order in
//! which they were filed, and its [`Totals`]; and a [`Share`] as its session with what that session has a part in of each
//! total. An operation begins with [`Book::claim`], which keeps room for its entry and hands out a [`Slip`]; a slip is no
//! value that can be forgotten: it is spent by [`Book::file`], with the entry, or by [`Book::void`]. The totals are the sums of
//! the shares, and those of reads, Writes and refusals are the numbers of such entries; a [`Ledger`](std::sync::ledger::Ledger)
//! for each of the four, which a [`Ledgers`] names, carries this across threads. An [`AuditBook`] is a book behind its lock, to
//! be shared by the threads of the sessions; each of its calls takes the lock once.
//!
//! A caller owes that slip, share and entry name one session. It isn't promised that an entry is true: the book holds what it
//! was given. A call of [`AuditBook`] says what becomes of the share, and of the book no more than that its totals stay exact.
#![tactic(auto)]

pub mod book;
pub mod book_settled;
pub mod ledgers;
pub mod locked;
pub mod share;
mod tally;
pub mod totals;

pub use book::{Book, Full};
pub use book_settled::{BookSettled, SettleFault, Unsettled};
pub use ledgers::{Blanks, Four, Ledgers};
pub use locked::AuditBook;
pub use share::{Share, Slip};
pub use totals::Totals;
