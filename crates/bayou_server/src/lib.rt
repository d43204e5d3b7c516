//! One server of a Bayou store (Terry et al. 1995): a log of Writes behind a journal.
//!
//! Callers see a [`Server`] as its core and its device. The core is which server it is and among how many, how many Writes
//! it may hold, the Writes that it holds, in order of receipt, the tag beside each, or none, and the Write in doubt with its
//! tag, if any: while there is one the server is down, and else up. The Writes held are sound: each fits those before it, and
//! the server's own say all that was held; and each has a spelling. No tag is twice, and none is beside another server's
//! Write. The Write in doubt, the server's own or one that it was given, may be held next as it is.
//! After the Write in doubt there may be others of other servers, which were stored in one piece with it.
//! `specs/` has two relations for each call that changes something or may be refused. `Starts`, `Reads`, `Writes`, `Takes`
//! and `Reopens` say of each answer when it comes and what core it leaves: they are the steps of the store, and no device
//! stands in them. `StartsOn`, `FailsToStart`, `StoresWrite`, `StoresTaken` and `ReopensJournal` say how the device stands
//! then.
//!
//! A server makes Writes of programs. A program that comes under the tag of a Write that is held is answered as that Write was, and no
//! second Write is made: so a client may ask again whose reply was lost.
//!
//! A server takes Writes that others accepted exactly where they fit, so that it holds none
//! before one on which it rests; a taken Write leaves the count of the server's own as it was. Of each other the answer
//! says why not, and nothing is left of it. Several that are taken together ([`Server::take_next`]) are each stored and synced in
//! turn, and applied once; nobody sees a database that lags. [`Server::take_meanwhile`] stores those that come one after the other
//! as one piece, by one append and one sync: where that fails, each of them is in doubt, and a reopening adopts a front of them.
//!
//! A Write is stored and synced before it is held, so that none is acknowledged that its journal hasn't got. Where a
//! device call fails meanwhile, it isn't known whether the journal has it: the Write is in doubt, and the server refuses
//! further ones, but serves reads, until a reopening finds it in the journal, and adopts it, or doesn't, and forgets it. A
//! reopening never takes away what was acknowledged: where the journal hasn't got all of it, the server stays down, and
//! goes on serving what it holds. Over a device that the clauses model, each start and reopening that succeeds leaves there
//! the journal of the Writes held and nothing else, and an accepted or taken Write keeps that. `laws` says that the bytes
//! decide, and that over a device whose failed calls add no more than a front of their piece a server is recovered honestly,
//! however many calls fail.
//!
//! A caller starts a server whose identifier is below the number of servers, and doesn't run two on one device. Through
//! [`Server::device`] a caller may do to the device what it likes: a server that is up adds its entries after whatever is
//! there, and the next opening tells what came of it. Want of memory is an answer only where a growth was refused. Reads,
//! adopting, and what is said of a Write that is known, or given and not added, take none. The crate doesn't promise what a real file
//! holds, how long a call takes, or that the journal of another server with the same identifier is told from its own.
#![tactic(auto)]

pub mod answer;
pub mod fault;
mod holding;
pub mod laws;
mod making;
mod records;
mod reopen;
pub mod server;
mod settling;
mod start;
mod storing;
mod taking;
mod together;

pub use answer::{LastHeld, RefusedWrite, Reopened, Stopped, Told, Took, TookAll, Written};
pub use fault::{Behind, JournalFault, NotStarted, ReopenFault, StartFault, TakeFault, WriteFault};
pub use server::Server;
