//! All servers and all sessions as one machine (Terry et al. 1994, 1995; Petersen et al. 1997), and the four session guarantees
//! over every run of it.
//!
//! [`World`] leads real servers on devices in memory, real sessions and a book through a list of events, and what that leaves is a
//! run of a machine of sets (`IsRunHistory` in `specs/RunHistories`). Callers see that machine (`specs/Machine`): what each server holds and
//! ever had, each session's read-set and write-set, which Write it may ask again, what is in flight, and what was served. Each Write stands
//! there with the tag of its asking, which only the server that made it knows. An event does to it what `specs/Steps` says, with each
//! answer that it may have; nothing there counts Writes. The laws say what is true of every run: a name is of one Write, and so is a tag,
//! what each server holds is prefix-closed, a vector stands for a set, and each served operation has every guarantee that its session asked
//! for.
//!
//! Callers owe what a server's start owes, and sessions of the first run. Nothing stands on this crate. It isn't promised that memory
//! suffices, that servers become equal, nor that a session is ever served.
#![tactic(auto)]

pub mod event;
pub mod laws;
pub mod reply;
mod role;
pub mod run_history;
mod state;
pub mod world;
mod world_book;
mod world_server;
mod world_session;

pub use event::Event;
pub use reply::Reply;
pub use run_history::RunHistory;
pub use world::World;
