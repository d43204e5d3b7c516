//! The merge language: programs, what they mean, and the Writes that carry them.
//!
//! A [`Program`] is an update, a dependency check and a merge procedure (Terry et al. 1995). Callers see programs as
//! plain data; what one does to a database, seen as a finite map, is `mean` in `specs/`. [`Program::eval`]
//! finds it out over anything that answers the value of a key, and how many keys begin so, and gives the changes. Nothing
//! here but the forms at rest takes memory, and nothing knows of servers, sessions or bytes. What follows for lists of Writes is among the [`laws`].
#![tactic(auto)]

pub mod change;
pub mod eval;
pub mod laws;
pub mod program;
mod rare;
pub mod resting;
pub mod write;

pub use change::{Change, Changes};
pub use eval::{Look, Outcome};
pub use program::{Alt, Cond, Op, Program, ProgramFault, Term};
pub use resting::{RestingAlt, RestingProgram, RestingWrite};
pub use write::Write;
