//! What one session has read and written, what it may ask again, and what it needs of a server (Terry et al. 1994).
//!
//! Callers see a [`Session`] as its name, what it asks for, its run, how many places it has begun, the Write that it may ask
//! again, and two vectors: the read vector is the join of what its served reads saw, and the write vector counts the Writes
//! that it learned of. What it needs of a server is a function of these two and of its asks: a server that dominates the need
//! may serve it.
//!
//! A caller begins a place for each operation that it tries, hands the need to the server, and tells the session what it was
//! served, and nothing of a refusal. A Write has a tag, the name of its asking: where it was refused, or no reply came, it may
//! be asked again with the same tag, until another operation is tried. The crate doesn't promise that a server looks at the
//! need or at the tag.
//!
//! A session goes on from its past ([`Session::resume`]), which whoever keeps it hands in: a session that is kept so is the one that it was.
#![tactic(auto)]

pub mod laws;
pub mod past;
pub mod session;

pub use past::Past;
pub use session::{FIRST_RUN, Session};
