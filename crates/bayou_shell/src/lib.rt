//! What the program does with the words that it is called with: it does a task on one text at once, and leaves what wants files, threads or sockets to be
//! done.
//!
//! A run and an audit are done here (`bayou_tasks`). A run over sockets, a check, an audit that is explained, a server that is to live, a person's session
//! or page, a key, a renewal, an export and an import are left to be done ([`Errand`]), as the words and the script say. Which lines a run over sockets
//! prints then, no clause says: they are put after what the writer holds, and nothing else is done there.
//!
//! A caller owes nothing. It isn't promised that memory suffices, or that a stream gives or takes anything. A run over sockets (`bayou_socket_run`) may
//! wait for locks and connections, and all else for its streams alone.
#![tactic(auto)]

pub mod errand;
pub mod files;
pub mod net;
pub mod program;

pub use errand::Errand;
pub use files::Files;
pub use net::run_net;
pub use program::{refuse_words, run_main};
