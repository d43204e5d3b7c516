//! What wants files, threads or sockets, from the words to the exit status: a server that lives, a person's session or page, a key, a renewal, an
//! export and an import.
//!
//! The words become a plan first, which says what they say, or why that can't be done (`Plans`, `Pages`, `Exports`, `Imports`, `Renewals` in `specs/`);
//! nothing is opened until the plan is done. What the servers do then is `bayou_serve`'s, a session is `bayou_connect`'s, and a page `bayou_web_live`'s.
//!
//! A caller owes nothing. These may wait for locks, connections and their streams.
#![tactic(auto)]

pub mod cause;
pub mod connected;
pub mod exported;
pub mod imported;
pub mod keyed;
mod logging;
pub mod renewed;
pub mod served;
pub mod shown;

pub use cause::tell_device;
pub use connected::{Call, run_connected};
pub use exported::{Extract, run_exported};
pub use imported::{Intake, run_imported};
pub use keyed::{NewKey, run_key};
pub use renewed::{Renewal, run_renewed};
pub use served::{Service, run_served};
pub use shown::{Window, run_web};
