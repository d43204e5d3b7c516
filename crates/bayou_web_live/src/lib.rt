//! A person's page at a store (`bayou web`): a desk of `bayou_connect`, what is seen from there (`bayou_web_state`), and the threads that serve both to a
//! browser of this machine (`bayou_web_serve`).
//!
//! Callers see [`serve_web`], which serves until it fails. The desk stays with the thread that calls it: that one does each line that is handed in, and asks
//! servers what they hold as long as somebody looks. A request for what is seen is answered from what was learned last, and waits for no server.
//!
//! Callers owe that one process has a state file at a time. No clause says what a browser is sent, or when.
#![tactic(auto)]

pub mod fault;
mod looking;
pub mod serving;

pub use fault::WebFault;
pub use serving::serve_web;
