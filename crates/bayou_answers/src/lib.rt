//! What commands are answered, by servers in memory and by servers over sockets alike.
//!
//! Callers see an [`Answer`] as what it tells: values of the servers, sessions and books below, each in the words of the crate that it is of.
//! [`judged`] and [`surveyed`] make answers of evidence: what sessions were served and what servers hold. How a command comes to its answer,
//! and how an answer is printed, isn't known here.
//!
//! Callers owe nothing. It isn't promised that memory suffices.
#![tactic(auto)]

pub mod answer;
pub mod fault;
pub mod judging;

pub use answer::{Answer, Recovery, Transfer};
pub use fault::BeginFault;
pub use judging::{judged, surveyed};
