//! The files of a store's key: the file that has it, and the label beside a journal, which says of which store that is.
//!
//! Callers see [`make_key`], which makes the file of a new key and never writes over one, [`read_key`], which reads it, and labels: [`look_for_label`]
//! refuses what is of another store by that store's name, and [`keep_label`] makes a label that lasts. The line of a key is `bayou_greeting`'s, the
//! line of a label stands in `specs/Labels`.
//!
//! Callers owe that one process at a time makes the label of a name. It isn't promised what a file holds, nor that a secret is drawn at random.
#![tactic(auto)]

pub mod fault;
mod front;
pub mod key_file;
pub mod label;
pub mod label_file;

pub use fault::{KeyFileFault, LabelFault, StoreName};
pub use key_file::{make_key, read_key};
pub use label::{judge_label, label_of};
pub use label_file::{keep_label, look_for_label};
