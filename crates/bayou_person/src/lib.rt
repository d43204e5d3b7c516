//! What a person at a store types: short lines, and what each of them does.
//!
//! Callers see a line as a [`Wish`]: `put room kim` is to set the key `room` to the text `kim`. `Says` in `specs/Wishes` says which words are
//! which wish, a row for each form, and `Faults` why words are none. Of a wish that is a Write [`Wish::program`] is what the Write does; what
//! that means for a database stands in `specs/Doing`, in the words of the merge language.
//!
//! Nothing here knows of servers, sessions or connections. Memory is taken for the list of a line's words, a text in double quotes and the lists of a
//! program.
#![tactic(auto)]

pub mod doing;
pub mod laws;
mod name;
mod number;
pub mod reading;
pub mod wish;
mod words;

pub use reading::wish_in;
pub use wish::{ValueFault, Wish, WishFault};
