//! What two or more of the crates of tests are made of: small values, Writes as they stand in a stream, words for bytes, numbers that look as if
//! they were thrown, and what holds a node and its desks. Nothing here stops a test: where a thing can't be made there is `None`.
#![tactic(auto)]

pub mod books;
pub mod dice;
pub mod items;
pub mod sites;
pub mod values;
pub mod words;
