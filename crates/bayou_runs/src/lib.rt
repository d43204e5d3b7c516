//! What a script is answered comes of a run of the machine of all servers and sessions (`bayou_world`): so each session had what it asked for. The law
//! is the contract of a function that does nothing.
#![tactic(auto)]

pub mod laws;
