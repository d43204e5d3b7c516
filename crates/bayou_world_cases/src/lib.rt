//! Tests of the judge, beside a judge that goes by the definitions, pair by pair, and of runs of all servers and sessions, through the public calls
//! alone. What is expected comes from outside of the program: from literals, and from that other judge.
#![tactic(auto)]

#[cfg(test)]
mod agains;
#[cfg(test)]
mod evidence;
#[cfg(test)]
mod failures;
#[cfg(test)]
mod finals;
#[cfg(test)]
mod fixtures;
#[cfg(test)]
mod histories;
#[cfg(test)]
mod memory;
#[cfg(test)]
mod runs;
#[cfg(test)]
mod scripts;
#[cfg(test)]
mod twin;
