//! Tests of servers, sessions and books as they are at work, each through public calls alone: behind locks and gates, shared by threads, at sockets,
//! and over streams that move a few bytes at a call and fail. What is expected comes from outside of the program: from literals and from the
//! pages of docs/.
#![tactic(auto)]

#[cfg(test)]
mod agains;
#[cfg(test)]
mod askers;
#[cfg(test)]
mod attending;
#[cfg(test)]
mod audit_books;
#[cfg(test)]
mod clients;
#[cfg(test)]
mod desks;
#[cfg(test)]
mod fakes;
#[cfg(test)]
mod fixtures;
#[cfg(test)]
mod gates;
#[cfg(test)]
mod hands;
#[cfg(test)]
mod links;
#[cfg(test)]
mod listeners;
#[cfg(test)]
mod lists;
#[cfg(test)]
mod losing;
#[cfg(test)]
mod meetings;
#[cfg(test)]
mod node_books;
#[cfg(test)]
mod nodes;
#[cfg(test)]
mod passing;
#[cfg(test)]
mod patience;
#[cfg(test)]
mod pull_breaks;
#[cfg(test)]
mod request_breaks;
#[cfg(test)]
mod threads;
#[cfg(test)]
mod two_nodes;
#[cfg(test)]
mod visits;
#[cfg(test)]
mod watching;
