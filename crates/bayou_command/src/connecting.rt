//! What `connect` is to do, with the range of each number.
ghost use Rattle.std.specs.Prelude.{◌<◌, ◌≤◌};
ghost use Rattle.std.specs.Option.{ForSome};
ghost use Rattle.bayou_base.specs.declared.limits.TheConstants.{MAX_SECONDS, SERVERS};

use crate::Source;

/// A person, or a program, at a store: which servers are asked, what the session asks for, and what is kept of it.
#[derive(Debug, Drop, PartialEq, Eq)]
pub struct Connecting<'a> {
    /// The servers and where they listen, each as it was written, in the order of the words.
    pub servers: Vec<&'a str>,
    /// How many servers the store has, where that is said.
    pub count: Option<u8>,
    /// What the session asks for, as it was written, where that is said.
    pub asks: Option<&'a str>,
    /// The file of the store's key, if the store has one.
    pub key: Option<&'a str>,
    /// The file in which the session is kept, if it is.
    pub state: Option<&'a str>,
    /// The file to which an audit file of what was served is written, if one is.
    pub book: Option<&'a str>,
    /// The file to which each line that is printed is added, after its time, if one is.
    pub log: Option<&'a str>,
    /// For how many seconds servers that are away, or behind, are tried again.
    pub wait_seconds: u32,
    /// How many seconds a server has for its connection and its whole reply.
    pub timeout_seconds: u32,
    /// Whether `list`, `servers` and `mine` print JSON objects.
    pub is_json: bool,
    /// Where the lines come from.
    pub input: Source<'a>,
    pub ghost count_in_range: { ForSome count (λ number. (0 < number) × (number ≤ SERVERS)) },
    pub ghost wait_in_range: { wait_seconds ≤ MAX_SECONDS },
    pub ghost timeout_in_range: { (0 < timeout_seconds) × (timeout_seconds ≤ MAX_SECONDS) },
}
