//! What `web` is to do, with the range of each number.
ghost use Rattle.std.specs.Prelude.{◌<◌, ◌≤◌};
ghost use Rattle.std.specs.Option.{ForSome};
ghost use Rattle.bayou_base.specs.declared.limits.TheConstants.{MAX_SECONDS, SERVERS};

/// The page of a person at the servers of a store.
#[derive(Debug, Drop, PartialEq, Eq)]
pub struct Showing<'a> {
    /// The servers and where they listen, each as it was written, in the order of the words.
    pub servers: Vec<&'a str>,
    /// How many servers the store has, where that is said.
    pub count: Option<u8>,
    /// What the session asks for, as it was written, where that is said.
    pub asks: Option<&'a str>,
    /// The file of the store's key, if the store has one.
    pub key: Option<&'a str>,
    /// The file that keeps the session.
    pub state: &'a str,
    /// As whom the person claims, where that is said.
    pub name: Option<&'a str>,
    /// Where the page is served, as it was written.
    pub listen: &'a str,
    /// How many seconds a server has for its connection and its whole reply.
    pub timeout_seconds: u32,
    pub ghost count_in_range: { ForSome count (λ number. (0 < number) × (number ≤ SERVERS)) },
    pub ghost timeout_in_range: { (0 < timeout_seconds) × (timeout_seconds ≤ MAX_SECONDS) },
}
