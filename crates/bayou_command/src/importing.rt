//! What `import` is to do, with the range of each number.
ghost use Rattle.std.specs.Prelude.{◌<◌, ◌≤◌};
ghost use Rattle.std.specs.Option.{ForSome};
ghost use Rattle.bayou_base.specs.declared.limits.TheConstants.{MAX_SECONDS, SERVERS};

/// The lines of an export that are put into a store: at which servers, and what is kept of it.
#[derive(Debug, Drop, PartialEq, Eq)]
pub struct Importing<'a> {
    /// The servers and where they listen, each as it was written, in the order of the words.
    pub servers: Vec<&'a str>,
    /// How many servers the store has, where that is said.
    pub count: Option<u8>,
    /// The file of the store's key, if the store has one.
    pub key: Option<&'a str>,
    /// The file that keeps how the import was begun, if it is named.
    pub state: Option<&'a str>,
    /// For how many seconds a server that is away is tried again.
    pub wait_seconds: u32,
    /// How many seconds a server has for its connection and its whole reply.
    pub timeout_seconds: u32,
    /// The file of the lines.
    pub file: &'a str,
    pub ghost count_in_range: { ForSome count (λ number. (0 < number) × (number ≤ SERVERS)) },
    pub ghost wait_in_range: { wait_seconds ≤ MAX_SECONDS },
    pub ghost timeout_in_range: { (0 < timeout_seconds) × (timeout_seconds ≤ MAX_SECONDS) },
}
