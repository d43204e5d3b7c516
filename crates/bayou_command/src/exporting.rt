//! What `export` is to do, with the range of each number.
ghost use Rattle.std.specs.Prelude.{◌<◌, ◌≤◌};
ghost use Rattle.std.specs.Option.{ForSome};
ghost use Rattle.bayou_base.specs.declared.limits.TheConstants.{MAX_SECONDS, SERVERS};

/// The rows of a server: of one that is asked, or of one whose journal is read. Which of these it is isn't known yet.
#[derive(Debug, Drop, PartialEq, Eq)]
pub struct Exporting<'a> {
    /// The servers and where they listen, each as it was written, in the order of the words.
    pub servers: Vec<&'a str>,
    /// How many servers the store has, where that is said.
    pub count: Option<u8>,
    /// The file of the store's key, if the store has one.
    pub key: Option<&'a str>,
    /// How many seconds a server has for its connection and its whole reply.
    pub timeout_seconds: u32,
    /// The folder of the journal.
    pub folder: Option<&'a str>,
    /// The server whose journal it is. That it is one of the servers isn't known yet.
    pub id: Option<u8>,
    /// What the keys begin with, as it was written.
    pub prefix: Option<&'a str>,
    pub ghost count_in_range: { ForSome count (λ number. (0 < number) × (number ≤ SERVERS)) },
    pub ghost timeout_in_range: { (0 < timeout_seconds) × (timeout_seconds ≤ MAX_SECONDS) },
    pub ghost id_in_range: { ForSome id (λ number. number < SERVERS) },
}
