//! What `renew` is to do, with the range of each number.
ghost use Rattle.std.specs.Prelude.{◌<◌, ◌≤◌};
ghost use Rattle.bayou_base.specs.declared.limits.TheConstants.{SERVERS};

/// A server whose store goes on as a new one: which server it is, where its journal is and where the new one goes, and what of it is taken along.
#[derive(Debug, Drop, PartialEq, Eq)]
pub struct Renewing<'a> {
    pub id: u8,
    /// How many servers the store has. That the id is below it isn't known yet.
    pub servers: u8,
    /// How many servers the new store has.
    pub servers_then: u8,
    /// The folder of its journal.
    pub folder: &'a str,
    /// The folder of the new one.
    pub to: &'a str,
    /// What the server must hold, as it was written.
    pub at: &'a str,
    /// What the keys begin with that are left out, each as it was written, in the order of the words.
    pub without: Vec<&'a str>,
    /// Whether the database may take all the room of the new store.
    pub is_full: bool,
    pub ghost id_in_range: { id < SERVERS },
    pub ghost servers_in_range: { (0 < servers) × (servers ≤ SERVERS) },
    pub ghost then_in_range: { (0 < servers_then) × (servers_then ≤ SERVERS) },
}
