//! What `serve` is to do, with the range of each number.
ghost use Rattle.std.specs.Prelude.{◌<◌, ◌≤◌};
ghost use Rattle.bayou_base.specs.declared.limits.TheConstants.{MAX_CONNECTIONS, MAX_SECONDS, MAX_WRITES, SERVERS};

/// A server that is to live: which one, where it keeps its journal and listens, and whom it pulls from.
#[derive(Debug, Drop, PartialEq, Eq)]
pub struct Serving<'a> {
    pub id: u8,
    /// How many servers the store has. That the id is below it isn't known yet.
    pub servers: u8,
    /// The folder of its journal. The name may still be one of nothing.
    pub folder: &'a str,
    /// Where it listens, as it was written.
    pub listen: &'a str,
    /// Whom it pulls from, each as it was written, in the order of the words.
    pub peers: Vec<&'a str>,
    /// Without whom it is restored, each as it was written, in the order of the words.
    pub left_out: Vec<&'a str>,
    /// The file of its store's key, if the store has one.
    pub key: Option<&'a str>,
    /// After how many seconds it pulls again.
    pub every_seconds: u32,
    /// How many Writes it holds at the most.
    pub limit: u32,
    /// How many connections it serves at once at the most.
    pub connections: u32,
    /// After how many seconds a connection that asks nothing is closed.
    pub idle_seconds: u32,
    /// Whether it ends as its input ends.
    pub until_input_ends: bool,
    /// Whether its journal is to be made, of nothing.
    pub is_new: bool,
    /// Whether its journal, which is lost, is to be made again of what its peers have.
    pub is_restored: bool,
    /// Whether it may listen at an address that other machines reach.
    pub serves_anyone: bool,
    pub ghost id_in_range: { id < SERVERS },
    pub ghost servers_in_range: { (0 < servers) × (servers ≤ SERVERS) },
    pub ghost every_in_range: { (0 < every_seconds) × (every_seconds ≤ MAX_SECONDS) },
    pub ghost limit_in_range: { (0 < limit) × (limit ≤ MAX_WRITES) },
    pub ghost connections_in_range: { (0 < connections) × (connections ≤ MAX_CONNECTIONS) },
    pub ghost idle_in_range: { (0 < idle_seconds) × (idle_seconds ≤ MAX_SECONDS) },
}
