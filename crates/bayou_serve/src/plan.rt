//! What a server that lives is to do, as the words of its command line say it.
ghost use Rattle.std.specs.Prelude.{◌≡◌, ◌≢◌, ◌<◌, ◌≤◌, ◌↔◌, ℕ, [], All, AllPairs, Any, Err, IfErr, IfNone, IfOk, IfSome, IsTrue, OnOk, false, length, map, true};
ghost use Rattle.std.specs.List.{AllZip};
ghost use Rattle.bayou_base.specs.declared.limits.TheConstants.{MAX_WRITES, SERVERS};
ghost use Rattle.bayou_serve.specs.Beginnings.{beginning_of};
ghost use Rattle.bayou_base.specs.declared.server.ServerId.{ServerId as ServerNumber};
ghost use Rattle.bayou_serve.specs.Words.{AreNamed, IsApart, IsLeftOut, IsLoopback, IsUnnamed, Refuses, RefusesBeginning, RefusesLeftOut, RefusesListen, RefusesPeers, SaysListen, SaysNoneLeftOut, SaysPeer, SaysServer};
ghost use Rattle.bayou_serve.specs.declared.plan.Beginning.TheVariants.{Restore};
ghost use Rattle.bayou_serve.specs.declared.plan.Peer.{Peer as Another};
ghost use Rattle.bayou_serve.specs.declared.plan.ServicePlanFault.TheVariants.{NoServer, NothingRestored, Unnamed};

use bayou_base::ServerId;
use std::alloc::{AllocError, Global};
use std::net::SocketAddr;
use thiserror::Error;

/// Another server of the store, and where it listens.
#[derive(Clone, Copy, Debug)]
pub struct Peer {
    pub id: ServerId,
    pub address: SocketAddr,
}

/// How a server begins.
#[derive(Clone, Copy, Debug, PartialEq, Eq)]
pub enum Beginning {
    /// With its journal, which must be there.
    GoOn,
    /// With a journal that is made of nothing, and isn't there yet.
    New,
    /// With a journal that is made again of what its peers have, and isn't there any more.
    Restore,
}

impl Beginning {
    /// The way to begin that these words ask for, or `None` where they ask for two.
    pub fn of(is_new: bool, is_restored: bool) -> Option<Beginning>
        ensures { result ≡ beginning_of is_new is_restored }
    {
        match (is_new, is_restored) {
            (false, false) => Some(Beginning::GoOn),
            (true, false) => Some(Beginning::New),
            (false, true) => Some(Beginning::Restore),
            (true, true) => None,
        }
    }
}

/// How a server lives.
#[derive(Clone, Copy, Debug, PartialEq, Eq)]
pub struct ServiceHabits {
    /// How many Writes it holds at the most.
    pub limit: u32,
    /// How long it rests between two pulls from a peer.
    pub every_seconds: u32,
    /// How many connections it serves at once at the most.
    pub connections: u32,
    /// How long a connection may say nothing.
    pub idle_seconds: u32,
    /// Whether it ends as its input does.
    pub until_input_ends: bool,
    pub beginning: Beginning,
    pub ghost limit_in_range: { limit ≤ MAX_WRITES },
}

/// A server that is to live: which one of how many, where it listens, and from whom it pulls.
#[derive(Drop)]
pub struct ServicePlan {
    pub id: ServerId,
    pub servers: u8,
    pub listen: SocketAddr,
    pub peers: Vec<Peer>,
    /// The servers that a restoring goes on without.
    pub left_out: Vec<ServerId>,
    pub habits: ServiceHabits,
    pub ghost among: { (id.index < servers) × (servers ≤ SERVERS) },
    pub ghost others: { All (λ peer. (peer.id.index < servers) × (peer.id ≢ id)) peers.items },
    pub ghost once: { AllPairs (λ one other. one.id ≢ other.id) peers.items },
    /// Who is restored takes from each other server, but for those that are left out.
    pub ghost named: { habits.beginning ≡ Restore → AreNamed id.index servers peers.items left_out.items },
}

/// Why the words of a command line make no plan.
#[derive(Clone, Copy, Debug, PartialEq, Eq, Error)]
pub enum ServicePlanFault {
    #[error("--id is below --servers")]
    NoServer,
    #[error("--listen takes ADDRESS:PORT, with an address of numbers")]
    NoAddress,
    #[error("--listen at an address that isn't loopback wants --anyone: there are no ciphers, and --key alone keeps others out")]
    OpenToAnyone,
    #[error("--peer takes I=ADDRESS:PORT, I being another server's number")]
    NoPeer,
    #[error("--peer names a server twice")]
    SamePeer,
    #[error("--new and --restore are two ways to begin: give one of them")]
    TwoBeginnings,
    #[error("--without takes I, another server's number that no --peer has")]
    NoOther,
    #[error("--without goes with --restore alone")]
    NothingRestored,
    /// A restoring takes from each server, and no word says this one.
    #[error("--restore takes from each server: give --peer or --without for server {0}")]
    Unnamed(u8),
    #[error("memory")]
    OutOfMemory,
}

impl From<AllocError> for ServicePlanFault {
    ghost use Rattle.std.specs.Prelude.{◌≡◌};
    ghost use Rattle.bayou_serve.specs.declared.plan.ServicePlanFault.TheVariants.{OutOfMemory};

    ghost from_gives = { λ _ fault. fault ≡ OutOfMemory };

    fn from(_error: AllocError) -> ServicePlanFault {
        ServicePlanFault::OutOfMemory
    }
}

// The peer that a word says, if it says one.
fn peer_of(word: &str) -> Option<Peer>
    ensures said { IfSome result (SaysPeer word.now) }
    ensures none { IfNone result ((peer : Another) → ¬ SaysPeer word.now peer) }
{
    let (number, address) = word.split_once('=')?;
    let id = ServerId::new(number.parse::<u8>().ok()?)?;
    let address = address.parse::<SocketAddr>().ok()?;
    Some(Peer { id, address })
}

// Whether one of the peers is that server.
fn has_peer(peers: &[Peer], id: ServerId) -> bool
    ensures none { result ≡ false → All (λ peer. peer.id ≢ id) peers.now }
    ensures other { result ≡ false → All (λ peer. peer.id.index ≢ id.index) peers.now }
    ensures some { result ≡ true → Any (λ peer. peer.id.index ≡ id.index) peers.now }
{
    for peer in peers {
        if peer.id == id {
            return true;
        }
    }
    false
}

// The peers that the words say: other servers, none of them twice.
fn peers_of(
    alloc: Global,
    id: ServerId,
    servers: u8,
    words: &[&str],
) -> Result<Vec<Peer>, ServicePlanFault>
    ensures others { IfOk result (λ peers. All (λ peer. (peer.id.index < servers) × (peer.id ≢ id)) peers.items) }
    ensures once { IfOk result (λ peers. AllPairs (λ one other. one.id ≢ other.id) peers.items) }
    ensures number { IfOk result (λ peers. length peers.items ≡ length words.now) }
    ensures said { IfOk result (λ peers. AllZip (λ word peer. SaysPeer word.now peer) words.now peers.items) }
    ensures refused { IfErr result (RefusesPeers id.index servers (map (λ word. word.now) words.now)) }
{
    let mut peers: Vec<Peer> = Vec::new(alloc);
    for word in words {
        let Some(peer) = peer_of(word) else {
            return Err(ServicePlanFault::NoPeer);
        };
        if peer.id.index >= servers || peer.id == id {
            return Err(ServicePlanFault::NoPeer);
        }
        if has_peer(&peers, peer.id) {
            return Err(ServicePlanFault::SamePeer);
        }
        if peers.push(peer).is_err() {
            return Err(ServicePlanFault::OutOfMemory);
        }
    }
    Ok(peers)
}

// The server that a word says, if it says one.
fn server_of(word: &str) -> Option<ServerId>
    ensures said { IfSome result (SaysServer word.now) }
    ensures none { IfNone result ((server : ServerNumber) → ¬ SaysServer word.now server) }
{
    ServerId::new(word.parse::<u8>().ok()?)
}

// Whether that server is one of these.
fn is_among(servers: &[ServerId], id: ServerId) -> bool
    ensures none { result ≡ false → All (λ server. server.index ≢ id.index) servers.now }
    ensures some { result ≡ true → Any (λ server. server.index ≡ id.index) servers.now }
{
    for server in servers {
        if *server == id {
            return true;
        }
    }
    false
}

// Whether the server may be left out: it is another one of so many, and no peer.
fn may_be_left_out(id: ServerId, servers: u8, peers: &[Peer], server: ServerId) -> bool
    ensures may { result ≡ true → IsLeftOut id.index servers peers.now server.index }
    ensures other { result ≡ false → ¬ IsLeftOut id.index servers peers.now server.index }
{
    if server.index >= servers || server == id {
        return false;
    }
    !has_peer(peers, server)
}

// The server that a word leaves out, if it says one that may be.
fn left_out_in(id: ServerId, servers: u8, peers: &[Peer], word: &str) -> Option<ServerId>
    ensures said { IfSome result (SaysServer word.now) }
    ensures left { IfSome result (λ server. IsLeftOut id.index servers peers.now server.index) }
    ensures none { IfNone result (SaysNoneLeftOut id.index servers peers.now word.now) }
{
    let Some(server) = server_of(word) else {
        return None;
    };
    if may_be_left_out(id, servers, peers, server) {
        Some(server)
    } else {
        None
    }
}

// The servers that the words leave out: other ones, which are no peers.
fn left_out_of(
    alloc: Global,
    id: ServerId,
    servers: u8,
    peers: &[Peer],
    words: &[&str],
) -> Result<Vec<ServerId>, ServicePlanFault>
    ensures said { IfOk result (λ left. AllZip (λ word server. SaysServer word.now server) words.now left.items) }
    ensures others { IfOk result (λ left. All (λ server. IsLeftOut id.index servers peers.now server.index) left.items) }
    ensures refused { IfErr result (RefusesLeftOut id.index servers peers.now (map (λ word. word.now) words.now)) }
{
    let mut left_out: Vec<ServerId> = Vec::new(alloc);
    for word in words {
        let Some(server) = left_out_in(id, servers, peers, word) else {
            return Err(ServicePlanFault::NoOther);
        };
        if left_out.push(server).is_err() {
            return Err(ServicePlanFault::OutOfMemory);
        }
    }
    Ok(left_out)
}

// Whether the server is a peer, or left out.
fn is_named(peers: &[Peer], left_out: &[ServerId], server: ServerId) -> bool
    ensures named { result ≡ true → ¬ IsApart peers.now left_out.now server.index }
    ensures apart { result ≡ false → IsApart peers.now left_out.now server.index }
{
    if has_peer(peers, server) {
        return true;
    }
    is_among(left_out, server)
}

// The first of so many servers that is another one, no peer and not left out, if there is one.
fn unnamed(id: ServerId, servers: u8, peers: &[Peer], left_out: &[ServerId]) -> Option<u8>
    requires { servers ≤ SERVERS }
    ensures none { IfNone result (AreNamed id.index servers peers.now left_out.now) }
    ensures some { IfSome result (IsUnnamed id.index servers peers.now left_out.now) }
{
    for index in 0..servers {
        let server = ServerId { index };
        if server != id && !is_named(peers, left_out, server) {
            return Some(index);
        }
    }
    None
}

// Whether no server is left out.
fn none_left_out(left_out: &[ServerId]) -> Result<(), ServicePlanFault>
    ensures none { OnOk result (left_out.now ≡ []) }
    ensures some { IfErr result (λ fault. (fault ≡ NothingRestored) × (left_out.now ≢ [])) }
{
    if left_out.is_empty() {
        Ok(())
    } else {
        Err(ServicePlanFault::NothingRestored)
    }
}

// Whether each other server is a peer, or left out.
fn all_named(
    id: ServerId,
    servers: u8,
    peers: &[Peer],
    left_out: &[ServerId],
) -> Result<(), ServicePlanFault>
    requires { servers ≤ SERVERS }
    ensures named { OnOk result (AreNamed id.index servers peers.now left_out.now) }
    ensures unnamed { IfErr result (λ fault. (number : ℕ) × (fault ≡ Unnamed number) × IsUnnamed id.index servers peers.now left_out.now number) }
{
    match unnamed(id, servers, peers, left_out) {
        Some(number) => Err(ServicePlanFault::Unnamed(number)),
        None => Ok(()),
    }
}

// Whether the words say how to begin so: who is restored takes from each other server, or leaves it out; nobody else leaves one out.
fn fits_beginning(
    id: ServerId,
    servers: u8,
    peers: &[Peer],
    left_out: &[ServerId],
    beginning: Beginning,
) -> Result<(), ServicePlanFault>
    requires { servers ≤ SERVERS }
    ensures named { OnOk result (beginning ≡ Restore → AreNamed id.index servers peers.now left_out.now) }
    ensures alone { OnOk result (beginning ≢ Restore → left_out.now ≡ []) }
    ensures refused { IfErr result (RefusesBeginning id.index servers peers.now left_out.now beginning) }
{
    match beginning {
        Beginning::Restore => all_named(id, servers, peers, left_out),
        Beginning::GoOn | Beginning::New => none_left_out(left_out),
    }
}

// Whether nobody but its own machine reaches the address.
fn is_loopback(address: SocketAddr) -> bool
    ensures { IsTrue result ↔ IsLoopback address }
{
    address.ip().is_loopback()
}

// Where the server is to listen. Only who says so listens where strangers may come.
fn listens_at(word: &str, serves_anyone: bool) -> Result<SocketAddr, ServicePlanFault>
    ensures said { IfOk result (SaysListen word.now serves_anyone) }
    ensures refused { IfErr result (RefusesListen word.now serves_anyone) }
{
    let Ok(address) = word.parse::<SocketAddr>() else {
        return Err(ServicePlanFault::NoAddress);
    };
    if serves_anyone || is_loopback(address) {
        return Ok(address);
    }
    Err(ServicePlanFault::OpenToAnyone)
}

impl ServicePlan {
    /// The plan of a server of this number among so many, which listens and pulls as these words say; or the first of them that can't be done.
    /// Only where it serves anyone does it listen at an address that isn't loopback.
    pub fn new(
        alloc: Global,
        id: u8,
        servers: u8,
        listen: &str,
        serves_anyone: bool,
        peers: &[&str],
        left_out: &[&str],
        habits: ServiceHabits,
    ) -> Result<ServicePlan, ServicePlanFault>
        requires { servers ≤ SERVERS }
        ensures same { IfOk result (λ plan. (plan.id.index ≡ id) × (plan.servers ≡ servers) × (plan.habits ≡ habits) × (length plan.peers.items ≡ length peers.now)) }
        ensures listens { IfOk result (λ plan. SaysListen listen.now serves_anyone plan.listen) }
        ensures said { IfOk result (λ plan. AllZip (λ word peer. SaysPeer word.now peer) peers.now plan.peers.items) }
        ensures left { IfOk result (λ plan. AllZip (λ word server. SaysServer word.now server) left_out.now plan.left_out.items) }
        ensures others { IfOk result (λ plan. All (λ server. IsLeftOut id servers plan.peers.items server.index) plan.left_out.items) }
        ensures alone { habits.beginning ≢ Restore → IfOk result (λ plan. plan.left_out.items ≡ []) }
        ensures none { servers ≤ id → result ≡ Err NoServer }
        ensures refused { IfErr result (Refuses id servers listen.now serves_anyone (map (λ word. word.now) peers.now) (map (λ word. word.now) left_out.now) habits.beginning) }
    {
        if id >= servers {
            return Err(ServicePlanFault::NoServer);
        }
        let id = ServerId { index: id };
        let listen = listens_at(listen, serves_anyone)?;
        let peers = peers_of(alloc, id, servers, peers)?;
        let left_out = left_out_of(alloc, id, servers, &peers, left_out)?;
        fits_beginning(id, servers, &peers, &left_out, habits.beginning)?;
        Ok(ServicePlan {
            id,
            servers,
            listen,
            peers,
            left_out,
            habits,
        })
    }
}
