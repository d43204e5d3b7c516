//! Greetings of a server that lives: of whoever asks it, and of the peers that it asks.
ghost use Rattle.std.specs.Prelude.{◌≡◌, ◌↔◌, ℕ, IfOk, IfSome, IsTrue, List, None, Option, Some, false, true};
ghost use Rattle.std.specs.Io.KnownBytes.{Consumes};
ghost use Rattle.bayou_handshake.specs.Ends.{IsKnownServer, IsLetIn};
ghost use Rattle.bayou_serve.specs.Greeting.{MayAsk, hello_to};
ghost use Rattle.bayou_serve.specs.Ways.{IsGreetedWay, IsWay};

use crate::hall::ServiceHall;
use crate::peers::reach;
use crate::plan::{Peer, ServicePlan};
use crate::waiting::{Most, PatientWait, Since};
use bayou_base::ServerId;
use bayou_base::limits::GREETING_MILLISECONDS;
use bayou_greeting::{StoreKey, Stranger};
use bayou_handshake::{GreetingFault, Guest, OLDER_AFTER, StoreServer, greet_server, receive};
use bayou_net::Sockets;
use bayou_streams::{CountedChannel, Patient};
use bayou_wire::layout::{GREETING_VERSION, NONCE_BYTES};
use bayou_wire::{Held, Hello, Known, Nonce, ServerCount};
use std::alloc::{AllocError, Global};
use std::io::{Read, Write};
use std::net::TcpStream;
use std::random::RandomSource;
use std::time::Clock;

// A number for one greeting, if one can be drawn.
fn drawn<T: RandomSource>(rt: &T) -> Option<Nonce> {
    let mut bytes = [0; NONCE_BYTES];
    if rt.fill_bytes(&mut bytes).is_err() {
        return None;
    }
    Some(Nonce::new(bytes))
}

/// What the server of this plan goes by in greetings, where its store has this key.
pub(crate) fn store_server(plan: &ServicePlan, key: Option<StoreKey>) -> StoreServer
    ensures id { result.id ≡ plan.now.id }
    ensures servers { result.servers.count ≡ plan.now.servers }
    ensures key { result.key ≡ key }
{
    let Some(servers) = ServerCount::new(plan.servers) else {
        unreachable!();
    };
    StoreServer {
        id: plan.id,
        servers,
        key,
    }
}

/// Who was let in, and what the server drew for that greeting.
#[derive(Clone, Copy, Debug, PartialEq, Eq)]
pub(crate) struct LetIn {
    pub(crate) guest: Guest,
    pub(crate) nonce: Nonce,
}

// Greets who asks over these streams, whose waits end by `WouldBlock`, with this number: who it is, once it is let in.
fn receive_over<'x, R: Read + Drop, W: Write + Drop, C: Clock>(
    alloc: Global,
    own: &StoreServer,
    nonce: Nonce,
    hall: &'x ServiceHall,
    clock: &'x C,
    since: &'x Since,
    reader: R,
    writer: W,
) -> Option<Guest>
    ensures { IfSome result (λ guest. (rest : Option (List ℕ)) × (read written : List ℕ) × Consumes (R.remaining reader) rest read
        × IsLetIn own.now nonce read written guest) }
{
    let most = Most::Milliseconds(GREETING_MILLISECONDS);
    let reader = Patient::new(reader, PatientWait::new(clock, hall, since, most));
    let mut channel = CountedChannel::new(reader, writer);
    receive(alloc, own, nonce, &mut channel).ok()
}

/// Greets who asks over this connection, as this server: who it is, once it is let in. It doesn't learn yet what is held.
pub(crate) fn receive_guest<C: Clock + RandomSource>(
    alloc: Global,
    own: &StoreServer,
    hall: &ServiceHall,
    clock: &C,
    stream: &TcpStream,
) -> Option<LetIn>
    ensures { IfSome result (λ let_in. MayAsk own.now (Some let_in)) }
{
    let nonce = drawn(clock)?;
    let since = Since::now(clock);
    let guest = receive_over(alloc, own, nonce, hall, clock, &since, stream, stream)?;
    Some(LetIn { guest, nonce })
}

// How this server greets that peer.
fn hello(own: &StoreServer, peer: ServerId, nonce: Nonce) -> Hello
    ensures { result ≡ hello_to own.now peer nonce }
{
    Hello {
        version: GREETING_VERSION,
        asked: Some(peer),
        from: Some(own.id),
        servers: Some(own.servers),
        nonce,
    }
}

// Greets the peer over these streams, whose waits end by `WouldBlock`.
fn greet_over<'x, R: Read + Drop, W: Write + Drop, C: Clock>(
    alloc: Global,
    own: &StoreServer,
    hello: &Hello,
    held: Option<Held>,
    hall: &'x ServiceHall,
    clock: &'x C,
    since: &'x Since,
    reader: R,
    writer: W,
) -> Result<Known, GreetingFault>
    ensures { IfOk result (λ known. (rest : Option (List ℕ)) × (read written : List ℕ) × Consumes (R.remaining reader) rest read
        × IsKnownServer hello.now own.now.key held read written known) }
{
    let most = Most::Milliseconds(GREETING_MILLISECONDS);
    let reader = Patient::new(reader, PatientWait::new(clock, hall, since, most));
    let mut channel = CountedChannel::new(reader, writer);
    greet_server(alloc, hello, &own.key, held, &mut channel)
}

/// A way to a peer.
#[derive(Drop)]
pub(crate) enum Way {
    /// No connection came about, or no greeting.
    Away,
    /// Who answers there isn't that peer.
    Stranger(Stranger),
    /// It is that peer, which made this known and waits for a request. An older one knows no greetings.
    Open {
        stream: TcpStream,
        is_older: bool,
        known: Option<Known>,
    },
    /// It is that peer, which says that it has other Writes of this origin, and answers what is asked of digests.
    Differs {
        stream: TcpStream,
        origin: ServerId,
    },
    /// It is that peer, and one of both has other Writes of this origin than the other, which both learned.
    Apart(ServerId),
}

// Greets the peer over this connection.
fn greet_at<T: Clock + RandomSource>(
    rt: &T,
    alloc: Global,
    own: &StoreServer,
    peer: Peer,
    hall: &ServiceHall,
    held: Option<Held>,
    stream: &TcpStream,
) -> Result<Known, GreetingFault> {
    let Some(nonce) = drawn(rt) else {
        return Err(GreetingFault::TurnedAway);
    };
    let since = Since::now(rt);
    let hello = hello(own, peer.id, nonce);
    greet_over(alloc, own, &hello, held, hall, rt, &since, stream, stream)
}

// A way to the peer, which is greeted, and learns this of what is held; nothing where it ended the connection at that.
fn greeted_way_to<T: Clock + RandomSource + Sockets>(
    rt: &T,
    alloc: Global,
    own: &StoreServer,
    peer: Peer,
    hall: &ServiceHall,
    held: &Option<Held>,
) -> Option<Way>
    ensures { IfSome result IsGreetedWay }
{
    let Some(stream) = reach(rt, peer) else {
        return Some(Way::Away);
    };
    match greet_at(rt, alloc, own, peer, hall, *held, &stream) {
        Ok(known) => Some(Way::Open {
            stream,
            is_older: false,
            known: Some(known),
        }),
        Err(GreetingFault::Differs(origin)) => Some(Way::Differs { stream, origin }),
        Err(GreetingFault::Stranger(Stranger::Older)) => None,
        Err(GreetingFault::Stranger(stranger)) => Some(Way::Stranger(stranger)),
        Err(_) => Some(Way::Away),
    }
}

/// A way to the peer, which is greeted first, and learns this of what is held. One that ends the connection at that, and again at the next, is taken for an
/// older one: at an open store it is asked all the same, over a connection of its own; at one that has a key there is no way but to a peer that has it too.
pub(crate) fn way_to<T: Clock + RandomSource + Sockets>(
    rt: &T,
    alloc: Global,
    own: &StoreServer,
    peer: Peer,
    hall: &ServiceHall,
    held: Option<Held>,
) -> Way
    ensures { IsWay own.now.key result }
{
    for _ in 0..OLDER_AFTER {
        if let Some(way) = greeted_way_to(rt, alloc, own, peer, hall, &held) {
            return way;
        }
    }
    match &own.key {
        Some(_) => Way::Stranger(Stranger::Older),
        None => older_way_to(rt, peer),
    }
}

// A way to a peer that knows no greetings.
fn older_way_to<T: Sockets>(rt: &T, peer: Peer) -> Way
    ensures { IsWay None result }
{
    match reach(rt, peer) {
        Some(stream) => Way::Open {
            stream,
            is_older: true,
            known: None,
        },
        None => Way::Away,
    }
}

/// What was reported of a peer beside its visits: who answered in its place, and that it is older.
#[derive(Drop)]
pub(crate) struct Strangers {
    last: Option<Stranger>,
    is_older: bool,
}

impl Strangers {
    /// Of a peer of which nothing was reported yet.
    pub(crate) fn new() -> Self
        ensures { (result.last ≡ None) × (result.is_older ≡ false) }
    {
        Strangers {
            last: None,
            is_older: false,
        }
    }

    /// Another answered: whether that is news.
    pub(crate) fn met(&mut self, stranger: &Stranger) -> bool
        ensures older { self.new.is_older ≡ self.old.is_older }
        ensures news { result ≡ true → self.new.last ≡ Some stranger.now }
        ensures known { result ≡ false → self.new ≡ self.old }
    {
        if self.last.as_ref() == Some(stranger) {
            return false;
        }
        self.last = Some(stranger.copy());
        true
    }

    /// The peer itself answered, older or not: whether it is news that it is older.
    pub(crate) fn met_itself(&mut self, is_older: bool) -> bool
        ensures last { self.new.last ≡ None }
        ensures older { self.new.is_older ≡ is_older }
        ensures news { IsTrue result ↔ ((is_older ≡ true) × (self.old.is_older ≡ false)) }
    {
        let is_news = is_older && !self.is_older;
        self.last = None;
        self.is_older = is_older;
        is_news
    }
}

/// The line of who answered in place of a peer.
pub(crate) fn stranger_line(
    alloc: Global,
    peer: Peer,
    stranger: &Stranger,
) -> Result<String, AllocError> {
    let (id, address) = (peer.id.index, peer.address);
    format!(in alloc; "bayou: peer {id} at {address} {stranger}\n")
}
