//! A listener, and those who reach it.
ghost use Rattle.std.specs.Prelude.{◌≡◌};
ghost use Rattle.bayou_audit.specs.Blanks.{AreBlanksOf, named};
ghost use Rattle.bayou_node.specs.Books.{IsBlankOf, begun_of};

use crate::fixtures::{begun, opened};
use crate::gates::{AWAITED, FirstGate, OPEN};
use crate::visits::{ROUNDS, visits, visits_and_opens};
use bayou_audit::{AuditBook, Blanks, Four, Ledgers, Share, Totals};
use bayou_fakes::books::blanks;
use bayou_fakes::sites::{Memory, Served};
use bayou_net::listen;
use bayou_node::{Desk, Desks, Node};
use std::alloc::Global;
use std::marker::Brand;
use std::net::{Net, SocketAddr, TcpListener, TcpStream};
use std::process::Abort;
use std::sync::Wait;
use std::sync::atomic::{AtomicBool, AtomicU64, Ordering};
use std::sync::ledger::{Blank, Ledger};
use std::thread;
use std::thread::Threads;
use std::time::Clock;

/// A listener, what its gate is in, and whether it is to stop.
#[derive(Drop)]
struct Place {
    listener: TcpListener,
    address: SocketAddr,
    state: AtomicU64,
    stop: AtomicBool,
}

/// A new one, whose gate begins so.
fn placed<R: Abort + Net<Stream = TcpStream, Listener = TcpListener>>(
    rt: &R,
    begins: u64,
) -> Place {
    let listener = TcpListener::bind(rt, "127.0.0.1:0")
        .ok()
        .expect(rt, "no listener");
    let address = listener.local_addr().ok().expect(rt, "no address");
    Place {
        listener,
        address,
        state: AtomicU64::new(begins),
        stop: AtomicBool::new(false),
    }
}

/// Whether two sessions that went all their rounds are counted, and no slip is out.
fn counts_both(totals: &Totals) -> bool {
    let rounds = 2 * ROUNDS as usize;
    totals.reads == rounds && totals.writes == rounds && totals.slips == 0
}

/// Whether two sessions, each in a thread of its own, are served. Where the first one's first request is held, it is so until the second
/// one was served.
fn both_visit<S, T, U, V, R>(
    rt: &R,
    alloc: Global,
    book: &AuditBook<Four<S, T, U, V>>,
    (first, second): (Share<Four<S, T, U, V>>, Share<Four<S, T, U, V>>),
    (at_first, at_second): (&TcpStream, &TcpStream),
    state: &AtomicU64,
) -> bool
where
    S: Ledger + Send + Sync,
    T: Ledger + Send + Sync,
    U: Ledger + Send + Sync,
    V: Ledger + Send + Sync,
    R: Threads + Wait + Abort + Clock + Sync,
{
    let (is_first, is_second) = thread::join(
        rt,
        move || visits(rt, alloc, book, first, at_first),
        move || visits_and_opens(rt, alloc, book, second, at_second, state),
    );
    is_first && is_second && counts_both(&book.totals(rt))
}

/// Two connections to a listener.
fn connected<R: Abort + Net<Stream = TcpStream>>(
    rt: &R,
    address: SocketAddr,
) -> (TcpStream, TcpStream) {
    let first = TcpStream::connect(rt, address).ok();
    let second = TcpStream::connect(rt, address).ok();
    (
        first.expect(rt, "no connection"),
        second.expect(rt, "no connection"),
    )
}

/// The first two of the shares.
fn both<K: Ledgers>(rt: &impl Abort, shares: Vec<Share<K>>) -> (Share<K>, Share<K>) {
    let mut shares = shares;
    let second = shares.pop().expect(rt, "no share");
    (shares.pop().expect(rt, "no share"), second)
}

/// Two sessions reach the listener; then it is asked to stop, and reached once more.
fn reaches<S, T, U, V, R>(
    rt: &R,
    alloc: Global,
    book: &AuditBook<Four<S, T, U, V>>,
    shares: Vec<Share<Four<S, T, U, V>>>,
    place: &Place,
) -> bool
where
    S: Ledger + Send + Sync,
    T: Ledger + Send + Sync,
    U: Ledger + Send + Sync,
    V: Ledger + Send + Sync,
    R: Threads + Wait + Abort + Clock + Net<Stream = TcpStream> + Sync,
{
    let shares = both(rt, shares);
    let (first, second) = connected(rt, place.address);
    let is_so = both_visit(rt, alloc, book, shares, (&first, &second), &place.state);
    place.stop.store(true, Ordering::SeqCst);
    let _ = TcpStream::connect(rt, place.address);
    is_so
}

/// The desks of the node, once two connections were served with them, and no others.
fn listens<L, R>(
    rt: &R,
    alloc: Global,
    node: &Node<Memory, L>,
    desks: Vec<Desk<L>>,
    place: &Place,
) -> Option<Vec<Desk<L>>>
where
    L: Desks + Send + Sync,
    R: Threads + Wait + Clock + Send + Sync,
{
    let gate = FirstGate {
        clock: rt,
        state: &place.state,
    };
    match listen(rt, alloc, node, &place.listener, desks, &gate, &place.stop) {
        Ok(ended) if ended.connections == 2 => Some(ended.desks),
        _ => None,
    }
}

/// The same, if two sessions were served.
fn reached<S, T, U, V, L, R>(
    rt: &R,
    alloc: Global,
    place: &Place,
    book: &AuditBook<Four<S, T, U, V>>,
    shares: Vec<Share<Four<S, T, U, V>>>,
    node: &Node<Memory, L>,
    desks: Vec<Desk<L>>,
) -> Option<Vec<Desk<L>>>
where
    S: Ledger + Send + Sync,
    T: Ledger + Send + Sync,
    U: Ledger + Send + Sync,
    V: Ledger + Send + Sync,
    L: Desks + Send + Sync,
    R: Threads + Wait + Abort + Clock + Net<Stream = TcpStream> + Send + Sync,
{
    let (desks, is_so) = thread::join(
        rt,
        move || listens(rt, alloc, node, desks, place),
        move || reaches(rt, alloc, book, shares, place),
    );
    if is_so { desks } else { None }
}

/// Whether the node, whose desks these are, comes to what the two sessions wrote.
fn settles<L: Desks>(node: Box<Node<Memory, L>>, desks: Vec<Desk<L>>) -> bool {
    let Ok(settled) = Box::into_inner(node).settle(desks) else {
        return false;
    };
    settled.accepted == 2 * ROUNDS
}

/// Whether a listener with five desks serves the sessions of this book, and gives its desks back.
fn serves<S, T, U, V, L, R>(
    rt: &R,
    alloc: Global,
    place: &Place,
    book: &AuditBook<Four<S, T, U, V>>,
    shares: Vec<Share<Four<S, T, U, V>>>,
    blank: Blank,
    server: Box<Served>,
) -> bool
where
    S: Ledger + Send + Sync,
    T: Ledger + Send + Sync,
    U: Ledger + Send + Sync,
    V: Ledger + Send + Sync,
    L: Desks + Send + Sync,
    R: Threads + Wait + Abort + Clock + Net<Stream = TcpStream> + Send + Sync,
    requires blank { IsBlankOf blank L.name L.parts 5 }
    requires whose { begun_of server.value.core ≡ L.begun }
{
    let (node, desks) = opened::<_, L>(rt, alloc, blank, server, 5);
    match reached(rt, alloc, place, book, shares, &node, desks) {
        Some(desks) => settles(node, desks),
        None => false,
    }
}

/// The same of two sessions.
fn serves_sessions<S, T, U, V, L, R>(
    rt: &R,
    alloc: Global,
    place: &Place,
    blanks: Blanks,
    blank: Blank,
    server: Box<Served>,
) -> bool
where
    S: Ledger + Send + Sync,
    T: Ledger + Send + Sync,
    U: Ledger + Send + Sync,
    V: Ledger + Send + Sync,
    L: Desks + Send + Sync,
    R: Threads + Wait + Abort + Clock + Net<Stream = TcpStream> + Send + Sync,
    requires blanks { AreBlanksOf blanks (named S.name S.parts) (named T.name T.parts) (named U.name U.parts) (named V.name V.parts) 2 }
    requires blank { IsBlankOf blank L.name L.parts 5 }
    requires whose { begun_of server.value.core ≡ L.begun }
{
    let (book, shares) = AuditBook::<Four<S, T, U, V>>::new(alloc, blanks, 2, 65_536).expect(
        rt, "no book",
    );
    serves::<S, T, U, V, L, R>(rt, alloc, place, &book, shares, blank, server)
}

/// Whether two sessions are served where the gate begins so, and it is open in the end.
fn are_served<R>(rt: &R, alloc: Global, begins: u64) -> bool
where
    R: Threads
        + Wait
        + Abort
        + Clock
        + Net<Stream = TcpStream, Listener = TcpListener>
        + Send
        + Sync,
{
    let place = placed(rt, begins);
    let is_so = serves_sessions::<Brand, Brand, Brand, Brand, Brand, R>(
        rt,
        alloc,
        &place,
        blanks(2),
        Blank::new(5),
        begun(rt, alloc, (0, 2, 65_536)),
    );
    is_so && place.state.load(Ordering::SeqCst) == OPEN
}

#[test]
fn a_listener_serves_sessions_at_once(rt: HostRuntime) {
    assert!(rt; are_served(&rt, rt.alloc(), OPEN));
}

/// The second session is served whole while the first one's first Write is held.
#[test]
fn a_request_that_waits_holds_up_no_other_connection_at_a_listener(rt: HostRuntime) {
    assert!(rt; are_served(&rt, rt.alloc(), AWAITED));
}
