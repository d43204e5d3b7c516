//! Desks at a listening socket, at each of which one connection after another is served, and what ends that.
ghost use Rattle.std.specs.Prelude.{◌≡◌};
ghost use Rattle.bayou_node.specs.Books.{IsBlankOf, begun_of};

use crate::fakes::Waits;
use crate::fixtures::{begun, opened};
use bayou_fakes::sites::Memory;
use bayou_fakes::words::{bytes_of, is_said};
use bayou_net::{Attendant, Door, Host, NoGate, attend, serve, shut};
use bayou_node::{Desk, Desks, Node};
use bayou_server::Server;
use bayou_streams::{CountedChannel, Patient};
use std::alloc::Global;
use std::io::{ErrorKind, Read, Write};
use std::marker::Brand;
use std::net::{Net, Shutdown, SocketAddr, TcpListener, TcpStream};
use std::process::Abort;
use std::sync::Wait;
use std::sync::atomic::{AtomicBool, Ordering};
use std::sync::ledger::Blank;
use std::thread::Threads;
use std::time::Duration;

/// How long one wait for bytes takes at the most, in milliseconds.
const TICK_MILLISECONDS: u64 = 10;

/// A node that waits so often for what a connection says.
#[derive(Drop)]
struct Porch<'a, L: Desks> {
    node: &'a Node<Memory, L>,
    waits: u32,
}

impl<L: Desks + Send + Sync> Host for Porch<'_, L> {
    type Desk = Desk<L>;

    fn serve<T: Wait>(&self, rt: &T, alloc: Global, desk: Desk<L>, stream: TcpStream) -> Desk<L> {
        let tick = Duration::from_millis(TICK_MILLISECONDS);
        if stream.set_read_timeout(Some(tick)).is_err() {
            return desk;
        }
        let reader = Patient::new(&stream, Waits::new(self.waits));
        let mut channel = CountedChannel::new(reader, &stream);
        serve(rt, alloc, self.node, desk, &NoGate, &mut channel).1
    }
}

impl<L: Desks + Send + Sync> Attendant for Porch<'_, L> {
    fn pause<T: Wait>(&self, _rt: &T) {}
}

/// Who comes.
#[derive(Clone, Copy)]
enum Visitors {
    /// So many who ask, one after the other.
    InTurn(u8),
    /// One who says nothing and stays, and one who asks.
    Beside,
    /// Three who say nothing, until their connections end, and one who asks.
    Behind,
}

/// How often is waited for what a visitor says, who comes, and how many Writes they make.
#[derive(Clone, Copy)]
struct Case {
    waits: u32,
    visitors: Visitors,
    writes: u32,
}

/// A listener, whether its desks are to be left, and whether all went as it was to.
#[derive(Drop)]
struct Place {
    listener: TcpListener,
    address: SocketAddr,
    stop: AtomicBool,
    is_short: AtomicBool,
    is_so: AtomicBool,
}

fn placed<R: Abort + Net<Stream = TcpStream, Listener = TcpListener>>(rt: &R) -> Place {
    let listener = TcpListener::bind(rt, "127.0.0.1:0")
        .ok()
        .expect(rt, "no listener");
    let address = listener.local_addr().ok().expect(rt, "no address");
    Place {
        listener,
        address,
        stop: AtomicBool::new(false),
        is_short: AtomicBool::new(false),
        is_so: AtomicBool::new(false),
    }
}

/// Whether just this comes before the connection ends.
fn is_replied(alloc: Global, stream: &TcpStream, reply: &str) -> bool {
    let (mut reader, mut told) = (stream, Vec::new(alloc));
    reader.read_to_end(&mut told).is_ok() && is_said(alloc, reply, &told)
}

/// Whether one who makes this Write, the first, second .. ninth one, learns that it was accepted.
fn is_served<R: Net<Stream = TcpStream>>(
    rt: &R,
    alloc: Global,
    address: SocketAddr,
    number: u8,
) -> bool {
    let before = number.saturating_sub(1);
    let Ok(stream) = TcpStream::connect(rt, address) else {
        return false;
    };
    let (Ok(request), Ok(reply)) = (
        format!(in alloc; "005a 06 00000000010000000{number} <none> <put-1>"),
        format!(in alloc; "004a 12 00 0000000{number} 0000000{number} 0000000{before} <zeros>"),
    ) else {
        return false;
    };
    let Some(sent) = bytes_of(alloc, request.as_str()) else {
        return false;
    };
    let mut writer = &stream;
    let is_sent = writer.write_all(&sent).is_ok() && stream.shutdown(Shutdown::Write).is_ok();
    is_sent && is_replied(alloc, &stream, reply.as_str())
}

/// Whether so many are served, one after the other.
fn are_served<R: Net<Stream = TcpStream>>(
    rt: &R,
    alloc: Global,
    address: SocketAddr,
    count: u8,
) -> bool {
    let mut are_so = true;
    for number in 0..count.min(9) {
        are_so &= is_served(rt, alloc, address, number + 1);
    }
    are_so
}

/// Whether nothing comes at this connection, and it is still open.
fn is_open(stream: &TcpStream) -> bool {
    let (mut reader, mut piece) = (stream, [0; 1]);
    let tick = Duration::from_millis(TICK_MILLISECONDS);
    let is_timed = stream.set_read_timeout(Some(tick)).is_ok();
    match reader.read(&mut piece) {
        Ok(_) => false,
        Err(error) => is_timed && error.kind() == ErrorKind::WouldBlock,
    }
}

/// Whether one who asks is served while another, who came before, says nothing and stays.
fn is_served_beside<R: Net<Stream = TcpStream>>(
    rt: &R,
    alloc: Global,
    address: SocketAddr,
) -> bool {
    match TcpStream::connect(rt, address) {
        Ok(silent) => is_served(rt, alloc, address, 1) && is_open(&silent),
        Err(_) => false,
    }
}

/// Whether one who asks is served though at each of the three desks somebody says nothing: their connections end, with nothing said.
fn is_served_behind<R: Net<Stream = TcpStream>>(
    rt: &R,
    alloc: Global,
    address: SocketAddr,
) -> bool {
    let (Ok(first), Ok(second), Ok(third)) = (
        TcpStream::connect(rt, address),
        TcpStream::connect(rt, address),
        TcpStream::connect(rt, address),
    ) else {
        return false;
    };
    is_served(rt, alloc, address, 1)
        && is_replied(alloc, &first, "")
        && is_replied(alloc, &second, "")
        && is_replied(alloc, &third, "")
}

/// Whether all goes so for these visitors.
fn visit<R: Net<Stream = TcpStream>>(
    rt: &R,
    alloc: Global,
    address: SocketAddr,
    visitors: Visitors,
) -> bool {
    match visitors {
        Visitors::InTurn(count) => are_served(rt, alloc, address, count),
        Visitors::Beside => is_served_beside(rt, alloc, address),
        Visitors::Behind => is_served_behind(rt, alloc, address),
    }
}

/// The desks again, if no visitor found it otherwise than it was to be, nobody is let in after them, and each desk had a thread.
fn attended<L, R>(
    rt: &R,
    alloc: Global,
    place: &Place,
    porch: &Porch<'_, L>,
    desks: Vec<Desk<L>>,
    visitors: Visitors,
) -> Option<Vec<Desk<L>>>
where
    L: Desks + Send + Sync,
    R: Threads + Wait + Net<Stream = TcpStream> + Send + Sync,
{
    let door = Door {
        host: porch,
        listener: &place.listener,
        stop: &place.stop,
        is_short: &place.is_short,
    };
    let ended = attend(rt, alloc, &door, desks, move |unserved| {
        let is_so = visit(rt, alloc, place.address, visitors);
        place.stop.store(true, Ordering::SeqCst);
        let is_shut = match place.listener.try_clone() {
            Ok(copy) => shut(copy) && TcpStream::connect(rt, place.address).is_err(),
            Err(_) => false,
        };
        place
            .is_so
            .store(is_so && is_shut && unserved == 0, Ordering::SeqCst);
    });
    match ended {
        Ok((desks, ())) if place.is_so.load(Ordering::SeqCst) => Some(desks),
        _ => None,
    }
}

/// Whether all desks are back, and the node comes to so many Writes.
fn settles<L: Desks>(node: Box<Node<Memory, L>>, desks: Vec<Desk<L>>, accepted: u32) -> bool {
    let Ok(settled) = Box::into_inner(node).settle(desks) else {
        return false;
    };
    settled.accepted == accepted
}

/// Whether a node with three desks serves these visitors, who make so many Writes.
fn serves<L, R>(
    rt: &R,
    alloc: Global,
    blank: Blank,
    server: Box<Server<Memory>>,
    case: Case,
) -> bool
where
    L: Desks + Send + Sync,
    R: Threads + Wait + Abort + Net<Stream = TcpStream, Listener = TcpListener> + Send + Sync,
    requires blank { IsBlankOf blank L.name L.parts 3 }
    requires whose { begun_of server.value.core ≡ L.begun }
{
    let (node, desks) = opened::<_, L>(rt, alloc, blank, server, 3);
    let place = placed(rt);
    let porch = Porch {
        node: &node,
        waits: case.waits,
    };
    match attended(rt, alloc, &place, &porch, desks, case.visitors) {
        Some(desks) => settles(node, desks, case.writes),
        None => false,
    }
}

/// The same of a new node.
fn goes<R>(rt: &R, alloc: Global, case: Case) -> bool
where
    R: Threads + Wait + Abort + Net<Stream = TcpStream, Listener = TcpListener> + Send + Sync,
{
    serves::<Brand, R>(
        rt,
        alloc,
        Blank::new(3),
        begun(rt, alloc, (0, 2, 100)),
        case,
    )
}

/// Each of three desks serves one visitor after another, until the door is shut.
#[test]
fn three_desks_serve_seven_visitors_in_turn(rt: HostRuntime) {
    let case = Case {
        waits: 1_000_000,
        visitors: Visitors::InTurn(7),
        writes: 7,
    };
    assert!(rt; goes(&rt, rt.alloc(), case));
}

#[test]
fn a_visitor_that_says_nothing_holds_up_no_other(rt: HostRuntime) {
    let case = Case {
        waits: 1_000_000,
        visitors: Visitors::Beside,
        writes: 1,
    };
    assert!(rt; goes(&rt, rt.alloc(), case));
}

#[test]
fn visitors_that_say_nothing_are_left_when_patience_is_out(rt: HostRuntime) {
    let case = Case {
        waits: 20,
        visitors: Visitors::Behind,
        writes: 1,
    };
    assert!(rt; goes(&rt, rt.alloc(), case));
}
