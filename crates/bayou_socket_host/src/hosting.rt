ghost use Rattle.std.specs.Prelude.{◌≡◌, vec_len};
ghost use Rattle.bayou_node.specs.Books.{IsBlankOf, begun_of};

use crate::fault::Fault;
use crate::words::{Words, read_words};
use bayou_base::{MAX_WRITES, ServerId};
use bayou_device::FileDevice;
use bayou_net::{NoGate, listen};
use bayou_node::{Desk, Desks, Node, NodeSettled};
use bayou_server::Server;
use std::alloc::Global;
use std::fs::{File, Files};
use std::marker::Brand;
use std::net::{Net, TcpListener, TcpStream};
use std::sync::Wait;
use std::sync::atomic::AtomicBool;
use std::sync::ledger::Blank;
use std::thread::Threads;

type Journaled = Server<FileDevice<File>>;

/// How many servers there are, of which this is the first.
const COUNT: u8 = 2;

// The server with what its journal in the file has.
fn started<R: Files<File = File>>(rt: &R, alloc: Global, path: &str) -> Result<Journaled, Fault> {
    let Ok(device) = FileDevice::open(rt, path) else {
        return Err(Fault::Device);
    };
    match Server::start(alloc, ServerId { index: 0 }, COUNT, MAX_WRITES, device) {
        Ok((server, _)) => Ok(server),
        Err(refused) => Err(Fault::from(refused.fault)),
    }
}

fn tell_port<R: Print>(rt: &R, listener: &TcpListener) -> Result<(), Fault> {
    let Ok(address) = listener.local_addr() else {
        return Err(Fault::Port);
    };
    match println!(rt; "port {}", address.port()) {
        Ok(()) => Ok(()),
        Err(_) => Err(Fault::Output),
    }
}

// What the books come to, and how many Writes of each server are held.
fn tell_settled<R: Print>(rt: &R, settled: &NodeSettled) -> Result<(), Fault> {
    let [first, second, ..] = settled.vector.counts();
    match println!(rt;
        "settled 0 accepted {} adopted {}\nlog 0 at {first},{second}",
        settled.accepted, settled.adopted
    ) {
        Ok(()) => Ok(()),
        Err(_) => Err(Fault::Output),
    }
}

// Listens until each desk has served a connection. All desks come back, whether a connection couldn't be taken or not.
fn listen_all<L, R>(
    rt: &R,
    alloc: Global,
    node: &Node<FileDevice<File>, L>,
    desks: Vec<Desk<L>>,
) -> (Result<(), Fault>, Vec<Desk<L>>)
where
    L: Desks + Send + Sync,
    R: Threads + Wait + Print + Net<Stream = TcpStream, Listener = TcpListener> + Send + Sync,
    ensures all { vec_len result.1 ≡ vec_len desks }
{
    let Ok(listener) = TcpListener::bind(rt, "127.0.0.1:0") else {
        return (Err(Fault::Port), desks);
    };
    if let Err(fault) = tell_port(rt, &listener) {
        return (Err(fault), desks);
    }
    let never = AtomicBool::new(false);
    match listen(rt, alloc, node, &listener, desks, &NoGate, &never) {
        Ok(ended) => (Ok(()), ended.desks),
        Err(broken) => (Err(Fault::from(broken.fault)), broken.desks),
    }
}

// Has so many connections served at a port, and tells what the books come to then.
fn serve_all<L, R>(
    rt: &R,
    alloc: Global,
    blank: Blank,
    server: Journaled,
    connections: u32,
) -> Result<(), Fault>
where
    L: Desks + Send + Sync,
    R: Threads + Wait + Print + Net<Stream = TcpStream, Listener = TcpListener> + Send + Sync,
    requires blank { IsBlankOf blank L.name L.parts connections }
    requires whose { begun_of server.core ≡ L.begun }
{
    let Ok((node, desks)) = Node::<_, L>::new(alloc, blank, server, connections) else {
        return Err(Fault::Memory);
    };
    let (ended, desks) = listen_all(rt, alloc, &node, desks);
    let Ok(settled) = node.settle(desks) else {
        unreachable!();
    };
    tell_settled(rt, &settled)?;
    ended
}

/// Serves at a port what the words ask for, over the journal that they name, and tells the port, and then what the books come to.
pub(crate) fn host<R>(rt: &R, alloc: Global, words: Vec<String>) -> Result<(), Fault>
where
    R: Threads
        + Wait
        + Print
        + Files<File = File>
        + Net<Stream = TcpStream, Listener = TcpListener>
        + Send
        + Sync,
{
    let Words { path, connections } = read_words(words)?;
    let server = started(rt, alloc, &path)?;
    let blank = Blank::new(u64::from(connections));
    serve_all::<Brand, R>(rt, alloc, blank, server, connections)
}
