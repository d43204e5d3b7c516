//! Connections that come to a socket, each served by a thread of its own.
ghost use Rattle.std.specs.Prelude.{◌≡◌, ◌+◌, ◌≤◌, IfErr, IfOk, MatchResult, vec_capacity, vec_len};
ghost use Rattle.bayou_net.specs.declared.listening.ListenFault.TheVariants.{Accept};

use crate::gate::RequestGate;
use crate::host::{GatedNode, Host};
use bayou_device::Device;
use bayou_node::{Desk, Desks, Node};
use std::alloc::Global;
use std::net::{TcpListener, TcpStream};
use std::sync::Wait;
use std::sync::atomic::{AtomicBool, Ordering};
use std::thread;
use std::thread::{JoinHandle, Scope, Threads};

/// What is left once a listener ended: all its desks, in any order.
#[derive(Drop)]
pub struct ListenerEnded<S: Drop> {
    pub desks: Vec<S>,
    /// How many connections were served.
    pub connections: usize,
}

/// Why a listener ended before it was asked to.
#[derive(Clone, Copy, Debug, PartialEq, Eq)]
pub enum ListenFault {
    /// No connection can be taken from the socket.
    Accept,
    /// Nothing was listened to.
    OutOfMemory,
}

/// A listener that ended before it was asked to, once all its connections ended.
#[derive(Drop)]
pub struct ListenerBroken<S: Drop> {
    pub fault: ListenFault,
    /// All its desks, in any order.
    pub desks: Vec<S>,
}

// The desks of a listener: those that wait for a connection, those of threads that serve one, and those that served one here.
#[derive(Drop)]
struct Hands<S: Drop> {
    idle: Vec<S>,
    workers: Vec<JoinHandle<S>>,
    done: Vec<S>,
    /// How many connections were served, or are.
    connections: usize,
    total: usize,
    ghost all: { vec_len idle + vec_len workers + vec_len done ≡ total },
    ghost served: { connections ≤ vec_len workers + vec_len done },
    ghost room: { (total ≤ vec_capacity workers) × (total ≤ vec_capacity done) },
}

// Has a thread of its own serve the connection, or serves it here where none starts.
fn begin<'s, E, H: Host + Sync, T: Wait + Send + Sync>(
    scope: &'s Scope<'s, E>,
    rt: &'s T,
    alloc: Global,
    host: &'s H,
    desk: H::Desk,
    stream: TcpStream,
) -> Result<JoinHandle<H::Desk>, H::Desk> {
    match scope.spawn(move || host.serve(rt, alloc, desk, stream)) {
        Ok(worker) => Ok(worker),
        Err(refused) => Err((refused.value)()),
    }
}

// Takes connections until one comes after the flag, or no desk is left.
fn accept_all<'s, E, H: Host + Sync, T: Wait + Send + Sync>(
    scope: &'s Scope<'s, E>,
    rt: &'s T,
    alloc: Global,
    host: &'s H,
    listener: &TcpListener,
    hands: &mut Hands<H::Desk>,
    stop: &AtomicBool,
) -> Result<(), ListenFault>
    ensures all { hands.new.total ≡ hands.old.total }
    ensures fault { IfErr result (λ fault. fault ≡ Accept) }
{
    while let Some(desk) = hands.idle.pop() {
        let came = listener.accept();
        if stop.load(Ordering::SeqCst) {
            hands.done.push_reserved(desk);
            return Ok(());
        }
        let Ok((stream, _)) = came else {
            hands.done.push_reserved(desk);
            return Err(ListenFault::Accept);
        };
        match begin(scope, rt, alloc, host, desk, stream) {
            Ok(worker) => hands.workers.push_reserved(worker),
            Err(desk) => hands.done.push_reserved(desk),
        }
        hands.connections += 1;
    }
    Ok(())
}

// Waits for each thread, and takes its desk.
pub(crate) fn join_all<S: Drop + Send, T: Threads>(
    rt: &T,
    workers: Vec<JoinHandle<S>>,
    desks: &mut Vec<S>,
)
    requires room { vec_len desks.old + vec_len workers ≤ vec_capacity desks.old }
    ensures all { vec_len desks.new ≡ vec_len desks.old + vec_len workers }
    ensures same { vec_capacity desks.new ≡ vec_capacity desks.old }
{
    for worker in workers {
        desks.push_reserved(worker.join(rt));
    }
}

fn put_back<S: Drop>(idle: Vec<S>, desks: &mut Vec<S>)
    requires room { vec_len desks.old + vec_len idle ≤ vec_capacity desks.old }
    ensures all { vec_len desks.new ≡ vec_len desks.old + vec_len idle }
{
    for desk in idle {
        desks.push_reserved(desk);
    }
}

// All desks, once each thread has ended.
fn collect<S: Drop + Send, T: Threads>(rt: &T, hands: Hands<S>) -> Vec<S>
    ensures { vec_len result ≡ hands.total }
{
    let Hands {
        idle,
        workers,
        done,
        ..
    } = hands;
    let mut desks = done;
    join_all(rt, workers, &mut desks);
    put_back(idle, &mut desks);
    desks
}

/// Takes connections from the socket, and has each served by the host with a desk, by a thread of its own, or by this one where no thread
/// starts. It ends at the first connection that comes once the flag is set, or when each desk has served a connection, and gives all
/// desks back once every connection has ended.
pub fn listen_on<H: Host + Sync, T: Threads + Wait + Send + Sync>(
    rt: &T,
    alloc: Global,
    host: &H,
    listener: &TcpListener,
    desks: Vec<H::Desk>,
    stop: &AtomicBool,
) -> Result<ListenerEnded<H::Desk>, ListenerBroken<H::Desk>>
    ensures { MatchResult result
        (λ ended. (vec_len ended.desks ≡ vec_len desks) × (ended.connections ≤ vec_len desks))
        (λ broken. vec_len broken.desks ≡ vec_len desks) }
{
    let total = desks.len();
    let (Ok(workers), Ok(done)) = (
        Vec::with_capacity(alloc, total),
        Vec::with_capacity(alloc, total),
    ) else {
        return Err(ListenerBroken {
            fault: ListenFault::OutOfMemory,
            desks,
        });
    };
    let hands = Hands {
        idle: desks,
        workers,
        done,
        connections: 0,
        total,
    };
    let (ended, hands) = thread::scope(
        thread::scope_env(),
        rt,
        move |scope| -> (Result<(), ListenFault>, Hands<H::Desk>)
            ensures { result.1.total ≡ hands.total }
        {
            let mut hands = hands;
            let ended = accept_all(scope, rt, alloc, host, listener, &mut hands, stop);
            (ended, hands)
        },
    );
    let connections = hands.connections;
    let desks = collect(rt, hands);
    match ended {
        Ok(()) => Ok(ListenerEnded { desks, connections }),
        Err(fault) => Err(ListenerBroken { fault, desks }),
    }
}

/// As [`listen_on`], at a node, for whoever has a desk there. Each request waits for the gate.
pub fn listen<
    D: Device + Send + Sync,
    L: Desks + Send + Sync,
    G: RequestGate + Send + Sync,
    T: Threads + Wait + Send + Sync,
>(
    rt: &T,
    alloc: Global,
    node: &Node<D, L>,
    listener: &TcpListener,
    desks: Vec<Desk<L>>,
    gate: &G,
    stop: &AtomicBool,
) -> Result<ListenerEnded<Desk<L>>, ListenerBroken<Desk<L>>>
    ensures { MatchResult result
        (λ ended. (vec_len ended.desks ≡ vec_len desks) × (ended.connections ≤ vec_len desks))
        (λ broken. vec_len broken.desks ≡ vec_len desks) }
{
    listen_on(rt, alloc, &GatedNode { node, gate }, listener, desks, stop)
}
