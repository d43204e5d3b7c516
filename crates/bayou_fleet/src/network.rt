//! The servers of a run at their sockets.
ghost use Rattle.std.specs.Prelude.{◌≡◌, ◌<◌, ◌≤◌, IfOk, length, map, vec_len};
ghost use Rattle.std.specs.Thread.{IsSend};
ghost use Rattle.bayou_base.specs.declared.limits.TheConstants.{SERVERS};
ghost use Rattle.bayou_fleet.specs.Servers.{IsFleetSettled};
ghost use Rattle.bayou_judge.specs.History.{lists_of};
ghost use Rattle.bayou_node.specs.Books.{begun_of};

use crate::begun::Begun;
use crate::fault::FleetFault;
use crate::keeping::{Kept, Post, keep_named};
use crate::links::reach;
use crate::mailbox::{Mailbox, Order};
use bayou_audit::{AuditBook, Ledgers};
use bayou_device::Device;
use bayou_lang::RestingWrite;
use bayou_net::Sockets;
use bayou_node::NodeSettled;
use bayou_server::Server;
use std::alloc::Global;
use std::collections::VecDeque;
use std::net::{SocketAddr, TcpListener};
use std::sync::Wait;
use std::sync::atomic::{AtomicBool, Ordering};
use std::thread::{JoinHandle, Scope, Threads};

/// The servers of a run, each at its socket and with a mailbox, and the book of what its sessions are served. Threads share it.
#[derive(Drop)]
pub struct Network<K: Ledgers> {
    /// Of each server, from server 0 on.
    pub mailboxes: Vec<Mailbox>,
    pub book: AuditBook<K>,
    pub(crate) count: u8,
    /// The run of the program that its sessions belong to.
    pub(crate) run: u32,
    listeners: Vec<TcpListener>,
    pub(crate) addresses: Vec<SocketAddr>,
    stop: AtomicBool,
    pub ghost count_in_range: { (0 < count) × (count ≤ SERVERS) },
    pub ghost run_in_range: { 0 < run },
    ghost one_each: { vec_len addresses ≡ count },
    pub ghost each: { vec_len mailboxes ≡ count },
}

/// A server that lives in a thread of its own.
pub type Keeping = JoinHandle<Result<Kept, FleetFault>>;

/// What the servers of a run come to.
#[derive(Drop)]
pub struct FleetSettled {
    /// What each holds, in order of receipt, from server 0 on.
    pub dumps: Vec<Vec<RestingWrite>>,
    /// What the books of each come to.
    pub nodes: Vec<NodeSettled>,
}

impl<K: Ledgers> Network<K> {
    /// So many servers, each with a socket of the loopback address, at a port that the system picks. Their sessions belong to this run of the
    /// program, of which no server holds a tag yet.
    pub fn bind<D: Device, T: Sockets>(
        rt: &T,
        alloc: Global,
        servers: &VecDeque<Box<Server<D>>>,
        count: u8,
        run: u32,
        book: AuditBook<K>,
    ) -> Result<Self, FleetFault>
        requires count { (0 < count) × (count ≤ SERVERS) }
        requires number { length servers.now.items ≡ count }
        requires run { 0 < run }
        ensures { IfOk result (λ network. (network.count ≡ count) × (network.run ≡ run) × (network.book ≡ book)
            × (network.mailboxes.items ≡ map (λ server. begun_of server.value.core) servers.now.items)) }
    {
        let mut listeners = Vec::new(alloc);
        let mut addresses = Vec::new(alloc);
        let mut mailboxes = Vec::new(alloc);
        for at in 0..servers.len() {
            let (listener, address) = bound(rt)?;
            listeners.push(listener)?;
            addresses.push(address)?;
            mailboxes.push(Mailbox::new(Begun::of(&servers[at])))?;
        }
        Ok(Network {
            mailboxes,
            book,
            count,
            run,
            listeners,
            addresses,
            stop: AtomicBool::new(false),
        })
    }

    /// Has each server end, and its listener at its next connection, and connects to each.
    pub fn stop<T: Sockets + Wait>(&self, rt: &T) {
        self.stop.store(true, Ordering::SeqCst);
        end_each(rt, &self.mailboxes);
        for address in &self.addresses {
            let _ = reach(rt, *address);
        }
    }

    /// The book, once nobody is served any more.
    pub fn into_book(self) -> AuditBook<K>
        ensures { result ≡ self.book }
    {
        self.book
    }
}

// A socket of the loopback address.
fn bound<T: Sockets>(rt: &T) -> Result<(TcpListener, SocketAddr), FleetFault> {
    let Ok(listener) = TcpListener::bind(rt, "127.0.0.1:0") else {
        return Err(FleetFault::Network);
    };
    let Ok(address) = listener.local_addr() else {
        return Err(FleetFault::Network);
    };
    Ok((listener, address))
}

// Tells each server to end.
fn end_each<T: Wait>(rt: &T, mailboxes: &[Mailbox]) {
    for mailbox in mailboxes {
        mailbox.leave(rt, Order::End);
    }
}

// Whether each server serves, once it does or can't.
fn are_opened<T: Wait>(rt: &T, mailboxes: &[Mailbox]) -> bool {
    let mut are_opened = true;
    for mailbox in mailboxes {
        are_opened &= mailbox.is_opened(rt);
    }
    are_opened
}

// Has a thread keep the server at this place.
fn start_server<'s, E, D, K, T>(
    scope: &'s Scope<'s, E>,
    rt: &'s T,
    alloc: Global,
    network: &'s Network<K>,
    at: usize,
    server: Box<Server<D>>,
    desks: u32,
) -> Result<Keeping, FleetFault>
where
    D: Device + Send + Sync + 's,
    K: Ledgers + Send + Sync,
    T: Threads + Wait + Sockets + Send + Sync,
{
    let (Some(listener), Some(mailbox)) = (network.listeners.get(at), network.mailboxes.get(at))
    else {
        return Err(FleetFault::Network);
    };
    let post = Post {
        listener,
        mailbox,
        stop: &network.stop,
    };
    match scope.spawn(move || keep_named(rt, alloc, Box::into_inner(server), desks, post)) {
        Ok(thread) => Ok(thread),
        Err(_) => Err(FleetFault::Memory),
    }
}

/// Has each of the servers live in a thread of its own, with so many desks, and waits until each serves. Where one can't, the network is to be
/// stopped, so that the others end.
pub fn start_servers<'s, E, D, K, T>(
    scope: &'s Scope<'s, E>,
    rt: &'s T,
    alloc: Global,
    network: &'s Network<K>,
    servers: VecDeque<Box<Server<D>>>,
    desks: u32,
) -> Result<VecDeque<Keeping>, FleetFault>
where
    D: Device + Send + Sync + 's,
    K: Ledgers + Send + Sync,
    T: Threads + Wait + Sockets + Send + Sync,
    ensures { IfOk result (λ threads. length threads.items ≡ length servers.items) }
{
    let mut threads = VecDeque::new(alloc);
    for server in servers {
        let at = threads.len();
        threads.push_back(start_server(scope, rt, alloc, network, at, server, desks)?)?;
    }
    if !are_opened(rt, &network.mailboxes) {
        return Err(FleetFault::Memory);
    }
    Ok(threads)
}

/// Waits for each of the servers whose mailboxes these are, once the network was stopped, and tells what they come to.
pub fn join_servers<T: Threads>(
    rt: &T,
    alloc: Global,
    mailboxes: &[Mailbox],
    threads: VecDeque<Keeping>,
) -> Result<FleetSettled, FleetFault>
    ensures { IfOk result (λ fleet. IsFleetSettled mailboxes.now (lists_of fleet.dumps.items) fleet.nodes.items) }
{
    let mut threads = threads;
    let mut dumps = Vec::new(alloc);
    let mut nodes = Vec::new(alloc);
    for mailbox in mailboxes {
        let Some(thread) = threads.pop_front() else {
            return Err(FleetFault::Network);
        };
        let Kept { dump, books } = thread.join(rt)?;
        dumps.push(dump.at(mailbox.begun())?)?;
        nodes.push(books.at(mailbox.begun())?)?;
    }
    Ok(FleetSettled { dumps, nodes })
}
