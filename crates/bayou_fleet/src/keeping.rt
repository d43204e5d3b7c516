//! The servers of a run, each in a thread of its own.
ghost use Rattle.std.specs.Prelude.{◌≡◌, IfOk, vec_len};
ghost use Rattle.std.specs.Thread.{IsSend};
ghost use Rattle.bayou_node.specs.Books.{IsBlankOf, begun_of};

use crate::begun::Begun;
use crate::fault::FleetFault;
use crate::mailbox::{Mailbox, Order, Told};
use crate::messages::{ToldBooks, ToldDump, ToldLog};
use bayou_device::Device;
use bayou_net::{NoGate, listen, pull};
use bayou_node::{Desk, Desks, Node};
use bayou_peer::{PullStopped, Pulled};
use bayou_server::Server;
use bayou_streams::CountedChannel;
use std::alloc::Global;
use std::marker::Brand;
use std::net::{TcpListener, TcpStream};
use std::sync::Wait;
use std::sync::atomic::{AtomicBool, Ordering};
use std::sync::ledger::Blank;
use std::thread;
use std::thread::{Scope, Threads};

/// Where a server is reached: at its socket until the flag is set, and by its mailbox.
#[derive(Drop)]
pub(crate) struct Post<'s> {
    pub(crate) listener: &'s TcpListener,
    pub(crate) mailbox: &'s Mailbox,
    pub(crate) stop: &'s AtomicBool,
}

/// What a server comes to once nobody is served any more.
#[derive(Drop)]
pub struct Kept {
    pub(crate) dump: ToldDump,
    pub(crate) books: ToldBooks,
}

// Takes what the node lacks, and closes the stream.
fn pulled<D: Device, L: Desks, T: Wait>(
    rt: &T,
    alloc: Global,
    node: &Node<D, L>,
    stream: TcpStream,
) -> Result<Pulled, PullStopped> {
    pull(rt, alloc, node, &mut CountedChannel::new(&stream, &stream))
}

// Does each order at the node, until an order ends it.
fn do_orders<D: Device, L: Desks, T: Wait>(
    rt: &T,
    alloc: Global,
    node: &Node<D, L>,
    begun: &Begun,
    mailbox: &Mailbox,
)
    requires { begun.now ≡ L.begun }
{
    for _ in rt.forever() {
        let told = match mailbox.next(rt) {
            Order::Pull(stream) => Told::Pulled(pulled(rt, alloc, node, stream)),
            Order::Log => Told::Log(ToldLog::of(rt, alloc, node, *begun)),
            Order::Dump => Told::Dump(ToldDump::of(rt, alloc, node, *begun)),
            Order::End => return,
        };
        mailbox.tell(rt, told);
    }
}

// Closes each connection that comes to a server that couldn't go on listening, so that nobody waits for a reply, until it is asked to stop.
fn turn_away<T: Wait>(rt: &T, post: &Post<'_>) {
    for _ in rt.forever() {
        let came = post.listener.accept();
        if came.is_err() || post.stop.load(Ordering::SeqCst) {
            return;
        }
    }
}

// Serves whoever connects, until the flag is set.
fn listens<D, L, T>(
    rt: &T,
    alloc: Global,
    node: &Node<D, L>,
    desks: Vec<Desk<L>>,
    post: &Post<'_>,
) -> Vec<Desk<L>>
where
    D: Device + Send + Sync,
    L: Desks + Send + Sync,
    T: Threads + Wait + Send + Sync,
    ensures { vec_len result ≡ vec_len desks }
{
    match listen(rt, alloc, node, post.listener, desks, &NoGate, post.stop) {
        Ok(ended) => ended.desks,
        Err(broken) => {
            turn_away(rt, post);
            broken.desks
        }
    }
}

// Has a thread do the orders, and tells whether one does.
fn begin_orders<'s, E, D, L, T>(
    scope: &'s Scope<'s, E>,
    rt: &'s T,
    alloc: Global,
    node: &'s Node<D, L>,
    begun: &'s Begun,
    mailbox: &'s Mailbox,
) -> bool
where
    D: Device + Send + Sync,
    L: Desks + Send + Sync,
    T: Threads + Wait + Send + Sync,
    requires { begun.now ≡ L.begun }
{
    let begins = scope
        .spawn(
            move || -> ()
                requires { IsSend D.row × IsSend L.row × (begun.now ≡ L.begun) }
            { do_orders(rt, alloc, node, begun, mailbox) },
        )
        .is_ok();
    mailbox.tell(rt, Told::Opened(begins));
    begins
}

// Serves whoever connects, and does the orders beside. All desks come back, where a thread for these started.
fn attend<D, L, T>(
    rt: &T,
    alloc: Global,
    node: &Node<D, L>,
    desks: Vec<Desk<L>>,
    begun: &Begun,
    post: &Post<'_>,
) -> Result<Vec<Desk<L>>, FleetFault>
where
    D: Device + Send + Sync,
    L: Desks + Send + Sync,
    T: Threads + Wait + Send + Sync,
    requires { begun.now ≡ L.begun }
    ensures { IfOk result (λ back. vec_len back ≡ vec_len desks) }
{
    let mailbox = post.mailbox;
    thread::scope(
        thread::scope_env(),
        rt,
        move |scope| -> Result<Vec<Desk<L>>, FleetFault>
            requires { IsSend T.row × IsSend L.row × IsSend D.row × (begun.now ≡ L.begun) }
            ensures { IfOk result (λ back. vec_len back ≡ vec_len desks) }
        {
            if !begin_orders(scope, rt, alloc, node, begun, mailbox) {
                return Err(FleetFault::Memory);
            }
            Ok(listens(rt, alloc, node, desks, post))
        },
    )
}

// Keeps a server, with so many desks, until it is asked to end.
fn keep<D, L, T>(
    rt: &T,
    alloc: Global,
    blank: Blank,
    server: Server<D>,
    desks: u32,
    post: Post<'_>,
) -> Result<Kept, FleetFault>
where
    D: Device + Send + Sync,
    L: Desks + Send + Sync,
    T: Threads + Wait + Send + Sync,
    requires blank { IsBlankOf blank L.name L.parts desks }
    requires whose { begun_of server.core ≡ L.begun }
    ensures { IfOk result (λ kept. (kept.dump ≡ begun_of server.core) × (kept.books ≡ begun_of server.core)) }
{
    let begun = Begun::of(&server);
    let Ok((node, desks)) = Node::<D, L>::new(alloc, blank, server, desks) else {
        post.mailbox.tell(rt, Told::Opened(false));
        return Err(FleetFault::Memory);
    };
    let desks = attend(rt, alloc, &node, desks, &begun, &post)?;
    let dump = ToldDump::of(rt, alloc, &node, begun)?;
    let books = ToldBooks::of(node, desks, begun)?;
    Ok(Kept { dump, books })
}

/// The same, with a ledger of its own, which ties what is behind its lock to its desks.
pub(crate) fn keep_named<D, T>(
    rt: &T,
    alloc: Global,
    server: Server<D>,
    desks: u32,
    post: Post<'_>,
) -> Result<Kept, FleetFault>
where
    D: Device + Send + Sync,
    T: Threads + Wait + Send + Sync,
    ensures { IfOk result (λ kept. (kept.dump ≡ begun_of server.core) × (kept.books ≡ begun_of server.core)) }
{
    let blank = Blank::new(u64::from(desks));
    keep::<D, Brand, T>(rt, alloc, blank, server, desks, post)
}
