//! Two nodes are served at once: while a Write waits at the device of one, a read at the other is answered.
ghost use Rattle.std.specs.Prelude.{◌≡◌};
ghost use Rattle.bayou_node.specs.Books.{IsBlankOf, begun_of};

use crate::fixtures::{begun, key, new_site, on_device, put, tag, written};
use crate::gates::{HELD, OPEN, ShutGate, open};
use bayou_base::Vector;
use bayou_device::{Device, MemoryDevice};
use bayou_fakes::sites::{Memory, Served, Site};
use bayou_node::{Desk, Desks, Node};
use bayou_server::Server;
use std::alloc::Global;
use std::marker::Brand;
use std::process::Abort;
use std::sync::Wait;
use std::sync::atomic::{AtomicU64, Ordering};
use std::sync::ledger::Blank;
use std::thread;
use std::thread::Threads;

/// Whether a Write is accepted at the node, however long its device holds it up.
fn is_written<D: Device, L: Desks, R: Wait + Abort>(
    rt: &R,
    alloc: Global,
    node: &Node<D, L>,
    desk: &mut Desk<L>,
) -> bool {
    written(rt, alloc, node, desk, tag(rt, 1), &put(rt, 1)).is_ok()
}

/// Whether a read is answered, before anybody was given up. Then the gate is opened.
fn is_read<D: Device, M: Desks, R: Wait + Abort>(
    rt: &R,
    node: &Node<D, M>,
    state: &AtomicU64,
) -> bool {
    let is_answered = node.read(rt, &Vector::zero(), &key(rt)).is_ok();
    open(state) && is_answered
}

/// The server behind a lock, and its one desk.
fn desked<D: Device, L: Desks>(
    rt: &impl Abort,
    alloc: Global,
    blank: Blank,
    server: Box<Server<D>>,
) -> (Box<Site<D, L>>, Desk<L>)
    requires blank { IsBlankOf blank L.name L.parts 1 }
    requires whose { begun_of server.value.core ≡ L.begun }
{
    let mut site = new_site::<_, L>(rt, alloc, blank, server, 1);
    let desk = site.as_mut().desks.pop().expect(rt, "no desk");
    (site, desk)
}

/// Whether both are answered, each in a thread of its own.
fn are_answered<D, L, M, R>(
    rt: &R,
    alloc: Global,
    state: &AtomicU64,
    slow: &Node<D, L>,
    desk: Desk<L>,
    quick: &Node<Memory, M>,
) -> bool
where
    D: Device + Send,
    L: Desks + Send + Sync,
    M: Desks + Send + Sync,
    R: Threads + Wait + Abort + Sync,
{
    let mut desk = desk;
    let (is_put, is_seen) = thread::join(
        rt,
        move || is_written(rt, alloc, slow, &mut desk),
        move || is_read(rt, quick, state),
    );
    is_put && is_seen
}

/// Whether the nodes over both are answered.
fn serves_both<D, L, M, R>(
    rt: &R,
    alloc: Global,
    state: &AtomicU64,
    first: Blank,
    slow: Box<Server<D>>,
    second: Blank,
    quick: Box<Served>,
) -> bool
where
    D: Device + Send,
    L: Desks + Send + Sync,
    M: Desks + Send + Sync,
    R: Threads + Wait + Abort + Sync,
    requires slow { IsBlankOf first L.name L.parts 1 × (begun_of slow.value.core ≡ L.begun) }
    requires quick { IsBlankOf second M.name M.parts 1 × (begun_of quick.value.core ≡ M.begun) }
{
    let (slow, desk) = desked::<_, L>(rt, alloc, first, slow);
    let (quick, _) = desked::<_, M>(rt, alloc, second, quick);
    let (slow, quick) = (&slow.as_ref().node, &quick.as_ref().node);
    are_answered(rt, alloc, state, slow, desk, quick)
}

#[test]
fn a_write_that_waits_at_one_node_holds_up_no_read_at_another(rt: HostRuntime) {
    let alloc = rt.alloc();
    let state = AtomicU64::new(OPEN);
    let gate = ShutGate {
        state: &state,
        clock: &rt,
    };
    let slow = on_device(&rt, alloc, (0, 2, 1000), MemoryDevice::new(alloc, gate));
    let quick = begun(&rt, alloc, (1, 2, 1000));
    // The header of the journal was appended as the server began; what is appended from now on is held.
    state.store(HELD, Ordering::SeqCst);
    let are_served = serves_both::<_, Brand, Brand, HostRuntime>(
        &rt,
        alloc,
        &state,
        Blank::new(1),
        slow,
        Blank::new(1),
        quick,
    );
    assert!(rt; are_served && state.load(Ordering::SeqCst) == OPEN);
}
