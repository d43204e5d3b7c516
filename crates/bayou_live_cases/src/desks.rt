//! A node that serves who has a desk there.
ghost use Rattle.std.specs.Prelude.{◌≡◌};
ghost use Rattle.bayou_node.specs.Books.{IsBlankOf, begun_of};

use crate::fixtures::{begun, bytes, opened};
use crate::gates::{HELD, OPEN, ShutGate, open};
use bayou_fakes::sites::{Memory, Served};
use bayou_fakes::words::is_said;
use bayou_net::{NoGate, RequestGate, serve};
use bayou_node::{Desk, Desks, Node};
use bayou_streams::CountedChannel;
use std::alloc::Global;
use std::marker::Brand;
use std::process::Abort;
use std::sync::Wait;
use std::sync::atomic::{AtomicU64, Ordering};
use std::sync::ledger::Blank;
use std::thread;
use std::thread::Threads;
use std::time::Clock;

/// Writes of 1 to `a`, at a server that needn't hold anything: two askings.
const WRITES: [&str; 2] = [
    "005a 06 <tag-1> <none> <put-1>",
    "005a 06 <tag-2> <none> <put-1>",
];

/// The desk, once a connection has sent the Write, if one of the two that came was accepted.
fn writes<L: Desks, G: RequestGate, R: Wait + Abort>(
    rt: &R,
    alloc: Global,
    node: &Node<Memory, L>,
    desk: Desk<L>,
    gate: &G,
    request: &str,
) -> Option<Desk<L>> {
    let sent = bytes(rt, alloc, request);
    let mut channel = CountedChannel::new(sent.as_slice(), Vec::new(alloc));
    let (answer, desk) = serve(rt, alloc, node, desk, gate, &mut channel);
    let (_, written) = channel.into_parts();
    if answer == Ok(1) && is_accepted(alloc, &written) {
        Some(desk)
    } else {
        None
    }
}

/// Whether the Write was accepted, as the first or as the second.
fn is_accepted(alloc: Global, written: &[u8]) -> bool {
    is_said(alloc, "004a 12 00 00000001 00000001 <none>", written)
        || is_said(alloc, "004a 12 00 00000002 00000002 <one>", written)
}

/// The same, if nobody had opened the gate till then, nor given up; then it is opened.
fn writes_and_opens<L: Desks, R: Wait + Abort>(
    rt: &R,
    alloc: Global,
    node: &Node<Memory, L>,
    desk: Desk<L>,
    state: &AtomicU64,
) -> Option<Desk<L>> {
    let desk = writes(rt, alloc, node, desk, &NoGate, WRITES[1]);
    if open(state) { desk } else { None }
}

/// The two desks, once each has had a connection, if both were answered, though a gate holds the request of the one until the other was.
fn both_had<'a, L, R>(
    rt: &'a R,
    alloc: Global,
    state: &'a AtomicU64,
    node: &Node<Memory, L>,
    (first, second): (Desk<L>, Desk<L>),
) -> Option<(Desk<L>, Desk<L>)>
where
    L: Desks + Send + Sync,
    R: Threads + Wait + Abort + Clock + Sync,
{
    let gate = ShutGate { clock: rt, state };
    let held_by = &gate;
    let (first, second) = thread::join(
        rt,
        move || writes(rt, alloc, node, first, held_by, WRITES[0]),
        move || writes_and_opens(rt, alloc, node, second, state),
    );
    let (Some(first), Some(second)) = (first, second) else {
        return None;
    };
    Some((first, second))
}

/// The two desks in a list again.
fn again<L: Desks>(
    rt: &impl Abort,
    alloc: Global,
    (first, second): (Desk<L>, Desk<L>),
) -> Vec<Desk<L>> {
    let mut desks = Vec::new(alloc);
    desks.push(first).ok().expect(rt, "no memory");
    desks.push(second).ok().expect(rt, "no memory");
    desks
}

/// Whether the node, whose desks these are, comes to two accepted programs.
fn settles<L: Desks>(
    rt: &impl Abort,
    alloc: Global,
    node: Box<Node<Memory, L>>,
    desks: (Desk<L>, Desk<L>),
) -> bool {
    let Ok(settled) = Box::into_inner(node).settle(again(rt, alloc, desks)) else {
        return false;
    };
    settled.accepted == 2 && settled.adopted == 0
}

/// The last two of the desks.
fn both<L: Desks>(rt: &impl Abort, desks: Vec<Desk<L>>) -> (Desk<L>, Desk<L>) {
    let mut desks = desks;
    let second = desks.pop().expect(rt, "no desk");
    (desks.pop().expect(rt, "no desk"), second)
}

/// Whether two connections at one node are both answered so.
fn serves_both<L, R>(
    rt: &R,
    alloc: Global,
    state: &AtomicU64,
    blank: Blank,
    server: Box<Served>,
) -> bool
where
    L: Desks + Send + Sync,
    R: Threads + Wait + Abort + Clock + Sync,
    requires blank { IsBlankOf blank L.name L.parts 2 }
    requires whose { begun_of server.value.core ≡ L.begun }
{
    let (node, desks) = opened::<_, L>(rt, alloc, blank, server, 2);
    match both_had(rt, alloc, state, &node, both(rt, desks)) {
        Some(desks) => settles(rt, alloc, node, desks),
        None => false,
    }
}

#[test]
fn a_request_that_waits_holds_up_no_other_connection(rt: HostRuntime) {
    let alloc = rt.alloc();
    let state = AtomicU64::new(HELD);
    let server = begun(&rt, alloc, (0, 2, 100));
    let are_served = serves_both::<Brand, HostRuntime>(&rt, alloc, &state, Blank::new(2), server);
    assert!(rt; are_served && state.load(Ordering::SeqCst) == OPEN);
}
