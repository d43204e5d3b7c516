//! A server that serves, lent and at a node, over streams that move one byte at a call and fail at each call in turn: each run is compared
//! whole with one over ample streams.
ghost use Rattle.std.specs.Prelude.{◌≡◌};
ghost use Rattle.bayou_node.specs.Books.{IsBlankOf, begun_of};

use crate::fakes::{AMPLE, Moves, Streams, reading_up_to, streams, writing_up_to};
use crate::fixtures::{begun, bytes, must_go_so, opened};
use bayou_fakes::sites::{Memory, Served};
use bayou_fakes::values::are_same;
use bayou_frames::ChannelFault;
use bayou_lang::RestingWrite;
use bayou_net::{NoGate, serve, serve_on};
use bayou_node::{Desk, Desks, Node};
use std::alloc::Global;
use std::marker::Brand;
use std::process::Abort;
use std::sync::Wait;
use std::sync::ledger::Blank;

/// What is asked, one request after the other: a Write, a read of it, a read that isn't served yet, one more Write, all Writes, those
/// after the first, a reopening, and what is no request.
const REQUESTS: [&str; 8] = [
    "005a 06 <tag-1> <none> <put-1>",
    "0043 01 <one> 0161",
    "0043 01 <two> 0161",
    "005a 06 <tag-2> <one> <put-1>",
    "0001 04",
    "0041 05 <one>",
    "0001 03",
    "0002 13 05",
];

/// How many bytes they are, and are replied to them.
const SENT: u32 = 399;

const REPLIED: u32 = 590;

/// What a run comes to.
#[derive(Drop)]
struct Ran {
    told: Result<u32, ChannelFault>,
    written: Vec<u8>,
    reads: u32,
    writes: u32,
    /// What is held then, in order of receipt.
    held: Vec<RestingWrite>,
    /// Whether the books of a node say so too: each of them was accepted there.
    is_exact: bool,
}

/// What the run comes to that is reported so, with these Writes after it.
fn come_to(
    told: Result<u32, ChannelFault>,
    streams: Streams<'_>,
    held: Vec<RestingWrite>,
    is_exact: bool,
) -> Ran {
    let (reader, writer) = streams.into_parts();
    let reads = reader.calls;
    let writes = writer.calls;
    Ran {
        told,
        written: writer.bytes,
        reads,
        writes,
        held,
        is_exact,
    }
}

/// What a new server comes to that is lent, and is sent this.
fn ran_lent(rt: &impl Abort, alloc: Global, sent: &[u8], moves: Moves) -> Ran {
    let mut server = begun(rt, alloc, (0, 2, 9));
    let mut streams = streams(alloc, sent, moves);
    let told = serve_on(alloc, server.as_mut(), &NoGate, &mut streams);
    let held = server.dump(alloc).expect(rt, "no memory for Writes");
    come_to(told, streams, held, true)
}

/// Whether the node comes to so many programs that were accepted there, none that was adopted, and so many Writes.
fn is_settled<L: Desks>(
    rt: &impl Abort,
    alloc: Global,
    node: Box<Node<Memory, L>>,
    desk: Desk<L>,
    held: usize,
) -> bool {
    let mut desks = Vec::new(alloc);
    desks.push(desk).ok().expect(rt, "no memory");
    let Ok(settled) = Box::into_inner(node).settle(desks) else {
        return false;
    };
    settled.accepted as usize == held
        && settled.adopted == 0
        && settled.vector.counts()[0] as usize == held
}

/// The same of one at a node, for the desk there.
fn ran_at_node<L: Desks, R: Wait + Abort>(
    rt: &R,
    alloc: Global,
    blank: Blank,
    server: Box<Served>,
    sent: &[u8],
    moves: Moves,
) -> Ran
    requires blank { IsBlankOf blank L.name L.parts 1 }
    requires whose { begun_of server.value.core ≡ L.begun }
{
    let (node, mut desks) = opened::<_, L>(rt, alloc, blank, server, 1);
    let desk = desks.pop().expect(rt, "no desk");
    let mut streams = streams(alloc, sent, moves);
    let (told, desk) = serve(rt, alloc, &node, desk, &NoGate, &mut streams);
    let held = node.dump(rt, alloc).expect(rt, "no memory for Writes");
    let is_exact = is_settled(rt, alloc, node, desk, held.len());
    come_to(told, streams, held, is_exact)
}

/// The same of a new one.
fn ran_at_new_node<R: Wait + Abort>(rt: &R, alloc: Global, sent: &[u8], moves: Moves) -> Ran {
    let server = begun(rt, alloc, (0, 2, 9));
    ran_at_node::<Brand, R>(rt, alloc, Blank::new(1), server, sent, moves)
}

/// What a new server comes to, at a node or lent, which is sent this.
fn ran_over<R: Wait + Abort>(
    rt: &R,
    alloc: Global,
    is_at_node: bool,
    sent: &[u8],
    moves: Moves,
) -> Ran {
    if is_at_node {
        ran_at_new_node(rt, alloc, sent, moves)
    } else {
        ran_lent(rt, alloc, sent, moves)
    }
}

/// Whether the run came to this and wrote that, and left what the other one left.
fn is_as(ran: &Ran, told: Result<u32, ChannelFault>, written: &[u8], other: &Ran) -> bool {
    ran.told == told
        && ran.written.as_slice() == written
        && are_same(&ran.held, &other.held)
        && ran.is_exact
}

/// Whether the run, whose reader fails at this call, is as the one to which no more was sent than what came before; but that the fault of
/// the reader is reported in place of the end of the input.
fn is_as_read(ran: &Ran, before: &Ran, fails_at: u32) -> bool {
    let is_over = before.told == Err(ChannelFault::BadFrame);
    let told = if is_over {
        Err(ChannelFault::BadFrame)
    } else {
        Err(ChannelFault::Read)
    };
    is_as(ran, told, &before.written, before) && (ran.reads == fails_at) != is_over
}

/// All requests, one after the other.
fn all_of(rt: &impl Abort, alloc: Global, requests: &[&str]) -> Vec<u8> {
    let mut sent = Vec::new(alloc);
    for request in requests {
        let one = bytes(rt, alloc, request);
        sent.extend_from_slice(&one).expect(rt, "no memory");
    }
    sent
}

/// Each read of requests fails so.
fn reads_fail<R: Wait + Abort>(rt: &R, alloc: Global, is_at_node: bool) {
    let sent = all_of(rt, alloc, &REQUESTS);
    for fails_at in 1..SENT + 2 {
        let end = (fails_at as usize).saturating_sub(1).min(sent.len());
        let before = ran_over(rt, alloc, is_at_node, &sent[..end], AMPLE);
        let now = ran_over(rt, alloc, is_at_node, &sent, reading_up_to(fails_at));
        must_go_so(
            rt,
            is_as_read(&now, &before, fails_at),
            (usize::from(is_at_node), end),
        );
    }
}

/// What a run over ample streams comes to that is sent a front of the requests, and of how many bytes.
#[derive(Drop)]
struct Front {
    sent: usize,
    ran: Ran,
}

/// That of each number of requests, in order.
fn fronts<R: Wait + Abort>(rt: &R, alloc: Global, is_at_node: bool) -> Vec<Front> {
    let mut fronts = Vec::new(alloc);
    for count in 1..REQUESTS.len() + 1 {
        let sent = all_of(rt, alloc, &REQUESTS[..count]);
        let ran = ran_over(rt, alloc, is_at_node, &sent, AMPLE);
        let front = Front {
            sent: sent.len(),
            ran,
        };
        fronts.push(front).ok().expect(rt, "no memory");
    }
    fronts
}

/// The least front whose replies have so many bytes.
fn replied(fronts: &[Front], count: usize) -> Option<&Front> {
    for front in fronts {
        if front.ran.written.len() >= count {
            return Some(front);
        }
    }
    None
}

/// Whether the run, whose writer fails at this call, is as the one to which no more was sent than the request whose reply it fell into: with
/// a front of its replies, and what stands after it neither read nor done.
fn is_as_written(ran: &Ran, front: &Front, fails_at: usize) -> bool {
    let end = fails_at.saturating_sub(1).min(front.ran.written.len());
    is_as(
        ran,
        Err(ChannelFault::Write),
        &front.ran.written[..end],
        &front.ran,
    ) && ran.reads as usize == front.sent
        && ran.writes as usize == fails_at
}

/// Whether the run is as the whole one, in as many calls as bytes.
fn is_whole(ran: &Ran, whole: &Front) -> bool {
    whole.sent == SENT as usize
        && whole.ran.written.len() == REPLIED as usize
        && is_as(ran, whole.ran.told, &whole.ran.written, &whole.ran)
        && ran.reads as usize == whole.sent
        && ran.writes as usize == whole.ran.written.len()
}

/// Whether the run whose writer fails at this call is as it must be: the whole one, where it doesn't come to that.
fn is_as_told(ran: &Ran, fronts: &[Front], fails_at: usize) -> bool {
    match (replied(fronts, fails_at), fronts.last()) {
        (Some(front), _) => is_as_written(ran, front, fails_at),
        (None, Some(whole)) => is_whole(ran, whole),
        (None, None) => false,
    }
}

/// Each write of replies fails so, from the first to one after the last.
fn writes_fail<R: Wait + Abort>(rt: &R, alloc: Global, is_at_node: bool) {
    let sent = all_of(rt, alloc, &REQUESTS);
    let fronts = fronts(rt, alloc, is_at_node);
    for fails_at in 1..REPLIED + 2 {
        let ran = ran_over(rt, alloc, is_at_node, &sent, writing_up_to(fails_at));
        let fails_at = fails_at as usize;
        must_go_so(
            rt,
            is_as_told(&ran, &fronts, fails_at),
            (usize::from(is_at_node), fails_at),
        );
    }
}

/// Under a server that is lent, and under one at a node.
#[test]
fn each_read_of_one_byte_of_requests_fails(rt: HostRuntime) {
    for is_at_node in [false, true] {
        reads_fail(&rt, rt.alloc(), is_at_node);
    }
}

#[test]
fn each_write_of_one_byte_of_replies_fails(rt: HostRuntime) {
    for is_at_node in [false, true] {
        writes_fail(&rt, rt.alloc(), is_at_node);
    }
}
