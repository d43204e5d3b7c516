//! Engines of anti-entropy, lent a server and at a node, whose streams move one byte at a call and fail at each call in turn: each run is
//! compared whole with one over ample streams.
ghost use Rattle.std.specs.Prelude.{◌≡◌};
ghost use Rattle.bayou_node.specs.Books.{IsBlankOf, begun_of};

use crate::fakes::{AMPLE, Moves, SMALL, Streams, reading_up_to, streams, writing_up_to};
use crate::fixtures::{bytes, dumped, full, must_go_so, new_site};
use bayou_base::Vector;
use bayou_fakes::sites::{Memory, Served, Site, settled};
use bayou_fakes::values::are_same;
use bayou_frames::ChannelFault;
use bayou_lang::RestingWrite;
use bayou_net::{answer_offer, pull, pull_from, serve_offer};
use bayou_node::{Desks, Node, NodeSettled};
use bayou_peer::{
    PullFault, PullStopped, Pulled, answer_offer_on, pull_from_on, pull_on, serve_offer_on,
};
use std::alloc::Global;
use std::marker::Brand;
use std::process::Abort;
use std::sync::Wait;
use std::sync::ledger::Blank;

/// What is done.
#[derive(Clone, Copy, PartialEq, Eq)]
enum Engine {
    /// An Offer of nothing is answered.
    Answer,
    /// An Offer is read, and answered.
    Serve,
    /// What is held is offered, and what comes is taken.
    Pull,
    /// Nothing is offered, and what comes is taken.
    PullFromZero,
}

/// What is done, at a server that has so many of the first server's Writes, and what is sent to it.
struct Row {
    engine: Engine,
    held: u8,
    sent: &'static str,
}

static ROWS: [Row; 8] = [
    Row {
        engine: Engine::Answer,
        held: 3,
        sent: "",
    },
    Row {
        engine: Engine::Serve,
        held: 3,
        sent: "0041 05 00000001 <zeros> <item-1>",
    },
    Row {
        engine: Engine::Serve,
        held: 1,
        sent: "0005 16 00000000",
    },
    Row {
        engine: Engine::Pull,
        held: 1,
        sent: "<item-2> <item-3> 0005 16 00000002",
    },
    Row {
        engine: Engine::PullFromZero,
        held: 1,
        sent: "<item-1> <item-2> <item-3> 0005 16 00000003",
    },
    Row {
        engine: Engine::Pull,
        held: 0,
        sent: "<item-1> <item-3> 0005 16 00000002",
    },
    Row {
        engine: Engine::Pull,
        held: 0,
        sent: "<item-1> 0005 16 00000002",
    },
    Row {
        engine: Engine::PullFromZero,
        held: 0,
        sent: "<item-1> <item-2>",
    },
];

/// How many bytes an Offer has.
const OFFER_BYTES: u32 = 67;

/// How an engine ends. One that answers an Offer tells how many Items it sent: they stand here as taken.
type Told = Result<Pulled, PullFault>;

fn sending(told: Result<u32, ChannelFault>) -> Told {
    Ok(Pulled {
        taken: told?,
        had: 0,
    })
}

// The same of a pull: what came before it ended early isn't looked at.
fn pulling(told: Result<Pulled, PullStopped>) -> Told {
    match told {
        Ok(pulled) => Ok(pulled),
        Err(stopped) => Err(stopped.fault),
    }
}

/// What a run comes to.
#[derive(Drop)]
struct Ran {
    told: Told,
    written: Vec<u8>,
    reads: u32,
    writes: u32,
    /// What is held then, in order of receipt.
    held: Vec<RestingWrite>,
    /// Whether the books of a node say so too, and no program was accepted there.
    is_exact: bool,
}

fn lent(alloc: Global, server: &mut Served, engine: Engine, streams: &mut Streams<'_>) -> Told {
    match engine {
        Engine::Answer => sending(answer_offer_on(alloc, server, &Vector::zero(), streams)),
        Engine::Serve => sending(serve_offer_on(alloc, server, streams)),
        Engine::Pull => pulling(pull_on(alloc, server, streams)),
        Engine::PullFromZero => { pulling(pull_from_on(alloc, server, &Vector::zero(), streams)) }
    }
}

fn at_node<L: Desks, R: Wait>(
    rt: &R,
    alloc: Global,
    node: &Node<Memory, L>,
    engine: Engine,
    streams: &mut Streams<'_>,
) -> Told {
    match engine {
        Engine::Answer => sending(answer_offer(rt, alloc, node, &Vector::zero(), streams)),
        Engine::Serve => sending(serve_offer(rt, alloc, node, streams)),
        Engine::Pull => pulling(pull(rt, alloc, node, streams)),
        Engine::PullFromZero => { pulling(pull_from(rt, alloc, node, &Vector::zero(), streams)) }
    }
}

/// What the run comes to that is reported so, with these Writes after it.
fn come_to(told: Told, streams: Streams<'_>, held: Vec<RestingWrite>, is_exact: bool) -> Ran {
    let (reader, writer) = streams.into_parts();
    let reads = reader.calls;
    let writes = writer.calls;
    Ran {
        told,
        written: writer.bytes,
        reads,
        writes,
        held,
        is_exact,
    }
}

/// What the row comes to at a lent server, to which this is sent.
fn ran_lent(rt: &impl Abort, alloc: Global, row: &Row, sent: &[u8], moves: Moves) -> Ran {
    let mut server = full(rt, alloc, 3, row.held);
    let mut streams = streams(alloc, sent, moves);
    let told = lent(alloc, server.as_mut(), row.engine, &mut streams);
    let held = server.dump(alloc).expect(rt, "no memory for Writes");
    come_to(told, streams, held, true)
}

/// Whether the node comes to that: no program was accepted or adopted there, and so many Writes are held.
fn is_settled<L: Desks>(site: Box<Site<Memory, L>>, vector: Vector) -> bool {
    let Site { node, desks } = Box::into_inner(site);
    settled(node, desks)
        == Some(NodeSettled {
            accepted: 0,
            adopted: 0,
            vector,
        })
}

/// What the row comes to at a node over the server.
fn ran_at_node<L: Desks, R: Wait + Abort>(
    rt: &R,
    alloc: Global,
    blank: Blank,
    server: Box<Served>,
    engine: Engine,
    sent: &[u8],
    moves: Moves,
) -> Ran
    requires blank { IsBlankOf blank L.name L.parts 1 }
    requires whose { begun_of server.value.core ≡ L.begun }
{
    let site = new_site::<_, L>(rt, alloc, blank, server, 1);
    let node = &site.as_ref().node;
    let mut streams = streams(alloc, sent, moves);
    let told = at_node(rt, alloc, node, engine, &mut streams);
    let held = dumped(rt, alloc, node);
    let vector = node.offer(rt);
    come_to(told, streams, held, is_settled(site, vector))
}

/// What the row comes to at a new node.
fn ran_at_new_node<R: Wait + Abort>(
    rt: &R,
    alloc: Global,
    row: &Row,
    sent: &[u8],
    moves: Moves,
) -> Ran {
    let server = full(rt, alloc, 3, row.held);
    ran_at_node::<Brand, R>(rt, alloc, Blank::new(1), server, row.engine, sent, moves)
}

/// What the row comes to, at a node or at a lent server, to which this is sent.
fn ran_row<R: Wait + Abort>(
    rt: &R,
    alloc: Global,
    row: &Row,
    is_at_node: bool,
    sent: &[u8],
    moves: Moves,
) -> Ran {
    if is_at_node {
        ran_at_new_node(rt, alloc, row, sent, moves)
    } else {
        ran_lent(rt, alloc, row, sent, moves)
    }
}

/// Whether the run came to this, and left what the other one left.
fn is_as(ran: &Ran, told: Told, written: &[u8], held: &[RestingWrite]) -> bool {
    ran.told == told
        && ran.written.as_slice() == written
        && are_same(&ran.held, held)
        && ran.is_exact
}

/// Whether the run, whose reader fails at this call, is as the one to which no more was sent than what came before; but that the fault of
/// the reader is reported in place of the end of the input, and that no call comes after it.
fn is_as_read(ran: &Ran, before: &Ran, fails_at: u32) -> bool {
    let is_cut = before.told == Err(PullFault::Stream(ChannelFault::Cut));
    let told = if is_cut {
        Err(PullFault::Stream(ChannelFault::Read))
    } else {
        before.told
    };
    is_as(ran, told, &before.written, &before.held)
        && (ran.reads == fails_at) == is_cut
        && ran.reads <= fails_at
}

/// One more than as many calls as there are bytes, and the one after them.
fn calls_for(rt: &impl Abort, bytes: &[u8]) -> u32 {
    let count = u32::try_from(bytes.len()).ok().expect(rt, "too many bytes");
    count.saturating_add(2)
}

/// Each read of the row fails so.
fn reads_fail<R: Wait + Abort>(rt: &R, alloc: Global, row: &Row, is_at_node: bool, at: usize) {
    let sent = bytes(rt, alloc, row.sent);
    for fails_at in 1..calls_for(rt, &sent) {
        let end = (fails_at as usize).saturating_sub(1).min(sent.len());
        let before = ran_row(rt, alloc, row, is_at_node, &sent[..end], AMPLE);
        let ran = ran_row(rt, alloc, row, is_at_node, &sent, reading_up_to(fails_at));
        must_go_so(rt, is_as_read(&ran, &before, fails_at), (at, end));
    }
}

/// Whether the run, whose writer fails at this call, is as the whole one up to there, with nothing read after that and nothing taken; or as
/// the whole one where it doesn't come to that call.
fn is_as_written(ran: &Ran, whole: &Ran, row: &Row, fails_at: usize) -> bool {
    let count = whole.written.len();
    if fails_at > count {
        return is_as(ran, whole.told, &whole.written, &whole.held)
            && ran.reads == whole.reads
            && ran.writes as usize == count;
    }
    let held = usize::from(row.held).min(whole.held.len());
    let written = &whole.written[..fails_at.saturating_sub(1)];
    let told = Err(PullFault::Stream(ChannelFault::Write));
    let reads = match row.engine {
        Engine::Serve => OFFER_BYTES,
        Engine::Answer | Engine::Pull | Engine::PullFromZero => 0,
    };
    is_as(ran, told, written, &whole.held[..held])
        && ran.reads == reads
        && ran.writes as usize == fails_at
}

/// Whether the row goes in small pieces as over ample streams, and each of its writes fails so.
fn writes_fail<R: Wait + Abort>(rt: &R, alloc: Global, row: &Row, is_at_node: bool, at: usize) {
    let sent = bytes(rt, alloc, row.sent);
    let ample = ran_row(rt, alloc, row, is_at_node, &sent, AMPLE);
    let whole = ran_row(rt, alloc, row, is_at_node, &sent, SMALL);
    let is_so = is_as(&whole, ample.told, &ample.written, &ample.held);
    must_go_so(rt, is_so, (at, 0));
    for fails_at in 1..calls_for(rt, &whole.written) {
        let moves = writing_up_to(fails_at);
        let ran = ran_row(rt, alloc, row, is_at_node, &sent, moves);
        let fails_at = fails_at as usize;
        must_go_so(
            rt,
            is_as_written(&ran, &whole, row, fails_at),
            (at, fails_at),
        );
    }
}

/// Under a server that is lent, and under one at a node.
#[test]
fn each_read_of_one_byte_of_an_engine_fails(rt: HostRuntime) {
    for (at, row) in ROWS.iter().enumerate() {
        reads_fail(&rt, rt.alloc(), row, false, at);
        reads_fail(&rt, rt.alloc(), row, true, at);
    }
}

#[test]
fn each_write_of_one_byte_of_an_engine_fails(rt: HostRuntime) {
    for (at, row) in ROWS.iter().enumerate() {
        writes_fail(&rt, rt.alloc(), row, false, at);
        writes_fail(&rt, rt.alloc(), row, true, at);
    }
}
