//! Nodes that send and take: the bytes of both sides, and that a node's lock is free between two batches and between two Items.
ghost use Rattle.std.specs.Prelude.{◌≡◌};
ghost use Rattle.bayou_node.specs.Books.{IsBlankOf, begun_of};

use crate::fixtures::{bytes, full, must_be_so, new_site, vector};
use bayou_base::Vector;
use bayou_fakes::items::item;
use bayou_fakes::sites::{Memory, Served};
use bayou_fakes::words::is_said;
use bayou_frames::ChannelFault;
use bayou_net::{answer_offer, pull, pull_from, serve_offer};
use bayou_node::{Desks, Node};
use bayou_peer::{PullFault, PullStopped, Pulled};
use bayou_streams::CountedChannel;
use std::alloc::Global;
use std::cell::Cell;
use std::io;
use std::io::{Read, Write};
use std::marker::Brand;
use std::process::Abort;
use std::sync::Wait;
use std::sync::ledger::Blank;

type Kept<L> = Node<Memory, L>;

/// What is done at a node.
#[derive(Clone, Copy, PartialEq, Eq)]
enum Call {
    /// An Offer of zero is read and answered.
    Serve,
    /// An Offer of the first server's first Write is answered.
    Answer,
    /// What the other side of the first answer sends is taken again.
    PullFromZero,
    /// An Offer of what is held is written, and nothing comes.
    Pull,
}

static CALLS: [Call; 4] = [Call::Serve, Call::Answer, Call::PullFromZero, Call::Pull];

/// Whether that is answered and written.
fn ends(alloc: Global, written: &[u8], text: &str, is_answered: bool) -> bool {
    is_answered && is_said(alloc, text, written)
}

/// What comes from a stream, which takes what is written.
fn between<'a>(alloc: Global, sent: &'a [u8]) -> CountedChannel<&'a [u8], Vec<u8>> {
    CountedChannel::new(sent, Vec::new(alloc))
}

fn serves<L: Desks, R: Wait + Abort>(rt: &R, alloc: Global, node: &Kept<L>) -> bool {
    let offer = bytes(rt, alloc, "0041 05 <none>");
    let mut channel = between(alloc, &offer);
    let is_one = serve_offer(rt, alloc, node, &mut channel) == Ok(1);
    ends(
        alloc,
        &channel.into_parts().1,
        "<item-1> 0005 16 00000001",
        is_one,
    )
}

fn answers<L: Desks, R: Wait + Abort>(rt: &R, alloc: Global, node: &Kept<L>) -> bool {
    let mut channel = between(alloc, &[]);
    let is_none = answer_offer(rt, alloc, node, &vector(rt, 1, 0), &mut channel) == Ok(0);
    ends(alloc, &channel.into_parts().1, "0005 16 00000000", is_none)
}

fn takes_again<L: Desks, R: Wait + Abort>(rt: &R, alloc: Global, node: &Kept<L>) -> bool {
    let answer = bytes(rt, alloc, "<item-1> 0005 16 00000001");
    let mut channel = between(alloc, &answer);
    let had = pull_from(rt, alloc, node, &Vector::zero(), &mut channel);
    let is_had = had == Ok(Pulled { taken: 0, had: 1 });
    ends(alloc, &channel.into_parts().1, "0041 05 <none>", is_had)
}

fn pulls<L: Desks, R: Wait + Abort>(rt: &R, alloc: Global, node: &Kept<L>) -> bool {
    let mut channel = between(alloc, &[]);
    let answer = pull(rt, alloc, node, &mut channel);
    let is_cut = answer == Err(PullStopped::at_once(ChannelFault::Cut));
    ends(
        alloc,
        &channel.into_parts().1,
        "0041 05 00000001 <zeros>",
        is_cut,
    )
}

/// Whether a node whose server holds the first server's first Write goes so.
fn goes<L: Desks, R: Wait + Abort>(
    rt: &R,
    alloc: Global,
    blank: Blank,
    server: Box<Served>,
    call: Call,
) -> bool
    requires blank { IsBlankOf blank L.name L.parts 1 }
    requires whose { begun_of server.value.core ≡ L.begun }
{
    let site = new_site::<_, L>(rt, alloc, blank, server, 1);
    let node = &site.as_ref().node;
    match call {
        Call::Serve => serves(rt, alloc, node),
        Call::Answer => answers(rt, alloc, node),
        Call::PullFromZero => takes_again(rt, alloc, node),
        Call::Pull => pulls(rt, alloc, node),
    }
}

#[test]
fn a_node_sends_and_takes(rt: HostRuntime) {
    let alloc = rt.alloc();
    for (at, call) in CALLS.iter().enumerate() {
        let server = full(&rt, alloc, 2, 1);
        let is_so = goes::<Brand, HostRuntime>(&rt, alloc, Blank::new(1), server, *call);
        must_be_so(&rt, is_so, at);
    }
}

/// Gives Items, one at each read, and reads meanwhile, at the node that takes them, how many are held.
#[derive(Drop)]
struct Looking<'a, L: Desks, R> {
    rt: &'a R,
    node: &'a Kept<L>,
    given: u8,
    is_so: bool,
}

impl<L: Desks, R: Wait + Abort> Read for Looking<'_, L, R> {
    fn read(&mut self, buf: &mut [u8]) -> io::Result<usize> {
        let held = self.node.offer(self.rt);
        self.is_so &= held == vector(self.rt, u32::from(self.given), 0);
        if self.given == 3 {
            return Ok(0);
        }
        self.given = self.given.saturating_add(1);
        let seq = self.given;
        let held = seq.saturating_sub(1);
        let item = item((0, seq, seq, [held, 0], seq));
        let count = item.len().min(buf.len());
        let (front, _) = item.split_at(count);
        buf[..count].copy_from_slice(front);
        Ok(count)
    }
}

/// Whether the node is free whenever an Item is read.
fn is_free_between_items<L: Desks, R: Wait + Abort>(
    rt: &R,
    alloc: Global,
    blank: Blank,
    server: Box<Served>,
) -> bool
    requires blank { IsBlankOf blank L.name L.parts 1 }
    requires whose { begun_of server.value.core ≡ L.begun }
{
    let site = new_site::<_, L>(rt, alloc, blank, server, 1);
    let node = &site.as_ref().node;
    let reader = Looking {
        rt,
        node,
        given: 0,
        is_so: true,
    };
    let mut channel = CountedChannel::new(reader, io::sink());
    let answer = pull(rt, alloc, node, &mut channel);
    let (reader, _) = channel.into_parts();
    let is_cut = answer.is_err_and(|stopped| stopped.fault == PullFault::Stream(ChannelFault::Cut));
    is_cut && reader.is_so && reader.given == 3
}

#[test]
fn a_node_is_free_between_two_items_that_come(rt: HostRuntime) {
    let alloc = rt.alloc();
    let server = full(&rt, alloc, 2, 0);
    assert!(rt; is_free_between_items::<Brand, HostRuntime>(&rt, alloc, Blank::new(1), server));
}

/// Takes what is written, and reads at each call, at the node that writes, how many Writes are held.
#[derive(Drop)]
struct Overhearing<'a, L: Desks, R> {
    rt: &'a R,
    node: &'a Kept<L>,
    held: u32,
    calls: &'a Cell<u32>,
}

impl<L: Desks, R: Wait + Abort> Write for Overhearing<'_, L, R> {
    fn write(&mut self, buf: &[u8]) -> io::Result<usize> {
        if self.node.offer(self.rt) == vector(self.rt, self.held, 0) {
            self.calls.set(self.calls.get().saturating_add(1));
        }
        Ok(buf.len())
    }

    fn flush(&mut self) -> io::Result<()> {
        Ok(())
    }
}

/// In how many writes the node answers an Offer of zero: at each of them it is free.
fn batches<L: Desks, R: Wait + Abort>(
    rt: &R,
    alloc: Global,
    blank: Blank,
    server: Box<Served>,
) -> u32
    requires blank { IsBlankOf blank L.name L.parts 1 }
    requires whose { begun_of server.value.core ≡ L.begun }
{
    let site = new_site::<_, L>(rt, alloc, blank, server, 1);
    let node = &site.as_ref().node;
    let calls = Cell::new(0);
    let writer = Overhearing {
        rt,
        node,
        held: 40,
        calls: &calls,
    };
    let mut channel = CountedChannel::new((), writer);
    let answer = answer_offer(rt, alloc, node, &Vector::zero(), &mut channel);
    if answer != Ok(40) {
        return 0;
    }
    calls.get()
}

/// Forty Items are sent sixteen at a time, and an End after them.
#[test]
fn a_node_is_free_between_two_batches(rt: HostRuntime) {
    let alloc = rt.alloc();
    let server = full(&rt, alloc, 2, 40);
    let number = batches::<Brand, HostRuntime>(&rt, alloc, Blank::new(1), server);
    assert!(rt; number == 4, "{number}");
}
