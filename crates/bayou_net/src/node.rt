//! Anti-entropy at a server that others may call meanwhile: its lock is free between two batches of Items that it sends, and
//! between a few Writes that it takes together.
ghost use Rattle.std.specs.Prelude.{◌≡◌, ◌+◌, ◌<◌, ◌≤◌, ◌^◌, ℕ, List, None, IfErr, IfOk, OnOk};
ghost use Rattle.std.specs.Io.KnownBytes.{Appends, Consumes, IsAtEnd};
ghost use Rattle.bayou_lang.specs.Writes.{count_of};
ghost use Rattle.bayou_node.specs.Answers.{InSome};
ghost use Rattle.bayou_net.specs.Lent.{node_ways};
ghost use Rattle.bayou_frames.specs.First.{StopsInTime};
ghost use Rattle.bayou_peer.specs.Offers.{Answers, OfferServed};
ghost use Rattle.bayou_peer.specs.Pulls.{PullEnds};
ghost use Rattle.bayou_frames.specs.Stopping.{IsSendFault, Stops};
ghost use Rattle.bayou_peer.specs.Stopping.{StopsPull};
ghost use Rattle.bayou_streams.specs.Written.{AppendsFront};
ghost use Rattle.bayou_wire.specs.declared.frame.Frame.TheVariants.{Offer};
ghost use Rattle.bayou_wire.specs.Stream.{spelling};

use crate::at_node::AtNode;
use bayou_base::Vector;
use bayou_device::Device;
use bayou_frames::ChannelFault;
use bayou_node::{Desks, Node};
use bayou_peer::{PullStopped, Pulled, answer_offer_on, pull_from_on, serve_offer_on};
use bayou_streams::CountedChannel;
use std::alloc::Global;
use std::io::{Read, Write};
use std::sync::Wait;

/// As [`answer_offer_on`], at a node.
pub fn answer_offer<D: Device, L: Desks, R, W: Write, T: Wait>(
    rt: &T,
    alloc: Global,
    node: &Node<D, L>,
    counts: &Vector,
    channel: &mut CountedChannel<R, W>,
) -> Result<u32, ChannelFault>
    ensures answers { Answers None counts.now (W.contents channel.old.writer) (W.contents channel.new.writer) result }
    ensures fault { IfErr result IsSendFault }
    ensures stopped { IfErr result (Stops channel.new.read_failed channel.new.write_failed channel.new.turns_left) }
    ensures turns { channel.new.turns_left ≤ channel.old.turns_left }
    ensures reader { (channel.new.reader ≡ channel.old.reader) × (channel.new.read_failed ≡ channel.old.read_failed) }
{
    answer_offer_on(alloc, &mut AtNode { node, desk: (), rt }, counts, channel)
}

/// As [`serve_offer_on`], at a node.
pub fn serve_offer<D: Device, L: Desks, R: Read, W: Write, T: Wait>(
    rt: &T,
    alloc: Global,
    node: &Node<D, L>,
    channel: &mut CountedChannel<R, W>,
) -> Result<u32, ChannelFault>
    ensures serves { (read : List ℕ) × Consumes (R.remaining channel.old.reader) (R.remaining channel.new.reader) read × StopsInTime read
        × OfferServed None read (W.contents channel.old.writer) (W.contents channel.new.writer) (IsAtEnd (R.remaining channel.new.reader)) result }
    ensures stopped { IfErr result (Stops channel.new.read_failed channel.new.write_failed channel.new.turns_left) }
    ensures turns { channel.new.turns_left ≤ channel.old.turns_left }
{
    serve_offer_on(alloc, &mut AtNode { node, desk: (), rt }, channel)
}

/// As [`pull_from_on`], at a node.
pub fn pull_from<D: Device, L: Desks, R: Read, W: Write, T: Wait>(
    rt: &T,
    alloc: Global,
    node: &Node<D, L>,
    counts: &Vector,
    channel: &mut CountedChannel<R, W>,
) -> Result<Pulled, PullStopped>
    ensures offered { OnOk result (Appends (W.contents channel.old.writer) (W.contents channel.new.writer) (spelling (Offer counts.now))) }
    ensures part { AppendsFront (W.contents channel.old.writer) (W.contents channel.new.writer) (spelling (Offer counts.now)) }
    ensures ends { (read : List ℕ) × Consumes (R.remaining channel.old.reader) (R.remaining channel.new.reader) read
        × PullEnds (node_ways L.begun) tt tt read (IsAtEnd (R.remaining channel.new.reader)) result }
    ensures stopped { IfErr result (λ stopped. StopsPull channel.new.read_failed channel.new.write_failed channel.new.turns_left stopped.fault) }
    ensures few { IfOk result (λ pulled. pulled.taken + pulled.had < 2 ^ 32) }
    ensures turns { channel.new.turns_left ≤ channel.old.turns_left }
{
    pull_from_on(alloc, &mut AtNode { node, desk: (), rt }, counts, channel)
}

/// Sends what the node holds as an Offer, and takes what comes, as [`pull_from`] does.
pub fn pull<D: Device, L: Desks, R: Read, W: Write, T: Wait>(
    rt: &T,
    alloc: Global,
    node: &Node<D, L>,
    channel: &mut CountedChannel<R, W>,
) -> Result<Pulled, PullStopped>
    ensures offered { (counts : List ℕ) × InSome L.begun (λ core. counts ≡ count_of core.held)
        × AppendsFront (W.contents channel.old.writer) (W.contents channel.new.writer) (spelling (Offer counts))
        × OnOk result (Appends (W.contents channel.old.writer) (W.contents channel.new.writer) (spelling (Offer counts))) }
    ensures ends { (read : List ℕ) × Consumes (R.remaining channel.old.reader) (R.remaining channel.new.reader) read
        × PullEnds (node_ways L.begun) tt tt read (IsAtEnd (R.remaining channel.new.reader)) result }
    ensures stopped { IfErr result (λ stopped. StopsPull channel.new.read_failed channel.new.write_failed channel.new.turns_left stopped.fault) }
    ensures few { IfOk result (λ pulled. pulled.taken + pulled.had < 2 ^ 32) }
    ensures turns { channel.new.turns_left ≤ channel.old.turns_left }
{
    let counts = node.offer(rt);
    pull_from(rt, alloc, node, &counts, channel)
}
