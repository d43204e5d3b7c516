//! A node that serves whoever has a desk there.
ghost use Rattle.std.specs.Prelude.{◌≡◌, ◌≤◌, ℕ, List, IfErr};
ghost use Rattle.std.specs.Io.KnownBytes.{Consumes, IsAtEnd};
ghost use Rattle.bayou_net.specs.Lent.{DeskWrites, desk_steps};
ghost use Rattle.bayou_net.specs.Serving.{ServeEnds};
ghost use Rattle.bayou_node.specs.Answers.{BySome, InSome};
ghost use Rattle.bayou_frames.specs.Stopping.{Stops};
ghost use Rattle.bayou_server.specs.Reads.{Reads};
ghost use Rattle.bayou_server.specs.Reopens.{ReopensSome};

use crate::at_node::AtNode;
use crate::gate::RequestGate;
use crate::served::Served;
use crate::serving::serve_on;
use bayou_base::{Key, Seen, Tag, Vector};
use bayou_device::Device;
use bayou_frames::ChannelFault;
use bayou_lang::{RestingProgram, RestingWrite};
use bayou_node::{Desk, Desks, Node};
use bayou_server::{Behind, ReopenFault, Reopened, WriteFault, Written};
use bayou_streams::CountedChannel;
use std::alloc::{AllocError, Global};
use std::io::{Read, Write};
use std::sync::Wait;

impl<D: Device, L: Desks, T: Wait> Served for AtNode<'_, D, L, Desk<L>, T> {
    ghost use Rattle.std.specs.Prelude.{IfOk, drop, length, take};

    ghost reads = { λ paid need key answer. InSome L.begun (λ core. Reads core need key answer) };

    ghost writes = { DeskWrites L.begun };

    ghost reopens = { λ paid answer then. BySome L.begun (λ old new. ReopensSome old answer new) × (then ≡ paid) };

    fn read(&mut self, need: &Vector, key: &Key) -> Result<Seen, Behind> {
        self.node.read(self.rt, need, key)
    }

    fn write(
        &mut self,
        alloc: Global,
        tag: Tag,
        need: &Vector,
        program: &RestingProgram,
    ) -> Result<Written, WriteFault> {
        self.node
            .write(self.rt, alloc, &mut self.desk, tag, need, program)
    }

    fn reopen(&mut self, alloc: Global) -> Result<Reopened, ReopenFault> {
        self.node.reopen(self.rt, alloc)
    }

    fn dump_part(
        &mut self,
        alloc: Global,
        place: usize,
        most: usize,
    ) -> Result<Vec<RestingWrite>, AllocError>
        ensures same { self.new ≡ self.old }
        ensures few { IfOk result (λ writes. length writes.items ≤ most) }
        ensures held { InSome L.begun (λ core. IfOk result (λ writes. writes.items ≡ take most (drop place core.held))) }
    {
        self.node.dump_part(self.rt, alloc, place, most)
    }
}

/// As [`serve_on`], at a node: the desk comes back, paid for each program of which a new Write was made.
pub fn serve<D: Device, L: Desks, G: RequestGate, R: Read, W: Write, T: Wait>(
    rt: &T,
    alloc: Global,
    node: &Node<D, L>,
    desk: Desk<L>,
    gate: &G,
    channel: &mut CountedChannel<R, W>,
) -> (Result<u32, ChannelFault>, Desk<L>)
    ensures serves { (read : List ℕ) × Consumes (R.remaining channel.old.reader) (R.remaining channel.new.reader) read
        × ServeEnds (desk_steps L.begun) desk result.1 read (W.contents channel.old.writer) (W.contents channel.new.writer) (IsAtEnd (R.remaining channel.new.reader)) result.0 }
    ensures stopped { IfErr result.0 (Stops channel.new.read_failed channel.new.write_failed channel.new.turns_left) }
    ensures turns { channel.new.turns_left ≤ channel.old.turns_left }
{
    let mut at_desk = AtNode { node, desk, rt };
    let answer = serve_on(alloc, &mut at_desk, gate, channel);
    (answer, at_desk.desk)
}
