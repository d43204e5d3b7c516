//! A node that serves whoever has a desk there, and takes Writes as long as there is leave: it serves reads all the time.
ghost use Rattle.std.specs.Prelude.{◌≡◌, ◌≤◌, ℕ, List, IfErr};
ghost use Rattle.std.specs.Io.KnownBytes.{Consumes, IsAtEnd};
ghost use Rattle.bayou_net.specs.Halting.{halting};
ghost use Rattle.bayou_net.specs.Lent.{desk_steps};
ghost use Rattle.bayou_net.specs.Serving.{ServeEnds};
ghost use Rattle.bayou_frames.specs.Stopping.{Stops};

use crate::at_node::AtNode;
use crate::gate::RequestGate;
use crate::served::Served;
use crate::serving::serve_on;
use bayou_base::{Key, Seen, Tag, Vector};
use bayou_device::Device;
use bayou_frames::ChannelFault;
use bayou_lang::{RestingProgram, RestingWrite};
use bayou_node::{Desk, Desks, Node};
use bayou_peer::Replica;
use bayou_server::{Behind, ReopenFault, Reopened, TookAll, WriteFault, Written};
use bayou_streams::CountedChannel;
use std::alloc::{AllocError, Global};
use std::io::{Read, Write};
use std::marker::Model;
use std::sync::{OnceLock, Wait};

/// Who says what is done now at a server beside reads. What it says no clause can tell.
pub trait Leave {
    /// Whether Writes are made.
    fn is_open(&self) -> bool;

    /// Whether its journal may be opened again.
    fn may_reopen(&self) -> bool;
}

/// There is leave until it is set.
impl Leave for OnceLock<()> {
    fn is_open(&self) -> bool {
        self.get().is_none()
    }

    fn may_reopen(&self) -> bool {
        self.get().is_none()
    }
}

/// Something that serves, and who gives it leave.
#[derive(Drop)]
struct Halting<'a, S, H> {
    served: S,
    leave: &'a H,
}

impl<'a, S, H> Model for Halting<'a, S, H> {
    ghost Value = { S };

    ghost view = { λ a. a.served };
}

impl<S, H> Halting<'_, S, H> {
    // What serves, given back.
    fn into_served(self) -> S
        ensures { result ≡ self.entry }
    {
        self.served
    }
}

impl<S: Replica, H> Replica for Halting<'_, S, H> {
    ghost list = { S.list };

    ghost takes = { S.takes };

    fn offer(&mut self) -> Vector {
        self.served.offer()
    }

    fn lacking(
        &mut self,
        alloc: Global,
        counts: &Vector,
        most: usize,
    ) -> Result<Vec<RestingWrite>, AllocError> {
        self.served.lacking(alloc, counts, most)
    }

    fn take_all(&mut self, alloc: Global, writes: Vec<RestingWrite>) -> TookAll {
        self.served.take_all(alloc, writes)
    }
}

impl<S: Served, H: Leave> Served for Halting<'_, S, H> {
    ghost use Rattle.bayou_net.specs.Halting.{ReopensOrNot, WritesOrNot};

    ghost reads = { S.reads };

    ghost writes = { WritesOrNot S.writes };

    ghost reopens = { ReopensOrNot S.reopens };

    fn read(&mut self, need: &Vector, key: &Key) -> Result<Seen, Behind> {
        self.served.read(need, key)
    }

    fn write(
        &mut self,
        alloc: Global,
        tag: Tag,
        need: &Vector,
        program: &RestingProgram,
    ) -> Result<Written, WriteFault> {
        if !self.leave.is_open() {
            return Err(WriteFault::Down);
        }
        self.served.write(alloc, tag, need, program)
    }

    fn reopen(&mut self, alloc: Global) -> Result<Reopened, ReopenFault> {
        if !self.leave.may_reopen() {
            return Err(ReopenFault::Lost);
        }
        self.served.reopen(alloc)
    }

    fn dump_part(
        &mut self,
        alloc: Global,
        place: usize,
        most: usize,
    ) -> Result<Vec<RestingWrite>, AllocError> {
        self.served.dump_part(alloc, place, most)
    }
}

/// As [`serve`](crate::serve), as long as there is leave: each Write that comes where there is none is refused as at a server that is down, and each
/// reopening as one whose journal lost a Write. Neither reaches the node. When there is leave no clause can tell.
pub fn serve_with_leave<D, L, G, H, R, W, T>(
    rt: &T,
    alloc: Global,
    node: &Node<D, L>,
    desk: Desk<L>,
    gate: &G,
    leave: &H,
    channel: &mut CountedChannel<R, W>,
) -> (Result<u32, ChannelFault>, Desk<L>)
where
    D: Device,
    L: Desks,
    G: RequestGate,
    H: Leave,
    R: Read,
    W: Write,
    T: Wait,
    ensures serves { (read : List ℕ) × Consumes (R.remaining channel.old.reader) (R.remaining channel.new.reader) read
        × ServeEnds (halting (desk_steps L.begun)) desk result.1 read (W.contents channel.old.writer) (W.contents channel.new.writer) (IsAtEnd (R.remaining channel.new.reader)) result.0 }
    ensures stopped { IfErr result.0 (Stops channel.new.read_failed channel.new.write_failed channel.new.turns_left) }
    ensures turns { channel.new.turns_left ≤ channel.old.turns_left }
{
    let served = AtNode { node, desk, rt };
    let mut halting = Halting { served, leave };
    let answer = serve_on(alloc, &mut halting, gate, channel);
    let at_desk = halting.into_served();
    (answer, at_desk.desk)
}
