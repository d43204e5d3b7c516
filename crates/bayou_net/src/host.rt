//! What connections are served by.
ghost use Rattle.std.specs.Prelude.{◌≡◌, ◌≤◌, ◌⊎◌, ℕ, List, true};
ghost use Rattle.std.specs.Io.KnownBytes.{Consumes, IsAtEnd};

use crate::at_desk::serve;
use crate::gate::RequestGate;
use bayou_base::limits::READ_BYTES;
use bayou_device::Device;
use bayou_frames::read_piece;
use bayou_node::{Desk, Desks, Node};
use bayou_streams::CountedChannel;
use std::alloc::Global;
use std::io::Read;
use std::net::{Shutdown, TcpStream};
use std::sync::Wait;

/// What serves connections, for many threads at once. Whoever brings a desk has one connection served, and gets the desk back.
pub trait Host {
    type Desk: Drop + Send;

    /// Serves one connection to its end. Only who is at its other end learns how it ended.
    fn serve<T: Wait>(
        &self,
        rt: &T,
        alloc: Global,
        desk: Self::Desk,
        stream: TcpStream,
    ) -> Self::Desk;
}

/// A node that is lent to serve connections, behind a gate.
#[derive(Drop)]
pub(crate) struct GatedNode<'a, D, L: Desks, G> {
    pub(crate) node: &'a Node<D, L>,
    pub(crate) gate: &'a G,
}

impl<D: Device + Send + Sync, L: Desks + Send + Sync, G: RequestGate + Send + Sync> Host
    for GatedNode<'_, D, L, G> {
    type Desk = Desk<L>;

    fn serve<T: Wait>(&self, rt: &T, alloc: Global, desk: Desk<L>, stream: TcpStream) -> Desk<L> {
        serve_connection(rt, alloc, self.node, desk, self.gate, &stream)
    }
}

/// Drops what still comes, until the other end says nothing more, or the turns are spent.
pub fn drop_rest<R: Read, W>(channel: &mut CountedChannel<R, W>)
    ensures dropped { (read : List ℕ) × Consumes (R.remaining channel.old.reader) (R.remaining channel.new.reader) read }
    ensures ended { IsAtEnd (R.remaining channel.new.reader) ⊎ ((channel.new.read_failed ≡ true) ⊎ (channel.new.turns_left ≡ 0)) }
    ensures turns { channel.new.turns_left ≤ channel.old.turns_left }
    ensures other { (channel.new.writer ≡ channel.old.writer) × (channel.new.write_failed ≡ channel.old.write_failed) }
{
    let mut piece = [0; READ_BYTES];
    loop {
        match read_piece(channel, &mut piece) {
            Ok(0) | Err(_) => return,
            Ok(_) => {}
        }
    }
}

/// Serves one connection to its end, at a node. Only who is at its other end learns how it ended. Where it ended before what came
/// did, as at a bad frame, the other end learns that no more replies come, and the rest is dropped: a socket that is closed with bytes
/// unread would take back replies that are still on their way.
pub fn serve_connection<D: Device, L: Desks, G: RequestGate, T: Wait>(
    rt: &T,
    alloc: Global,
    node: &Node<D, L>,
    desk: Desk<L>,
    gate: &G,
    stream: &TcpStream,
) -> Desk<L> {
    // A socket that doesn't take this option sends small replies later.
    let _ = stream.set_nodelay(true);
    let mut channel = CountedChannel::new(stream, stream);
    let desk = serve(rt, alloc, node, desk, gate, &mut channel).1;
    let _ = stream.shutdown(Shutdown::Write);
    drop_rest(&mut channel);
    desk
}
