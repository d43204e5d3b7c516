//! A node, and its desks.
use bayou_device::{MemoryDevice, OpenGate};
use bayou_node::{Desk, Desks, Node, NodeSettled};
use bayou_server::{ReopenFault, Server};
use std::alloc::Global;
use std::sync::Wait;

pub type Memory = MemoryDevice<OpenGate>;

pub type Served = Server<Memory>;

/// A node, and its desks.
#[derive(Drop)]
pub struct Site<D, L: Desks> {
    pub node: Node<D, L>,
    pub desks: Vec<Desk<L>>,
}

/// What a node comes to, all of whose desks are back.
pub fn settled<L: Desks>(node: Node<Memory, L>, desks: Vec<Desk<L>>) -> Option<NodeSettled> {
    node.settle(desks).ok()
}

/// The seq of the Write that a reopening adopts, if any.
pub fn reopened<L: Desks, R: Wait>(
    rt: &R,
    alloc: Global,
    node: &Node<Memory, L>,
) -> Result<Option<u32>, ReopenFault> {
    match node.reopen(rt, alloc)?.adopted {
        Some(wid) => Ok(Some(wid.seq)),
        None => Ok(None),
    }
}

/// The server's device fails at this call from now, with so much of a piece added.
pub fn fuse(server: &mut Served, call: u32, kept: usize) {
    server.device().fuse(call.max(1), kept);
}
