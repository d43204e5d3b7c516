use crate::desk::{Desk, Desks};
use bayou_base::Vector;
use bayou_server::Server;

/// What a node comes to once all its desks are back.
#[derive(Clone, Copy, Debug, PartialEq, Eq)]
pub struct NodeSettled {
    /// How many programs were accepted, each as a new Write.
    pub accepted: u32,
    /// How many of the server's own Writes a reopening adopted.
    pub adopted: u32,
    /// What the server holds.
    pub vector: Vector,
}

/// Fewer desks were given back than were made: the node, which goes on, and those desks.
#[derive(Drop)]
pub struct DeskMissing<N: Drop, L: Desks> {
    pub node: N,
    pub desks: Vec<Desk<L>>,
}

/// There was no memory for the desks: the server, as it was.
#[derive(Drop)]
pub struct NotMade<D> {
    pub server: Server<D>,
}
