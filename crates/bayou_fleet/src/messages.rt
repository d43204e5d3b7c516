//! What the thread that keeps a server tells of it.
ghost use Rattle.std.specs.Prelude.{◌≡◌, IfOk};
ghost use Rattle.bayou_fleet.specs.Servers.{IsDump, IsServerSettled};
ghost use Rattle.bayou_lang.specs.Writes.{count_of};
ghost use Rattle.bayou_log.specs.Listing.{listing_of};
ghost use Rattle.bayou_node.specs.Answers.{InSome};

use crate::begun::Begun;
use crate::fault::FleetFault;
use bayou_base::Vector;
use bayou_device::Device;
use bayou_lang::RestingWrite;
use bayou_log::Listed;
use bayou_node::{Desk, Desks, Node, NodeSettled};
use std::alloc::{AllocError, Global};
use std::marker::Model;
use std::sync::Wait;

/// A server's log. It is seen as the server that told it.
#[derive(Drop)]
pub(crate) struct ToldLog {
    begun: Begun,
    listing: Vec<Listed>,
    vector: Vector,
}

impl Model for ToldLog {
    ghost use Rattle.std.specs.Prelude.{◌≡◌};
    ghost use Rattle.bayou_lang.specs.Writes.{count_of};
    ghost use Rattle.bayou_log.specs.Listing.{listing_of};
    ghost use Rattle.bayou_node.specs.Answers.{InSome};
    ghost use Rattle.bayou_node.specs.Books.{Begun as Made};

    ghost Value = { Made };

    ghost view = { λ l. l.begun };

    ghost invariant = { λ l. InSome l.begun (λ core. l.listing.items ≡ listing_of core.held) × InSome l.begun (λ core. l.vector ≡ count_of core.held) };
}

impl ToldLog {
    /// What the node holds.
    pub(crate) fn of<D: Device, L: Desks, T: Wait>(
        rt: &T,
        alloc: Global,
        node: &Node<D, L>,
        begun: Begun,
    ) -> Result<Self, AllocError>
        requires { begun ≡ L.begun }
        ensures { IfOk result (λ told. told ≡ begun) }
    {
        let listing = node.listing(rt, alloc)?;
        let vector = node.offer(rt);
        Ok(ToldLog {
            begun,
            listing,
            vector,
        })
    }

    /// The Writes in stamp order, each with its outcome, and the vector, if this server told them.
    pub(crate) fn at(self, begun: Begun) -> Result<(Vec<Listed>, Vector), FleetFault>
        ensures lists { IfOk result (λ log. InSome begun (λ core. log.0.items ≡ listing_of core.held)) }
        ensures counts { IfOk result (λ log. InSome begun (λ core. log.1 ≡ count_of core.held)) }
    {
        let ToldLog {
            begun: logged_by,
            listing,
            vector,
        } = self;
        if logged_by != begun {
            return Err(FleetFault::Network);
        }
        Ok((listing, vector))
    }
}

/// What a server holds. It is seen as the server that told it.
#[derive(Drop)]
pub(crate) struct ToldDump {
    begun: Begun,
    writes: Vec<RestingWrite>,
}

impl Model for ToldDump {
    ghost use Rattle.bayou_fleet.specs.Servers.{IsDump};
    ghost use Rattle.bayou_node.specs.Books.{Begun as Made};

    ghost Value = { Made };

    ghost view = { λ d. d.begun };

    ghost invariant = { λ d. IsDump d.begun d.writes.items };
}

impl ToldDump {
    /// What the node holds.
    pub(crate) fn of<D: Device, L: Desks, T: Wait>(
        rt: &T,
        alloc: Global,
        node: &Node<D, L>,
        begun: Begun,
    ) -> Result<Self, AllocError>
        requires { begun ≡ L.begun }
        ensures { IfOk result (λ told. told ≡ begun) }
    {
        let writes = node.dump(rt, alloc)?;
        Ok(ToldDump { begun, writes })
    }

    /// The Writes in order of receipt, if this server told them.
    pub(crate) fn at(self, begun: Begun) -> Result<Vec<RestingWrite>, FleetFault>
        ensures { IfOk result (λ writes. IsDump begun writes.items) }
    {
        let ToldDump {
            begun: dumped_by,
            writes,
        } = self;
        if dumped_by != begun {
            return Err(FleetFault::Network);
        }
        Ok(writes)
    }
}

/// What the books of a server come to. It is seen as that server.
#[derive(Drop)]
pub(crate) struct ToldBooks {
    begun: Begun,
    settled: NodeSettled,
}

impl Model for ToldBooks {
    ghost use Rattle.bayou_fleet.specs.Servers.{IsServerSettled};
    ghost use Rattle.bayou_node.specs.Books.{Begun as Made};

    ghost Value = { Made };

    ghost view = { λ b. b.begun };

    ghost invariant = { λ b. IsServerSettled b.begun b.settled };
}

impl ToldBooks {
    /// What the books of the node come to, all of whose desks are these.
    pub(crate) fn of<D: Device, L: Desks>(
        node: Node<D, L>,
        desks: Vec<Desk<L>>,
        begun: Begun,
    ) -> Result<Self, FleetFault>
        requires { begun ≡ L.begun }
        ensures { IfOk result (λ told. told ≡ begun) }
    {
        let Ok(settled) = node.settle(desks) else {
            // A connection ended without its desk.
            return Err(FleetFault::Network);
        };
        Ok(ToldBooks { begun, settled })
    }

    /// What they come to, if they are this server's.
    pub(crate) fn at(self, begun: Begun) -> Result<NodeSettled, FleetFault>
        ensures { IfOk result (IsServerSettled begun) }
    {
        let ToldBooks {
            begun: settled_by,
            settled,
        } = self;
        if settled_by != begun {
            return Err(FleetFault::Network);
        }
        Ok(settled)
    }
}
