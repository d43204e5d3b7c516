//! A node that is lent to an engine, and to serve.
ghost use Rattle.std.specs.Prelude.{◌≡◌, ◌≤◌, IfOk, length, take};
ghost use Rattle.bayou_lang.specs.Writes.{count_of, lacking_of};
ghost use Rattle.bayou_node.specs.Answers.{InSome, TakesAtNode};

use bayou_base::Vector;
use bayou_device::Device;
use bayou_lang::RestingWrite;
use bayou_node::{Desks, Node};
use bayou_peer::Replica;
use bayou_server::TookAll;
use std::alloc::{AllocError, Global};
use std::marker::Model;
use std::sync::Wait;

/// A node, and the runtime by which each call waits for its lock. Between two calls the lock is free. Whoever makes Writes there has a desk;
/// who takes and sends them alone has none, but `()` in its place.
#[derive(Drop)]
pub(crate) struct AtNode<'a, D, L: Desks, K, T> {
    pub(crate) node: &'a Node<D, L>,
    pub(crate) desk: K,
    pub(crate) rt: &'a T,
}

impl<'a, D, L: Desks, K, T> Model for AtNode<'a, D, L, K, T> {
    ghost Value = { K };

    ghost view = { λ a. a.desk };
}

impl<D: Device, L: Desks, K, T: Wait> Replica for AtNode<'_, D, L, K, T> {
    ghost use Rattle.std.specs.Prelude.{None};

    ghost list = { λ _. None };

    ghost takes = { TakesAtNode L.begun };

    fn offer(&mut self) -> Vector
        ensures same { self.new ≡ self.old }
        ensures held { InSome L.begun (λ core. result ≡ count_of core.held) }
    {
        self.node.offer(self.rt)
    }

    fn lacking(
        &mut self,
        alloc: Global,
        counts: &Vector,
        most: usize,
    ) -> Result<Vec<RestingWrite>, AllocError>
        ensures same { self.new ≡ self.old }
        ensures few { IfOk result (λ writes. length writes.items ≤ most) }
        ensures held { InSome L.begun (λ core. IfOk result (λ writes. writes.items ≡ take most (lacking_of counts.now core.held))) }
    {
        self.node.lacking(self.rt, alloc, counts, most)
    }

    fn take_all(&mut self, alloc: Global, writes: Vec<RestingWrite>) -> TookAll {
        self.node.take_all(self.rt, alloc, writes)
    }
}
