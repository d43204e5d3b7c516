//! A server that is lent to an engine.
ghost use Rattle.bayou_server.specs.TakesAll.{TakesAt};

use crate::replica::Replica;
use bayou_base::Vector;
use bayou_device::Device;
use bayou_lang::RestingWrite;
use bayou_server::{Server, TookAll};
use std::alloc::{AllocError, Global};

impl<D: Device> Replica for Server<D> {
    ghost use Rattle.std.specs.Prelude.{Some};

    ghost list = { λ server. Some server.core.held };

    ghost takes = { TakesAt D.Device };

    fn offer(&mut self) -> Vector {
        self.vector()
    }

    fn lacking(
        &mut self,
        alloc: Global,
        counts: &Vector,
        most: usize,
    ) -> Result<Vec<RestingWrite>, AllocError> {
        // The vector has a count for each server.
        let _each = counts.counts();
        Server::lacking(self, alloc, counts, most)
    }

    fn take_all(&mut self, alloc: Global, writes: Vec<RestingWrite>) -> TookAll {
        let count = writes.len() as u32;
        Server::take_next(self, alloc, &mut writes.into_iter(), count)
    }
}
