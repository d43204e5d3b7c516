//! A server that is lent to serve.
ghost use Rattle.std.specs.Prelude.{◌≡◌};
ghost use Rattle.bayou_net.specs.Lent.{ReopensAt, WritesAt};
ghost use Rattle.bayou_server.specs.Reads.{Reads};

use crate::served::Served;
use bayou_base::{Key, Seen, Tag, Vector};
use bayou_device::Device;
use bayou_lang::{RestingProgram, RestingWrite};
use bayou_server::{Behind, ReopenFault, Reopened, Server, WriteFault, Written};
use std::alloc::{AllocError, Global};

impl<D: Device> Served for Server<D> {
    ghost reads = { λ server need key answer. Reads server.core need key answer };

    ghost writes = { λ old tag need program answer new. WritesAt D.Device old tag need program answer new };

    ghost reopens = { λ old answer new. ReopensAt D.Device old answer new };

    fn read(&mut self, need: &Vector, key: &Key) -> Result<Seen, Behind> {
        Server::read(self, need, key)
    }

    fn write(
        &mut self,
        alloc: Global,
        tag: Tag,
        need: &Vector,
        program: &RestingProgram,
    ) -> Result<Written, WriteFault> {
        Server::write(self, alloc, tag, need, program)
    }

    fn reopen(&mut self, alloc: Global) -> Result<Reopened, ReopenFault> {
        Server::reopen(self, alloc)
    }

    fn dump_part(
        &mut self,
        alloc: Global,
        place: usize,
        most: usize,
    ) -> Result<Vec<RestingWrite>, AllocError> {
        Server::dump_part(self, alloc, place, most)
    }
}
