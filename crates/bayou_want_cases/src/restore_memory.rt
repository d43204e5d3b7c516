//! Restoring where memory is refused.
ghost use Rattle.std.specs.Prelude.{◌≡◌, length};

use crate::fixtures::must_be_so;
use crate::stores::{COUNT, Given, LIMIT, restored, start, write};
use bayou_lang::RestingWrite;
use bayou_peer::Replica;
use bayou_restore::{Gathered, RestoreFault};
use bayou_server::TakeFault;
use std::alloc::Global;
use std::process::Abort;

/// The Write alone, as it is given.
fn alone(rt: &impl Abort, alloc: Global, given: Given) -> Vec<RestingWrite>
    ensures { length result.items ≡ 1 }
{
    let mut alone = match Vec::with_capacity(alloc, 1) {
        Ok(list) => list,
        Err(_) => Vec::with_capacity(alloc, 1).expect(rt, "no memory"),
    };
    alone.push_reserved(write(rt, alloc, given));
    alone
}

/// Gathers three Writes, one after another, each again where memory was refused.
fn gather(rt: &impl Abort, alloc: Global) -> Gathered {
    let mut gathered = Gathered::new(alloc, COUNT, LIMIT);
    for given in [
        (0, 1, 1, [0, 0, 0]),
        (1, 1, 1, [0, 0, 0]),
        (0, 2, 2, [1, 1, 0]),
    ] {
        let told = gathered.take_all(alloc, alone(rt, alloc, given));
        let is_so = match told.refused {
            None => told.taken == 1,
            Some(refused) => {
                refused.fault == TakeFault::OutOfMemory
                    && gathered.take_all(alloc, alone(rt, alloc, given)).taken == 1
            }
        };
        must_be_so(rt, is_so, given.1 as usize);
    }
    gathered
}

/// For runs in which any one allocation is refused: a server is restored then, or that is reported, and one that is begun anew is. Where it is the
/// device that found no memory, that is reported as a failed call.
#[test]
fn one_want_of_memory_ends_a_restoring_at_most(rt: HostRuntime) {
    let alloc = rt.alloc();
    let gathered = gather(&rt, alloc);
    let told = restored(alloc, start(&rt, alloc, 0).as_mut(), &gathered);
    let is_told = matches!(
        told,
        Ok(()) | Err(RestoreFault::OutOfMemory | RestoreFault::Device)
    );
    let is_done = told.is_ok() || restored(alloc, start(&rt, alloc, 0).as_mut(), &gathered).is_ok();
    must_be_so(&rt, is_told && is_done, 0);
}
