//! Servers that are given Writes that others accepted, where memory is refused.
use crate::fixtures::{begun_at_last, reopen_at_last, vector};
use bayou_fakes::items::{THREE, write};
use bayou_fakes::sites::Served;
use bayou_lang::Write;
use std::alloc::Global;
use std::process::Abort;

/// Whether the server takes the Write.
fn is_given(alloc: Global, server: &mut Served, write: &Write) -> bool {
    match write.rest(alloc) {
        Ok(write) => server.take(alloc, write).is_ok(),
        Err(_) => false,
    }
}

/// Gives the Write, again where that was refused; a Write in doubt is settled first. Whether it is taken, and a refused Write wasn't
/// held.
fn take_at_last(alloc: Global, server: &mut Served, write: &Write) -> bool {
    let held = server.receipts().len();
    if is_given(alloc, server, write) {
        return true;
    }
    let is_held = server.receipts().len() > held;
    !is_held && reopen_at_last(alloc, server) && is_given(alloc, server, write)
}

/// Gives the first server's three Writes one after another. Whether each is taken at last, and then held.
pub fn take_three_at_last(rt: &impl Abort, alloc: Global, server: &mut Served) -> bool {
    let mut are_kept = true;
    for given in THREE {
        let write = write(given).expect(rt, "no Write");
        let is_taken = take_at_last(alloc, server, &write);
        are_kept &= is_taken && server.vector() == vector(rt, u32::from(given.1), 0);
    }
    are_kept
}

/// For runs in which any one allocation is refused: a Write that was refused for it wasn't held, and can be given again.
#[test]
fn one_want_of_memory_costs_no_taken_write(rt: HostRuntime) {
    let alloc = rt.alloc();
    let mut server = begun_at_last(&rt, alloc, (1, 2, 100));
    assert!(rt; take_three_at_last(&rt, alloc, server.as_mut()));
}
