//! A server that makes Writes, where memory is refused.
use crate::fixtures::{begun_at_last, put, reopen_at_last, start_at_last, tag_behind};
use bayou_base::Vector;
use bayou_fakes::sites::{Memory, Served, fuse};
use bayou_server::{WriteFault, Written};
use std::alloc::Global;
use std::process::Abort;

/// Puts the number at `a`: the Write's seq.
fn puts(
    rt: &impl Abort,
    alloc: Global,
    server: &mut Served,
    number: i64,
) -> Result<u32, WriteFault> {
    let program = put(rt, number).rest(alloc)?;
    let tag = tag_behind(rt, server.receipts().len());
    match server.write(alloc, tag, &Vector::zero(), &program)? {
        Written::New(accepted) => Ok(accepted.wid.seq),
        Written::Known(_) => rt.abort(),
    }
}

/// The device that the server gives back.
fn device_of(server: Box<Served>) -> Memory {
    Box::into_inner(server).stop().device
}

/// Puts the number, again where that was refused; a Write in doubt is settled first. Whether it is put, and a refused Write wasn't held.
fn put_at_last(rt: &impl Abort, alloc: Global, server: &mut Served, number: i64) -> bool {
    let held = server.receipts().len();
    if puts(rt, alloc, server, number).is_ok() {
        return true;
    }
    let is_held = server.receipts().len() > held;
    !is_held && reopen_at_last(alloc, server) && puts(rt, alloc, server, number).is_ok()
}

/// Puts three numbers so, one after another.
fn put_three_at_last(rt: &impl Abort, alloc: Global, server: &mut Served) -> bool {
    let mut are_put = true;
    for number in 0..3 {
        are_put &= put_at_last(rt, alloc, server, number);
    }
    are_put
}

/// How many Writes the server dumps, if there is memory for it.
fn dumped(alloc: Global, server: &Served) -> Option<usize> {
    match server.dump(alloc) {
        Ok(dump) => Some(dump.len()),
        Err(_) => None,
    }
}

/// How many Writes the server lists, if there is memory for it.
fn listed(alloc: Global, server: &Served) -> Option<usize> {
    match server.listing(alloc) {
        Ok(listing) => Some(listing.len()),
        Err(_) => None,
    }
}

/// Whether the server dumps and lists so many Writes, again where that was refused.
fn tells_at_last(alloc: Global, server: &Served, held: usize) -> bool {
    let is_dumped = dumped(alloc, server) == Some(held) || dumped(alloc, server) == Some(held);
    let is_listed = listed(alloc, server) == Some(held) || listed(alloc, server) == Some(held);
    is_dumped && is_listed
}

/// The last Write is added and not synced; it, or the one before it, may be refused for memory before the device is called. Whether no
/// fewer than three are held then, and reported.
fn doubts_at_last(rt: &impl Abort, alloc: Global, server: &mut Served) -> bool {
    fuse(server, 2, 0);
    let _ = puts(rt, alloc, server, 9);
    let _ = puts(rt, alloc, server, 9);
    let is_up = reopen_at_last(alloc, server);
    let held = server.receipts().len();
    is_up && held >= 3 && tells_at_last(alloc, server, held)
}

/// Puts three numbers and leaves a Write in doubt: how many are held then, where all went so.
fn held_at_last(rt: &impl Abort, alloc: Global, server: &mut Served) -> Option<usize> {
    let are_put = put_three_at_last(rt, alloc, server);
    let are_told = doubts_at_last(rt, alloc, server);
    if are_put && are_told {
        Some(server.receipts().len())
    } else {
        None
    }
}

/// That of a new server, and its device.
fn device_at_last(rt: &impl Abort, alloc: Global) -> (Option<usize>, Memory) {
    let mut server = begun_at_last(rt, alloc, (0, 2, 100));
    let held = held_at_last(rt, alloc, &mut server);
    (held, device_of(server))
}

/// How many Writes a server on the device holds.
fn held_again(rt: &impl Abort, alloc: Global, device: Memory) -> usize {
    start_at_last(rt, alloc, (0, 2, 100), device)
        .receipts()
        .len()
}

/// For runs in which any one allocation is refused: what a server acknowledged it keeps, and what was refused can be done again.
#[test]
fn one_want_of_memory_costs_no_write(rt: HostRuntime) {
    let (held, device) = device_at_last(&rt, rt.alloc());
    assert!(rt; held == Some(held_again(&rt, rt.alloc(), device)));
}
