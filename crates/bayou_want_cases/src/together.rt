//! Several Writes that a server takes together, where a device call fails within them, or memory is refused.
use crate::fixtures::{key, must_be_so, reopen_at_last};
use crate::stores::{LIMIT, makes, sent, start, vector};
use bayou_base::Vector;
use bayou_fakes::sites::{Served, fuse};
use bayou_lang::RestingWrite;
use bayou_log::plain::replayed;
use bayou_server::{TakeFault, TookAll};
use std::alloc::Global;
use std::collections::VecDeque;
use std::process::Abort;
use std::sync::atomic::AtomicUsize;

/// How many Writes come together.
const MANY: usize = 5;

/// No fewer bytes than their entries have.
const BYTES: usize = 700;

/// Gives the server the Writes, while nobody waits for it.
fn gives(
    rt: &impl Abort,
    alloc: Global,
    server: &mut Served,
    writes: Vec<RestingWrite>,
) -> TookAll {
    assert!(rt; writes.len() <= MANY);
    let waiting = AtomicUsize::new(0);
    server.take_meanwhile(alloc, &mut VecDeque::from(writes), &waiting)
}

/// The Writes of another server, each made again where it was refused.
fn given(rt: &impl Abort, alloc: Global) -> Vec<RestingWrite> {
    let mut other = start(rt, alloc, 1);
    for number in 0..MANY {
        let is_made = makes(rt, alloc, other.as_mut(), number as u32)
            || (reopen_at_last(alloc, other.as_mut())
                && makes(rt, alloc, other.as_mut(), number as u32));
        must_be_so(rt, is_made, number);
    }
    sent(rt, alloc, &other, &Vector::zero(), LIMIT as usize)
}

/// Whether the device failed as several were to be stored: all of them are in doubt, and the first is the one refused.
fn is_refused(told: TookAll) -> bool {
    match told.refused {
        Some(refused) => {
            told.taken == 0 && refused.wid.seq == 1 && refused.fault == TakeFault::Journal
        }
        None => false,
    }
}

/// How many of the Writes a server holds that was reopened, where its device failed at this call with so many bytes added; and whether that was
/// reported as it is, and it then takes the others.
fn held_after(rt: &impl Abort, alloc: Global, call: u32, kept: usize) -> (usize, bool) {
    let mut server = start(rt, alloc, 0);
    fuse(server.as_mut(), call, kept);
    let told = gives(rt, alloc, server.as_mut(), given(rt, alloc));
    let was_down = is_refused(told) && server.is_down() && server.receipts().is_empty();
    let is_up = reopen_at_last(alloc, server.as_mut());
    let held = server.receipts().len();
    let rest = gives(rt, alloc, server.as_mut(), given(rt, alloc));
    let is_whole = rest.refused.is_none()
        && rest.had as usize == held
        && server.receipts().len() == MANY;
    (held, was_down && is_up && is_whole)
}

/// Wherever one piece of several entries is cut off, a front of its Writes is adopted, and each front is.
#[test]
fn a_front_of_a_piece_is_adopted_wherever_it_is_cut_off(rt: HostRuntime) {
    let alloc = rt.alloc();
    let mut before = 0;
    for kept in 0..BYTES {
        let (held, is_so) = held_after(&rt, alloc, 1, kept);
        must_be_so(
            &rt,
            is_so && held >= before && held <= before.saturating_add(1),
            kept,
        );
        before = held;
    }
    assert!(rt; before == MANY);
}

/// Where the sync fails all of them are there.
#[test]
fn all_of_a_piece_are_adopted_where_its_sync_failed(rt: HostRuntime) {
    let (held, is_so) = held_after(&rt, rt.alloc(), 2, 0);
    assert!(rt; is_so && held == MANY);
}

/// Whether it tells of want of memory: of the server's, or of its device's.
fn is_want(fault: TakeFault) -> bool {
    matches!(fault, TakeFault::OutOfMemory | TakeFault::Journal)
}

/// Whether what the server told, which held so many before, is of all of them, or names the first that it lacks, for want of memory; and it holds
/// those that it told as taken, and no more.
fn is_named(server: &Served, told: TookAll, before: usize) -> bool {
    let answered = (told.taken as usize).saturating_add(told.had as usize);
    let is_kept = server.receipts().len() == before.saturating_add(told.taken as usize);
    match told.refused {
        None => is_kept && answered == MANY && !server.is_down(),
        Some(refused) => {
            is_kept
                && is_want(refused.fault)
                && refused.wid.seq as usize == answered.saturating_add(1)
        }
    }
}

/// Whether the server has what the plain replay of its Writes has, and holds all of them.
fn has_all(rt: &impl Abort, alloc: Global, server: &Served) -> bool {
    let a = key(rt);
    match (
        replayed(alloc, server.receipts()),
        server.read(&Vector::zero(), &a),
    ) {
        (Ok(plain), Ok(seen)) => {
            plain.get(&a) == seen.value && seen.vector == vector(rt, [0, MANY as u32, 0])
        }
        _ => false,
    }
}

/// Gives the Writes until all are held. Whether each answer was as it must be, and want of memory was reported once at most.
fn is_taken_at_last(rt: &impl Abort, alloc: Global, server: &mut Served) -> bool {
    let mut is_so = true;
    let mut had_want = false;
    for _ in 0..3 {
        let before = server.receipts().len();
        let told = gives(rt, alloc, server, given(rt, alloc));
        let is_refused = told.refused.is_some();
        is_so &= is_named(server, told, before) && !(is_refused && had_want);
        had_want |= is_refused;
        is_so &= reopen_at_last(alloc, server);
    }
    is_so
}

/// For runs in which any one allocation is refused: several are taken, or those before one that is named, and those are held; once the server is up
/// the others can be given again.
#[test]
fn one_want_of_memory_costs_none_of_a_piece(rt: HostRuntime) {
    let mut server = start(&rt, rt.alloc(), 0);
    let is_taken = is_taken_at_last(&rt, rt.alloc(), server.as_mut());
    let has_all = has_all(&rt, rt.alloc(), &server) || has_all(&rt, rt.alloc(), &server);
    assert!(rt; is_taken && has_all);
}
