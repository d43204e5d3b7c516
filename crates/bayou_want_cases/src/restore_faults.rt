//! What isn't made again, and why; and devices that fail.
use crate::fixtures::{begun_at_last, must_be_so, server_id};
use crate::stores::{COUNT, Given, LIMIT, restored, start, vector, write};
use bayou_peer::Replica;
use bayou_restore::{Gathered, RestoreFault, first_difference};
use bayou_server::{TakeFault, TookAll};
use std::alloc::Global;
use std::process::Abort;

/// What is gathered of these Writes, and what came of it.
fn gather(rt: &impl Abort, alloc: Global, given: &[Given], limit: u32) -> (Gathered, TookAll) {
    let mut writes = Vec::new(alloc);
    for given in given {
        writes
            .push(write(rt, alloc, *given))
            .expect(rt, "no memory");
    }
    assert!(rt; writes.len() < 1000);
    let mut gathered = Gathered::new(alloc, COUNT, limit.min(LIMIT));
    let told = gathered.take_all(alloc, writes);
    (gathered, told)
}

/// What comes of the first server, which may hold so many, of these Writes.
fn comes_of(
    rt: &impl Abort,
    alloc: Global,
    given: &[Given],
    limit: u32,
) -> Result<(), RestoreFault> {
    let (gathered, told) = gather(rt, alloc, given, LIMIT);
    assert!(rt;
        told == TookAll {
            taken: u32::try_from(given.len()).unwrap_or(u32::MAX),
            had: 0,
            refused: None
        }
    );
    let mut server = begun_at_last(rt, alloc, (0, COUNT, limit));
    restored(alloc, server.as_mut(), &gathered)
}

/// Writes of a store, of which another server could hold each after those before it; but the first one never made its last there so.
static FORGED: [(&[Given], u32); 4] = [
    // It doesn't count a Write that the one before it counted.
    (
        &[
            (0, 1, 1, [0, 0, 0]),
            (1, 1, 1, [0, 0, 0]),
            (0, 2, 2, [1, 1, 0]),
            (0, 3, 3, [2, 0, 0]),
        ],
        3,
    ),
    // It counts a Write and not the one that this counts.
    (
        &[
            (2, 1, 1, [0, 0, 0]),
            (1, 1, 2, [0, 0, 1]),
            (0, 1, 3, [0, 1, 0]),
        ],
        1,
    ),
    // It counts an own Write that counts more than it does.
    (
        &[
            (0, 1, 1, [0, 0, 0]),
            (2, 1, 1, [0, 0, 0]),
            (0, 2, 2, [1, 0, 1]),
            (1, 1, 3, [2, 0, 1]),
            (0, 3, 4, [2, 1, 0]),
        ],
        3,
    ),
    // The one before it is forged.
    (
        &[
            (1, 1, 1, [0, 0, 0]),
            (0, 1, 2, [0, 1, 0]),
            (0, 2, 3, [1, 0, 0]),
            (0, 3, 4, [2, 1, 0]),
        ],
        2,
    ),
];

#[test]
fn a_forged_own_write_is_refused(rt: HostRuntime) {
    for (row, (given, number)) in FORGED.iter().enumerate() {
        let told = comes_of(&rt, rt.alloc(), *given, LIMIT);
        must_be_so(&rt, told == Err(RestoreFault::Misfit(*number)), row);
    }
}

/// Writes of which the last isn't gathered, and why.
static UNFIT: [(&[Given], TakeFault); 5] = [
    (&[(0, 2, 1, [1, 0, 0])], TakeFault::Gap),
    (
        &[(1, 1, 1, [0, 0, 0]), (0, 1, 2, [0, 2, 0])],
        TakeFault::Gap,
    ),
    (&[(3, 1, 1, [0, 0, 0])], TakeFault::Gap),
    (
        &[(1, 1, 1, [0, 0, 0]), (0, 1, 3, [0, 1, 0])],
        TakeFault::BadStamp,
    ),
    (
        &[(1, 1, 1, [0, 0, 0]), (1, 1, 2, [0, 0, 0])],
        TakeFault::Conflict,
    ),
];

#[test]
fn what_fits_nowhere_is_not_gathered(rt: HostRuntime) {
    for (row, (given, fault)) in UNFIT.iter().enumerate() {
        let (gathered, told) = gather(&rt, rt.alloc(), *given, LIMIT);
        let taken = given.len().saturating_sub(1);
        let is_so = told.refused.is_some_and(|refused| refused.fault == *fault)
            && gathered.writes().len() == taken;
        must_be_so(&rt, is_so && told.taken as usize == taken, row);
    }
}

static PLAIN: [Given; 4] = [
    (0, 1, 1, [0, 0, 0]),
    (1, 1, 1, [0, 0, 0]),
    (2, 1, 2, [0, 1, 0]),
    (0, 2, 3, [1, 1, 1]),
];

#[test]
fn limits_are_kept(rt: HostRuntime) {
    let alloc = rt.alloc();
    for limit in 0..6_u32 {
        let (gathered, told) = gather(&rt, alloc, &PLAIN, limit);
        let is_told = match told.refused {
            None => limit >= 4,
            Some(refused) => {
                let next = PLAIN.get(limit as usize);
                refused.fault == TakeFault::LogFull
                    && next.is_some_and(|given| refused.wid.seq == given.1)
            }
        };
        let is_gathered = told.taken == limit.min(4) && told.had == 0 && is_told;
        let wanted = if limit < 4 {
            Err(RestoreFault::LogFull)
        } else {
            Ok(())
        };
        let is_restored = comes_of(&rt, alloc, &PLAIN, limit) == wanted;
        must_be_so(
            &rt,
            is_gathered && is_restored && gathered.writes().len() as u32 == limit.min(4),
            limit as usize,
        );
    }
}

#[test]
fn what_is_gathered_twice_is_had(rt: HostRuntime) {
    let alloc = rt.alloc();
    let (mut gathered, _) = gather(&rt, alloc, &PLAIN, 4);
    let mut again = Vec::new(alloc);
    again
        .push(write(&rt, alloc, (1, 1, 1, [0, 0, 0])))
        .expect(&rt, "no memory");
    let again = gathered.take_all(alloc, again);
    let lacking = gathered
        .lacking(alloc, &vector(&rt, [1, 0, 1]), 1)
        .expect(&rt, "no memory");
    let is_so = again.had == 1
        && again.refused.is_none()
        && gathered.offer() == vector(&rt, [2, 1, 1])
        && lacking.len() == 1
        && lacking[0] == write(&rt, alloc, (1, 1, 1, [0, 0, 0]));
    must_be_so(&rt, is_so, 0);
}

/// What a peer has beside one that has the plain ones, and the number of the first Write of the first server which isn't the same in both.
static BESIDE: [(&[Given], Option<u32>); 7] = [
    (&[], None),
    (&[(0, 1, 1, [0, 0, 0])], None),
    (
        &[
            (1, 1, 1, [0, 0, 0]),
            (0, 1, 1, [0, 0, 0]),
            (2, 1, 2, [0, 1, 0]),
            (0, 2, 3, [1, 1, 1]),
            (0, 3, 4, [2, 1, 1]),
        ],
        None,
    ),
    // Other servers' Writes alone differ.
    (
        &[
            (0, 1, 1, [0, 0, 0]),
            (2, 1, 1, [0, 0, 0]),
            (1, 1, 2, [0, 0, 1]),
        ],
        None,
    ),
    // The first one is another, and the second isn't there, or is another too.
    (&[(1, 1, 1, [0, 0, 0]), (0, 1, 2, [0, 1, 0])], Some(1)),
    (
        &[
            (1, 1, 1, [0, 0, 0]),
            (0, 1, 2, [0, 1, 0]),
            (0, 2, 3, [1, 1, 0]),
        ],
        Some(1),
    ),
    // The last one of the plain ones is another, and there is one more.
    (
        &[
            (0, 1, 1, [0, 0, 0]),
            (0, 2, 2, [1, 0, 0]),
            (0, 3, 3, [2, 0, 0]),
        ],
        Some(2),
    ),
];

#[test]
fn the_first_difference_is_told(rt: HostRuntime) {
    let alloc = rt.alloc();
    let first = server_id(&rt, 0);
    let (plain, _) = gather(&rt, alloc, &PLAIN, LIMIT);
    for (row, (given, number)) in BESIDE.iter().enumerate() {
        let (beside, told) = gather(&rt, alloc, *given, LIMIT);
        let is_so = told.refused.is_none()
            && first_difference(&plain, &beside, first) == *number
            && first_difference(&beside, &plain, first) == *number;
        must_be_so(&rt, is_so, row);
    }
}

/// Each device call of a restoring fails in turn: it is reported, and what is held is a front of what was to be.
#[test]
fn a_device_that_fails_ends_it(rt: HostRuntime) {
    let alloc = rt.alloc();
    let (gathered, _) = gather(&rt, alloc, &PLAIN, 4);
    let mut failed: u32 = 0;
    for calls in 1..20_u32 {
        let mut server = start(&rt, alloc, 0);
        server.device().fuse(calls, 3);
        let told = restored(alloc, server.as_mut(), &gathered);
        let is_so = match told {
            Ok(()) => server.receipts().len() == 4,
            Err(fault) => {
                failed = failed.saturating_add(1);
                fault == RestoreFault::Device && server.is_down() && server.receipts().len() < 4
            }
        };
        must_be_so(&rt, is_so, calls as usize);
    }
    // An append and a sync for each.
    must_be_so(&rt, failed == 8, 99);
}
