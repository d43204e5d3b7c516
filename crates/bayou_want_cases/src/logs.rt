//! A log of Writes where memory is refused.
use crate::fixtures::{boxed, key, plus, put};
use bayou_base::{Key, Value};
use bayou_fakes::values;
use bayou_lang::{Outcome, Write};
use bayou_log::WriteLog;
use bayou_log::plain::replayed;
use std::alloc::{AllocError, Global};
use std::process::Abort;

/// The first Write of one of five servers, which held none. In stamp order `a` becomes 1, then 5, then 10, 100 and 1000 more.
fn first(rt: &impl Abort, server: u8) -> Write {
    let program = match server {
        0 => put(rt, 1),
        1 => put(rt, 5),
        2 => plus(rt, 10),
        3 => plus(rt, 100),
        _ => plus(rt, 1000),
    };
    values::write((server, 1, 1), [0, 0], program).expect(rt, "no Write")
}

/// Reserves and inserts the Write, where it may be inserted.
fn add(alloc: Global, log: &mut WriteLog, write: &Write) -> Result<bool, AllocError> {
    let write = write.rest(alloc)?;
    if log.is_full() || log.fits(&write).is_err() {
        return Ok(false);
    }
    log.reserve(&write)?;
    log.insert(write);
    Ok(true)
}

/// How many Writes the log holds, and the number that `a` has.
fn told(log: &WriteLog, a: &Key) -> (usize, i64) {
    match log.get(a) {
        Some(Value::Num(number)) => (log.receipts().len(), number),
        _ => (log.receipts().len(), 0),
    }
}

/// Whether the Write is added. Where a growth is refused, the log is as it was, and the Write is added then.
fn grows(alloc: Global, log: &mut WriteLog, write: &Write, a: &Key) -> bool {
    let before = told(log, a);
    match add(alloc, log, write) {
        Ok(is_added) => is_added,
        Err(_) => told(log, a) == before && add(alloc, log, write) == Ok(true),
    }
}

/// Whether the listing has so many Writes, the next one of the next server, each of which was applied.
fn lists_all(alloc: Global, log: &WriteLog, servers: u8) -> bool {
    let Ok(listing) = log.listing(alloc) else {
        return false;
    };
    let mut count = 0_u8;
    for listed in &listing {
        if listed.wid.origin.index == count && listed.outcome == Outcome::Updated {
            count = count.saturating_add(1);
        }
    }
    count == servers && listing.len() == usize::from(servers)
}

/// Whether the plain replay has the same at the key.
fn is_plain(alloc: Global, log: &WriteLog, a: &Key) -> bool {
    match replayed(alloc, log.receipts()) {
        Ok(plain) => plain.get(a) == log.get(a),
        Err(_) => false,
    }
}

/// Adds the five Writes in this order. Whether each is added.
fn takes(rt: &impl Abort, alloc: Global, log: &mut WriteLog, order: &[u8], a: &Key) -> bool {
    let mut are_added = true;
    for server in order {
        are_added &= grows(alloc, log, &first(rt, *server), a);
    }
    are_added
}

/// Whether the log, which takes the five Writes in an order with late ones, then has their listing and their database; each is asked for again
/// where memory was refused.
fn has_all_at_last(rt: &impl Abort, alloc: Global, log: &mut WriteLog, a: &Key) -> bool {
    let are_taken = takes(rt, alloc, log, &[3, 1, 4, 0, 2], a);
    let are_listed = lists_all(alloc, log, 5) || lists_all(alloc, log, 5);
    let is_the_replay = is_plain(alloc, log, a) || is_plain(alloc, log, a);
    are_taken && are_listed && is_the_replay && told(log, a) == (5, 1115)
}

/// For runs in which any one allocation is refused: the log is as it was, and takes the Write then.
#[test]
fn one_want_of_memory_costs_a_log_nothing(rt: HostRuntime) {
    let mut log = boxed(&rt, rt.alloc(), WriteLog::new(rt.alloc(), 5, 5));
    let is_so = has_all_at_last(&rt, rt.alloc(), &mut log, &key(&rt));
    assert!(rt; is_so);
}
