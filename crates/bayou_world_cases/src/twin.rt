//! The judge as its definitions are: pair by pair, over sets of names. It is plain and slow.
use bayou_base::{Asks, Entry, SERVERS, SESSIONS, ServerId, SessionId, Stamp, Vector, What, Wid};
use bayou_judge::{BadEvidence, Breach, Guarantee, Surveyed, Verdict};
use bayou_lang::RestingWrite;
use std::alloc::Global;
use std::process::Abort;

const GUARANTEES: [Guarantee; 4] = [
    Guarantee::ReadYourWrites,
    Guarantee::MonotonicReads,
    Guarantee::WritesFollowReads,
    Guarantee::MonotonicWrites,
];

fn dump_of(dumps: &[Vec<RestingWrite>], server: usize) -> &[RestingWrite] {
    match dumps.get(server) {
        Some(dump) => dump.as_slice(),
        None => &[],
    }
}

/// How many of the Writes are the server's.
fn held_of(database: &[RestingWrite], server: usize) -> usize {
    let mut count: usize = 0;
    for write in database {
        if usize::from(write.wid().origin.index) == server {
            count = count.saturating_add(1);
        }
    }
    count
}

/// Whether the vector has for each server the number of its Writes.
fn is_count_of(database: &[RestingWrite], vector: &Vector) -> bool {
    for server in 0..SERVERS {
        if held_of(database, server) != vector.counts()[server] as usize {
            return false;
        }
    }
    true
}

/// Whether of each server no more is counted than is held.
fn is_covered(database: &[RestingWrite], vector: &Vector) -> bool {
    for server in 0..SERVERS {
        if held_of(database, server) < vector.counts()[server] as usize {
            return false;
        }
    }
    true
}

/// The greatest clock of the Writes that are counted, 0 where there is none.
fn clock_among(database: &[RestingWrite], vector: &Vector) -> u32 {
    let mut clock = 0;
    for write in database {
        if vector.covers(write.wid()) {
            clock = clock.max(write.stamp().clock);
        }
    }
    clock
}

pub fn has(database: &[RestingWrite], wid: Wid) -> bool {
    for write in database {
        if write.wid() == wid {
            return true;
        }
    }
    false
}

fn fits(count: u8, held: &[RestingWrite], write: &RestingWrite) -> bool {
    let wid = write.wid();
    wid.origin.index < count
        && wid.seq as usize - 1 == held_of(held, usize::from(wid.origin.index))
        && is_covered(held, write.deps())
        && write.deps().get(wid.origin) == wid.seq - 1
        && write.stamp().clock - 1 == clock_among(held, write.deps())
}

/// Whether none of the dumps has another Write of this name.
fn is_same(dumps: &[Vec<RestingWrite>], write: &RestingWrite) -> bool {
    for dump in dumps {
        for other in dump {
            if other.wid() == write.wid() && other.unfold() != write.unfold() {
                return false;
            }
        }
    }
    true
}

/// The first place of the server's dump that isn't good.
fn bad_in(count: u8, dumps: &[Vec<RestingWrite>], server: usize) -> Option<usize> {
    let dump = dump_of(dumps, server);
    let smaller = &dumps[..server.min(dumps.len())];
    for (at, write) in dump.iter().enumerate() {
        let held = &dump[..at];
        let is_own = usize::from(write.wid().origin.index) == server;
        let is_good = fits(count, held, write)
            && (!is_own || is_count_of(held, write.deps()))
            && is_same(smaller, write);
        if !is_good {
            return Some(at);
        }
    }
    None
}

/// The database that was read: the front of the dump that the vector counts.
fn front_of<'a>(dump: &'a [RestingWrite], vector: &Vector) -> Option<&'a [RestingWrite]> {
    let mut counts = [0_u32; SERVERS];
    if counts == *vector.counts() {
        return Some(&[]);
    }
    for (at, write) in dump.iter().enumerate() {
        let origin = usize::from(write.wid().origin.index);
        counts[origin] = counts[origin].saturating_add(1);
        if counts == *vector.counts() {
            return Some(&dump[..at + 1]);
        }
    }
    None
}

fn tells_of(entry: &Entry, wid: Wid) -> bool {
    match entry.what {
        What::Write(told, _, _) => told == wid,
        What::Read(_, _) | What::Refused => false,
    }
}

/// Whether an entry tells of the Write.
fn is_told(entries: &[Entry], wid: Wid) -> bool {
    for entry in entries {
        if tells_of(entry, wid) {
            return true;
        }
    }
    false
}

/// Whether the dump has the Write with this stamp and past.
fn is_made(dump: &[RestingWrite], wid: Wid, stamp: Stamp, deps: &Vector) -> bool {
    for write in dump {
        if write.wid() == wid && write.stamp() == stamp && write.deps() == deps {
            return true;
        }
    }
    false
}

/// Whether it tells of what can have been at its server.
fn is_true(dump: &[RestingWrite], earlier: &[Entry], entry: &Entry) -> bool {
    match &entry.what {
        What::Read(_, vector) => front_of(dump, vector).is_some(),
        What::Write(wid, stamp, deps) => {
            wid.origin == entry.server
                && is_made(dump, *wid, *stamp, deps)
                && !is_told(earlier, *wid)
        }
        What::Refused => true,
    }
}

/// Whether it may stand after those of its session.
fn follows(earlier: &[Entry], entry: &Entry) -> bool {
    for other in earlier {
        let is_behind = other.place < entry.place && other.asks == entry.asks;
        if other.session == entry.session && !is_behind {
            return false;
        }
    }
    true
}

/// The first entry that isn't genuine.
fn forged_in(count: u8, entries: &[Entry], dumps: &[Vec<RestingWrite>]) -> Option<usize> {
    for (at, entry) in entries.iter().enumerate() {
        let earlier = &entries[..at];
        let dump = dump_of(dumps, usize::from(entry.server.index));
        let is_genuine = entry.server.index < count
            && follows(earlier, entry)
            && is_true(dump, earlier, entry);
        if !is_genuine {
            return Some(at);
        }
    }
    None
}

/// Why entries and dumps stand for no history.
fn fault(count: u8, entries: &[Entry], dumps: &[Vec<RestingWrite>]) -> Option<BadEvidence> {
    for server in 0..count {
        if let Some(id) = ServerId::new(server) {
            if let Some(at) = bad_in(count, dumps, usize::from(server)) {
                return Some(BadEvidence::BadDump(id, at));
            }
        }
    }
    match forged_in(count, entries, dumps) {
        Some(at) => Some(BadEvidence::Forged(at)),
        None => None,
    }
}

/// The Writes that a guarantee speaks of, of those that the earlier operation told its session.
fn told_by<'a>(
    dumps: &'a [Vec<RestingWrite>],
    guarantee: Guarantee,
    entry: &Entry,
) -> &'a [RestingWrite] {
    let dump = dump_of(dumps, usize::from(entry.server.index));
    match (guarantee, &entry.what) {
        (Guarantee::MonotonicReads | Guarantee::WritesFollowReads, What::Read(_, vector)) =>
            front_of(dump, vector).unwrap_or(&[]),
        (Guarantee::ReadYourWrites | Guarantee::MonotonicWrites, What::Write(wid, _, _)) => only(
            dump, *wid,
        ),
        _ => &[],
    }
}

/// The Write of this name alone.
fn only(dump: &[RestingWrite], wid: Wid) -> &[RestingWrite] {
    for (at, write) in dump.iter().enumerate() {
        if write.wid() == wid {
            return &dump[at..at + 1];
        }
    }
    &[]
}

/// Whether some front of the dump has the later Write, and lacks the earlier one, or has it and it isn't before. What the least
/// front that has the later one lacks, or has in another order, is reported; a longer one lacks no more.
fn fails_to_precede(dump: &[RestingWrite], earlier: &RestingWrite, later: &RestingWrite) -> bool {
    let is_before = earlier.stamp().is_before(later.stamp());
    for (at, write) in dump.iter().enumerate() {
        if write.wid() == later.wid() {
            return !is_before || !has(&dump[..at + 1], earlier.wid());
        }
    }
    false
}

/// Whether that holds of one of the later Writes.
fn fail_to_precede(
    dump: &[RestingWrite],
    earlier: &RestingWrite,
    all_later: &[RestingWrite],
) -> bool {
    for later in all_later {
        if fails_to_precede(dump, earlier, later) {
            return true;
        }
    }
    false
}

/// Whether the later operation fails, at this server, what the guarantee demands of the earlier Write.
fn fails(
    dumps: &[Vec<RestingWrite>],
    guarantee: Guarantee,
    earlier: &RestingWrite,
    second: &Entry,
    server: usize,
) -> bool {
    let home = usize::from(second.server.index);
    match (guarantee, &second.what) {
        (Guarantee::ReadYourWrites | Guarantee::MonotonicReads, What::Read(_, vector)) => {
            home == server
                && !has(
                    front_of(dump_of(dumps, home), vector).unwrap_or(&[]),
                    earlier.wid(),
                )
        }
        (Guarantee::WritesFollowReads | Guarantee::MonotonicWrites, What::Write(wid, _, _)) => {
            let all_later = only(dump_of(dumps, home), *wid);
            fail_to_precede(dump_of(dumps, server), earlier, all_later)
        }
        _ => false,
    }
}

/// The least name of those Writes at which the later operation fails at this server.
fn least_name(
    dumps: &[Vec<RestingWrite>],
    guarantee: Guarantee,
    told: &[RestingWrite],
    second: &Entry,
    server: usize,
) -> Option<Wid> {
    let mut least: Option<Wid> = None;
    for earlier in told {
        if fails(dumps, guarantee, earlier, second, server) {
            let wid = earlier.wid();
            least = match least {
                Some(name) => Some(name.min(wid)),
                None => Some(wid),
            };
        }
    }
    least
}

/// The least breach by two operations.
fn breach_of(
    dumps: &[Vec<RestingWrite>],
    guarantee: Guarantee,
    first: &Entry,
    second: &Entry,
) -> Option<Breach> {
    let told = told_by(dumps, guarantee, first);
    for server in 0..SERVERS {
        let id = ServerId::new(server as u8)?;
        if let Some(wid) = least_name(dumps, guarantee, told, second, server) {
            return Some(Breach {
                guarantee,
                session: second.session,
                first: first.place,
                second: second.place,
                server: id,
                wid,
            });
        }
    }
    None
}

/// The least breach with this later operation.
fn breach_at(
    dumps: &[Vec<RestingWrite>],
    guarantee: Guarantee,
    earlier: &[Entry],
    second: &Entry,
) -> Option<Breach> {
    for first in earlier {
        if first.session == second.session {
            let breach = breach_of(dumps, guarantee, first, second);
            if breach.is_some() {
                return breach;
            }
        }
    }
    None
}

/// The least breach of the guarantee in the session. Its entries stand in the order of their places.
fn least(
    entries: &[Entry],
    dumps: &[Vec<RestingWrite>],
    guarantee: Guarantee,
    session: SessionId,
) -> Option<Breach> {
    for (at, second) in entries.iter().enumerate() {
        if second.session == session {
            let breach = breach_at(dumps, guarantee, &entries[..at], second);
            if breach.is_some() {
                return breach;
            }
        }
    }
    None
}

fn is_asked(asks: Asks, guarantee: Guarantee) -> bool {
    match guarantee {
        Guarantee::ReadYourWrites => asks.ryw,
        Guarantee::MonotonicReads => asks.mr,
        Guarantee::WritesFollowReads => asks.wfr,
        Guarantee::MonotonicWrites => asks.mw,
    }
}

/// What the session asks for, if it has an entry.
fn asks_of(entries: &[Entry], session: SessionId) -> Option<Asks> {
    for entry in entries {
        if entry.session == session {
            return Some(entry.asks);
        }
    }
    None
}

/// The least breach of what the session asks for.
fn least_asked(
    entries: &[Entry],
    dumps: &[Vec<RestingWrite>],
    session: SessionId,
) -> Option<Breach> {
    let asks = asks_of(entries, session)?;
    for guarantee in GUARANTEES {
        if is_asked(asks, guarantee) {
            let breach = least(entries, dumps, guarantee, session);
            if breach.is_some() {
                return breach;
            }
        }
    }
    None
}

pub fn judge(
    count: u8,
    entries: &[Entry],
    dumps: &[Vec<RestingWrite>],
) -> Result<Verdict, BadEvidence> {
    if let Some(bad) = fault(count, entries, dumps) {
        return Err(bad);
    }
    for index in 0..SESSIONS {
        if let Some(session) = SessionId::new(index as u8) {
            if let Some(breach) = least_asked(entries, dumps, session) {
                return Ok(Verdict::Broken(breach));
            }
        }
    }
    Ok(Verdict::Clean)
}

fn surveyed(entries: &[Entry], dumps: &[Vec<RestingWrite>], session: SessionId) -> Surveyed {
    Surveyed {
        session,
        ryw: least(entries, dumps, Guarantee::ReadYourWrites, session),
        mr: least(entries, dumps, Guarantee::MonotonicReads, session),
        wfr: least(entries, dumps, Guarantee::WritesFollowReads, session),
        mw: least(entries, dumps, Guarantee::MonotonicWrites, session),
    }
}

pub fn survey(
    rt: &impl Abort,
    alloc: Global,
    count: u8,
    entries: &[Entry],
    dumps: &[Vec<RestingWrite>],
) -> Result<Vec<Surveyed>, BadEvidence> {
    if let Some(bad) = fault(count, entries, dumps) {
        return Err(bad);
    }
    let mut list = Vec::new(alloc);
    for index in 0..SESSIONS {
        let Some(session) = SessionId::new(index as u8) else {
            continue;
        };
        if asks_of(entries, session).is_some() {
            let surveyed = surveyed(entries, dumps, session);
            list.push(surveyed).expect(rt, "no memory");
        }
    }
    Ok(list)
}
