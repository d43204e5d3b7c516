//! A run in which memory is refused: it is gone, or goes to its end as that of a twin, in which the event that lacked memory is left out, refused,
//! or fails.
use crate::fixtures::{history_of, room_for};
use crate::scripts::{
    Act, Line, NOTHING, OWN_WRITES, Said, Told, add, are_said, has_names, line_of, saying,
};
use Said::{
    Accepted, Delivered, Doubted, Down, Dropped, Filed, Flown, Fused, Holds, Kept, New,
    NotReopened, NotRestarted, Seen, Skipped, Up, Wanting,
};
use bayou_audit::Totals;
use bayou_base::{Asks, Entry};
use bayou_lang::RestingWrite;
use bayou_world::{Event, Reply, RunHistory};
use std::alloc::{AllocError, Global};
use std::process::Abort;

/// A server that is down from the third event on, and so refuses each Write without a trace. Nothing else shows it, and so nothing whether the
/// Write that brings it down lacked memory.
const SPARE: u8 = 2;

/// What names nothing that is there.
const ABSENT: u32 = 99;

/// The greatest number of device calls that an opening makes.
const OPENING_CALLS: u32 = 4;

static ASKS: [Asks; 2] = [OWN_WRITES, NOTHING];

/// Each event, at two servers and the spare one, and its reply with memory enough.
static ACTS: [(Act, Said); 25] = [
    (Act::Fuse(SPARE, 1, 0), Fused),
    (Act::Write(1, SPARE, 5), Doubted),
    (Act::Lose(1), Dropped),
    (Act::Write(0, 0, 7), Accepted((0, 1), [0, 0])),
    (Act::Deliver(0), Delivered),
    (Act::Offer(1), Kept(0)),
    (Act::Collect(0, 0), Flown(0, 1)),
    (Act::Take(1, 0), New),
    (Act::Read(0, 1), Seen(Some(7), [1, 0])),
    (Act::Deliver(0), Delivered),
    (Act::File(0), Filed),
    (Act::Fuse(0, 1, 200), Fused),
    (Act::Write(0, 0, 8), Doubted),
    (Act::Deliver(0), Delivered),
    (Act::Reopen(0), Up(Some((0, 2)))),
    (Act::Collect(0, 0), Flown(1, 2)),
    (Act::Take(1, 2), New),
    (Act::Restart(1), Holds(2)),
    (Act::Write(0, 1, 9), Accepted((1, 1), [2, 0])),
    (Act::Deliver(0), Delivered),
    (Act::Read(1, 1), Seen(Some(9), [2, 1])),
    (Act::Deliver(1), Delivered),
    (Act::File(1), Filed),
    (Act::File(0), Filed),
    (Act::File(0), Filed),
];

/// What was served then.
static SERVED: [Line; 4] = [
    (0, 1, 0, Told::Wrote((0, 1), [0, 0])),
    (0, 2, 1, Told::Saw([1, 0])),
    (0, 4, 1, Told::Wrote((1, 1), [2, 0])),
    (1, 2, 1, Told::Saw([2, 1])),
];

/// What the servers hold then.
static DUMPS: [&[(u8, u32)]; 3] = [&[(0, 1), (0, 2)], &[(0, 1), (0, 2), (1, 1)], &[]];

/// What the book counts then: the last Write of the first session is delivered, and not entered.
const TOTALS: Totals = Totals {
    slips: 0,
    reads: 2,
    writes: 1,
    refusals: 1,
};

fn played(rt: &impl Abort, alloc: Global, events: &[Event]) -> Result<Box<RunHistory>, AllocError> {
    history_of(rt, alloc, (3, 100), &ASKS, events)
}

/// The events, with these in the place of this one.
fn events_with(
    rt: &impl Abort,
    alloc: Global,
    at: usize,
    instead: (Option<Act>, Act),
) -> Vec<Event> {
    let mut events = room_for(rt, alloc, ACTS.len().saturating_add(1));
    for (number, (act, _)) in ACTS.iter().enumerate() {
        if number != at {
            add(rt, alloc, &mut events, *act);
            continue;
        }
        if let Some(before) = instead.0 {
            add(rt, alloc, &mut events, before);
        }
        add(rt, alloc, &mut events, instead.1);
    }
    events
}

/// Whether the same was served.
fn are_same_entries(served: &[Entry], twin: &[Entry]) -> bool {
    let mut are_so = served.len() == twin.len();
    for (at, entry) in served.iter().enumerate() {
        are_so &= match twin.get(at) {
            Some(other) => line_of(entry) == line_of(other) && entry.asks == other.asks,
            None => false,
        };
    }
    are_so
}

/// Whether the same Writes are held.
fn are_same_writes(held: &[RestingWrite], twin: &[RestingWrite]) -> bool {
    let mut are_so = held.len() == twin.len();
    for (at, write) in held.iter().enumerate() {
        are_so &= match twin.get(at) {
            Some(other) => write.unfold() == other.unfold(),
            None => false,
        };
    }
    are_so
}

/// Whether each server holds the same.
fn are_same_dumps(dumps: &[Vec<RestingWrite>], twin: &[Vec<RestingWrite>]) -> bool {
    let mut are_so = dumps.len() == twin.len();
    for (at, dump) in dumps.iter().enumerate() {
        are_so &= match twin.get(at) {
            Some(other) => are_same_writes(dump, other),
            None => false,
        };
    }
    are_so
}

/// Whether the reply to the event of this number, with so many events more before it in the twin, is as it must be.
fn is_reply(
    reply: &Reply,
    twin: &[Reply],
    number: usize,
    (at, more): (usize, usize),
    (said, told): (Said, Said),
) -> bool {
    let place = if number < at {
        number
    } else {
        number.saturating_add(more)
    };
    match twin.get(place) {
        Some(other) if number == at => saying(reply) == told && saying(other) == said,
        Some(other) => saying(reply) == saying(other),
        None => false,
    }
}

/// Whether the replies are the twin's, but that at this event one is given and another said there.
fn are_alike(replies: &[Reply], twin: &[Reply], place: (usize, usize), swap: (Said, Said)) -> bool {
    let mut are_so = replies.len().saturating_add(place.1) == twin.len();
    for (number, reply) in replies.iter().enumerate() {
        are_so &= is_reply(reply, twin, number, place, swap);
    }
    are_so
}

/// Whether the run went as the one in which this stands in the place of the event, but for the reply to it: what was said there, and told here.
fn goes_as(
    rt: &impl Abort,
    alloc: Global,
    (given, at): (&RunHistory, usize),
    instead: (Option<Act>, Act),
    swap: (Said, Said),
) -> bool {
    let events = events_with(rt, alloc, at, instead);
    let Ok(twin) = played(rt, alloc, events.as_slice()) else {
        return false;
    };
    let more = usize::from(instead.0.is_some());
    are_alike(
        given.replies.as_slice(),
        twin.replies.as_slice(),
        (at, more),
        swap,
    ) && are_same_entries(given.served.as_slice(), twin.served.as_slice())
        && are_same_dumps(given.dumps.as_slice(), twin.dumps.as_slice())
        && given.totals == twin.totals
}

/// Whether the run went as the one in which the device fails at one of the opening's calls.
fn fails_to_open(
    rt: &impl Abort,
    alloc: Global,
    given: (&RunHistory, usize),
    (server, act): (u8, Act),
    said: Said,
) -> bool {
    let mut is_so = false;
    for call in 1..OPENING_CALLS + 1 {
        let instead = (Some(Act::Fuse(server, call, 0)), act);
        is_so = is_so || goes_as(rt, alloc, given, instead, (said, Wanting));
        is_so = is_so || goes_as(rt, alloc, given, instead, (said, said));
    }
    is_so
}

/// Whether the event lacked memory, and all else is as it must be then. Of a Write the session is refused; the device of a server that found none
/// has failed, and the Write is in doubt. What is collected, taken or opened again is as before, and a restart leaves the server stopped.
fn has_lacked(rt: &impl Abort, alloc: Global, given: (&RunHistory, usize), act: Act) -> bool {
    match act {
        Act::Write(session, server, number) => {
            let said = if server == SPARE { Doubted } else { Down };
            let refused = (None, Act::Write(session, SPARE, number));
            let failed = (Some(Act::Fuse(server, 1, 0)), act);
            goes_as(rt, alloc, given, refused, (said, Wanting))
                || goes_as(rt, alloc, given, failed, (Doubted, Doubted))
        }
        Act::Collect(server, _) => {
            let none = (None, Act::Collect(server, ABSENT));
            goes_as(rt, alloc, given, none, (Skipped, Wanting))
        }
        Act::Take(server, _) => {
            let none = (None, Act::Take(server, ABSENT));
            let failed = (Some(Act::Fuse(server, 1, 0)), act);
            goes_as(rt, alloc, given, none, (Skipped, Wanting))
                || goes_as(rt, alloc, given, failed, (Doubted, Doubted))
        }
        Act::Reopen(server) => {
            let none = (None, Act::Take(server, ABSENT));
            goes_as(rt, alloc, given, none, (Skipped, Wanting))
                || fails_to_open(rt, alloc, given, (server, act), NotReopened)
        }
        Act::Restart(server) => fails_to_open(rt, alloc, given, (server, act), NotRestarted),
        _ => false,
    }
}

/// Whether one of the events lacked memory so.
fn has_lacked_once(rt: &impl Abort, alloc: Global, given: &RunHistory) -> bool {
    let mut is_so = false;
    for (at, (act, _)) in ACTS.iter().enumerate() {
        is_so = is_so || has_lacked(rt, alloc, (given, at), *act);
    }
    is_so
}

/// Whether this was served.
fn are_served(served: &[Entry]) -> bool {
    let mut are_so = served.len() == SERVED.len();
    for (at, entry) in served.iter().enumerate() {
        are_so &= match SERVED.get(at) {
            Some(line) => line_of(entry) == *line,
            None => false,
        };
    }
    are_so
}

/// Whether this is held.
fn are_held(dumps: &[Vec<RestingWrite>]) -> bool {
    let mut are_so = dumps.len() == DUMPS.len();
    for (at, dump) in dumps.iter().enumerate() {
        are_so &= match DUMPS.get(at) {
            Some(names) => has_names(dump.as_slice(), names),
            None => false,
        };
    }
    are_so
}

/// Whether the run leaves what it leaves with memory enough.
fn is_whole(history: &RunHistory) -> bool {
    are_said(history.replies.as_slice(), &ACTS)
        && are_served(history.served.as_slice())
        && are_held(history.dumps.as_slice())
        && history.totals == TOTALS
}

/// Whether the run goes as it must: as ever, or with one event that lacked memory; or it is gone, and goes as ever when it is run again.
fn is_run(rt: &impl Abort, alloc: Global, events: &[Event]) -> bool {
    match played(rt, alloc, events) {
        Ok(given) => is_whole(&given) || has_lacked_once(rt, alloc, &given),
        Err(AllocError) => match played(rt, alloc, events) {
            Ok(again) => is_whole(&again),
            Err(AllocError) => false,
        },
    }
}

/// All events.
fn all_events(rt: &impl Abort, alloc: Global) -> Vec<Event> {
    let mut events = room_for(rt, alloc, ACTS.len());
    for (act, _) in &ACTS {
        add(rt, alloc, &mut events, *act);
    }
    events
}

#[test]
fn a_run_of_each_event(rt: HostRuntime) {
    let alloc = rt.alloc();
    let events = all_events(&rt, alloc);
    let history = played(&rt, alloc, events.as_slice()).expect(&rt, "no memory");
    assert!(rt; is_whole(&history));
}

/// For runs in which any one allocation is refused.
#[test]
fn one_want_of_memory_changes_no_other_answer(rt: HostRuntime) {
    let alloc = rt.alloc();
    let events = all_events(&rt, alloc);
    assert!(rt; is_run(&rt, alloc, events.as_slice()));
}
