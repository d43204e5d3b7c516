//! Scripts at two servers: what each event is answered, and what is left.
use crate::fixtures::{
    history_of, must_be_said, must_be_so, put, room, room_for, server_id, session_id,
};
use Said::{
    Accepted, Delivered, Doubted, Down, Dropped, Filed, Flown, Full, Fused, Gap, Had, Holds, Kept,
    New, NotDown, NotReopened, NotRestarted, ReadBehind, Seen, Skipped, Up, Wanting, WriteBehind,
};
use Told::{Saw, Wrote};
use bayou_audit::Totals;
use bayou_base::{Asks, Entry, Value, Vector, What, Wid};
use bayou_lang::RestingWrite;
use bayou_server::{
    Behind, JournalFault, ReopenFault, StartFault, TakeFault, Took, WriteFault, Written,
};
use bayou_world::{Event, Reply, RunHistory};
use std::alloc::{AllocError, Global};
use std::process::Abort;

/// The counts of the two servers.
pub type Counts = [u32; 2];

/// An event, of sessions and servers by their numbers. What is read and put is `room`.
#[derive(Clone, Copy)]
pub enum Act {
    Read(u8, u8),
    Write(u8, u8, i64),
    Again(u8),
    Deliver(u8),
    Lose(u8),
    Offer(u8),
    Collect(u8, u32),
    Take(u8, u32),
    Fuse(u8, u32, usize),
    Reopen(u8),
    Restart(u8),
    File(u8),
}

/// A reply.
#[derive(Clone, Copy, PartialEq, Eq)]
pub enum Said {
    Seen(Option<i64>, Counts),
    ReadBehind(Counts),
    /// Origin and seq, and what was held just before.
    Accepted((u8, u32), Counts),
    WriteBehind(Counts),
    /// What this server answers to one that it was asked again.
    Again(u8, Repeated),
    Full,
    New,
    Had,
    Gap,
    Kept(u32),
    Flown(u32, u32),
    Delivered,
    Dropped,
    Filed,
    Fused,
    /// A device call failed as the Write was stored.
    Doubted,
    Down,
    /// The server is up, and adopted the Write of this origin and seq.
    Up(Option<(u8, u32)>),
    NotDown,
    NotReopened,
    /// The server was restarted, and holds so many Writes.
    Holds(usize),
    NotRestarted,
    Skipped,
    /// Memory was refused.
    Wanting,
    Otherwise,
}

/// The answer to a Write that is asked again.
#[derive(Clone, Copy, PartialEq, Eq)]
pub enum Repeated {
    /// The Write of this origin and seq is held, after so many.
    Known((u8, u32), Counts),
    /// It is made now.
    Made((u8, u32), Counts),
    Behind(Counts),
    Full,
    Doubted,
    Down,
    Wanting,
    Otherwise,
}

/// What was served.
#[derive(Clone, Copy, PartialEq, Eq)]
pub enum Told {
    Saw(Counts),
    Wrote((u8, u32), Counts),
    Nothing,
}

/// An entry: its session, its place, its server, and what it tells.
pub type Line = (u8, u32, u8, Told);

pub struct Script {
    pub limit: u32,
    /// What the sessions ask for, from 0 on.
    pub asks: &'static [Asks],
    pub acts: &'static [(Act, Said)],
    pub served: &'static [Line],
    /// Origin and seq of what each server holds.
    pub dumps: [&'static [(u8, u32)]; 2],
    /// Reads, Writes and refusals in the book.
    pub totals: (usize, usize, usize),
}

pub const NOTHING: Asks = Asks {
    ryw: false,
    mr: false,
    wfr: false,
    mw: false,
};

pub const OWN_WRITES: Asks = Asks {
    ryw: true,
    mr: false,
    wfr: false,
    mw: false,
};

pub const ALL: Asks = Asks {
    ryw: true,
    mr: true,
    wfr: true,
    mw: true,
};

/// A session that asks for Read Your Writes, and learns of its Write, or doesn't.
static OF_ONE_WRITE: [Script; 2] = [
    Script {
        limit: 100,
        asks: &[OWN_WRITES],
        acts: &[
            (Act::Write(0, 0, 7), Accepted((0, 1), [0, 0])),
            (Act::Deliver(0), Delivered),
            (Act::Read(0, 1), ReadBehind([0, 0])),
            (Act::Deliver(0), Delivered),
            (Act::Offer(1), Kept(0)),
            (Act::Collect(0, 0), Flown(0, 1)),
            (Act::Take(1, 0), New),
            (Act::Take(1, 0), Had),
            (Act::Read(0, 1), Seen(Some(7), [1, 0])),
            (Act::Deliver(0), Delivered),
            (Act::File(0), Filed),
        ],
        served: &[(0, 1, 0, Wrote((0, 1), [0, 0])), (0, 3, 1, Saw([1, 0]))],
        dumps: [&[(0, 1)], &[(0, 1)]],
        totals: (0, 1, 0),
    },
    // The Write is there, but the session has never heard of it.
    Script {
        limit: 100,
        asks: &[OWN_WRITES],
        acts: &[
            (Act::Write(0, 0, 7), Accepted((0, 1), [0, 0])),
            (Act::Lose(0), Dropped),
            (Act::Read(0, 1), Seen(None, [0, 0])),
            (Act::Deliver(0), Delivered),
        ],
        served: &[(0, 2, 1, Saw([0, 0]))],
        dumps: [&[(0, 1)], &[]],
        totals: (0, 0, 0),
    },
];

/// What is entered in the book, and what isn't.
static OF_BOOKS: [Script; 3] = [
    // Nothing is entered that wasn't delivered, and nothing twice.
    Script {
        limit: 100,
        asks: &[NOTHING],
        acts: &[
            (Act::File(0), Skipped),
            (Act::Write(0, 1, 3), Accepted((1, 1), [0, 0])),
            (Act::File(0), Skipped),
            (Act::Deliver(0), Delivered),
            (Act::File(0), Filed),
            (Act::File(0), Skipped),
            (Act::Read(0, 1), Seen(Some(3), [0, 1])),
            (Act::Lose(0), Dropped),
            (Act::File(0), Skipped),
            (Act::File(1), Skipped),
        ],
        served: &[(0, 1, 1, Wrote((1, 1), [0, 0]))],
        dumps: [&[], &[(1, 1)]],
        totals: (0, 1, 0),
    },
    // Two sessions, of which one is refused whatever it tries.
    Script {
        limit: 2,
        asks: &[ALL, ALL],
        acts: &[
            (Act::Write(0, 0, 1), Accepted((0, 1), [0, 0])),
            (Act::Write(0, 0, 1), Skipped),
            (Act::Deliver(0), Delivered),
            (Act::Deliver(0), Skipped),
            (Act::Write(0, 1, 2), WriteBehind([0, 0])),
            (Act::Deliver(0), Delivered),
            (Act::Write(1, 0, 3), Accepted((0, 2), [1, 0])),
            (Act::Deliver(1), Delivered),
            (Act::Read(1, 0), Seen(Some(3), [2, 0])),
            (Act::Deliver(1), Delivered),
            (Act::Write(1, 0, 4), Full),
            (Act::Deliver(1), Delivered),
            (Act::Read(0, 1), ReadBehind([0, 0])),
            (Act::Deliver(0), Delivered),
            (Act::File(1), Filed),
            (Act::File(0), Filed),
            (Act::File(1), Filed),
            (Act::File(0), Filed),
            (Act::File(0), Filed),
            (Act::File(0), Skipped),
            (Act::File(1), Filed),
            (Act::File(1), Skipped),
        ],
        served: &[
            (0, 1, 0, Wrote((0, 1), [0, 0])),
            (1, 1, 0, Wrote((0, 2), [1, 0])),
            (1, 2, 0, Saw([2, 0])),
        ],
        dumps: [&[(0, 1), (0, 2)], &[]],
        totals: (1, 2, 3),
    },
    // What can't be taken, and what names nothing that is there.
    Script {
        limit: 2,
        asks: &[NOTHING, NOTHING],
        acts: &[
            (Act::Write(0, 0, 1), Accepted((0, 1), [0, 0])),
            (Act::Write(1, 0, 2), Accepted((0, 2), [1, 0])),
            (Act::Collect(0, 0), Skipped),
            (Act::Take(1, 0), Skipped),
            (Act::Offer(2), Skipped),
            (Act::Read(2, 0), Skipped),
            (Act::Offer(1), Kept(0)),
            (Act::Collect(0, 0), Flown(0, 2)),
            (Act::Collect(1, 0), Flown(2, 0)),
            (Act::Take(1, 1), Gap),
            (Act::Take(1, 0), New),
            (Act::Deliver(1), Delivered),
            (Act::Write(1, 1, 5), Accepted((1, 1), [1, 0])),
            (Act::Take(1, 1), Full),
            (Act::Deliver(1), Delivered),
            (Act::Lose(0), Dropped),
            (Act::Lose(0), Skipped),
            (Act::File(0), Skipped),
            (Act::File(1), Filed),
        ],
        served: &[
            (1, 1, 0, Wrote((0, 2), [1, 0])),
            (1, 2, 1, Wrote((1, 1), [1, 0])),
        ],
        dumps: [&[(0, 1), (0, 2)], &[(0, 1), (1, 1)]],
        totals: (0, 1, 0),
    },
];

fn event_of(rt: &impl Abort, alloc: Global, act: Act) -> Event {
    match act {
        Act::Read(session, server) => Event::Read {
            session: session_id(rt, session),
            server: server_id(rt, server),
            key: room(rt),
        },
        Act::Write(session, server, number) => Event::Write {
            session: session_id(rt, session),
            server: server_id(rt, server),
            program: put(rt, alloc, number),
        },
        Act::Again(session) => Event::Again(session_id(rt, session)),
        Act::Deliver(session) => Event::Deliver(session_id(rt, session)),
        Act::Lose(session) => Event::Lose(session_id(rt, session)),
        Act::Offer(server) => Event::Offer(server_id(rt, server)),
        Act::Collect(server, offer) => Event::Collect {
            server: server_id(rt, server),
            offer,
        },
        Act::Take(server, item) => Event::Take {
            server: server_id(rt, server),
            item,
        },
        Act::Fuse(server, call, kept) => Event::Fuse {
            server: server_id(rt, server),
            call,
            kept,
        },
        Act::Reopen(server) => Event::Reopen(server_id(rt, server)),
        Act::Restart(server) => Event::Restart(server_id(rt, server)),
        Act::File(session) => Event::File(session_id(rt, session)),
    }
}

fn counts_of(vector: &Vector) -> Counts {
    let counts = vector.counts();
    [counts[0], counts[1]]
}

fn number_in(value: &Option<Value>) -> Option<i64> {
    match value {
        Some(Value::Num(number)) => Some(*number),
        _ => None,
    }
}

fn named(wid: &Option<Wid>) -> Option<(u8, u32)> {
    match wid {
        Some(wid) => Some((wid.origin.index, wid.seq)),
        None => None,
    }
}

fn repeat_answer(answer: &Result<Written, WriteFault>) -> Repeated {
    match answer {
        Ok(Written::Known(made)) => Repeated::Known(
            (made.wid.origin.index, made.wid.seq),
            counts_of(&made.deps),
        ),
        Ok(Written::New(made)) => Repeated::Made(
            (made.wid.origin.index, made.wid.seq),
            counts_of(&made.deps),
        ),
        Err(WriteFault::Behind(vector)) => Repeated::Behind(counts_of(vector)),
        Err(WriteFault::LogFull) => Repeated::Full,
        Err(WriteFault::Journal) => Repeated::Doubted,
        Err(WriteFault::Down) => Repeated::Down,
        Err(WriteFault::OutOfMemory) => Repeated::Wanting,
        Err(WriteFault::TagUsed) => Repeated::Otherwise,
    }
}

pub fn saying(reply: &Reply) -> Said {
    match reply {
        Reply::Read(Ok(seen)) => Seen(number_in(&seen.value), counts_of(&seen.vector)),
        Reply::Read(Err(Behind { vector })) => ReadBehind(counts_of(vector)),
        Reply::Wrote(Ok(Written::New(made))) => Accepted(
            (made.wid.origin.index, made.wid.seq),
            counts_of(&made.deps),
        ),
        Reply::Wrote(Err(WriteFault::Behind(vector))) => WriteBehind(counts_of(vector)),
        Reply::Wrote(Err(WriteFault::LogFull)) => Full,
        Reply::Wrote(Err(WriteFault::OutOfMemory)) => Wanting,
        Reply::Wrote(Err(WriteFault::Journal)) => Doubted,
        Reply::Wrote(Err(WriteFault::Down)) => Down,
        Reply::AskedAgain(server, answer) => Said::Again(server.index, repeat_answer(answer)),
        Reply::Took(Ok(Took::New)) => New,
        Reply::Took(Ok(Took::Had)) => Had,
        Reply::Took(Err(TakeFault::Gap)) => Gap,
        Reply::Took(Err(TakeFault::LogFull)) => Full,
        Reply::Took(Err(TakeFault::OutOfMemory)) => Wanting,
        Reply::Took(Err(TakeFault::Journal)) => Doubted,
        Reply::Took(Err(TakeFault::Down)) => Down,
        Reply::NoMemory => Wanting,
        Reply::Kept(number) => Kept(*number),
        Reply::Flown { first, number } => Flown(*first, *number),
        Reply::Delivered => Delivered,
        Reply::Dropped => Dropped,
        Reply::Filed => Filed,
        Reply::Fused => Fused,
        Reply::Reopened(Ok(reopened)) => Up(named(&reopened.adopted)),
        Reply::Reopened(Err(ReopenFault::NotDown)) => NotDown,
        Reply::Reopened(Err(ReopenFault::OutOfMemory)) => Wanting,
        Reply::Reopened(Err(ReopenFault::Journal(JournalFault::Device))) => NotReopened,
        Reply::Restarted(Ok(holds)) => Holds(*holds),
        Reply::Restarted(Err(StartFault::OutOfMemory)) => Wanting,
        Reply::Restarted(Err(StartFault::Journal(JournalFault::Device))) => NotRestarted,
        Reply::Skipped => Skipped,
        Reply::Took(Err(TakeFault::Conflict | TakeFault::OwnLost | TakeFault::BadStamp)) => {
            Said::Otherwise
        }
        Reply::Wrote(Ok(Written::Known(_)) | Err(WriteFault::TagUsed)) => Said::Otherwise,
        Reply::Reopened(Err(_)) | Reply::Restarted(Err(_)) => Said::Otherwise,
    }
}

pub fn line_of(entry: &Entry) -> Line {
    let told = match &entry.what {
        What::Read(_, vector) => Saw(counts_of(vector)),
        What::Write(wid, _, deps) => Wrote((wid.origin.index, wid.seq), counts_of(deps)),
        What::Refused => Told::Nothing,
    };
    (entry.session.index, entry.place, entry.server.index, told)
}

pub fn is_said(reply: &Reply, act: Option<&(Act, Said)>) -> bool {
    match act {
        Some((_, wanted)) => saying(reply) == *wanted,
        None => false,
    }
}

pub fn are_said(replies: &[Reply], acts: &[(Act, Said)]) -> bool {
    for (at, reply) in replies.iter().enumerate() {
        if !is_said(reply, acts.get(at)) {
            return false;
        }
    }
    replies.len() == acts.len()
}

fn is_line(entry: &Entry, line: Option<&Line>) -> bool {
    match line {
        Some(line) => line_of(entry) == *line,
        None => false,
    }
}

fn are_lines(served: &[Entry], lines: &[Line]) -> bool {
    for (at, entry) in served.iter().enumerate() {
        if !is_line(entry, lines.get(at)) {
            return false;
        }
    }
    served.len() == lines.len()
}

fn has_name(write: &RestingWrite, name: Option<&(u8, u32)>) -> bool {
    let wid = write.wid();
    match name {
        Some((origin, seq)) => wid.origin.index == *origin && wid.seq == *seq,
        None => false,
    }
}

pub fn has_names(dump: &[RestingWrite], names: &[(u8, u32)]) -> bool {
    for (at, write) in dump.iter().enumerate() {
        if !has_name(write, names.get(at)) {
            return false;
        }
    }
    dump.len() == names.len()
}

fn have_names(dumps: &[Vec<RestingWrite>], names: &[&'static [(u8, u32)]; 2]) -> bool {
    match (dumps.first(), dumps.get(1)) {
        (Some(first), Some(second)) => {
            dumps.len() == 2
                && has_names(first.as_slice(), names[0])
                && has_names(second.as_slice(), names[1])
        }
        _ => false,
    }
}

/// Adds the event of this act.
pub fn add(rt: &impl Abort, alloc: Global, events: &mut Vec<Event>, act: Act) {
    let event = event_of(rt, alloc, act);
    events.push(event).expect(rt, "no memory");
}

pub fn events_of(rt: &impl Abort, alloc: Global, acts: &[(Act, Said)]) -> Vec<Event> {
    let mut events = room_for(rt, alloc, acts.len());
    for (act, _) in acts {
        add(rt, alloc, &mut events, *act);
    }
    events
}

pub fn play(
    rt: &impl Abort,
    alloc: Global,
    script: &Script,
    events: &[Event],
) -> Result<Box<RunHistory>, AllocError> {
    history_of(rt, alloc, (2, script.limit), script.asks, events)
}

/// Whether replies, entries, dumps and totals are those of the script.
pub fn is_as_it_says(script: &Script, history: &RunHistory) -> bool {
    let (reads, writes, refusals) = script.totals;
    let totals = Totals {
        slips: 0,
        reads,
        writes,
        refusals,
    };
    are_said(history.replies.as_slice(), script.acts)
        && are_lines(history.served.as_slice(), script.served)
        && have_names(history.dumps.as_slice(), &script.dumps)
        && history.totals == totals
}

/// Each reply is what stands beside its event in this row.
pub fn must_all_be_said(rt: &impl Abort, replies: &[Reply], acts: &[(Act, Said)], row: usize) {
    for (at, reply) in replies.iter().enumerate() {
        must_be_said(rt, is_said(reply, acts.get(at)), (row, at), reply);
    }
}

/// Whether the script of this row leaves what it says, if each reply is as it says.
fn leaves_what_it_says(rt: &impl Abort, alloc: Global, script: &Script, row: usize) -> bool {
    let events = events_of(rt, alloc, script.acts);
    let history = play(rt, alloc, script, events.as_slice()).expect(rt, "no memory");
    must_all_be_said(rt, history.replies.as_slice(), script.acts, row);
    is_as_it_says(script, &history)
}

/// Each script leaves what it says.
pub fn all_leave_what_they_say(rt: &impl Abort, alloc: Global, scripts: &[Script]) {
    for (row, script) in scripts.iter().enumerate() {
        must_be_so(rt, leaves_what_it_says(rt, alloc, script, row), row);
    }
}

#[test]
fn a_session_finds_the_write_that_it_was_told_of(rt: HostRuntime) {
    all_leave_what_they_say(&rt, rt.alloc(), &OF_ONE_WRITE);
}

#[test]
fn what_was_delivered_is_entered_once(rt: HostRuntime) {
    all_leave_what_they_say(&rt, rt.alloc(), &OF_BOOKS);
}
