//! Servers whose device calls fail: what each event is answered then, and that each run is clean.
use crate::fixtures::{history, must_be_so};
use crate::scripts::{
    ALL, Act, NOTHING, Said, add, are_said, events_of, has_names, must_all_be_said,
};
use Said::{Accepted, Delivered, Flown, Holds, Kept, Seen};
use bayou_judge::{Verdict, judge, lend_dumps};
use bayou_server::{JournalFault, ReopenFault, StartFault, TakeFault, WriteFault};
use bayou_world::{Event, Reply, RunHistory};
use std::alloc::Global;
use std::process::Abort;

/// Events at one server and of one session that asks for nothing, and what each is answered: what may want memory doesn't where there is enough.
static ENOUGH: [(Act, Said); 6] = [
    (Act::Offer(0), Kept(0)),
    (Act::Write(0, 0, 7), Accepted((0, 1), [0, 0])),
    (Act::Deliver(0), Delivered),
    (Act::Collect(0, 0), Flown(0, 1)),
    (Act::Restart(0), Holds(1)),
    (Act::Read(0, 0), Seen(Some(7), [1, 0])),
];

#[test]
fn with_memory_enough_a_collect_sends_and_a_restart_starts(rt: HostRuntime) {
    let events = events_of(&rt, rt.alloc(), &ENOUGH);
    let history = history(&rt, rt.alloc(), (1, 100), &[NOTHING], events.as_slice());
    must_all_be_said(&rt, history.replies.as_slice(), &ENOUGH, 0);
    must_be_so(&rt, is_enough(&history), 0);
}

/// Whether these are the answers, and what the server holds.
fn is_enough(history: &RunHistory) -> bool {
    match history.dumps.first() {
        Some(dump) => {
            are_said(history.replies.as_slice(), &ENOUGH) && has_names(dump.as_slice(), &[(0, 1)])
        }
        None => false,
    }
}

/// How many rounds of ten events the run has in which each device call fails in turn.
const ROUNDS: u8 = 6;

/// No entry of a journal here is longer.
const LONGEST: usize = 142;

/// How many device calls each server makes in that run: two for a Write and for an item, and two for a restart.
const CALLS: u32 = 20;

/// A round: a Write at one server, which the other takes; a read there; and both servers are recovered.
fn round_of(round: u8) -> [Act; 10] {
    let (from, to) = if round % 2 == 0 { (0, 1) } else { (1, 0) };
    let number = u32::from(round);
    let recovery = if round % 3 == 0 {
        Act::Restart(from)
    } else {
        Act::Reopen(from)
    };
    [
        Act::Write(0, from, i64::from(round)),
        Act::Deliver(0),
        Act::Offer(to),
        Act::Collect(from, number),
        Act::Take(to, number),
        Act::Read(0, to),
        Act::Deliver(0),
        recovery,
        Act::Reopen(to),
        Act::Restart(to),
    ]
}

/// Sixty events, and a fuse before them.
fn fused_events(rt: &impl Abort, alloc: Global, server: u8, call: u32, kept: usize) -> Vec<Event> {
    let mut events = Vec::new(alloc);
    add(rt, alloc, &mut events, Act::Fuse(server, call, kept));
    for round in 0..ROUNDS {
        add_round(rt, alloc, &mut events, round);
    }
    events
}

fn add_round(rt: &impl Abort, alloc: Global, events: &mut Vec<Event>, round: u8) {
    for act in round_of(round) {
        add(rt, alloc, events, act);
    }
}

/// A device call failed, as the reply tells.
pub fn is_fault(reply: &Reply) -> bool {
    match reply {
        Reply::Wrote(Err(WriteFault::Journal)) | Reply::Took(Err(TakeFault::Journal)) => true,
        Reply::AskedAgain(_, Err(WriteFault::Journal)) => true,
        Reply::Reopened(Err(ReopenFault::Journal(JournalFault::Device))) => true,
        Reply::Restarted(Err(StartFault::Journal(JournalFault::Device))) => true,
        Reply::Wrote(_) | Reply::Took(_) | Reply::Reopened(_) | Reply::Restarted(_) => false,
        Reply::AskedAgain(..) => false,
        Reply::Read(_) | Reply::Kept(_) | Reply::Flown { .. } => false,
        Reply::Delivered | Reply::Dropped | Reply::Filed | Reply::Fused => false,
        Reply::NoMemory | Reply::Skipped => false,
    }
}

fn faults_in(replies: &[Reply]) -> u32 {
    let mut faults: u32 = 0;
    for reply in replies {
        if is_fault(reply) {
            faults = faults.saturating_add(1);
        }
    }
    faults
}

pub fn is_clean(alloc: Global, history: &RunHistory) -> bool {
    if history.dumps.len() != 2 {
        return false;
    }
    let lent = lend_dumps(history.dumps.as_slice());
    judge(alloc, 2, history.served.as_slice(), lent.as_slice()) == Ok(Ok(Verdict::Clean))
}

/// A call of a server's device that is to fail, of whose piece so much is kept.
type Failing = (u8, u32, usize);

/// How many faults the run had in which that call fails, if it is clean.
fn faults_of(rt: &impl Abort, alloc: Global, (server, call, kept): Failing) -> Option<u32> {
    let events = fused_events(rt, alloc, server, call, kept);
    let history = history(rt, alloc, (2, 100), &[ALL], events.as_slice());
    clean_faults_in(alloc, &history)
}

fn clean_faults_in(alloc: Global, history: &RunHistory) -> Option<u32> {
    if !is_clean(alloc, history) {
        return None;
    }
    Some(faults_in(history.replies.as_slice()))
}

/// Stops the test where the run is not clean, or has another number of faults, and says which call failed.
fn must_have(rt: &impl Abort, faults: u32, found: Option<u32>, (server, call, kept): Failing) {
    let is_so = found == Some(faults);
    assert!(rt;
        is_so,
        "not so at server {server}, call {call}, with {kept} kept: faults {found:?}"
    );
}

/// All is clean where that call of the server fails, whatever it keeps of its piece. So many faults are reported.
fn must_be_clean_at(rt: &impl Abort, alloc: Global, server: u8, call: u32, faults: u32) {
    for kept in 0..LONGEST {
        let failing = (server, call, kept);
        must_have(rt, faults, faults_of(rt, alloc, failing), failing);
    }
}

/// Each call of the server's may fail, and none after them does.
fn must_be_clean(rt: &impl Abort, alloc: Global, server: u8) {
    for call in 1..CALLS + 3 {
        let faults = if call <= CALLS { 1 } else { 0 };
        must_be_clean_at(rt, alloc, server, call, faults);
    }
}

#[test]
fn whichever_device_call_fails_the_run_is_clean(rt: HostRuntime) {
    for server in 0..2 {
        must_be_clean(&rt, rt.alloc(), server);
    }
}
