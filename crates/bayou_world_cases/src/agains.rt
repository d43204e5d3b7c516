//! Writes that are asked again: each is made once, and reported once, whatever became of the first answer.
use crate::failures::is_clean;
use crate::fixtures::must_be_so;
use crate::scripts::{
    ALL, Act, NOTHING, Repeated, Said, Script, Told, all_leave_what_they_say, events_of,
    is_as_it_says, play,
};
use Repeated::{Known, Made};
use Said::{
    Accepted, Again, Delivered, Doubted, Dropped, Filed, Flown, Fused, Holds, Kept, New, Seen,
    Skipped, Up, WriteBehind,
};
use Told::{Saw, Wrote};
use std::alloc::{AllocError, Global};
use std::process::Abort;

/// A Write whose answer was a refusal, or was lost.
static AGAIN: [Script; 4] = [
    // It was in doubt, and its server is down, and then adopts it.
    Script {
        limit: 100,
        asks: &[NOTHING],
        acts: &[
            (Act::Fuse(0, 2, 0), Fused),
            (Act::Write(0, 0, 7), Doubted),
            (Act::Deliver(0), Delivered),
            (Act::Again(0), Again(0, Repeated::Down)),
            (Act::Deliver(0), Delivered),
            (Act::Reopen(0), Up(Some((0, 1)))),
            (Act::Again(0), Again(0, Known((0, 1), [0, 0]))),
            (Act::Deliver(0), Delivered),
            (Act::File(0), Filed),
            (Act::File(0), Filed),
            (Act::File(0), Filed),
        ],
        served: &[(0, 3, 0, Wrote((0, 1), [0, 0]))],
        dumps: [&[(0, 1)], &[]],
        totals: (0, 1, 2),
    },
    // It was accepted, and the answer is lost twice. What came after it changes nothing.
    Script {
        limit: 100,
        asks: &[ALL, NOTHING],
        acts: &[
            (Act::Write(0, 1, 7), Accepted((1, 1), [0, 0])),
            (Act::Lose(0), Dropped),
            (Act::Again(0), Again(1, Known((1, 1), [0, 0]))),
            (Act::Lose(0), Dropped),
            (Act::Write(1, 1, 8), Accepted((1, 2), [0, 1])),
            (Act::Restart(1), Holds(2)),
            (Act::Again(0), Again(1, Known((1, 1), [0, 0]))),
            (Act::Deliver(0), Delivered),
            (Act::Again(0), Skipped),
            (Act::File(0), Filed),
            (Act::File(0), Skipped),
        ],
        served: &[(0, 3, 1, Wrote((1, 1), [0, 0]))],
        dumps: [&[], &[(1, 1), (1, 2)]],
        totals: (0, 1, 0),
    },
    // Its server was behind, and then isn't: it is made as it is asked again.
    Script {
        limit: 100,
        asks: &[ALL],
        acts: &[
            (Act::Write(0, 0, 1), Accepted((0, 1), [0, 0])),
            (Act::Deliver(0), Delivered),
            (Act::Write(0, 1, 2), WriteBehind([0, 0])),
            (Act::Deliver(0), Delivered),
            (Act::Again(0), Again(1, Repeated::Behind([0, 0]))),
            (Act::Lose(0), Dropped),
            (Act::Offer(1), Kept(0)),
            (Act::Collect(0, 0), Flown(0, 1)),
            (Act::Take(1, 0), New),
            (Act::Again(0), Again(1, Made((1, 1), [1, 0]))),
            (Act::Lose(0), Dropped),
            (Act::Again(0), Again(1, Known((1, 1), [1, 0]))),
            (Act::Deliver(0), Delivered),
            (Act::Read(0, 1), Seen(Some(2), [1, 1])),
            (Act::Deliver(0), Delivered),
        ],
        served: &[
            (0, 1, 0, Wrote((0, 1), [0, 0])),
            (0, 5, 1, Wrote((1, 1), [1, 0])),
            (0, 6, 1, Saw([1, 1])),
        ],
        dumps: [&[(0, 1)], &[(0, 1), (1, 1)]],
        totals: (0, 0, 0),
    },
    // It was in doubt, and was forgotten; another session's has its name then.
    Script {
        limit: 1,
        asks: &[NOTHING, NOTHING],
        acts: &[
            (Act::Fuse(0, 1, 50), Fused),
            (Act::Write(0, 0, 7), Doubted),
            (Act::Lose(0), Dropped),
            (Act::Reopen(0), Up(None)),
            (Act::Fuse(0, 1, 50), Fused),
            (Act::Again(0), Again(0, Repeated::Doubted)),
            (Act::Lose(0), Dropped),
            (Act::Restart(0), Holds(0)),
            (Act::Write(1, 0, 8), Accepted((0, 1), [0, 0])),
            (Act::Again(0), Again(0, Repeated::Full)),
            (Act::Deliver(0), Delivered),
            (Act::Deliver(1), Delivered),
        ],
        served: &[(1, 1, 0, Wrote((0, 1), [0, 0]))],
        dumps: [&[(0, 1)], &[]],
        totals: (0, 0, 0),
    },
];

/// Where there is nothing to ask again, or nothing can be asked now.
static SKIPPED: [Script; 2] = [
    Script {
        limit: 100,
        asks: &[NOTHING],
        acts: &[
            (Act::Again(0), Skipped),
            (Act::Again(1), Skipped),
            (Act::Write(0, 0, 7), Accepted((0, 1), [0, 0])),
            (Act::Again(0), Skipped),
            (Act::Deliver(0), Delivered),
            (Act::Again(0), Skipped),
            (Act::Read(0, 0), Seen(Some(7), [1, 0])),
            (Act::Again(0), Skipped),
            (Act::Deliver(0), Delivered),
        ],
        served: &[(0, 1, 0, Wrote((0, 1), [0, 0])), (0, 2, 0, Saw([1, 0]))],
        dumps: [&[(0, 1)], &[]],
        totals: (0, 0, 0),
    },
    // After a read that was lost it can't be asked again, nor at a server that is stopped.
    Script {
        limit: 100,
        asks: &[NOTHING],
        acts: &[
            (Act::Write(0, 0, 7), Accepted((0, 1), [0, 0])),
            (Act::Lose(0), Dropped),
            (Act::Fuse(0, 1, 0), Fused),
            (Act::Restart(0), Said::NotRestarted),
            (Act::Again(0), Skipped),
            (Act::Restart(0), Holds(1)),
            (Act::Read(0, 1), Seen(None, [0, 0])),
            (Act::Lose(0), Dropped),
            (Act::Again(0), Skipped),
        ],
        served: &[],
        dumps: [&[(0, 1)], &[]],
        totals: (0, 0, 0),
    },
];

/// Whether the script leaves a run that the judge finds clean.
fn leaves_a_clean_run(rt: &impl Abort, alloc: Global, script: &Script) -> bool {
    let events = events_of(rt, alloc, script.acts);
    let history = play(rt, alloc, script, events.as_slice()).expect(rt, "no memory");
    is_clean(alloc, &history)
}

/// Whether the script leaves what it says, if memory is refused once, or is gone, and leaves that when it is run again; or a Write was
/// refused, and what is left is clean.
fn is_run(rt: &impl Abort, alloc: Global, script: &Script) -> bool {
    let events = events_of(rt, alloc, script.acts);
    match play(rt, alloc, script, events.as_slice()) {
        Ok(history) => is_as_it_says(script, &history) || is_clean(alloc, &history),
        Err(AllocError) => match play(rt, alloc, script, events.as_slice()) {
            Ok(again) => is_as_it_says(script, &again),
            Err(AllocError) => false,
        },
    }
}

#[test]
fn a_write_that_is_asked_again_is_made_and_told_once(rt: HostRuntime) {
    all_leave_what_they_say(&rt, rt.alloc(), &AGAIN);
    for (row, script) in AGAIN.iter().enumerate() {
        must_be_so(&rt, leaves_a_clean_run(&rt, rt.alloc(), script), row);
    }
}

#[test]
fn what_was_told_or_was_read_behind_is_not_asked_again(rt: HostRuntime) {
    all_leave_what_they_say(&rt, rt.alloc(), &SKIPPED);
}

/// For runs in which any one allocation is refused.
#[test]
fn one_want_of_memory_makes_no_second_write(rt: HostRuntime) {
    assert!(rt; is_run(&rt, rt.alloc(), &AGAIN[1]));
}
