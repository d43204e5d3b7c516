//! Sessions that are kept on a device, each of whose calls fails in turn.
use crate::fixtures::{must_be_so, session_id, vector};
use bayou_base::{Asks, Seen};
use bayou_client::Asker;
use bayou_device::{MemoryDevice, OpenGate};
use bayou_remember::{KeepFault, Memory};
use bayou_session::Session;
use std::alloc::Global;
use std::process::Abort;

const ALL: Asks = Asks {
    ryw: true,
    mr: true,
    wfr: true,
    mw: true,
};

/// A session after its read of so many Writes, at the place of that number.
fn reader(rt: &impl Abort, index: u8, count: u32) -> Session {
    let mut session = Session::new(session_id(rt, index), 7, ALL);
    for _ in 0..count {
        if session.left() > 0 {
            session.begin();
        }
    }
    session.saw(&Seen {
        value: None,
        vector: vector(rt, count, 0),
    });
    session
}

/// What is kept of the reader.
fn kept_reader(rt: &impl Abort, index: u8, count: u32) -> Asker {
    Asker::asking_nothing(reader(rt, index, count))
}

/// The place of a session, of those that are kept, or 0 where it isn't.
fn place_of(all: &[Option<Asker>], index: usize) -> u32 {
    match all.get(index) {
        Some(Some(kept)) => kept.session().place(),
        _ => 0,
    }
}

/// The places of sessions 0 and 1 that bytes keep.
fn places_in(rt: &impl Abort, alloc: Global, bytes: &[u8]) -> (u32, u32) {
    let mut copy = Vec::new(alloc);
    copy.extend_from_slice(bytes).expect(rt, "no memory");
    match Memory::open(alloc, MemoryDevice::with_bytes(copy, OpenGate), 1) {
        Ok((_, all)) => (place_of(&all, 0), place_of(&all, 1)),
        Err(_) => (u32::MAX, u32::MAX),
    }
}

/// What a session that is kept after a failing call answers, where the call of this number fails and adds so many bytes.
fn failing(rt: &impl Abort, alloc: Global, call: u32, kept: usize) -> (bool, (u32, u32)) {
    let mut device = MemoryDevice::new(alloc, OpenGate);
    if call > 0 {
        device.fuse(call, kept);
    }
    let Ok((mut memory, _)) = Memory::open(alloc, device, 1) else {
        return (false, (0, 0));
    };
    let first = memory.keep(alloc, &kept_reader(rt, 0, 1));
    let second = memory.keep(alloc, &kept_reader(rt, 0, 2));
    let is_told = match call {
        4 | 5 => first == Err(KeepFault::Device) && second == Err(KeepFault::Device),
        6 | 7 => first == Ok(()) && second == Err(KeepFault::Device),
        _ => first == Ok(()) && second == Ok(()),
    };
    let device = memory.close();
    (is_told, places_in(rt, alloc, device.bytes()))
}

/// The call that fails, how many bytes it adds, and the places of both sessions then. The first three calls are the opening's: the read, the
/// header and its sync.
static FAILING: [(u32, usize, (u32, u32)); 8] = [
    (4, 0, (0, 0)),
    (4, 178, (0, 0)),
    (4, 179, (1, 0)),
    (5, 0, (1, 0)),
    (6, 100, (1, 0)),
    (6, 179, (2, 0)),
    (7, 0, (2, 0)),
    (8, 0, (2, 0)),
];

#[test]
fn a_call_that_fails_is_told(rt: HostRuntime) {
    for (row, (call, kept, expected)) in FAILING.iter().enumerate() {
        let is_so = failing(&rt, rt.alloc(), *call, *kept) == (true, *expected);
        must_be_so(&rt, is_so, row);
    }
}
