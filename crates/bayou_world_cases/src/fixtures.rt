//! What the tests are made of: servers and sessions by their numbers, one key, and programs that put a number there.
ghost use Rattle.std.specs.Prelude.{◌≡◌, All, IfOk};
ghost use Rattle.bayou_session.specs.declared.session.TheConstants.{FIRST_RUN as FIRST_RUN_NUMBER};
ghost use Rattle.bayou_session.specs.Needs.{Told};

use bayou_base::{Asks, Key, ServerId, SessionId, Value};
use bayou_fakes::values::resting;
use bayou_lang::{Op, Program, RestingProgram, Term};
use bayou_session::{FIRST_RUN, Session};
use bayou_world::world::World;
use bayou_world::{Event, Reply, RunHistory};
use std::alloc::{AllocError, Global};
use std::process::Abort;

pub fn server_id(rt: &impl Abort, index: u8) -> ServerId {
    ServerId::new(index).expect(rt, "no server")
}

pub fn session_id(rt: &impl Abort, index: u8) -> SessionId {
    SessionId::new(index).expect(rt, "no session")
}

pub fn room(rt: &impl Abort) -> Key {
    Key::new("room").expect(rt, "no key")
}

/// Stops the test where it isn't so, and says at which number, that of a row for example: the one assert of all loops over tables, since
/// each costs.
pub fn must_be_so(rt: &impl Abort, is_so: bool, number: usize) {
    assert!(rt; is_so, "not so at {number}");
}

/// The same at an event of a row, of a script for example: it says what the reply was.
pub fn must_be_said(rt: &impl Abort, is_so: bool, (row, event): (usize, usize), reply: &Reply) {
    assert!(rt; is_so, "not so in row {row}, at event {event}: {reply:?}");
}

/// A list with room for so many, also where one allocation is refused: nothing that is pushed to it then wants memory.
pub fn room_for<T>(rt: &impl Abort, alloc: Global, count: usize) -> Vec<T> {
    match Vec::with_capacity(alloc, count) {
        Ok(list) => list,
        Err(_) => Vec::with_capacity(alloc, count).expect(rt, "no memory"),
    }
}

/// A program that puts the number at the key, also where one allocation is refused.
pub fn put_at(rt: &impl Abort, alloc: Global, key: Key, number: i64) -> RestingProgram {
    let op = Op::Put(key, Term::Lit(Value::Num(number)));
    let program = Program::new(&[], &[op], &[]).expect(rt, "no program");
    resting(alloc, &program).expect(rt, "no memory")
}

/// A program that puts the number at `room`.
pub fn put(rt: &impl Abort, alloc: Global, number: i64) -> RestingProgram {
    put_at(rt, alloc, room(rt), number)
}

/// New sessions with these asks, numbered from 0 on.
pub fn sessions_of(
    rt: &impl Abort,
    alloc: Global,
    asks: &[Asks],
) -> Result<Vec<Session>, AllocError>
    ensures { IfOk result (λ sessions. All (λ (session : Told). session.run ≡ FIRST_RUN_NUMBER) sessions.items) }
{
    let mut sessions = Vec::new(alloc);
    let mut index: u8 = 0;
    for asked in asks {
        sessions.push(Session::new(session_id(rt, index), FIRST_RUN, *asked))?;
        index = index.saturating_add(1);
    }
    Ok(sessions)
}

/// The same, where there is memory for it.
pub fn history(
    rt: &impl Abort,
    alloc: Global,
    size: (u8, u32),
    asks: &[Asks],
    events: &[Event],
) -> Box<RunHistory> {
    history_of(rt, alloc, size, asks, events).expect(rt, "no memory")
}

/// What a run leaves, of so many servers, at most four, which hold so many Writes each, at most 1,000, and of sessions with these asks.
/// It is in a box, since a function that owns one is proved sooner.
pub fn history_of(
    rt: &impl Abort,
    alloc: Global,
    (count, limit): (u8, u32),
    asks: &[Asks],
    events: &[Event],
) -> Result<Box<RunHistory>, AllocError> {
    let sessions = sessions_of(rt, alloc, asks)?;
    let world = World::new(alloc, count.min(4), limit.min(1_000), sessions.as_slice())?;
    let history = world.run(alloc, events)?;
    Ok(Box::new(alloc, history)?)
}
