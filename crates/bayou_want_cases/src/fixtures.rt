//! What the tests are made of.
ghost use Rattle.std.specs.Prelude.{◌≡◌};

use bayou_base::{Key, MAX_WRITES, SERVERS, ServerId, SessionId, Tag, Vector};
use bayou_device::{MemoryDevice, OpenGate};
use bayou_fakes::sites::{Memory, Served};
use bayou_fakes::values;
use bayou_lang::{Program, RestingProgram};
use bayou_server::{NotStarted, Server};
use std::alloc::Global;
use std::process::Abort;

/// Stops the test where it isn't so, and says at which number: the one assert of all loops over numbers, since each costs.
pub fn must_be_so(rt: &impl Abort, is_so: bool, number: usize) {
    assert!(rt; is_so, "not so at {number}");
}

/// Stops the test where it isn't so, and says in which row.
pub fn must_hold(rt: &impl Abort, is_so: bool, row: &str) {
    assert!(rt; is_so, "not so in the row: {row}");
}

pub fn server_id(rt: &impl Abort, index: u8) -> ServerId
    ensures { result.index ≡ index }
{
    ServerId::new(index).expect(rt, "no server")
}

pub fn session_id(rt: &impl Abort, index: u8) -> SessionId {
    SessionId::new(index).expect(rt, "no session")
}

/// The tag of the place after so many: a fresh one for a server that holds so many Writes, where those before it were given theirs so.
pub fn tag_behind(rt: &impl Abort, count: usize) -> Tag {
    values::tag_behind(count).expect(rt, "no tag")
}

/// The key `a`.
pub fn key(rt: &impl Abort) -> Key {
    Key::new("a").expect(rt, "no key")
}

/// So many Writes of the first two servers, and none of the others.
pub fn vector(rt: &impl Abort, first: u32, second: u32) -> Vector {
    values::vector(first, second).expect(rt, "no vector")
}

/// A program that puts the number at `a`.
pub fn put(rt: &impl Abort, number: i64) -> Program {
    values::put(number).expect(rt, "no program")
}

/// A program that adds the number to what `a` has.
pub fn plus(rt: &impl Abort, number: i64) -> Program {
    values::plus(number).expect(rt, "no program")
}

/// The program at rest, also where one allocation is refused.
pub fn resting(rt: &impl Abort, alloc: Global, program: &Program) -> RestingProgram {
    values::resting(alloc, program).expect(rt, "no memory for a program")
}

/// The value in a box of its own, also where one allocation is refused.
pub fn boxed<T: Drop>(rt: &impl Abort, alloc: Global, value: T) -> Box<T> {
    values::boxed(alloc, value).expect(rt, "no memory")
}

/// The server of this index, of so many, which may hold so many Writes, on the device, and how many bytes were dropped there; or why it didn't
/// start, and the device.
pub fn started(
    rt: &impl Abort,
    alloc: Global,
    (index, count, limit): (u8, u8, u32),
    device: Memory,
) -> Result<(Box<Served>, usize), NotStarted<Memory>> {
    let (count, limit) = (count.min(SERVERS as u8), limit.min(MAX_WRITES));
    if index >= count {
        rt.abort();
    }
    let (server, dropped) = Server::start(alloc, server_id(rt, index), count, limit, device)?;
    Ok((boxed(rt, alloc, server), dropped))
}

/// The same where it starts, also where one allocation is refused.
pub fn start_at_last(
    rt: &impl Abort,
    alloc: Global,
    size: (u8, u8, u32),
    device: Memory,
) -> Box<Served> {
    let refused = match started(rt, alloc, size, device) {
        Ok((server, _)) => return server,
        Err(refused) => refused,
    };
    match started(rt, alloc, size, refused.device) {
        Ok((server, _)) => server,
        Err(_) => rt.abort(),
    }
}

/// Such a server, which holds nothing.
pub fn begun_at_last(rt: &impl Abort, alloc: Global, size: (u8, u8, u32)) -> Box<Served> {
    start_at_last(rt, alloc, size, MemoryDevice::new(alloc, OpenGate))
}

/// Reopens the server where it is down, again where that was refused.
pub fn reopen_at_last(alloc: Global, server: &mut Served) -> bool {
    !server.is_down() || server.reopen(alloc).is_ok() || server.reopen(alloc).is_ok()
}
