//! Small stores in memory, and what their servers hand over.
use crate::fixtures::{begun_at_last, put, resting, server_id};
use bayou_base::{SERVERS, ServerId, SessionId, Stamp, Tag, Vector, Wid};
use bayou_fakes::sites::Served;
use bayou_lang::RestingWrite;
use bayou_peer::Replica;
use bayou_restore::{Gathered, RestoreFault, restore};
use bayou_server::{TookAll, Written};
use std::alloc::Global;
use std::process::Abort;

/// How many servers a store has.
pub const COUNT: u8 = 3;

/// How many Writes each holds at the most.
pub const LIMIT: u32 = 200;

/// The run under whose tags Writes are made again.
pub const RUN: u32 = 4_000_000_000;

pub fn wid(rt: &impl Abort, origin: u8, seq: u32) -> Wid {
    Wid::new(server_id(rt, origin), seq).expect(rt, "no Write")
}

/// So many Writes of the three servers, and none of others.
pub fn vector(rt: &impl Abort, given: [u32; 3]) -> Vector {
    let mut counts = [0; SERVERS];
    let [first, second, third] = given;
    counts[0] = first;
    counts[1] = second;
    counts[2] = third;
    Vector::from_counts(counts).expect(rt, "no vector")
}

/// A Write by hand: its server, its number and its clock, and what its server held of the three.
pub type Given = (u8, u32, u32, [u32; 3]);

/// The Write, whose program puts its clock.
pub fn write(rt: &impl Abort, alloc: Global, given: Given) -> RestingWrite {
    let (origin, seq, clock, deps) = given;
    let server = server_id(rt, origin);
    let name = Wid::new(server, seq).expect(rt, "no Write");
    let stamp = Stamp::new(clock, server).expect(rt, "no stamp");
    RestingWrite::new(
        name,
        stamp,
        vector(rt, deps),
        resting(rt, alloc, &put(rt, i64::from(clock))),
    )
}

/// A server of the store, which holds nothing.
pub fn start(rt: &impl Abort, alloc: Global, index: u8) -> Box<Served> {
    begun_at_last(rt, alloc, (index, COUNT, LIMIT))
}

/// Whether the server makes a Write, under the tag after those of all that it holds.
pub fn makes(rt: &impl Abort, alloc: Global, server: &mut Served, number: u32) -> bool {
    let held = u32::try_from(server.receipts().len()).ok();
    let place = held.expect(rt, "too many Writes").saturating_add(1);
    let session = SessionId::new(3).expect(rt, "no session");
    let tag = Tag::new(session, 1, place).expect(rt, "no tag");
    let program = resting(rt, alloc, &put(rt, i64::from(number)));
    let answer = server.write(alloc, tag, &Vector::zero(), &program);
    matches!(answer, Ok(Written::New(_)))
}

/// The first of what the server has that these counts lack, so many at the most.
pub fn sent(
    rt: &impl Abort,
    alloc: Global,
    server: &Served,
    counts: &Vector,
    most: usize,
) -> Vec<RestingWrite> {
    match server.lacking(alloc, counts, most) {
        Ok(writes) => writes,
        Err(_) => server.lacking(alloc, counts, most).expect(rt, "no memory"),
    }
}

/// Whether the one server takes all that it is sent.
pub fn takes(alloc: Global, server: &mut Served, writes: Vec<RestingWrite>) -> bool {
    let Ok(count) = u32::try_from(writes.len()) else {
        return false;
    };
    let told = server.take_next(alloc, &mut writes.into_iter(), count);
    told == TookAll {
        taken: count,
        had: 0,
        refused: None,
    }
}

/// What the server hands over, all of it.
pub fn gathered(rt: &impl Abort, alloc: Global, server: &Served) -> Gathered {
    let mut gathered = Gathered::new(alloc, COUNT, LIMIT);
    let writes = sent(rt, alloc, server, &Vector::zero(), LIMIT as usize);
    assert!(rt; writes.len() < 1000);
    let told = gathered.take_all(alloc, writes);
    assert!(rt; told.refused.is_none());
    gathered
}

/// Makes the server's own Writes again. It is up, and of as many servers as the list is.
pub fn restored(
    alloc: Global,
    server: &mut Served,
    gathered: &Gathered,
) -> Result<(), RestoreFault> {
    if server.is_down() || server.count() != gathered.count() {
        return Err(RestoreFault::NotEmpty);
    }
    restore(alloc, server, gathered, RUN)
}

/// Whether both hold the Write of this name, and it is one.
fn hold_alike(one: &Served, other: &Served, name: Wid) -> bool {
    match (one.find(name), other.find(name)) {
        (Some(one), Some(other)) => one == other,
        _ => false,
    }
}

/// Whether the first holds just the first `count` of the Writes that the other has of this server.
pub fn has_own_of(rt: &impl Abort, one: &Served, other: &Served, id: ServerId, count: u32) -> bool {
    let mut are_alike = one.vector().get(id) == count;
    for seq in 1..count.min(LIMIT) + 1 {
        are_alike &= hold_alike(one, other, wid(rt, id.index, seq));
    }
    are_alike
}
