//! What the tests of the judge are made of.
use crate::fixtures::{put_at, server_id, session_id};
use bayou_base::{Asks, Entry, Key, What};
use bayou_judge::{BadEvidence, Surveyed, Verdict, judge, lend_dumps, survey};
use bayou_lang::{RestingProgram, RestingWrite};
use std::alloc::Global;
use std::process::Abort;

pub const COUNT: u8 = 3;

/// A program that puts the number at `a`.
pub fn put(rt: &impl Abort, alloc: Global, number: i64) -> RestingProgram {
    put_at(rt, alloc, Key::new("a").expect(rt, "no key"), number)
}

/// The four guarantees, each a letter of `rmfw`, that are asked for.
pub fn asks_of(letters: &str) -> Asks {
    let bytes = letters.as_bytes();
    Asks {
        ryw: bytes.contains(&b'r'),
        mr: bytes.contains(&b'm'),
        wfr: bytes.contains(&b'f'),
        mw: bytes.contains(&b'w'),
    }
}

/// An entry of this session, place and server.
pub fn entry(rt: &impl Abort, asks: Asks, of: (u8, u32, u8), what: What) -> Entry {
    let (session, place, server) = of;
    Entry {
        session: session_id(rt, session),
        place: place.max(1),
        asks,
        server: server_id(rt, server),
        what,
    }
}

/// What the judge answers, and what it surveys.
pub fn asked(
    rt: &impl Abort,
    alloc: Global,
    entries: &[Entry],
    dumps: &[Vec<RestingWrite>],
) -> (
    Result<Verdict, BadEvidence>,
    Result<Vec<Surveyed>, BadEvidence>,
) {
    assert!(rt; dumps.len() == usize::from(COUNT));
    let lent = lend_dumps(dumps);
    (
        judge(alloc, COUNT, entries, lent.as_slice()).expect(rt, "no memory"),
        survey(alloc, COUNT, entries, lent.as_slice()).expect(rt, "no memory"),
    )
}
