//! Small values: keys, tags, vectors, programs and Writes.
use bayou_base::{Key, SERVERS, ServerId, SessionId, Stamp, Tag, Value, Vector, Wid};
use bayou_lang::{Op, Program, RestingProgram, RestingWrite, Term, Write};
use std::alloc::Global;

/// The tag that this place of the first session has in the first run: each number has its own.
pub fn tag(number: u32) -> Option<Tag> {
    Tag::new(SessionId::new(0)?, 1, number)
}

/// The tag of the place after so many: a fresh one for a server that holds so many Writes, where those before it were given theirs so.
pub fn tag_behind(count: usize) -> Option<Tag> {
    let count = u32::try_from(count).ok()?;
    tag(count.saturating_add(1))
}

/// So many Writes of the first two servers, and none of the others.
pub fn vector(first: u32, second: u32) -> Option<Vector> {
    let mut counts = [0; SERVERS];
    [counts[0], counts[1]] = [first, second];
    Vector::from_counts(counts)
}

/// A program that sets `a`.
fn setting(term: Term) -> Option<Program> {
    let key = Key::new("a").ok()?;
    Program::new(&[], &[Op::Put(key, term)], &[]).ok()
}

/// A program that puts the number at `a`.
pub fn put(number: i64) -> Option<Program> {
    setting(Term::Lit(Value::Num(number)))
}

/// A program that adds the number to what `a` has.
pub fn plus(number: i64) -> Option<Program> {
    setting(Term::Plus(Key::new("a").ok()?, number))
}

/// The program at rest, again where that was refused: in a test of want of memory one allocation is refused, and never a second.
pub fn resting(alloc: Global, program: &Program) -> Option<RestingProgram> {
    match program.rest(alloc) {
        Ok(program) => Some(program),
        Err(_) => program.rest(alloc).ok(),
    }
}

/// A Write of this origin, seq and clock, whose server held so many Writes of the first two servers.
pub fn write(
    (origin, seq, clock): (u8, u32, u32),
    [first, second]: [u32; 2],
    program: Program,
) -> Option<Write> {
    let server = ServerId::new(origin)?;
    Some(Write {
        wid: Wid::new(server, seq)?,
        stamp: Stamp::new(clock, server)?,
        deps: vector(first, second)?,
        program,
    })
}

/// Whether the two have the same Writes.
pub fn are_same(some: &[RestingWrite], others: &[RestingWrite]) -> bool {
    let mut are_so = some.len() == others.len();
    for (at, one) in some.iter().enumerate() {
        are_so &= match others.get(at) {
            Some(other) => one.unfold() == other.unfold(),
            None => false,
        };
    }
    are_so
}

/// The value in a box of its own, also where one allocation is refused: a function that owns a box is proved in a third of the time that one
/// takes which owns a server.
pub fn boxed<T: Drop>(alloc: Global, value: T) -> Option<Box<T>> {
    match Box::new(alloc, value) {
        Ok(value) => Some(value),
        Err(refused) => Box::new(alloc, refused.value).ok(),
    }
}
