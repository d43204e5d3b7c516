//! How many keys of a database begin so, beside a list of the keys that it has.
use crate::fixtures::must_hold;
use arrayvec::ArrayString;
use bayou_base::{Key, Prefix, Value};
use bayou_lang::{Cond, Look, Op, Program, Term};
use bayou_log::{Db, Undo};
use std::alloc::{AllocError, Global};
use std::process::Abort;

/// How many keys the database gets.
const KEYS: usize = 200;

/// What they begin with, in turn.
static BEGINNINGS: [&str; 3] = ["a/", "a/b", "c"];

static DIGITS: [&str; 10] = ["0", "1", "2", "3", "4", "5", "6", "7", "8", "9"];

/// The key of this number: a beginning and three digits.
fn numbered(rt: &impl Abort, number: usize) -> Key {
    let mut name: ArrayString<32> = ArrayString::new();
    let parts = [
        BEGINNINGS[number % 3],
        DIGITS[number / 100 % 10],
        DIGITS[number / 10 % 10],
        DIGITS[number % 10],
    ];
    for part in parts.iter() {
        name.try_push_str(part).expect(rt, "no room");
    }
    Key::new(name.as_str()).expect(rt, "no key")
}

/// The number of the key that is put at this step: each once, and not in their order.
fn at_step(step: usize) -> usize {
    step % KEYS * 73 % KEYS
}

/// Whether the key of this number is taken away again.
fn is_taken_away(number: usize) -> bool {
    number % 7 == 3
}

/// Whether programs count keys; from the first of them on a database keeps those that are present.
#[derive(Clone, Copy, Debug, PartialEq, Eq)]
enum Checks {
    Nothing,
    ANumber,
}

/// The program of this op, after such a check, which holds.
fn program_of(rt: &impl Abort, checks: Checks, op: Op) -> Program {
    let made = match checks {
        Checks::Nothing => Program::new(&[], &[op], &[]),
        Checks::ANumber => {
            let counted = Cond::AtMost(Prefix::default(), u32::MAX);
            Program::new(&[counted], &[op], &[])
        }
    };
    made.expect(rt, "no program")
}

/// Does the op to the database.
fn does(
    rt: &impl Abort,
    alloc: Global,
    db: &mut Db,
    checks: Checks,
    op: Op,
) -> Result<(), AllocError> {
    let program = program_of(rt, checks, op).rest(alloc)?;
    db.prepare(&program)?;
    db.apply(&program, &mut Undo::new());
    Ok(())
}

fn put_of(rt: &impl Abort, number: usize) -> Op {
    Op::Put(numbered(rt, number), Term::Lit(Value::Num(1)))
}

fn puts(
    rt: &impl Abort,
    alloc: Global,
    db: &mut Db,
    checks: Checks,
    number: usize,
) -> Result<(), AllocError> {
    does(rt, alloc, db, checks, put_of(rt, number))
}

fn takes(
    rt: &impl Abort,
    alloc: Global,
    db: &mut Db,
    checks: Checks,
    number: usize,
) -> Result<(), AllocError> {
    does(rt, alloc, db, checks, Op::Del(numbered(rt, number)))
}

/// Whether so many keys begin so, no more and no fewer.
fn has_exactly(db: &Db, prefix: &Prefix, number: usize) -> bool {
    let most = u32::try_from(number).unwrap_or(u32::MAX);
    db.has_at_most(prefix, most) && (most == 0 || !db.has_at_most(prefix, most.saturating_sub(1)))
}

/// Puts that many keys, not in their order, and takes some away again. Where memory is refused, as many begin so as before, and it is done again.
fn fills(rt: &impl Abort, alloc: Global, db: &mut Db, checks: Checks, keys: usize) -> bool {
    let all = Prefix::default();
    let mut is_so = true;
    for step in 0..keys {
        let number = at_step(step);
        is_so &= puts(rt, alloc, db, checks, number).is_ok()
            || (has_exactly(db, &all, step) && puts(rt, alloc, db, checks, number).is_ok());
    }
    for step in 0..keys {
        let number = at_step(step);
        if is_taken_away(number) {
            is_so &= takes(rt, alloc, db, checks, number).is_ok()
                || takes(rt, alloc, db, checks, number).is_ok();
        }
    }
    is_so
}

/// How many of the first so many keys that were put and not taken away begin so.
fn listed(rt: &impl Abort, keys: usize, beginning: &str) -> usize {
    let mut count: usize = 0;
    for step in 0..keys {
        let number = at_step(step);
        if !is_taken_away(number) && numbered(rt, number).as_str().starts_with(beginning) {
            count = count.saturating_add(1);
        }
    }
    count
}

/// What is asked for: no byte, whole beginnings and parts of them, a key that is there, one that was taken away, and what none begins with.
static ASKED: [&str; 16] = [
    "",
    "a",
    "a/",
    "a/b",
    "a/b0",
    "a/1",
    "a/000",
    "a/0000",
    "a/003",
    "a.",
    "b",
    "c",
    "c19",
    "-",
    "z",
    "0123456789abcdef0123456789abcdef",
];

/// The bounds of the counts: none, one, as many as some have and one less, and all.
static BOUNDS: [u32; 7] = [0, 1, 56, 57, 171, 200, u32::MAX];

/// Whether the database has as many of them as the list, and at most so many where the list has.
fn is_listed(db: &Db, prefix: &Prefix, listed: usize) -> bool {
    let mut is_so = has_exactly(db, prefix, listed);
    for most in BOUNDS.iter() {
        let told = listed <= *most as usize;
        is_so &= db.has_at_most(prefix, *most) == told
            && Look::has_at_most(db, prefix, *most) == told;
    }
    is_so
}

/// Of each beginning the database has as many as the list.
fn tells_all(rt: &impl Abort, db: &Db, keys: usize) {
    for beginning in ASKED.iter() {
        let prefix = Prefix::new(beginning).expect(rt, "no prefix");
        must_hold(
            rt,
            is_listed(db, &prefix, listed(rt, keys, beginning)),
            beginning,
        );
    }
}

/// Counted by hand: of the 200 keys 67 begin with `a/` and a digit, 67 with `a/b` and 66 with `c`, and 10, 10 and 9 of them were taken away.
static BY_HAND: [(&str, u32, bool); 10] = [
    ("", 1000, true),
    ("", 171, true),
    ("", 170, false),
    ("", 3, false),
    ("a/", 114, true),
    ("a/", 113, false),
    ("a/b", 57, true),
    ("a/b", 56, false),
    ("a/b", 55, false),
    ("c", 0, false),
];

#[test]
fn removed_keys_are_not_counted(rt: HostRuntime) {
    let mut db = Db::new(rt.alloc());
    let are_put = fills(&rt, rt.alloc(), &mut db, Checks::Nothing, KEYS);
    for (beginning, most, told) in BY_HAND.iter() {
        let prefix = Prefix::new(beginning).expect(&rt, "no prefix");
        must_hold(
            &rt,
            are_put && db.has_at_most(&prefix, *most) == *told,
            beginning,
        );
    }
}

/// For runs in which any one allocation is refused: as many begin so as before, and with ample memory the key is put.
#[test]
fn one_want_of_memory_costs_no_key(rt: HostRuntime) {
    let mut db = Db::new(rt.alloc());
    let are_put = fills(&rt, rt.alloc(), &mut db, Checks::Nothing, 24);
    must_hold(&rt, are_put, "puts and takes");
    tells_all(&rt, &db, 24);
}

/// For runs in which any one allocation is refused: where the present keys find no memory they are counted all the same.
#[test]
fn one_want_of_memory_costs_no_count(rt: HostRuntime) {
    let mut db = Db::new(rt.alloc());
    let are_put = fills(&rt, rt.alloc(), &mut db, Checks::ANumber, 40);
    must_hold(&rt, are_put, "puts and takes");
    tells_all(&rt, &db, 40);
}
