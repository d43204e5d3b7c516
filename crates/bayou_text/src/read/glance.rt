//! What a line may tell, at a glance: a guess, which is to be looked into before it is believed.
ghost use Rattle.std.specs.Prelude.{◌≤◌, IfSome, length};
ghost use Rattle.bayou_base.specs.declared.limits.TheConstants.{MAX_OPS as MOST_OPS};

use crate::command::Attempt;
use bayou_base::{
    Asks, Entry, Key, MAX_CONDITIONS, MAX_OPS, Prefix, SERVERS, ServerId, SessionId, Stamp, Value,
    Vector, What, Wid,
};
use bayou_lang::{Cond, Op, RestingProgram, RestingWrite, Term};
use std::alloc::Global;
use std::str;

/// What of a line wasn't looked at yet.
#[derive(Drop)]
struct Glance<'a> {
    rest: &'a [u8],
}

impl<'a> Glance<'a> {
    /// Whether this text came next; then it is passed.
    fn pass(&mut self, text: &[u8]) -> bool {
        match self.rest.strip_prefix(text) {
            Some(rest) => {
                self.rest = rest;
                true
            }
            None => false,
        }
    }

    /// Passes one byte, whatever it is.
    fn skip(&mut self) {
        if let [_, rest @ ..] = self.rest {
            self.rest = rest;
        }
    }

    /// The digits that come next as a number, of 32 bits.
    fn number(&mut self) -> u32 {
        let mut number: u32 = 0;
        let rest = self.rest;
        for at in 0..rest.len() {
            let byte = rest[at];
            if !byte.is_ascii_digit() {
                self.rest = &rest[at..];
                return number;
            }
            number = number.wrapping_mul(10).wrapping_add(u32::from(byte & 15));
        }
        number
    }

    /// The number after one byte.
    fn next_number(&mut self) -> u32 {
        self.skip();
        self.number()
    }

    /// Whether the word comes next, which is passed then with one byte after it.
    fn word(&mut self, word: &[u8]) -> bool {
        let is_next = self.pass(word);
        if is_next {
            self.skip();
        }
        is_next
    }

    /// The array of what is asked for.
    fn asks(&mut self) -> Asks {
        Asks {
            ryw: self.word(b"\"ryw\""),
            mr: self.word(b"\"mr\""),
            wfr: self.word(b"\"wfr\""),
            mw: self.word(b"\"mw\""),
        }
    }

    /// The text up to the next quotation mark, which is passed too.
    fn text(&mut self) -> Option<&'a str> {
        let rest = self.rest;
        let end = rest.iter().position(|byte| *byte == b'"')?;
        self.rest = &rest[end..];
        self.skip();
        str::from_utf8(&rest[..end]).ok()
    }

    fn key(&mut self) -> Option<Key> {
        Key::new(self.text()?).ok()
    }

    /// The number or the text that comes next.
    fn value(&mut self) -> Option<Value> {
        if self.pass(b"\"") {
            return Value::text(self.text()?);
        }
        let sign = if self.pass(b"-") { -1 } else { 1 };
        Some(Value::Num(sign * i64::from(self.number())))
    }

    /// The op that comes next, up to the end of its array, if it sets a key to a value, or takes a key away.
    fn op(&mut self) -> Option<Op> {
        if self.pass(b"[\"put\",\"") {
            let key = self.key()?;
            self.skip();
            return Some(Op::Put(key, Term::Lit(self.value()?)));
        }
        if self.pass(b"[\"del\",\"") {
            return Some(Op::Del(self.key()?));
        }
        None
    }

    /// The ops that come next, up to the end of the list.
    fn ops(&mut self, alloc: Global) -> Option<Vec<Op>> {
        let Ok(mut ops) = Vec::with_capacity(alloc, 1) else {
            return None;
        };
        for _ in 0..MAX_OPS {
            let Some(op) = self.op() else {
                break;
            };
            let Ok(()) = ops.push(op) else {
                return None;
            };
            self.skip();
            self.pass(b",");
        }
        // (most are kept as long as the log)
        ops.shrink_to_fit();
        Some(ops)
    }

    /// The condition that comes next, up to the end of its array.
    fn condition(&mut self) -> Option<Cond> {
        if self.pass(b"[\"absent\",\"") {
            return Some(Cond::Absent(self.key()?));
        }
        if self.pass(b"[\"atmost\",\"") {
            let prefix = Prefix::new(self.text()?).ok()?;
            return Some(Cond::AtMost(prefix, self.next_number()));
        }
        let is_least = self.pass(b"[\"atleast\",\"");
        if !is_least && !self.pass(b"[\"equals\",\"") {
            return None;
        }
        let key = self.key()?;
        self.skip();
        match self.value()? {
            Value::Num(number) if is_least => Some(Cond::AtLeast(key, number)),
            value => Some(Cond::Equals(key, value)),
        }
    }

    /// The conditions that come next, up to the end of the list.
    fn conditions(&mut self, alloc: Global) -> Option<Vec<Cond>> {
        let Ok(mut conditions) = Vec::with_capacity(alloc, 1) else {
            return None;
        };
        for _ in 0..MAX_CONDITIONS {
            let Some(condition) = self.condition() else {
                break;
            };
            let Ok(()) = conditions.push(condition) else {
                return None;
            };
            self.skip();
            self.pass(b",");
        }
        conditions.shrink_to_fit();
        Some(conditions)
    }

    /// The update that comes next, after the beginning of its list, up to the end of the program.
    fn update(&mut self, alloc: Global) -> Option<Vec<Op>>
        ensures { IfSome result (λ ops. length ops.items ≤ MOST_OPS) }
    {
        let ops = self.ops(alloc)?;
        if ops.len() > MAX_OPS || !self.pass(b"]}") {
            return None;
        }
        Some(ops)
    }

    /// The program that comes next, of an update alone, and whether its empty members stand there.
    fn update_alone(&mut self, alloc: Global) -> Option<(RestingProgram, bool)> {
        self.pass(b"{");
        let is_whole = self.pass(b"\"check\":[],\"merge\":[],");
        if !self.pass(b"\"update\":[") {
            return None;
        }
        let update = self.update(alloc)?;
        Some((RestingProgram::of_update(update), is_whole))
    }

    /// The program that comes next, after the beginning of its check, of a check and an update.
    fn checked(&mut self, alloc: Global) -> Option<RestingProgram> {
        let check = self.conditions(alloc)?;
        if check.len() > MAX_CONDITIONS || !self.pass(b"],\"update\":[") {
            return None;
        }
        let update = self.update(alloc)?;
        RestingProgram::new(alloc, check, update, Vec::new(alloc)).ok()
    }

    /// The program that comes next, and which members of it stand there.
    fn program(&mut self, alloc: Global) -> Option<(RestingProgram, Members)> {
        if self.rest.starts_with(b"{\"check\":[[") {
            self.pass(b"{\"check\":[");
            return Some((self.checked(alloc)?, Members::CheckAndUpdate));
        }
        let (program, is_whole) = self.update_alone(alloc)?;
        Some((program, Members::Update { is_whole }))
    }

    /// The array of counts that comes next, and how many they are.
    fn vector(&mut self) -> Option<(Vector, u8)> {
        let mut counts = [0; SERVERS];
        let mut told = 0;
        for server in 0..SERVERS {
            if matches!(self.rest, [b'[' | b',', ..]) {
                counts[server] = self.next_number();
                told = server as u8 + 1;
            }
        }
        Some((Vector::from_counts(counts)?, told))
    }
}

/// The entry that the line may tell, and how many counts its vector has.
pub(crate) fn guess(bytes: &[u8]) -> Option<(Entry, Option<u8>)> {
    let mut glance = Glance { rest: bytes };
    if !glance.pass(b"[\"entry\",") {
        return None;
    }
    let session = SessionId::new(u8::try_from(glance.number()).ok()?)?;
    let place = glance.next_number();
    if place == 0 {
        return None;
    }
    glance.skip();
    glance.skip();
    let asks = glance.asks();
    let server = ServerId::new(u8::try_from(glance.next_number()).ok()?)?;
    let (what, counts) = if glance.pass(b",\"read\",\"") {
        let key = glance.key()?;
        glance.skip();
        let (vector, counts) = glance.vector()?;
        (What::Read(key, vector), Some(counts))
    } else if glance.pass(b",\"write\"") {
        let wid = Wid::new(server, glance.next_number())?;
        let stamp = Stamp::new(glance.next_number(), server)?;
        glance.skip();
        let (vector, counts) = glance.vector()?;
        (What::Write(wid, stamp, vector), Some(counts))
    } else {
        (What::Refused, None)
    };
    Some((
        Entry {
            session,
            place,
            asks,
            server,
            what,
        },
        counts,
    ))
}

/// A Write that is held, as a line may tell it.
#[derive(Drop)]
pub(crate) struct GuessedHeld {
    pub(crate) server: ServerId,
    pub(crate) write: RestingWrite,
    /// How many counts its vector has.
    pub(crate) counts: u8,
    /// Whether the empty members of its program stand in the line.
    pub(crate) is_whole: bool,
}

/// The Write that the line may tell to be held, where its program is an update alone.
pub(crate) fn guess_held(alloc: Global, bytes: &[u8]) -> Option<GuessedHeld> {
    let mut glance = Glance { rest: bytes };
    if !glance.pass(b"[\"held\",") {
        return None;
    }
    let server = ServerId::new(u8::try_from(glance.number()).ok()?)?;
    glance.skip();
    let origin = ServerId::new(u8::try_from(glance.next_number()).ok()?)?;
    let wid = Wid::new(origin, glance.next_number())?;
    let stamp = Stamp::new(glance.next_number(), origin)?;
    glance.skip();
    let (vector, counts) = glance.vector()?;
    glance.pass(b"],");
    let (program, is_whole) = glance.update_alone(alloc)?;
    Some(GuessedHeld {
        server,
        write: RestingWrite::new(wid, stamp, vector, program),
        counts,
        is_whole,
    })
}

/// Which members of a program stand in a line.
#[derive(Clone, Copy, Debug, PartialEq, Eq)]
pub(crate) enum Members {
    /// The update, after the empty check and the empty merge procedure where it is whole.
    Update { is_whole: bool },
    /// The check, and the update after it.
    CheckAndUpdate,
}

/// What a session tries, as a line may tell it.
#[derive(Drop)]
pub(crate) struct GuessedOperation {
    pub(crate) session: SessionId,
    pub(crate) attempt: Attempt,
    /// Those of the program, if it has one.
    pub(crate) members: Members,
}

/// The operation that the line may tell: a read, or a Write whose program has no merge procedure.
pub(crate) fn guess_operation(alloc: Global, bytes: &[u8]) -> Option<GuessedOperation> {
    let mut glance = Glance { rest: bytes };
    let is_write = glance.pass(b"[\"write\",");
    if !is_write && !glance.pass(b"[\"read\",") {
        return None;
    }
    let session = SessionId::new(u8::try_from(glance.number()).ok()?)?;
    let server = ServerId::new(u8::try_from(glance.next_number()).ok()?)?;
    glance.skip();
    let (attempt, members) = if is_write {
        let (program, members) = glance.program(alloc)?;
        (Attempt::Write { server, program }, members)
    } else {
        glance.skip();
        let key = glance.key()?;
        let attempt = Attempt::Read { server, key };
        (attempt, Members::Update { is_whole: false })
    };
    Some(GuessedOperation {
        session,
        attempt,
        members,
    })
}
