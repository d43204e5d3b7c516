//! Readers: each answers what stands at the front of the bytes and the bytes after it, or `None` where nothing that
//! it reads stands there.
ghost use Rattle.std.specs.Prelude.{◌≡◌, ℕ, ◌≤◌, List, Option, length};
ghost use Rattle.std.specs.Int.{w16, w32, w64};
ghost use Rattle.bayou_base.specs.declared.limits.TheConstants.{SERVERS};
ghost use Rattle.bayou_wire.specs.Inner.Reading.{Gives, accepted_at, alt_at, byte_at, cond_at, i64_at, key_at, list_at, number_at, op_at, prefix_at, program_at, accepted_of as accepted_of_parts, server_of as server_of_index, session_of as session_of_index, tag_of as tag_of_parts, tag_at, vector_of as vector_of_counts, wid_of as wid_of_parts, short_at, term_at, text_at, times, value_at, vector_at, wid_at, write_at};

use crate::layout::*;
use arrayvec::ArrayVec;
use bayou_base::{
    Accepted, Key, Prefix, SERVERS, ServerId, SessionId, Stamp, Tag, Text, Value, Vector, Wid,
};
use bayou_lang::{Alt, Cond, Op, Program, Term, Write};

/// What stands in lists.
pub(crate) trait Member: Default + Drop {
    ghost at: { List ℕ → Option (Self × List ℕ) };

    /// The member at the front.
    fn take(bytes: &[u8]) -> Option<(Self, &[u8])>
        ensures { Gives (λ x. (x.0, x.1.now)) result (at bytes.now) };
}

/// So many members.
pub(crate) fn members_of<T: Member, const CAP: usize>(
    count: usize,
    bytes: &[u8],
) -> Option<(ArrayVec<T, CAP>, &[u8])>
    requires { count ≤ CAP }
    ensures { Gives (λ x. (x.0.items, x.1.now)) result (times count T.at bytes.now) }
{
    let mut members = ArrayVec::new();
    let mut rest = bytes;
    for _ in 0..count {
        let Some((member, behind)) = T::take(rest) else {
            return None;
        };
        members.push(member);
        rest = behind;
    }
    Some((members, rest))
}

#[tactic(auto, unfolding(crate::specs::Inner::Reading::list_at))]
pub(crate) fn list_of<T: Member, const CAP: usize>(
    bytes: &[u8],
) -> Option<(ArrayVec<T, CAP>, &[u8])>
    ensures { Gives (λ x. (x.0.items, x.1.now)) result (list_at CAP T.at bytes.now) }
{
    let [count, rest @ ..] = bytes else {
        return None;
    };
    let count = usize::from(*count);
    if CAP < count {
        return None;
    }
    members_of(count, rest)
}

pub(crate) fn byte_of(bytes: &[u8]) -> Option<(u8, &[u8])>
    ensures { Gives (λ x. (x.0, x.1.now)) result (byte_at bytes.now) }
{
    match bytes {
        [] => None,
        [byte, rest @ ..] => Some((*byte, rest)),
    }
}

pub(crate) fn u32_of(bytes: &[u8]) -> Option<(u32, &[u8])>
    ensures { Gives (λ x. (x.0, x.1.now)) result (number_at w32 bytes.now) }
{
    if bytes.len() < 4 {
        return None;
    }
    let (front, rest) = bytes.split_at(4);
    let number = u32::from_be_bytes([front[0], front[1], front[2], front[3]]);
    Some((number, rest))
}

fn i64_of(bytes: &[u8]) -> Option<(i64, &[u8])>
    ensures { Gives (λ x. (x.0, x.1.now)) result (i64_at bytes.now) }
{
    if bytes.len() < 8 {
        return None;
    }
    let (front, rest) = bytes.split_at(8);
    let number = i64::from_be_bytes([
        front[0], front[1], front[2], front[3], front[4], front[5], front[6], front[7],
    ]);
    Some((number, rest))
}

fn short_of(bytes: &[u8]) -> Option<(&[u8], &[u8])>
    ensures { Gives (λ x. (x.0.now, x.1.now)) result (short_at bytes.now) }
{
    let [len, rest @ ..] = bytes else {
        return None;
    };
    let len = usize::from(*len);
    if rest.len() < len {
        return None;
    }
    Some(rest.split_at(len))
}

#[tactic(auto, unfolding(crate::specs::Inner::Reading::key_at))]
pub(crate) fn key_of(bytes: &[u8]) -> Option<(Key, &[u8])>
    ensures { Gives (λ x. (x.0, x.1.now)) result (key_at bytes.now) }
{
    let Some((name, rest)) = short_of(bytes) else {
        return None;
    };
    let Ok(name) = str::from_utf8(name) else {
        return None;
    };
    let Ok(key) = Key::new(name) else {
        return None;
    };
    Some((key, rest))
}

#[tactic(auto, unfolding(crate::specs::Inner::Reading::prefix_at))]
pub(crate) fn prefix_of(bytes: &[u8]) -> Option<(Prefix, &[u8])>
    ensures { Gives (λ x. (x.0, x.1.now)) result (prefix_at bytes.now) }
{
    let Some((text, rest)) = short_of(bytes) else {
        return None;
    };
    let Ok(text) = str::from_utf8(text) else {
        return None;
    };
    let Ok(prefix) = Prefix::new(text) else {
        return None;
    };
    Some((prefix, rest))
}

#[tactic(auto, unfolding(crate::specs::Inner::Reading::text_at))]
fn text_of(bytes: &[u8]) -> Option<(Text, &[u8])>
    ensures { Gives (λ x. (x.0, x.1.now)) result (text_at bytes.now) }
{
    let Some((text, rest)) = short_of(bytes) else {
        return None;
    };
    let Ok(text) = str::from_utf8(text) else {
        return None;
    };
    let Some(text) = Text::new(text) else {
        return None;
    };
    Some((text, rest))
}

#[tactic(auto, unfolding(crate::specs::Inner::Reading::value_at))]
pub(crate) fn value_of(bytes: &[u8]) -> Option<(Value, &[u8])>
    ensures { Gives (λ x. (x.0, x.1.now)) result (value_at bytes.now) }
{
    match bytes {
        [VALUE_NUM, rest @ ..] => {
            let Some((number, rest)) = i64_of(rest) else {
                return None;
            };
            Some((Value::Num(number), rest))
        }
        [VALUE_TEXT, rest @ ..] => {
            let Some((text, rest)) = text_of(rest) else {
                return None;
            };
            Some((Value::Text(text), rest))
        }
        _ => None,
    }
}

#[tactic(auto, unfolding(crate::specs::Inner::Reading::term_at))]
fn term_of(bytes: &[u8]) -> Option<(Term, &[u8])>
    ensures { Gives (λ x. (x.0, x.1.now)) result (term_at bytes.now) }
{
    match bytes {
        [TERM_LIT, rest @ ..] => {
            let Some((value, rest)) = value_of(rest) else {
                return None;
            };
            Some((Term::Lit(value), rest))
        }
        [TERM_COPY, rest @ ..] => {
            let Some((key, rest)) = key_of(rest) else {
                return None;
            };
            Some((Term::Copy(key), rest))
        }
        [TERM_PLUS, rest @ ..] => {
            let Some((key, rest)) = key_of(rest) else {
                return None;
            };
            let Some((number, rest)) = i64_of(rest) else {
                return None;
            };
            Some((Term::Plus(key, number), rest))
        }
        _ => None,
    }
}

impl Member for Op {
    ghost at = { op_at };

    #[tactic(auto, unfolding(crate::specs::Inner::Reading::op_at))]
    fn take(bytes: &[u8]) -> Option<(Self, &[u8])> {
        match bytes {
            [OP_PUT, rest @ ..] => {
                let Some((key, rest)) = key_of(rest) else {
                    return None;
                };
                let Some((term, rest)) = term_of(rest) else {
                    return None;
                };
                Some((Op::Put(key, term), rest))
            }
            [OP_DEL, rest @ ..] => {
                let Some((key, rest)) = key_of(rest) else {
                    return None;
                };
                Some((Op::Del(key), rest))
            }
            _ => None,
        }
    }
}

impl Member for Cond {
    ghost at = { cond_at };

    #[tactic(auto, unfolding(crate::specs::Inner::Reading::cond_at))]
    fn take(bytes: &[u8]) -> Option<(Self, &[u8])> {
        match bytes {
            [COND_EQUALS, rest @ ..] => {
                let Some((key, rest)) = key_of(rest) else {
                    return None;
                };
                let Some((value, rest)) = value_of(rest) else {
                    return None;
                };
                Some((Cond::Equals(key, value), rest))
            }
            [COND_ABSENT, rest @ ..] => {
                let Some((key, rest)) = key_of(rest) else {
                    return None;
                };
                Some((Cond::Absent(key), rest))
            }
            [COND_AT_LEAST, rest @ ..] => {
                let Some((key, rest)) = key_of(rest) else {
                    return None;
                };
                let Some((number, rest)) = i64_of(rest) else {
                    return None;
                };
                Some((Cond::AtLeast(key, number), rest))
            }
            [COND_AT_MOST, rest @ ..] => {
                let Some((prefix, rest)) = prefix_of(rest) else {
                    return None;
                };
                let Some((most, rest)) = u32_of(rest) else {
                    return None;
                };
                Some((Cond::AtMost(prefix, most), rest))
            }
            _ => None,
        }
    }
}

impl Member for Alt {
    ghost at = { alt_at };

    #[tactic(auto, unfolding(crate::specs::Inner::Reading::alt_at))]
    fn take(bytes: &[u8]) -> Option<(Self, &[u8])> {
        let Some((when, rest)) = list_of(bytes) else {
            return None;
        };
        let Some((ops, rest)) = list_of(rest) else {
            return None;
        };
        Some((Alt { when, ops }, rest))
    }
}

/// A count of a vector.
impl Member for u32 {
    ghost at = { number_at w32 };

    fn take(bytes: &[u8]) -> Option<(Self, &[u8])> {
        u32_of(bytes)
    }
}

#[tactic(auto, unfolding(crate::specs::Inner::Reading::program_at))]
pub(crate) fn program_of(bytes: &[u8]) -> Option<(Program, &[u8])>
    ensures { Gives (λ x. (x.0, x.1.now)) result (program_at bytes.now) }
{
    let Some((check, rest)) = list_of(bytes) else {
        return None;
    };
    let Some((update, rest)) = list_of(rest) else {
        return None;
    };
    let Some((merge, rest)) = list_of(rest) else {
        return None;
    };
    Some((
        Program {
            check,
            update,
            merge,
        },
        rest,
    ))
}

fn vector_from(list: &[u32]) -> Option<Vector>
    requires { length list.now ≡ SERVERS }
    ensures { result ≡ vector_of_counts list.now }
{
    let mut counts = [0; SERVERS];
    counts.copy_from_slice(list);
    Vector::from_counts(counts)
}

#[tactic(auto, unfolding(crate::specs::Inner::Reading::vector_at))]
pub(crate) fn vector_of(bytes: &[u8]) -> Option<(Vector, &[u8])>
    ensures { Gives (λ x. (x.0, x.1.now)) result (vector_at bytes.now) }
{
    let Some((list, rest)) = members_of::<u32, SERVERS>(SERVERS, bytes) else {
        return None;
    };
    let Some(vector) = vector_from(list.as_slice()) else {
        return None;
    };
    Some((vector, rest))
}

pub(crate) fn server_from(index: u8) -> Option<ServerId>
    ensures { result ≡ server_of_index index }
{
    ServerId::new(index)
}

fn wid_from(origin: ServerId, seq: u32) -> Option<Wid>
    ensures { result ≡ wid_of_parts origin seq }
{
    Wid::new(origin, seq)
}

fn accepted_from(wid: Wid, clock: u32, deps: Vector) -> Option<Accepted>
    ensures { result ≡ accepted_of_parts wid clock deps }
{
    let Some(stamp) = Stamp::new(clock, wid.origin) else {
        return None;
    };
    Some(Accepted { wid, stamp, deps })
}

#[tactic(auto, unfolding(crate::specs::Inner::Reading::wid_at))]
pub(crate) fn wid_of(bytes: &[u8]) -> Option<(Wid, &[u8])>
    ensures { Gives (λ x. (x.0, x.1.now)) result (wid_at bytes.now) }
{
    let Some((index, rest)) = byte_of(bytes) else {
        return None;
    };
    let Some(origin) = server_from(index) else {
        return None;
    };
    let Some((seq, rest)) = u32_of(rest) else {
        return None;
    };
    let Some(wid) = wid_from(origin, seq) else {
        return None;
    };
    Some((wid, rest))
}

fn session_from(index: u8) -> Option<SessionId>
    ensures { result ≡ session_of_index index }
{
    SessionId::new(index)
}

fn tag_from(session: SessionId, run: u32, number: u32) -> Option<Tag>
    ensures { result ≡ tag_of_parts session run number }
{
    Tag::new(session, run, number)
}

#[tactic(auto, unfolding(crate::specs::Inner::Reading::tag_at))]
pub(crate) fn tag_of(bytes: &[u8]) -> Option<(Tag, &[u8])>
    ensures { Gives (λ x. (x.0, x.1.now)) result (tag_at bytes.now) }
{
    let Some((index, rest)) = byte_of(bytes) else {
        return None;
    };
    let Some(session) = session_from(index) else {
        return None;
    };
    let Some((run, rest)) = u32_of(rest) else {
        return None;
    };
    let Some((number, rest)) = u32_of(rest) else {
        return None;
    };
    let Some(tag) = tag_from(session, run, number) else {
        return None;
    };
    Some((tag, rest))
}

#[tactic(auto, unfolding(crate::specs::Inner::Reading::accepted_at))]
pub(crate) fn accepted_of(bytes: &[u8]) -> Option<(Accepted, &[u8])>
    ensures { Gives (λ x. (x.0, x.1.now)) result (accepted_at bytes.now) }
{
    let Some((wid, rest)) = wid_of(bytes) else {
        return None;
    };
    let Some((clock, rest)) = u32_of(rest) else {
        return None;
    };
    let Some((deps, rest)) = vector_of(rest) else {
        return None;
    };
    let Some(accepted) = accepted_from(wid, clock, deps) else {
        return None;
    };
    Some((accepted, rest))
}

#[tactic(auto, unfolding(crate::specs::Inner::Reading::write_at))]
pub(crate) fn write_of(bytes: &[u8]) -> Option<(Write, &[u8])>
    ensures { Gives (λ x. (x.0, x.1.now)) result (write_at bytes.now) }
{
    let Some((head, rest)) = accepted_of(bytes) else {
        return None;
    };
    let Some((program, rest)) = program_of(rest) else {
        return None;
    };
    Some((
        Write {
            wid: head.wid,
            stamp: head.stamp,
            deps: head.deps,
            program,
        },
        rest,
    ))
}
