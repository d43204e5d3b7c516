//! Writers: each appends the one spelling of what it is given.
ghost use Rattle.std.specs.Prelude.{◌≡◌, ◌<◌, ◌^◌, ◌++◌, ◌∷◌, [], ℕ, List, length, OnOk};
ghost use Rattle.std.specs.List.{flat_map, AllByRecursion};
ghost use Rattle.bayou_lang.specs.Ranges.{IsAlt, IsCond, IsI64, IsKey, IsOp, IsPrefix, IsProgram, IsTerm, IsText, IsValue, IsWrite};
ghost use Rattle.bayou_wire.specs.Spelling.{accepted_bytes, alt_bytes, cond_bytes, i64_bytes, list_bytes, op_bytes, optional_value_bytes, optional_wid_bytes, payload_bytes, program_bytes, refusal_bytes, short_bytes, tag_bytes, term_bytes, u32_bytes, value_bytes, vector_bytes, wid_bytes, write_bytes, IsFrame, IsRefusal, IsTag};
ghost use Rattle.bayou_base.specs.Vector.{AreCounts};
ghost use Rattle.std.specs.Option.{IfSome};

use crate::frame::Frame;
use crate::layout::*;
use bayou_base::{Key, Prefix, Refusal, Stamp, Tag, Text, Value, Vector, Wid};
use bayou_lang::{Alt, Cond, Op, Program, RestingAlt, RestingProgram, RestingWrite, Term, Write};
use std::alloc::AllocError;

/// What stands in lists.
pub(crate) trait Spelled {
    ghost Is: { Self → Type 0 };

    ghost spelling: { Self → List ℕ };

    /// Appends the spelling.
    fn put(&self, out: &mut Vec<u8>) -> Result<(), AllocError>
        ensures { OnOk result (Is self.now × (out.new.items ≡ out.old.items ++ spelling self.now)) };
}

pub(crate) fn put_list<T: Spelled>(out: &mut Vec<u8>, members: &[T]) -> Result<(), AllocError>
    requires { length members.now < 256 }
    ensures { OnOk result (AllByRecursion T.Is members.now × (out.new.items ≡ out.old.items ++ list_bytes T.spelling members.now)) }
{
    out.push(members.len() as u8)?;
    for member in members {
        member.put(out)?;
    }
    Ok(())
}

pub(crate) fn put_u32(out: &mut Vec<u8>, number: u32) -> Result<(), AllocError>
    ensures { OnOk result ((number < 2 ^ 32) × (out.new.items ≡ out.old.items ++ u32_bytes number)) }
{
    out.extend_from_slice(&number.to_be_bytes())
}

#[tactic(auto, unfolding(crate::specs::Spelling::i64_bytes))]
fn put_i64(out: &mut Vec<u8>, number: i64) -> Result<(), AllocError>
    ensures { OnOk result (IsI64 number × (out.new.items ≡ out.old.items ++ i64_bytes number)) }
{
    out.extend_from_slice(&number.to_be_bytes())
}

fn put_short(out: &mut Vec<u8>, bytes: &[u8]) -> Result<(), AllocError>
    requires { length bytes.now < 256 }
    ensures { OnOk result (out.new.items ≡ out.old.items ++ short_bytes bytes.now) }
{
    out.push(bytes.len() as u8)?;
    out.extend_from_slice(bytes)
}

pub(crate) fn put_key(out: &mut Vec<u8>, key: &Key) -> Result<(), AllocError>
    ensures { OnOk result (IsKey key.now × (out.new.items ≡ out.old.items ++ short_bytes key.now)) }
{
    put_short(out, key.as_str().as_bytes())
}

pub(crate) fn put_prefix(out: &mut Vec<u8>, prefix: &Prefix) -> Result<(), AllocError>
    ensures { OnOk result (IsPrefix prefix.now × (out.new.items ≡ out.old.items ++ short_bytes prefix.now)) }
{
    put_short(out, prefix.as_str().as_bytes())
}

fn put_text(out: &mut Vec<u8>, text: &Text) -> Result<(), AllocError>
    ensures { OnOk result (IsText text.now × (out.new.items ≡ out.old.items ++ short_bytes text.now)) }
{
    put_short(out, text.as_str().as_bytes())
}

pub(crate) fn put_value(out: &mut Vec<u8>, value: &Value) -> Result<(), AllocError>
    ensures { OnOk result (IsValue value.now × (out.new.items ≡ out.old.items ++ value_bytes value.now)) }
{
    match value {
        Value::Num(number) => {
            out.push(VALUE_NUM)?;
            put_i64(out, *number)
        }
        Value::Text(text) => {
            out.push(VALUE_TEXT)?;
            put_text(out, text)
        }
    }
}

fn put_term(out: &mut Vec<u8>, term: &Term) -> Result<(), AllocError>
    ensures { OnOk result (IsTerm term.now × (out.new.items ≡ out.old.items ++ term_bytes term.now)) }
{
    match term {
        Term::Lit(value) => {
            out.push(TERM_LIT)?;
            put_value(out, value)
        }
        Term::Copy(key) => {
            out.push(TERM_COPY)?;
            put_key(out, key)
        }
        Term::Plus(key, number) => {
            out.push(TERM_PLUS)?;
            put_key(out, key)?;
            put_i64(out, *number)
        }
    }
}

impl Spelled for Op {
    ghost Is = { IsOp };

    ghost spelling = { op_bytes };

    fn put(&self, out: &mut Vec<u8>) -> Result<(), AllocError> {
        match self {
            Op::Put(key, term) => {
                out.push(OP_PUT)?;
                put_key(out, key)?;
                put_term(out, term)
            }
            Op::Del(key) => {
                out.push(OP_DEL)?;
                put_key(out, key)
            }
        }
    }
}

impl Spelled for Cond {
    ghost Is = { IsCond };

    ghost spelling = { cond_bytes };

    fn put(&self, out: &mut Vec<u8>) -> Result<(), AllocError> {
        match self {
            Cond::Equals(key, value) => {
                out.push(COND_EQUALS)?;
                put_key(out, key)?;
                put_value(out, value)
            }
            Cond::Absent(key) => {
                out.push(COND_ABSENT)?;
                put_key(out, key)
            }
            Cond::AtLeast(key, number) => {
                out.push(COND_AT_LEAST)?;
                put_key(out, key)?;
                put_i64(out, *number)
            }
            Cond::AtMost(prefix, most) => {
                out.push(COND_AT_MOST)?;
                put_prefix(out, prefix)?;
                put_u32(out, *most)
            }
        }
    }
}

impl Spelled for Alt {
    ghost Is = { IsAlt };

    ghost spelling = { alt_bytes };

    fn put(&self, out: &mut Vec<u8>) -> Result<(), AllocError> {
        put_list(out, self.when.as_slice())?;
        put_list(out, self.ops.as_slice())
    }
}

/// By its value it is an alternative, and so it is spelled as one.
impl Spelled for RestingAlt {
    ghost Is = { IsAlt };

    ghost spelling = { alt_bytes };

    fn put(&self, out: &mut Vec<u8>) -> Result<(), AllocError> {
        put_list(out, self.when())?;
        put_list(out, self.ops())
    }
}

fn put_resting_program(out: &mut Vec<u8>, program: &RestingProgram) -> Result<(), AllocError>
    ensures { OnOk result (IsProgram program.now × (out.new.items ≡ out.old.items ++ program_bytes program.now)) }
{
    put_list(out, program.check())?;
    put_list(out, program.update())?;
    put_list(out, program.merge())
}

pub(crate) fn put_program(out: &mut Vec<u8>, program: &Program) -> Result<(), AllocError>
    ensures { OnOk result (IsProgram program.now × (out.new.items ≡ out.old.items ++ program_bytes program.now)) }
{
    put_list(out, program.check.as_slice())?;
    put_list(out, program.update.as_slice())?;
    put_list(out, program.merge.as_slice())
}

fn put_counts(out: &mut Vec<u8>, counts: &[u32]) -> Result<(), AllocError>
    ensures { OnOk result (out.new.items ≡ out.old.items ++ flat_map u32_bytes counts.now) }
{
    for count in counts {
        put_u32(out, *count)?;
    }
    Ok(())
}

pub(crate) fn put_vector(out: &mut Vec<u8>, vector: &Vector) -> Result<(), AllocError>
    ensures { OnOk result (AreCounts vector.now × (out.new.items ≡ out.old.items ++ vector_bytes vector.now)) }
{
    put_counts(out, vector.counts())
}

pub(crate) fn put_wid(out: &mut Vec<u8>, wid: Wid) -> Result<(), AllocError>
    ensures { OnOk result (out.new.items ≡ out.old.items ++ wid_bytes wid) }
{
    out.push(wid.origin.index)?;
    put_u32(out, wid.seq)
}

pub(crate) fn put_tag(out: &mut Vec<u8>, tag: Tag) -> Result<(), AllocError>
    ensures { OnOk result (IsTag tag × (out.new.items ≡ out.old.items ++ tag_bytes tag)) }
{
    out.push(tag.session.index)?;
    put_u32(out, tag.run)?;
    put_u32(out, tag.number)
}

fn put_accepted(out: &mut Vec<u8>, wid: Wid, stamp: Stamp, deps: &Vector) -> Result<(), AllocError>
    ensures { OnOk result (AreCounts deps.now × (out.new.items ≡ out.old.items ++ accepted_bytes wid stamp deps.now)) }
{
    put_wid(out, wid)?;
    put_u32(out, stamp.clock)?;
    put_vector(out, deps)
}

pub(crate) fn put_write(out: &mut Vec<u8>, write: &Write) -> Result<(), AllocError>
    ensures { OnOk result (IsWrite write.now × (out.new.items ≡ out.old.items ++ write_bytes write.now)) }
{
    put_accepted(out, write.wid, write.stamp, &write.deps)?;
    put_program(out, &write.program)
}

pub(crate) fn put_resting_write(out: &mut Vec<u8>, write: &RestingWrite) -> Result<(), AllocError>
    ensures { OnOk result (IsWrite write.now × (out.new.items ≡ out.old.items ++ write_bytes write.now)) }
{
    put_accepted(out, write.wid(), write.stamp(), write.deps())?;
    put_resting_program(out, write.program())
}

fn put_optional_value(out: &mut Vec<u8>, value: &Option<Value>) -> Result<(), AllocError>
    ensures { OnOk result (IfSome value.now IsValue × (out.new.items ≡ out.old.items ++ optional_value_bytes value.now)) }
{
    match value {
        None => {
            out.push(ABSENT)?;
            Ok(())
        }
        Some(value) => put_value(out, value),
    }
}

fn put_optional_wid(out: &mut Vec<u8>, wid: Option<Wid>) -> Result<(), AllocError>
    ensures { OnOk result (out.new.items ≡ out.old.items ++ optional_wid_bytes wid) }
{
    match wid {
        None => {
            out.push(ABSENT)?;
            Ok(())
        }
        Some(wid) => {
            out.push(PRESENT)?;
            put_wid(out, wid)
        }
    }
}

pub(crate) fn put_code(out: &mut Vec<u8>, code: u8) -> Result<(), AllocError>
    ensures { OnOk result (out.new.items ≡ out.old.items ++ code ∷ []) }
{
    out.push(code)?;
    Ok(())
}

fn put_refusal(out: &mut Vec<u8>, refusal: &Refusal) -> Result<(), AllocError>
    ensures { OnOk result (IsRefusal refusal.now × (out.new.items ≡ out.old.items ++ refusal_bytes refusal.now)) }
{
    out.push(refusal.code())?;
    match refusal {
        Refusal::Behind(vector) => put_vector(out, vector),
        Refusal::BadRecord(at) => put_u32(out, *at),
        Refusal::Down
        | Refusal::LogFull
        | Refusal::Journal
        | Refusal::NotDown
        | Refusal::Lost
        | Refusal::OutOfMemory
        | Refusal::TagUsed => Ok(()),
    }
}

pub(crate) fn put_payload(out: &mut Vec<u8>, frame: &Frame) -> Result<(), AllocError>
    ensures { OnOk result (IsFrame frame.now × (out.new.items ≡ out.old.items ++ payload_bytes frame.now)) }
{
    match frame {
        Frame::Read(need, key) => {
            put_vector(out, need)?;
            put_key(out, key)
        }
        Frame::Write(tag, need, program) => {
            put_tag(out, *tag)?;
            put_vector(out, need)?;
            put_resting_program(out, program)
        }
        Frame::Reopen | Frame::Dump => Ok(()),
        Frame::Offer(vector) => put_vector(out, vector),
        Frame::Seen(seen) => {
            put_optional_value(out, &seen.value)?;
            put_vector(out, &seen.vector)
        }
        Frame::Accepted(accepted) => {
            put_accepted(out, accepted.wid, accepted.stamp, &accepted.deps)
        }
        Frame::Refused(refusal) => put_refusal(out, refusal),
        Frame::Reopened(adopted) => put_optional_wid(out, *adopted),
        Frame::Item(write) => put_resting_write(out, write),
        Frame::End(number) => put_u32(out, *number),
    }
}
