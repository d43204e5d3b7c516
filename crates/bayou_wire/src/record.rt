//! Records: what a server keeps of a Write in its journal.
ghost use Rattle.std.specs.Prelude.{◌≡◌, ◌+◌, ◌<◌, ◌≤◌, ◌++◌, ◌↔◌, IfOk, IsTrue, MatchOption, OnOk, length};
ghost use Rattle.std.specs.List.{list_all};
ghost use Rattle.std.specs.Option.{IfSome};
ghost use Rattle.bayou_base.specs.declared.limits.TheConstants.{MAX_WRITE_BYTES, OLD_SERVERS};
ghost use Rattle.bayou_lang.specs.declared.write.Write.{Write as Written};
ghost use Rattle.bayou_wire.specs.declared.layout.TheConstants.{TAG_BYTES};
ghost use Rattle.bayou_wire.specs.declared.record.Form.TheVariants.{Wide};
ghost use Rattle.bayou_wire.specs.declared.record.Record.{Record as Recorded};
ghost use Rattle.bayou_wire.specs.Inner.Reading.{Gives, SpellsIn, head_at, tagged_head_at};
ghost use Rattle.bayou_wire.specs.Records.{SpellsOld, SpellsRecord, is_old_cond, is_old_program as has_old_conditions, record_head, widened as widened_bytes};
ghost use Rattle.bayou_wire.specs.Spelling.{IsTag, SpellsWrite};

use crate::encode::USUAL_BYTES;
use crate::layout::{OLD_HEAD_BYTES, OLD_LACKED_BYTES, RECORD_OTHERS, RECORD_OWN};
use crate::put::{put_resting_write, put_tag};
use crate::resting::resting_write_of;
use crate::take::tag_of;
use bayou_base::{OLD_SERVERS, Tag};
use bayou_lang::{Cond, RestingAlt, RestingProgram, RestingWrite};
use std::alloc::{AllocError, Global};

/// A Write that a server keeps, and the tag of its asking: that of a Write of the server's own, if it has one.
#[derive(Drop)]
pub struct Record {
    pub write: RestingWrite,
    pub tag: Option<Tag>,
}

/// How records are spelled. In the first two forms a vector has [`OLD_SERVERS`] counts and no condition counts keys.
#[derive(Clone, Copy, Debug, PartialEq, Eq)]
pub enum Form {
    /// The Write alone, which has no tag.
    Plain,
    /// Whether there is a tag, the tag, and the Write.
    Tagged,
    /// As [`Form::Tagged`], with all counts of the vector and all conditions.
    Wide,
}

fn put_head(out: &mut Vec<u8>, tag: Option<Tag>) -> Result<(), AllocError>
    ensures { OnOk result (IfSome tag IsTag × (out.new.items ≡ out.old.items ++ record_head tag)) }
{
    match tag {
        None => {
            out.push(RECORD_OTHERS)?;
            Ok(())
        }
        Some(tag) => {
            out.push(RECORD_OWN)?;
            put_tag(out, tag)
        }
    }
}

/// The one spelling, in the form [`Form::Wide`], of the record of this Write and this tag. Want of memory is the only refusal, and
/// leaves nothing behind.
pub fn encode_record(
    alloc: Global,
    tag: Option<Tag>,
    write: &RestingWrite,
) -> Result<Vec<u8>, AllocError>
    ensures spelling { IfOk result (λ bytes. SpellsRecord Wide bytes.items (record { write = write.now; tag = tag })) }
    ensures size { IfOk result (λ bytes. (0 < length bytes.items) × (length bytes.items ≤ 1 + TAG_BYTES + MAX_WRITE_BYTES)) }
{
    let mut bytes = Vec::with_capacity(alloc, USUAL_BYTES)?;
    put_head(&mut bytes, tag)?;
    put_resting_write(&mut bytes, write)?;
    Ok(bytes)
}

#[tactic(auto, unfolding(crate::specs::Inner::Reading::tagged_head_at))]
fn tagged_head_of(bytes: &[u8]) -> Option<(Option<Tag>, &[u8])>
    ensures { Gives (λ x. (x.0, x.1.now)) result (tagged_head_at bytes.now) }
{
    match bytes {
        [RECORD_OTHERS, rest @ ..] => Some((None, rest)),
        [RECORD_OWN, rest @ ..] => {
            let Some((tag, rest)) = tag_of(rest) else {
                return None;
            };
            Some((Some(tag), rest))
        }
        _ => None,
    }
}

// What stands before the Write, and the bytes after it.
fn head_of(form: Form, bytes: &[u8]) -> Option<(Option<Tag>, &[u8])>
    ensures { Gives (λ x. (x.0, x.1.now)) result (head_at form bytes.now) }
{
    match form {
        Form::Plain => Some((None, bytes)),
        Form::Tagged | Form::Wide => tagged_head_of(bytes),
    }
}

// The Write that the bytes spell, all of them, if there is one.
fn whole_write(alloc: Global, bytes: &[u8]) -> Result<Option<RestingWrite>, AllocError>
    ensures { IfOk result (λ given. MatchOption given ((write : Written) → ¬ (SpellsWrite bytes.now write)) (λ write. SpellsWrite bytes.now write)) }
{
    match resting_write_of(alloc, bytes)? {
        None => Ok(None),
        Some((write, [])) => Ok(Some(write)),
        Some((_, [_, ..])) => Ok(None),
    }
}

// The bytes with a count of zero for each server that the first two forms know nothing of.
fn widened(alloc: Global, bytes: &[u8]) -> Result<Vec<u8>, AllocError>
    ensures { IfOk result (λ wide. wide.items ≡ widened_bytes bytes.now) }
{
    let (head, rest) = bytes.split_at(OLD_HEAD_BYTES.min(bytes.len()));
    let mut wide = Vec::with_capacity(alloc, bytes.len().saturating_add(OLD_LACKED_BYTES))?;
    wide.extend_from_slice(head)?;
    wide.extend_from_slice(&[0; OLD_LACKED_BYTES])?;
    wide.extend_from_slice(rest)?;
    Ok(wide)
}

// Whether the first two forms know the condition.
fn is_old_condition(condition: &Cond) -> bool
    ensures { result ≡ is_old_cond condition.now }
{
    match condition {
        Cond::Equals(_, _) | Cond::Absent(_) | Cond::AtLeast(_, _) => true,
        Cond::AtMost(_, _) => false,
    }
}

fn are_old_conditions(conditions: &[Cond]) -> bool
    ensures { result ≡ list_all is_old_cond conditions.now }
{
    conditions.iter().all(is_old_condition)
}

fn are_old_alternatives(alternatives: &[RestingAlt]) -> bool
    ensures { result ≡ list_all (λ alt. list_all is_old_cond alt.when.items) alternatives.now }
{
    alternatives
        .iter()
        .all(|alt| are_old_conditions(alt.when()))
}

// Whether they know each condition of the program.
fn is_old_program(program: &RestingProgram) -> bool
    ensures { result ≡ has_old_conditions program.now }
{
    are_old_conditions(program.check()) && are_old_alternatives(program.merge())
}

// Whether one of the old servers accepted the Write, and each of its conditions is an old one.
fn is_old_write(write: &RestingWrite) -> bool
    ensures { IsTrue result ↔ ((write.now.wid.origin.index < OLD_SERVERS) × IsTrue (has_old_conditions write.now.program)) }
{
    usize::from(write.wid().origin.index) < OLD_SERVERS && is_old_program(write.program())
}

// The Write that the bytes spell with the old counts and conditions, all of them, if there is one. The bytes are copied, since counts are put
// in.
fn old_write(alloc: Global, bytes: &[u8]) -> Result<Option<RestingWrite>, AllocError>
    ensures { IfOk result (λ given. MatchOption given ((write : Written) → ¬ (SpellsOld bytes.now write)) (λ write. SpellsOld bytes.now write)) }
{
    let wide = widened(alloc, bytes)?;
    let Some(write) = whole_write(alloc, &wide)? else {
        return Ok(None);
    };
    if is_old_write(&write) {
        Ok(Some(write))
    } else {
        Ok(None)
    }
}

// The Write that the bytes spell after the head of this form, all of them, if there is one.
fn write_in(alloc: Global, form: Form, bytes: &[u8]) -> Result<Option<RestingWrite>, AllocError>
    ensures { IfOk result (λ given. MatchOption given ((write : Written) → ¬ (SpellsIn form bytes.now write)) (λ write. SpellsIn form bytes.now write)) }
{
    match form {
        Form::Plain | Form::Tagged => old_write(alloc, bytes),
        Form::Wide => whole_write(alloc, bytes),
    }
}

/// The record that the bytes spell in this form, all of them, if there is one. It takes memory at the size of what the Write says, and for a
/// copy of the bytes in a form whose vectors have fewer counts.
pub fn decode_record(alloc: Global, form: Form, bytes: &[u8]) -> Result<Option<Record>, AllocError>
    ensures { IfOk result (λ given. MatchOption given ((other : Recorded) → ¬ (SpellsRecord form bytes.now other)) (λ given. SpellsRecord form bytes.now given)) }
{
    let Some((tag, rest)) = head_of(form, bytes) else {
        return Ok(None);
    };
    let Some(write) = write_in(alloc, form, rest)? else {
        return Ok(None);
    };
    Ok(Some(Record { write, tag }))
}
