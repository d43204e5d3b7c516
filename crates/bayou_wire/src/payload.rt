//! Readers of payloads: what a frame says, by its kind.
ghost use Rattle.std.specs.Prelude.{◌≡◌, IfOk};
ghost use Rattle.bayou_wire.specs.Forms.{frame_of};
ghost use Rattle.bayou_wire.specs.Inner.Reading.{Gives, is_kind as is_kind_test, optional_value_at, optional_wid_at, payload_at, refusal_at, reply_at, seen_at};

use crate::frame::{Frame, PlainFrame};
use crate::layout::*;
use crate::resting::{resting_program_of, resting_write_of};
use crate::take::{
    accepted_of, key_of, program_of, tag_of, u32_of, value_of, vector_of, wid_of, write_of,
};
use bayou_base::refusal::{
    CODE_BAD_RECORD, CODE_BEHIND, CODE_DOWN, CODE_JOURNAL, CODE_LOG_FULL, CODE_LOST, CODE_NOT_DOWN,
    CODE_OUT_OF_MEMORY, CODE_TAG_USED,
};
use bayou_base::{Refusal, Seen, Value, Wid};
use std::alloc::{AllocError, Global};

#[tactic(auto, unfolding(crate::specs::Inner::Reading::is_kind))]
pub(crate) fn is_kind(kind: u8) -> bool
    ensures { result ≡ is_kind_test kind }
{
    matches!(
        kind,
        KIND_READ
            | KIND_WRITE
            | KIND_REOPEN
            | KIND_DUMP
            | KIND_OFFER
            | KIND_SEEN
            | KIND_ACCEPTED
            | KIND_REFUSED
            | KIND_REOPENED
            | KIND_ITEM
            | KIND_END
    )
}

#[tactic(auto, unfolding(crate::specs::Inner::Reading::optional_value_at))]
fn optional_value_of(bytes: &[u8]) -> Option<(Option<Value>, &[u8])>
    ensures { Gives (λ x. (x.0, x.1.now)) result (optional_value_at bytes.now) }
{
    match bytes {
        [] => None,
        [ABSENT, rest @ ..] => Some((None, rest)),
        [_, ..] => {
            let Some((value, rest)) = value_of(bytes) else {
                return None;
            };
            Some((Some(value), rest))
        }
    }
}

#[tactic(auto, unfolding(crate::specs::Inner::Reading::optional_wid_at))]
fn optional_wid_of(bytes: &[u8]) -> Option<(Option<Wid>, &[u8])>
    ensures { Gives (λ x. (x.0, x.1.now)) result (optional_wid_at bytes.now) }
{
    match bytes {
        [ABSENT, rest @ ..] => Some((None, rest)),
        [PRESENT, rest @ ..] => {
            let Some((wid, rest)) = wid_of(rest) else {
                return None;
            };
            Some((Some(wid), rest))
        }
        _ => None,
    }
}

#[tactic(auto, unfolding(crate::specs::Inner::Reading::refusal_at))]
fn refusal_of(bytes: &[u8]) -> Option<(Refusal, &[u8])>
    ensures { Gives (λ x. (x.0, x.1.now)) result (refusal_at bytes.now) }
{
    match bytes {
        [CODE_DOWN, rest @ ..] => Some((Refusal::Down, rest)),
        [CODE_BEHIND, rest @ ..] => {
            let Some((vector, rest)) = vector_of(rest) else {
                return None;
            };
            Some((Refusal::Behind(vector), rest))
        }
        [CODE_LOG_FULL, rest @ ..] => Some((Refusal::LogFull, rest)),
        [CODE_JOURNAL, rest @ ..] => Some((Refusal::Journal, rest)),
        [CODE_NOT_DOWN, rest @ ..] => Some((Refusal::NotDown, rest)),
        [CODE_BAD_RECORD, rest @ ..] => {
            let Some((at, rest)) = u32_of(rest) else {
                return None;
            };
            Some((Refusal::BadRecord(at), rest))
        }
        [CODE_LOST, rest @ ..] => Some((Refusal::Lost, rest)),
        [CODE_OUT_OF_MEMORY, rest @ ..] => Some((Refusal::OutOfMemory, rest)),
        [CODE_TAG_USED, rest @ ..] => Some((Refusal::TagUsed, rest)),
        _ => None,
    }
}

#[tactic(auto, unfolding(crate::specs::Inner::Reading::seen_at))]
fn seen_of(bytes: &[u8]) -> Option<(Seen, &[u8])>
    ensures { Gives (λ x. (x.0, x.1.now)) result (seen_at bytes.now) }
{
    let Some((value, rest)) = optional_value_of(bytes) else {
        return None;
    };
    let Some((vector, rest)) = vector_of(rest) else {
        return None;
    };
    Some((Seen { value, vector }, rest))
}

#[tactic(auto, unfolding(crate::specs::Inner::Reading::reply_at))]
fn reply_of(alloc: Global, kind: u8, bytes: &[u8]) -> Result<Option<(Frame, &[u8])>, AllocError>
    ensures { IfOk result (λ given. Gives (λ x. (x.0, x.1.now)) given (reply_at kind bytes.now)) }
{
    match kind {
        KIND_SEEN => {
            let Some((seen, rest)) = seen_of(bytes) else {
                return Ok(None);
            };
            Ok(Some((Frame::Seen(seen), rest)))
        }
        KIND_ACCEPTED => {
            let Some((accepted, rest)) = accepted_of(bytes) else {
                return Ok(None);
            };
            Ok(Some((Frame::Accepted(accepted), rest)))
        }
        KIND_REFUSED => {
            let Some((refusal, rest)) = refusal_of(bytes) else {
                return Ok(None);
            };
            Ok(Some((Frame::Refused(refusal), rest)))
        }
        KIND_REOPENED => {
            let Some((adopted, rest)) = optional_wid_of(bytes) else {
                return Ok(None);
            };
            Ok(Some((Frame::Reopened(adopted), rest)))
        }
        KIND_ITEM => {
            let Some((write, rest)) = resting_write_of(alloc, bytes)? else {
                return Ok(None);
            };
            Ok(Some((Frame::Item(write), rest)))
        }
        KIND_END => {
            let Some((number, rest)) = u32_of(bytes) else {
                return Ok(None);
            };
            Ok(Some((Frame::End(number), rest)))
        }
        _ => Ok(None),
    }
}

/// What a payload of this kind says, and the bytes after it.
#[tactic(auto, unfolding(crate::specs::Inner::Reading::payload_at))]
pub(crate) fn payload_of(
    alloc: Global,
    kind: u8,
    bytes: &[u8],
) -> Result<Option<(Frame, &[u8])>, AllocError>
    ensures { IfOk result (λ given. Gives (λ x. (x.0, x.1.now)) given (payload_at kind bytes.now)) }
{
    match kind {
        KIND_READ => {
            let Some((need, rest)) = vector_of(bytes) else {
                return Ok(None);
            };
            let Some((key, rest)) = key_of(rest) else {
                return Ok(None);
            };
            Ok(Some((Frame::Read(need, key), rest)))
        }
        KIND_WRITE => {
            let Some((tag, rest)) = tag_of(bytes) else {
                return Ok(None);
            };
            let Some((need, rest)) = vector_of(rest) else {
                return Ok(None);
            };
            let Some((program, rest)) = resting_program_of(alloc, rest)? else {
                return Ok(None);
            };
            Ok(Some((Frame::Write(tag, need, program), rest)))
        }
        KIND_REOPEN => Ok(Some((Frame::Reopen, bytes))),
        KIND_DUMP => Ok(Some((Frame::Dump, bytes))),
        KIND_OFFER => {
            let Some((vector, rest)) = vector_of(bytes) else {
                return Ok(None);
            };
            Ok(Some((Frame::Offer(vector), rest)))
        }
        _ => reply_of(alloc, kind, bytes),
    }
}

#[tactic(auto, unfolding(crate::specs::Inner::Reading::reply_at))]
fn plain_reply_of(kind: u8, bytes: &[u8]) -> Option<(PlainFrame, &[u8])>
    ensures { Gives (λ x. (frame_of x.0, x.1.now)) result (reply_at kind bytes.now) }
{
    match kind {
        KIND_SEEN => {
            let Some((seen, rest)) = seen_of(bytes) else {
                return None;
            };
            Some((PlainFrame::Seen(seen), rest))
        }
        KIND_ACCEPTED => {
            let Some((accepted, rest)) = accepted_of(bytes) else {
                return None;
            };
            Some((PlainFrame::Accepted(accepted), rest))
        }
        KIND_REFUSED => {
            let Some((refusal, rest)) = refusal_of(bytes) else {
                return None;
            };
            Some((PlainFrame::Refused(refusal), rest))
        }
        KIND_REOPENED => {
            let Some((adopted, rest)) = optional_wid_of(bytes) else {
                return None;
            };
            Some((PlainFrame::Reopened(adopted), rest))
        }
        KIND_ITEM => {
            let Some((write, rest)) = write_of(bytes) else {
                return None;
            };
            Some((PlainFrame::Item(write), rest))
        }
        KIND_END => {
            let Some((number, rest)) = u32_of(bytes) else {
                return None;
            };
            Some((PlainFrame::End(number), rest))
        }
        _ => None,
    }
}

/// What a payload of this kind says, and the bytes after it. It takes no memory.
#[tactic(auto, unfolding(crate::specs::Inner::Reading::payload_at))]
pub(crate) fn plain_payload_of(kind: u8, bytes: &[u8]) -> Option<(PlainFrame, &[u8])>
    ensures { Gives (λ x. (frame_of x.0, x.1.now)) result (payload_at kind bytes.now) }
{
    match kind {
        KIND_READ => {
            let Some((need, rest)) = vector_of(bytes) else {
                return None;
            };
            let Some((key, rest)) = key_of(rest) else {
                return None;
            };
            Some((PlainFrame::Read(need, key), rest))
        }
        KIND_WRITE => {
            let Some((tag, rest)) = tag_of(bytes) else {
                return None;
            };
            let Some((need, rest)) = vector_of(rest) else {
                return None;
            };
            let Some((program, rest)) = program_of(rest) else {
                return None;
            };
            Some((PlainFrame::Write(tag, need, program), rest))
        }
        KIND_REOPEN => Some((PlainFrame::Reopen, bytes)),
        KIND_DUMP => Some((PlainFrame::Dump, bytes)),
        KIND_OFFER => {
            let Some((vector, rest)) = vector_of(bytes) else {
                return None;
            };
            Some((PlainFrame::Offer(vector), rest))
        }
        _ => plain_reply_of(kind, bytes),
    }
}
