//! Readers of programs and Writes at rest: each takes memory at the size of what it reads, and else reads what the reader of the
//! plain form reads.
ghost use Rattle.std.specs.Prelude.{◌≡◌, ℕ, ◌≤◌, List, Option, IfOk, IfSome, length};
ghost use Rattle.bayou_base.specs.declared.limits.TheConstants.{MAX_ALTERNATIVES, MAX_CONDITIONS, MAX_OPS};
ghost use Rattle.bayou_wire.specs.Inner.Reading.{Gives, alt_at, cond_at, list_at, op_at, program_at, times, write_at};

use crate::take::{Member, accepted_of};
use bayou_base::{MAX_ALTERNATIVES, MAX_CONDITIONS, MAX_OPS};
use bayou_lang::{Cond, Op, RestingAlt, RestingProgram, RestingWrite};
use std::alloc::{AllocError, Global};

/// What stands in lists.
trait RestingMember: Drop {
    ghost at: { List ℕ → Option (Self × List ℕ) };

    /// The member at the front.
    fn take_at_rest(alloc: Global, bytes: &[u8]) -> Result<Option<(Self, &[u8])>, AllocError>
        ensures { IfOk result (λ given. Gives (λ x. (x.0, x.1.now)) given (at bytes.now)) };
}

/// So many members.
fn resting_members_of<T: RestingMember>(
    alloc: Global,
    count: usize,
    bytes: &[u8],
) -> Result<Option<(Vec<T>, &[u8])>, AllocError>
    ensures members { IfOk result (λ given. Gives (λ x. (x.0.items, x.1.now)) given (times count T.at bytes.now)) }
    ensures number { IfOk result (λ given. IfSome given (λ x. length x.0.items ≡ count)) }
{
    let mut members = Vec::with_capacity(alloc, count)?;
    let mut rest = bytes;
    for _ in 0..count {
        let Some((member, behind)) = T::take_at_rest(alloc, rest)? else {
            return Ok(None);
        };
        members.push_reserved(member);
        rest = behind;
    }
    Ok(Some((members, rest)))
}

/// A list of at most so many members.
#[tactic(auto, unfolding(crate::specs::Inner::Reading::list_at))]
fn resting_list_of<T: RestingMember>(
    alloc: Global,
    most: usize,
    bytes: &[u8],
) -> Result<Option<(Vec<T>, &[u8])>, AllocError>
    ensures members { IfOk result (λ given. Gives (λ x. (x.0.items, x.1.now)) given (list_at most T.at bytes.now)) }
    ensures number { IfOk result (λ given. IfSome given (λ x. length x.0.items ≤ most)) }
{
    let [count, rest @ ..] = bytes else {
        return Ok(None);
    };
    let count = usize::from(*count);
    if most < count {
        return Ok(None);
    }
    resting_members_of(alloc, count, rest)
}

impl RestingMember for Op {
    ghost at = { op_at };

    fn take_at_rest(_alloc: Global, bytes: &[u8]) -> Result<Option<(Self, &[u8])>, AllocError> {
        Ok(Op::take(bytes))
    }
}

impl RestingMember for Cond {
    ghost at = { cond_at };

    fn take_at_rest(_alloc: Global, bytes: &[u8]) -> Result<Option<(Self, &[u8])>, AllocError> {
        Ok(Cond::take(bytes))
    }
}

impl RestingMember for RestingAlt {
    ghost at = { alt_at };

    #[tactic(auto, unfolding(crate::specs::Inner::Reading::alt_at))]
    fn take_at_rest(alloc: Global, bytes: &[u8]) -> Result<Option<(Self, &[u8])>, AllocError> {
        let Some((when, rest)) = resting_list_of(alloc, MAX_CONDITIONS, bytes)? else {
            return Ok(None);
        };
        let Some((ops, rest)) = resting_list_of(alloc, MAX_OPS, rest)? else {
            return Ok(None);
        };
        Ok(Some((RestingAlt::new(when, ops), rest)))
    }
}

#[tactic(auto, unfolding(crate::specs::Inner::Reading::program_at))]
pub(crate) fn resting_program_of(
    alloc: Global,
    bytes: &[u8],
) -> Result<Option<(RestingProgram, &[u8])>, AllocError>
    ensures { IfOk result (λ given. Gives (λ x. (x.0, x.1.now)) given (program_at bytes.now)) }
{
    let Some((check, rest)) = resting_list_of(alloc, MAX_CONDITIONS, bytes)? else {
        return Ok(None);
    };
    let Some((update, rest)) = resting_list_of(alloc, MAX_OPS, rest)? else {
        return Ok(None);
    };
    let Some((merge, rest)) = resting_list_of(alloc, MAX_ALTERNATIVES, rest)? else {
        return Ok(None);
    };
    let program = RestingProgram::new(alloc, check, update, merge)?;
    Ok(Some((program, rest)))
}

#[tactic(auto, unfolding(crate::specs::Inner::Reading::write_at))]
pub(crate) fn resting_write_of(
    alloc: Global,
    bytes: &[u8],
) -> Result<Option<(RestingWrite, &[u8])>, AllocError>
    ensures { IfOk result (λ given. Gives (λ x. (x.0, x.1.now)) given (write_at bytes.now)) }
{
    let Some((head, rest)) = accepted_of(bytes) else {
        return Ok(None);
    };
    let Some((program, rest)) = resting_program_of(alloc, rest)? else {
        return Ok(None);
    };
    Ok(Some((
        RestingWrite::new(head.wid, head.stamp, head.deps, program),
        rest,
    )))
}
