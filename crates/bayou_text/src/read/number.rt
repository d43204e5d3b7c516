ghost use Rattle.std.specs.Prelude.{◌≡◌, ◌<◌, ◌≤◌, IfOk};
ghost use Rattle.serde_json.specs.View.{view};
ghost use Rattle.bayou_text.specs.Numbers as grammar;
ghost use Rattle.bayou_text.specs.Reading.{Answers};
ghost use Rattle.bayou_base.specs.declared.limits.TheConstants.{SERVERS, SESSIONS, MAX_WRITES, MAX_FUSE_CALLS, MAX_FUSE_KEPT, MAX_LOST_BYTES};

use crate::line::{LineFault, Shape};
use bayou_base::limits::{MAX_FUSE_CALLS, MAX_FUSE_KEPT, MAX_LOST_BYTES};
use bayou_base::{MAX_PLACES, MAX_WRITES, SERVERS, SESSIONS, ServerId, SessionId};
use serde_json::Value;

/// The integer of this range.
fn number_in(json: &Value, least: u64, most: u64) -> Result<u64, LineFault>
    ensures value { result ≡ grammar.number_in least most (view json.now) }
    ensures in_range { IfOk result (λ number. (least ≤ number) × (number ≤ most)) }
{
    let Some(number) = json.as_u64() else {
        return Err(LineFault::BadShape(Shape::Number));
    };
    if least <= number && number <= most {
        Ok(number)
    } else {
        Err(LineFault::BadShape(Shape::Number))
    }
}

/// How many servers.
pub(crate) fn count_in(json: &Value) -> Result<u8, LineFault>
    ensures { result ≡ grammar.count_in (view json.now) }
{
    Ok(number_in(json, 1, SERVERS as u64)? as u8)
}

/// How many Writes a log holds at the most.
pub(crate) fn limit_in(json: &Value) -> Result<u32, LineFault>
    ensures { result ≡ grammar.limit_in (view json.now) }
{
    Ok(number_in(json, 1, MAX_WRITES as u64)? as u32)
}

pub(crate) fn session_in(json: &Value) -> Result<SessionId, LineFault>
    ensures { Answers (λ session. session.index) result (grammar.session_in (view json.now)) }
{
    let index = number_in(json, 0, SESSIONS as u64 - 1)?;
    let Some(session) = SessionId::new(index as u8) else {
        unreachable!();
    };
    Ok(session)
}

pub(crate) fn server_in(json: &Value) -> Result<ServerId, LineFault>
    ensures { Answers (λ server. server.index) result (grammar.server_in (view json.now)) }
{
    let index = number_in(json, 0, SERVERS as u64 - 1)?;
    let Some(server) = ServerId::new(index as u8) else {
        unreachable!();
    };
    Ok(server)
}

/// Which device call from now fails.
pub(crate) fn calls_in(json: &Value) -> Result<u32, LineFault>
    ensures value { result ≡ grammar.calls_in (view json.now) }
    ensures to_come { IfOk result (λ calls. 0 < calls) }
{
    Ok(number_in(json, 1, MAX_FUSE_CALLS as u64)? as u32)
}

/// How many bytes of its piece a failing append adds.
pub(crate) fn kept_in(json: &Value) -> Result<usize, LineFault>
    ensures { result ≡ grammar.kept_in (view json.now) }
{
    Ok(number_in(json, 0, MAX_FUSE_KEPT as u64)? as usize)
}

/// How many bytes a device loses.
pub(crate) fn lost_in(json: &Value) -> Result<usize, LineFault>
    ensures { result ≡ grammar.lost_in (view json.now) }
{
    Ok(number_in(json, 0, MAX_LOST_BYTES as u64)? as usize)
}

/// After how many Writes a stream is cut.
pub(crate) fn cut_in(json: &Value) -> Result<u32, LineFault>
    ensures { result ≡ grammar.cut_in (view json.now) }
{
    Ok(number_in(json, 0, MAX_WRITES as u64)? as u32)
}

/// The place of an operation in its session.
pub(crate) fn place_in(json: &Value) -> Result<u32, LineFault>
    ensures value { result ≡ grammar.place_in (view json.now) }
    ensures in_range { IfOk result (λ place. 0 < place) }
{
    Ok(number_in(json, 1, MAX_PLACES as u64)? as u32)
}

/// The place of a Write among those of its server.
pub(crate) fn seq_in(json: &Value) -> Result<u32, LineFault>
    ensures value { result ≡ grammar.seq_in (view json.now) }
    ensures in_range { IfOk result (λ seq. (0 < seq) × (seq ≤ MAX_WRITES)) }
{
    Ok(number_in(json, 1, MAX_WRITES as u64)? as u32)
}

/// The clock of a stamp.
pub(crate) fn clock_in(json: &Value) -> Result<u32, LineFault>
    ensures value { result ≡ grammar.clock_in (view json.now) }
    ensures in_range { IfOk result (λ clock. (0 < clock) × (clock ≤ MAX_WRITES)) }
{
    Ok(number_in(json, 1, MAX_WRITES as u64)? as u32)
}

/// How many Writes of a server a vector counts.
pub(crate) fn tally_in(json: &Value) -> Result<u32, LineFault>
    ensures value { result ≡ grammar.tally_in (view json.now) }
    ensures in_range { IfOk result (λ count. count ≤ MAX_WRITES) }
{
    Ok(number_in(json, 0, MAX_WRITES as u64)? as u32)
}

/// How many keys a condition lets begin with its prefix.
pub(crate) fn most_in(json: &Value) -> Result<u32, LineFault>
    ensures { result ≡ grammar.most_in (view json.now) }
{
    Ok(number_in(json, 0, u64::from(u32::MAX))? as u32)
}

/// An integer of `i64`.
pub(crate) fn integer_in(json: &Value) -> Result<i64, LineFault>
    ensures { result ≡ grammar.integer_in (view json.now) }
{
    json.as_i64().ok_or(LineFault::BadShape(Shape::Number))
}
