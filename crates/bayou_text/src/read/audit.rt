//! Lines of audit files.
ghost use Rattle.std.specs.Prelude.{◌≡◌, map};
ghost use Rattle.serde_json.specs.View.{view};
ghost use Rattle.bayou_text.specs.Audit as grammar;
ghost use Rattle.bayou_text.specs.Reading.{Answers, Gives};
ghost use Rattle.bayou_text.specs.Said.{said};

use crate::audit::AuditLine;
use crate::line::{Line, LineFault, Shape};
use crate::read::asks::{asks_in, says};
use crate::read::number::{clock_in, place_in, seq_in, server_in, session_in};
use crate::read::program::program_in;
use crate::read::value::key_in;
use crate::read::vector::vector_in;
use bayou_base::{Entry, Stamp, What, Wid};
use bayou_lang::RestingWrite;
use serde_json::Value;
use std::alloc::Global;

/// What all entries begin with: of an operation that was refused.
#[tactic(auto, unfolding(crate::specs::Audit::tried_in))]
fn tried_in(
    session: &Value,
    place: &Value,
    asks: &Value,
    server: &Value,
) -> Result<Entry, LineFault>
    ensures { result ≡ grammar.tried_in (view session.now) (view place.now) (view asks.now) (view server.now) }
{
    Ok(Entry {
        session: session_in(session)?,
        place: place_in(place)?,
        asks: asks_in(asks)?,
        server: server_in(server)?,
        what: What::Refused,
    })
}

/// The entry of an operation that was refused.
#[tactic(auto, unfolding(crate::specs::Audit::refused_in))]
fn refused_in(tried: Entry, word: &Value) -> Result<Line, LineFault>
    ensures { Answers said result (grammar.refused_in tried (view word.now)) }
{
    if !says(word, "refused") {
        return Err(LineFault::BadShape(Shape::Word));
    }
    Ok(Line::Audit(AuditLine::Entry {
        entry: tried,
        counts: None,
    }))
}

/// The entry of a read that was served.
#[tactic(auto, unfolding(crate::specs::Audit::served_in))]
fn served_in(mut tried: Entry, word: &Value, key: &Value, vector: &Value) -> Result<Line, LineFault>
    ensures { Answers said result (grammar.served_in tried (view word.now) (view key.now) (view vector.now)) }
{
    if !says(word, "read") {
        return Err(LineFault::BadShape(Shape::Word));
    }
    let key = key_in(key)?;
    let (vector, counts) = vector_in(vector)?;
    tried.what = What::Read(key, vector);
    Ok(Line::Audit(AuditLine::Entry {
        entry: tried,
        counts: Some(counts),
    }))
}

/// The entry of a Write that the server accepted.
#[tactic(auto, unfolding(crate::specs::Audit::accepted_in))]
fn accepted_in(
    mut tried: Entry,
    word: &Value,
    seq: &Value,
    clock: &Value,
    deps: &Value,
) -> Result<Line, LineFault>
    ensures { Answers said result
        (grammar.accepted_in tried (view word.now) (view seq.now) (view clock.now) (view deps.now)) }
{
    if !says(word, "write") {
        return Err(LineFault::BadShape(Shape::Word));
    }
    let origin = tried.server;
    let wid = Wid {
        origin,
        seq: seq_in(seq)?,
    };
    let stamp = Stamp {
        clock: clock_in(clock)?,
        origin,
    };
    let (deps, counts) = vector_in(deps)?;
    tried.what = What::Write(wid, stamp, deps);
    Ok(Line::Audit(AuditLine::Entry {
        entry: tried,
        counts: Some(counts),
    }))
}

/// What became of an operation. How many members there are says which word must stand among them.
#[tactic(auto, unfolding(crate::specs::Audit::entry_in))]
pub(crate) fn entry_in(parts: &[Value]) -> Result<Line, LineFault>
    ensures { Answers said result (grammar.entry_in (map view parts.now)) }
{
    match parts {
        [session, place, asks, server, word] => {
            refused_in(tried_in(session, place, asks, server)?, word)
        }
        [session, place, asks, server, word, key, vector] => served_in(
            tried_in(session, place, asks, server)?,
            word,
            key,
            vector,
        ),
        [session, place, asks, server, word, seq, clock, deps] => accepted_in(
            tried_in(session, place, asks, server)?,
            word,
            seq,
            clock,
            deps,
        ),
        _ => Err(LineFault::BadShape(Shape::Arity)),
    }
}

/// The members of a Write, and how many counts its deps have.
#[tactic(auto, unfolding(crate::specs::Audit::members_in))]
fn members_in(alloc: Global, parts: &[Value]) -> Result<(RestingWrite, u8), LineFault>
    ensures { Gives (λ told. told) result (grammar.members_in (map view parts.now)) }
{
    let [origin, seq, clock, deps, program] = parts else {
        return Err(LineFault::BadShape(Shape::Arity));
    };
    let origin = server_in(origin)?;
    let wid = Wid {
        origin,
        seq: seq_in(seq)?,
    };
    let stamp = Stamp {
        clock: clock_in(clock)?,
        origin,
    };
    let (deps, counts) = vector_in(deps)?;
    let program = program_in(alloc, program)?;
    Ok((RestingWrite::new(wid, stamp, deps, program), counts))
}

#[tactic(auto, using(crate::proofs::Views::listed_view), unfolding(crate::specs::Audit::write_in))]
fn write_in(alloc: Global, json: &Value) -> Result<(RestingWrite, u8), LineFault>
    ensures { Gives (λ told. told) result (grammar.write_in (view json.now)) }
{
    let Some(list) = json.as_array() else {
        return Err(LineFault::BadShape(Shape::Form));
    };
    members_in(alloc, list.as_slice())
}

/// A Write that a server holds.
#[tactic(auto, unfolding(crate::specs::Audit::held_in))]
pub(crate) fn held_in(alloc: Global, parts: &[Value]) -> Result<Line, LineFault>
    ensures { Gives said result (grammar.held_in (map view parts.now)) }
{
    let [server, write] = parts else {
        return Err(LineFault::BadShape(Shape::Arity));
    };
    let server = server_in(server)?;
    let (write, counts) = write_in(alloc, write)?;
    Ok(Line::Audit(AuditLine::Held {
        server,
        write,
        counts,
    }))
}
