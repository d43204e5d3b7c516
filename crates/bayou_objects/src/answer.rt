//! What is printed last for an answer.
ghost use Rattle.std.specs.Prelude.{◌≡◌, ◌≤◌, IfOk, string_bytes};
ghost use Rattle.serde_json.specs.Data.{string};
ghost use Rattle.serde_json.specs.Written.{compact_text};
ghost use Rattle.bayou_base.specs.declared.limits.TheConstants.{SERVERS};
ghost use Rattle.bayou_objects.specs.Objects.{adopted_json, last_json, log_members, pulled_members, read_members, recovery_json, refusal_members, refused_members, reopened_members, restarted_members, totals_members, transfer_json, value_json, wrote_members};
ghost use Rattle.bayou_print.specs.Printed.{starting_text};

use crate::object::{object, server_member, session_member, why_member};
use bayou_answers::{Answer, Recovery, Transfer};
use bayou_audit::Totals;
use bayou_base::{Accepted, Key, Refusal, Seen, ServerId, SessionId, Value, Vector, Wid};
use bayou_explain::{survey_objects, verdict_object};
use bayou_peer::Pulled;
use bayou_print::{Counts, pulling_word};
use bayou_server::StartFault;
use serde_json::Value as Json;
use std::alloc::{AllocError, Global};

/// The text as a JSON string.
fn json_of(alloc: Global, text: &str) -> Result<String, AllocError>
    ensures { IfOk result (λ json. string_bytes json ≡ compact_text (string text.now)) }
{
    Json::String(String::from_str(alloc, text)?).to_string(alloc)
}

/// What a read found.
fn found(alloc: Global, value: &Option<Value>) -> Result<String, AllocError>
    ensures { IfOk result (λ text. string_bytes text ≡ value_json value.now) }
{
    match value {
        None => String::from_str(alloc, "null"),
        Some(Value::Num(number)) => format!(in alloc; "{number}"),
        Some(Value::Text(text)) => json_of(alloc, text.as_str()),
    }
}

/// The members of a Write that was accepted.
fn wrote(
    alloc: Global,
    servers: u8,
    session: SessionId,
    accepted: &Accepted,
) -> Result<String, AllocError>
    requires { servers ≤ SERVERS }
    ensures { IfOk result (λ text. string_bytes text ≡ wrote_members servers session accepted.now) }
{
    let session = session.index;
    let (origin, seq) = (accepted.wid.origin.index, accepted.wid.seq);
    let clock = accepted.stamp.clock;
    let deps = Counts {
        vector: &accepted.deps,
        servers,
    };
    format!(in alloc;
        "\"session\":{session},\"wid\":[{origin},{seq}],\"clock\":{clock},\"deps\":[{deps}]"
    )
}

/// The members of a read that was served.
fn read(
    alloc: Global,
    servers: u8,
    session: SessionId,
    key: &Key,
    seen: &Seen,
) -> Result<String, AllocError>
    requires { servers ≤ SERVERS }
    ensures { IfOk result (λ text. string_bytes text ≡ read_members servers session key.now seen.now) }
{
    let session = session.index;
    let key = key.as_str();
    let value = found(alloc, &seen.value)?;
    let at = Counts {
        vector: &seen.vector,
        servers,
    };
    format!(in alloc; "\"session\":{session},\"key\":\"{key}\",\"value\":{value},\"at\":[{at}]")
}

/// Why an operation was refused.
fn why(alloc: Global, servers: u8, refusal: &Refusal) -> Result<String, AllocError>
    requires { servers ≤ SERVERS }
    ensures { IfOk result (λ text. string_bytes text ≡ refusal_members servers refusal.now) }
{
    match refusal {
        Refusal::Behind(vector) => {
            let at = Counts { vector, servers };
            format!(in alloc; "\"why\":\"behind\",\"at\":[{at}]")
        }
        _ => why_member(alloc, refusal.word()),
    }
}

/// The members of an operation that was refused.
fn refused(
    alloc: Global,
    servers: u8,
    session: SessionId,
    refusal: &Refusal,
) -> Result<String, AllocError>
    requires { servers ≤ SERVERS }
    ensures { IfOk result (λ text. string_bytes text ≡ refused_members servers session refusal.now) }
{
    let session = session.index;
    let why = why(alloc, servers, refusal)?;
    format!(in alloc; "\"session\":{session},{why}")
}

/// The members of what a server holds, counted.
fn log(alloc: Global, servers: u8, server: ServerId, vector: &Vector) -> Result<String, AllocError>
    requires { servers ≤ SERVERS }
    ensures { IfOk result (λ text. string_bytes text ≡ log_members servers server vector.now) }
{
    let server = server.index;
    let at = Counts { vector, servers };
    format!(in alloc; "\"server\":{server},\"at\":[{at}]")
}

/// The Write that a reopening adopted, if any.
fn adopted_name(alloc: Global, adopted: &Option<Wid>) -> Result<String, AllocError>
    ensures { IfOk result (λ text. string_bytes text ≡ adopted_json adopted.now) }
{
    match adopted {
        None => String::from_str(alloc, "null"),
        Some(wid) => {
            let (origin, seq) = (wid.origin.index, wid.seq);
            format!(in alloc; "[{origin},{seq}]")
        }
    }
}

/// The members of a server that was reopened.
fn reopened(alloc: Global, server: ServerId, adopted: &Option<Wid>) -> Result<String, AllocError>
    ensures { IfOk result (λ text. string_bytes text ≡ reopened_members server adopted.now) }
{
    let server = server.index;
    let adopted = adopted_name(alloc, adopted)?;
    format!(in alloc; "\"server\":{server},\"adopted\":{adopted}")
}

/// The members of a server that was started again.
fn restarted(
    alloc: Global,
    server: ServerId,
    holds: usize,
    dropped: usize,
) -> Result<String, AllocError>
    ensures { IfOk result (λ text. string_bytes text ≡ restarted_members server holds dropped) }
{
    let server = server.index;
    format!(in alloc; "\"server\":{server},\"holds\":{holds},\"dropped\":{dropped}")
}

/// Why a server wasn't started.
fn starting_word(refusal: &StartFault) -> &'static str
    ensures { result.now ≡ starting_text refusal.now }
{
    match refusal {
        StartFault::Journal(_) => "journal",
        StartFault::BadRecord(_) => "record",
        StartFault::Gap(_) => "gap",
        StartFault::LogFull => "full",
        StartFault::OutOfMemory => "memory",
    }
}

/// The object of a server that was to be reopened or restarted.
fn recovery_object(alloc: Global, recovery: &Recovery) -> Result<String, AllocError>
    ensures { IfOk result (λ text. string_bytes text ≡ recovery_json recovery.now) }
{
    match recovery {
        Recovery::Reopened { server, adopted } => {
            object(alloc, "reopened", reopened(alloc, *server, adopted)?)
        }
        Recovery::NotReopened(refusal) => {
            object(alloc, "not_reopened", why_member(alloc, refusal.word())?)
        }
        Recovery::NotRunning => object(alloc, "not_reopened", why_member(alloc, "stopped")?),
        Recovery::Restarted {
            server,
            holds,
            dropped,
        } => {
            let members = restarted(alloc, *server, *holds, *dropped)?;
            object(alloc, "restarted", members)
        }
        Recovery::NotRestarted(refusal) => {
            let members = why_member(alloc, starting_word(refusal))?;
            object(alloc, "not_restarted", members)
        }
    }
}

/// The members of a pull that came to its End.
fn pulled(alloc: Global, pulled: &Pulled) -> Result<String, AllocError>
    ensures { IfOk result (λ text. string_bytes text ≡ pulled_members pulled.now) }
{
    let (taken, had) = (pulled.taken, pulled.had);
    format!(in alloc; "\"taken\":{taken},\"had\":{had}")
}

/// The object of a server that was to take Writes from another.
fn transfer_object(alloc: Global, transfer: &Transfer) -> Result<String, AllocError>
    ensures { IfOk result (λ text. string_bytes text ≡ transfer_json transfer.now) }
{
    match transfer {
        Transfer::NotRunning => object(alloc, "not_pulled", why_member(alloc, "lost")?),
        Transfer::Ended(Ok(counts)) => object(alloc, "pulled", pulled(alloc, counts)?),
        Transfer::Ended(Err(stopped)) => {
            let members = why_member(alloc, pulling_word(&stopped.fault))?;
            object(alloc, "not_pulled", members)
        }
    }
}

/// The members of what was filed so far.
fn counted(alloc: Global, totals: Totals) -> Result<String, AllocError>
    ensures { IfOk result (λ text. string_bytes text ≡ totals_members totals) }
{
    let Totals {
        slips,
        reads,
        writes,
        refusals,
    } = totals;
    format!(in alloc;
        "\"reads\":{reads},\"writes\":{writes},\"refusals\":{refusals},\"slips\":{slips}"
    )
}

/// What is printed last for an answer where there are so many servers: an object, those of a survey, or nothing.
pub(crate) fn last_objects(
    alloc: Global,
    servers: u8,
    answer: &Answer,
) -> Result<String, AllocError>
    requires { servers ≤ SERVERS }
    ensures { IfOk result (λ text. string_bytes text ≡ last_json servers answer.now) }
{
    match answer {
        Answer::Done => Ok(String::new(alloc)),
        Answer::Wrote { session, accepted } => {
            object(alloc, "wrote", wrote(alloc, servers, *session, accepted)?)
        }
        Answer::Read { session, key, seen } => {
            object(alloc, "read", read(alloc, servers, *session, key, seen)?)
        }
        Answer::Refused { session, refusal } => {
            object(
                alloc,
                "refused",
                refused(alloc, servers, *session, refusal)?,
            )
        }
        Answer::Lost { session } => object(alloc, "lost", session_member(alloc, *session)?),
        Answer::NotAgain { session } => {
            object(alloc, "not_again", session_member(alloc, *session)?)
        }
        Answer::Logged { server, vector, .. } => {
            object(alloc, "log", log(alloc, servers, *server, vector)?)
        }
        Answer::Stopped { server } => object(alloc, "stopped", server_member(alloc, *server)?),
        Answer::Recovered(recovery) => recovery_object(alloc, recovery),
        Answer::Exchanged(transfer) => transfer_object(alloc, transfer),
        Answer::Counted(totals) => object(alloc, "totals", counted(alloc, *totals)?),
        Answer::Judged(verdict) => verdict_object(alloc, verdict),
        Answer::Surveyed(Ok(list)) => survey_objects(alloc, list.as_slice()),
        Answer::Surveyed(Err(refusal)) => verdict_object(alloc, &Err(*refusal)),
        Answer::Booked(_) => Ok(String::new(alloc)),
    }
}
