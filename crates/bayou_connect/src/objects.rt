//! What `list`, `servers` and `mine` print as JSON, an object a line.
ghost use Rattle.std.specs.Prelude.{◌≡◌, ◌≤◌, IfOk, option_copied, string_bytes};
ghost use Rattle.bayou_base.specs.declared.limits.TheConstants.{SERVERS};
ghost use Rattle.bayou_connect.specs.Objects.{became_json, behind_json, forgotten_json, held_json, lost_json, mixed_json, own_json, prefix_json, refused_json, row_json, rows_json, server_json, share_json, standing_json, value_json, wid_json, without_json};

use bayou_base::{Key, Refusal, ServerId, SessionId, Value, Wid};
use bayou_final::Standing;
use bayou_print::{Counts, Holds};
use bayou_wire::Became;
use serde_json::Value as Json;
use std::alloc::{AllocError, Global};

// A value: a number, or a text as a JSON string.
fn value_text(alloc: Global, value: &Value) -> Result<String, AllocError>
    ensures { IfOk result (λ text. string_bytes text ≡ value_json value.now) }
{
    match value {
        Value::Num(number) => format!(in alloc; "{number}"),
        Value::Text(text) => {
            let text = String::from_str(alloc, text.as_str())?;
            Json::String(text).to_string(alloc)
        }
    }
}

// How a value stands, where that is kept.
fn standing_text(alloc: Global, standing: Option<Standing>) -> Result<String, AllocError>
    ensures { IfOk result (λ text. string_bytes text ≡ standing_json standing) }
{
    match standing {
        None => "null".to_string(alloc),
        Some(standing) => {
            let word = standing.word();
            format!(in alloc; "\"{word}\"")
        }
    }
}

/// A row, and how its value stands, where that is kept.
pub(crate) fn row_object(
    alloc: Global,
    row: &(Key, Value),
    standing: Option<Standing>,
) -> Result<String, AllocError>
    ensures { IfOk result (λ text. string_bytes text ≡ row_json row.now.0 row.now.1 standing) }
{
    let key = row.0.as_str();
    let value = value_text(alloc, &row.1)?;
    let standing = standing_text(alloc, standing)?;
    format!(in alloc;
        "{{\"kind\":\"row\",\"key\":\"{key}\",\"value\":{value},\"standing\":{standing}}}\n"
    )
}

// What the keys begin with, if only such were asked for.
fn prefix_text(alloc: Global, prefix: Option<&Key>) -> Result<String, AllocError>
    ensures { IfOk result (λ text. string_bytes text ≡ prefix_json (option_copied prefix.entry)) }
{
    match prefix {
        None => "null".to_string(alloc),
        Some(prefix) => {
            let prefix = prefix.as_str();
            format!(in alloc; "\"{prefix}\"")
        }
    }
}

// Whether rows are listed as they stood at more than one time.
fn mixed_word(is_mixed: bool) -> &'static str
    ensures { result.now ≡ mixed_json is_mixed }
{
    if is_mixed { "true" } else { "false" }
}

/// The end of a list: what its keys begin with, if only such were asked for, how many they are, whether they are listed as they stood at more than one time,
/// and what was held then.
pub(crate) fn rows_object(
    alloc: Global,
    prefix: Option<&Key>,
    keys: usize,
    is_mixed: bool,
    counts: Counts<'_>,
) -> Result<String, AllocError>
    ensures { IfOk result (λ text. string_bytes text ≡ rows_json (option_copied prefix.entry) keys is_mixed counts.entry.servers counts.entry.vector.now) }
{
    let prefix = prefix_text(alloc, prefix)?;
    let mixed = mixed_word(is_mixed);
    format!(in alloc;
        "{{\"kind\":\"rows\",\"prefix\":{prefix},\"keys\":{keys},\"mixed\":{mixed},\"at\":[{counts}]}}\n"
    )
}

/// A list of which nothing, or not all, came.
pub(crate) fn lost_object() -> &'static str
    ensures { result.now ≡ lost_json }
{
    "{\"kind\":\"lost\",\"line\":\"list\"}\n"
}

// What the server holds that is behind, if that is why it refused.
fn behind_text(alloc: Global, servers: u8, refusal: &Refusal) -> Result<String, AllocError>
    requires { servers ≤ SERVERS }
    ensures { IfOk result (λ text. string_bytes text ≡ behind_json servers refusal.now) }
{
    match refusal {
        Refusal::Behind(vector) => {
            let counts = Counts { vector, servers };
            format!(in alloc; "[{counts}]")
        }
        _ => "null".to_string(alloc),
    }
}

/// A list that was refused.
pub(crate) fn refused_object(
    alloc: Global,
    servers: u8,
    session: SessionId,
    refusal: &Refusal,
) -> Result<String, AllocError>
    requires { servers ≤ SERVERS }
    ensures { IfOk result (λ text. string_bytes text ≡ refused_json servers session.index refusal.now) }
{
    let (session, why) = (session.index, refusal.word());
    let behind = behind_text(alloc, servers, refusal)?;
    format!(in alloc;
        "{{\"kind\":\"refused\",\"line\":\"list\",\"session\":{session},\"why\":\"{why}\",\"at\":{behind}}}\n"
    )
}

// How many Writes a server holds of how many that it may, if it tells that.
fn share_text(alloc: Global, held: &Holds) -> Result<String, AllocError>
    ensures { IfOk result (λ text. string_bytes text ≡ share_json held.now.vector held.now.limit) }
{
    match held.limit {
        None => "\"holds\":null,\"limit\":null".to_string(alloc),
        Some(limit) => {
            let sum = held.vector.total();
            format!(in alloc; "\"holds\":{sum},\"limit\":{limit}")
        }
    }
}

// The server that was left out as a journal was made again, where one was.
fn without_text(alloc: Global, without: Option<ServerId>) -> Result<String, AllocError>
    ensures { IfOk result (λ text. string_bytes text ≡ without_json without) }
{
    match without {
        None => "null".to_string(alloc),
        Some(server) => {
            let server = server.index;
            format!(in alloc; "{server}")
        }
    }
}

// What a server holds.
fn held_fields(alloc: Global, servers: u8, held: &Holds) -> Result<String, AllocError>
    requires { servers ≤ SERVERS }
    ensures { IfOk result (λ text. string_bytes text ≡ held_json servers held.now) }
{
    let vector = &held.vector;
    let counts = Counts { vector, servers };
    let share = share_text(alloc, held)?;
    let without = without_text(alloc, held.without)?;
    format!(in alloc; "\"at\":[{counts}],{share},\"without\":{without}")
}

/// What a server holds, or that it isn't reached.
pub(crate) fn server_object(
    alloc: Global,
    server: ServerId,
    servers: u8,
    held: &Option<Holds>,
) -> Result<String, AllocError>
    requires { servers ≤ SERVERS }
    ensures { IfOk result (λ text. string_bytes text ≡ server_json server.index servers held.now) }
{
    let server = server.index;
    match held {
        None => format!(in alloc; "{{\"kind\":\"server\",\"server\":{server},\"away\":true}}\n"),
        Some(held) => {
            let fields = held_fields(alloc, servers, held)?;
            format!(in alloc;
                "{{\"kind\":\"server\",\"server\":{server},\"away\":false,{fields}}}\n"
            )
        }
    }
}

// The name of a Write.
fn wid_text(alloc: Global, wid: Wid) -> Result<String, AllocError>
    ensures { IfOk result (λ text. string_bytes text ≡ wid_json wid) }
{
    let (origin, seq) = (wid.origin.index, wid.seq);
    format!(in alloc; "[{origin},{seq}]")
}

// What was applied of a Write: its update, an alternative, or nothing.
fn became_fields(alloc: Global, became: Became) -> Result<String, AllocError>
    ensures { IfOk result (λ text. string_bytes text ≡ became_json became) }
{
    match became {
        Became::Updated => "\"became\":\"update\",\"alternative\":null".to_string(alloc),
        Became::Merged(alternative) => {
            format!(in alloc; "\"became\":\"merge\",\"alternative\":{alternative}")
        }
        Became::Nothing => "\"became\":\"none\",\"alternative\":null".to_string(alloc),
    }
}

/// A session's own Write, how it stands, and what became of it.
pub(crate) fn own_object(
    alloc: Global,
    session: SessionId,
    standing: Standing,
    wid: Wid,
    became: Became,
) -> Result<String, AllocError>
    ensures { IfOk result (λ text. string_bytes text ≡ own_json session.index standing wid became) }
{
    let (session, word) = (session.index, standing.word());
    let name = wid_text(alloc, wid)?;
    let became = became_fields(alloc, became)?;
    format!(in alloc;
        "{{\"kind\":\"own\",\"session\":{session},\"wid\":{name},\"standing\":\"{word}\",{became}}}\n"
    )
}

/// An own Write of a session that isn't kept any longer, though it isn't final.
pub(crate) fn forgotten_object(
    alloc: Global,
    session: SessionId,
    wid: Wid,
) -> Result<String, AllocError>
    ensures { IfOk result (λ text. string_bytes text ≡ forgotten_json session.index wid) }
{
    let session = session.index;
    let name = wid_text(alloc, wid)?;
    format!(in alloc; "{{\"kind\":\"forgot\",\"session\":{session},\"wid\":{name}}}\n")
}
