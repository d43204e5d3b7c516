//! What is reported beside rows, as JSON.
ghost use Rattle.std.specs.Prelude.{◌≤◌, ◌≡◌, ◌++◌, ◌∷◌, [], IfOk, OnOk, codes, decimal, map, string_bytes};
ghost use Rattle.json.specs.Token.{boolean, key, number, string};
ghost use Rattle.std.specs.Net.Text.{socket_text};
ghost use Rattle.bayou_base.specs.declared.limits.TheConstants.{SERVERS as NUMBER};
ghost use Rattle.bayou_web_state.specs.Parts.{all_own_tokens, asked_word, asks_tokens, held_tokens, notice_tokens, notices_tokens, number_token, numbered_tokens, own_tokens, place_tokens, server_tokens, servers_tokens, session_tokens, text_token, told_tokens, told_word, vector_tokens, view_tokens, wid_text};

use crate::seen::{NewsItem, Own, SeenSession, ServerSeen};
use bayou_base::{Asks, ServerId, Vector, Wid};
use bayou_wire::Became;
use json::Writer;
use std::alloc::{AllocError, Global};
use std::net::SocketAddr;

// Each count, in order.
fn put_counts(out: &mut Writer, counts: &[u32]) -> Result<(), AllocError>
    ensures put { OnOk result (out.new.tokens ≡ out.old.tokens ++ map (λ count. number (decimal count)) counts.now) }
    ensures before { out.new.before ≡ out.old.before }
{
    for count in counts {
        out.u64(u64::from(*count))?;
    }
    Ok(())
}

/// The first counts of a vector, as an array.
pub(crate) fn put_vector(out: &mut Writer, vector: &Vector, servers: u8) -> Result<(), AllocError>
    requires { servers ≤ NUMBER }
    ensures put { OnOk result (out.new.tokens ≡ out.old.tokens ++ vector_tokens servers vector.now) }
    ensures before { out.new.before ≡ out.old.before }
{
    out.begin_array()?;
    put_counts(out, &vector.counts()[..usize::from(servers)])?;
    out.end_array()
}

// A vector, or null.
fn put_view(out: &mut Writer, view: &Option<Vector>, servers: u8) -> Result<(), AllocError>
    requires { servers ≤ NUMBER }
    ensures put { OnOk result (out.new.tokens ≡ out.old.tokens ++ view_tokens servers view.now) }
    ensures before { out.new.before ≡ out.old.before }
{
    match view {
        Some(view) => put_vector(out, view, servers),
        None => out.null(),
    }
}

/// A member that is a text, or null.
pub(crate) fn put_text(
    out: &mut Writer,
    name: &str,
    text: &Option<String>,
) -> Result<(), AllocError>
    ensures put { OnOk result (out.new.tokens ≡ out.old.tokens ++ key name.now ∷ text_token text.now ∷ []) }
    ensures before { out.new.before ≡ out.old.before }
{
    out.key(name)?;
    match text {
        Some(text) => out.string(text.as_str()),
        None => out.null(),
    }
}

/// A member that is true or false.
pub(crate) fn put_flag(out: &mut Writer, name: &str, is_so: bool) -> Result<(), AllocError>
    ensures put { OnOk result (out.new.tokens ≡ out.old.tokens ++ key name.now ∷ boolean is_so ∷ []) }
    ensures before { out.new.before ≡ out.old.before }
{
    out.key(name)?;
    out.boolean(is_so)
}

// A number, or null.
fn put_number(out: &mut Writer, number: Option<u32>) -> Result<(), AllocError>
    ensures put { OnOk result (out.new.tokens ≡ out.old.tokens ++ number_token number ∷ []) }
    ensures before { out.new.before ≡ out.old.before }
{
    match number {
        Some(number) => out.u64(u64::from(number)),
        None => out.null(),
    }
}

// A member that says which server it is, as a number.
fn put_index(out: &mut Writer, name: &str, server: ServerId) -> Result<(), AllocError>
    ensures put { OnOk result (out.new.tokens ≡ out.old.tokens ++ key name.now ∷ number (decimal server.index) ∷ []) }
    ensures before { out.new.before ≡ out.old.before }
{
    out.key(name)?;
    out.u64(u64::from(server.index))
}

// The address, as a text.
fn put_address(out: &mut Writer, alloc: Global, address: SocketAddr) -> Result<(), AllocError>
    ensures put { OnOk result (out.new.tokens ≡ out.old.tokens ++ key (codes "address") ∷ string (socket_text address) ∷ []) }
    ensures before { out.new.before ≡ out.old.before }
{
    let text = address.to_string(alloc)?;
    out.key("address")?;
    out.string(text.as_str())
}

// Which server it is, and whether it is up.
fn put_place(out: &mut Writer, alloc: Global, server: &ServerSeen) -> Result<(), AllocError>
    ensures put { OnOk result (out.new.tokens ≡ out.old.tokens ++ place_tokens server.now) }
    ensures before { out.new.before ≡ out.old.before }
{
    put_index(out, "id", server.id)?;
    put_address(out, alloc, server.address)?;
    put_flag(out, "up", server.is_up)
}

// What it held, and how much it may hold.
fn put_held(out: &mut Writer, server: &ServerSeen, servers: u8) -> Result<(), AllocError>
    requires { servers ≤ NUMBER }
    ensures put { OnOk result (out.new.tokens ≡ out.old.tokens ++ held_tokens servers server.now) }
    ensures before { out.new.before ≡ out.old.before }
{
    out.key("at")?;
    put_view(out, &server.view, servers)?;
    out.key("limit")?;
    put_number(out, server.limit)
}

// A server: `{"id":0,"address":"127.0.0.1:7000","up":true,"at":[2,1,0],"limit":4096}`.
fn put_server(
    out: &mut Writer,
    alloc: Global,
    server: &ServerSeen,
    servers: u8,
) -> Result<(), AllocError>
    requires { servers ≤ NUMBER }
    ensures put { OnOk result (out.new.tokens ≡ out.old.tokens ++ server_tokens servers server.now) }
    ensures before { out.new.before ≡ out.old.before }
{
    out.begin_object()?;
    put_place(out, alloc, server)?;
    put_held(out, server, servers)?;
    out.end_object()
}

/// Each server.
pub(crate) fn put_servers(
    out: &mut Writer,
    alloc: Global,
    all: &[ServerSeen],
    servers: u8,
) -> Result<(), AllocError>
    requires { servers ≤ NUMBER }
    ensures put { OnOk result (out.new.tokens ≡ out.old.tokens ++ servers_tokens servers all.now) }
    ensures before { out.new.before ≡ out.old.before }
{
    out.begin_array()?;
    for server in all {
        put_server(out, alloc, server, servers)?;
    }
    out.end_array()
}

// What became of an own Write as it was reported last: its update, an alternative of its merge procedure, or nothing.
fn told_text(alloc: Global, told: Option<Became>) -> Result<String, AllocError>
    ensures { IfOk result (λ text. string_bytes text ≡ told_word told) }
{
    match told {
        None => String::from_str(alloc, "untold"),
        Some(Became::Updated) => String::from_str(alloc, "update"),
        Some(Became::Merged(alternative)) => format!(in alloc; "merge {alternative}"),
        Some(Became::Nothing) => String::from_str(alloc, "none"),
    }
}

/// A Write by its origin and its number there: `0:5`.
pub(crate) fn name_of(alloc: Global, wid: Wid) -> Result<String, AllocError>
    ensures { IfOk result (λ name. string_bytes name ≡ wid_text wid) }
{
    let (origin, seq) = (wid.origin.index, wid.seq);
    format!(in alloc; "{origin}:{seq}")
}

// The Write, by its name.
fn put_name(out: &mut Writer, alloc: Global, wid: Wid) -> Result<(), AllocError>
    ensures put { OnOk result (out.new.tokens ≡ out.old.tokens ++ key (codes "write") ∷ string (wid_text wid) ∷ []) }
    ensures before { out.new.before ≡ out.old.before }
{
    let name = name_of(alloc, wid)?;
    out.key("write")?;
    out.string(name.as_str())
}

// What it became, as a word.
fn put_became(out: &mut Writer, alloc: Global, told: Option<Became>) -> Result<(), AllocError>
    ensures put { OnOk result (out.new.tokens ≡ out.old.tokens ++ key (codes "told") ∷ string (told_word told) ∷ []) }
    ensures before { out.new.before ≡ out.old.before }
{
    let word = told_text(alloc, told)?;
    out.key("told")?;
    out.string(word.as_str())
}

// An own Write: `{"write":"0:5","told":"update","line":"claim mon/9/blue kim"}`.
fn put_own(out: &mut Writer, alloc: Global, own: &Own) -> Result<(), AllocError>
    ensures put { OnOk result (out.new.tokens ≡ out.old.tokens ++ own_tokens own.now) }
    ensures before { out.new.before ≡ out.old.before }
{
    out.begin_object()?;
    put_name(out, alloc, own.write.wid)?;
    put_became(out, alloc, own.write.told)?;
    put_text(out, "line", &own.line)?;
    out.end_object()
}

/// Each own Write.
pub(crate) fn put_all_own(out: &mut Writer, alloc: Global, all: &[Own]) -> Result<(), AllocError>
    ensures put { OnOk result (out.new.tokens ≡ out.old.tokens ++ all_own_tokens all.now) }
    ensures before { out.new.before ≡ out.old.before }
{
    out.begin_array()?;
    for own in all {
        put_own(out, alloc, own)?;
    }
    out.end_array()
}

// The word, if it is asked for.
fn put_asked(out: &mut Writer, is_asked: bool, word: &str) -> Result<(), AllocError>
    ensures put { OnOk result (out.new.tokens ≡ out.old.tokens ++ asked_word is_asked word.now) }
    ensures before { out.new.before ≡ out.old.before }
{
    if is_asked {
        return out.string(word);
    }
    Ok(())
}

// The guarantees that are asked for, by their names.
fn put_asks(out: &mut Writer, asks: Asks) -> Result<(), AllocError>
    ensures put { OnOk result (out.new.tokens ≡ out.old.tokens ++ asks_tokens asks) }
    ensures before { out.new.before ≡ out.old.before }
{
    out.begin_array()?;
    put_asked(out, asks.ryw, "ryw")?;
    put_asked(out, asks.mr, "mr")?;
    put_asked(out, asks.wfr, "wfr")?;
    put_asked(out, asks.mw, "mw")?;
    out.end_array()
}

/// The session, or null.
pub(crate) fn put_session(
    out: &mut Writer,
    session: &Option<SeenSession>,
    servers: u8,
) -> Result<(), AllocError>
    requires { servers ≤ NUMBER }
    ensures put { OnOk result (out.new.tokens ≡ out.old.tokens ++ session_tokens servers session.now) }
    ensures before { out.new.before ≡ out.old.before }
{
    let Some(session) = session else {
        return out.null();
    };
    out.begin_object()?;
    out.key("asks")?;
    put_asks(out, session.asks)?;
    out.key("reads")?;
    put_vector(out, &session.reads, servers)?;
    out.key("writes")?;
    put_vector(out, &session.writes, servers)?;
    out.end_object()
}

// Which notice it is, and its text.
fn put_numbered(out: &mut Writer, notice: &NewsItem) -> Result<(), AllocError>
    ensures put { OnOk result (out.new.tokens ≡ out.old.tokens ++ numbered_tokens notice.now) }
    ensures before { out.new.before ≡ out.old.before }
{
    out.key("number")?;
    out.u64(notice.number)?;
    out.key("text")?;
    out.string(notice.text.as_str())
}

// A notice: `{"number":1,"text":"0 changed 0:5 none","line":"claim mon/9/blue kim"}`.
fn put_notice(out: &mut Writer, notice: &NewsItem) -> Result<(), AllocError>
    ensures put { OnOk result (out.new.tokens ≡ out.old.tokens ++ notice_tokens notice.now) }
    ensures before { out.new.before ≡ out.old.before }
{
    out.begin_object()?;
    put_numbered(out, notice)?;
    put_text(out, "line", &notice.line)?;
    out.end_object()
}

/// Each notice.
pub(crate) fn put_notices(out: &mut Writer, notices: &[NewsItem]) -> Result<(), AllocError>
    ensures put { OnOk result (out.new.tokens ≡ out.old.tokens ++ notices_tokens notices.now) }
    ensures before { out.new.before ≡ out.old.before }
{
    out.begin_array()?;
    for notice in notices {
        put_notice(out, notice)?;
    }
    out.end_array()
}

/// Which server told the rows, and what it held; null for both before the first.
pub(crate) fn put_told(
    out: &mut Writer,
    told: &Option<(ServerId, Vector)>,
    servers: u8,
) -> Result<(), AllocError>
    requires { servers ≤ NUMBER }
    ensures put { OnOk result (out.new.tokens ≡ out.old.tokens ++ told_tokens servers told.now) }
    ensures before { out.new.before ≡ out.old.before }
{
    let Some((server, vector)) = told else {
        out.key("server")?;
        out.null()?;
        out.key("at")?;
        return out.null();
    };
    put_index(out, "server", *server)?;
    out.key("at")?;
    put_vector(out, vector, servers)
}
