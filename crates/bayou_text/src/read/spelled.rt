//! Entries that stand in the line in their one spelling, which most lines of an audit file are.
ghost use Rattle.std.specs.Prelude.{◌≡◌, ◌<◌, ◌≤◌, ◌^◌, ◌∷◌, Some, IfOk, IfSome, IsTrue, IsUtf8, OnOk, length, map};
ghost use Rattle.json.specs.Lex.{tokens};
ghost use Rattle.json.specs.Token.{begin_array};
ghost use Rattle.serde_json.specs.Read.{read as json_of};
ghost use Rattle.serde_json.specs.Written.{compact_text};
ghost use Rattle.bayou_base.specs.Vector.{AreCounts};
ghost use Rattle.bayou_base.specs.declared.limits.TheConstants.{MAX_LINE_BYTES};
ghost use Rattle.bayou_text.specs.AtOnce.{Adds, IsEntry, all_tokens, tokens_of};
ghost use Rattle.bayou_text.specs.Ranges.{IsCutTo, IsToldBy};
ghost use Rattle.bayou_text.specs.Said.{entry as entry_line, said};
ghost use Rattle.bayou_text.specs.Spelling as spelling;
ghost use Rattle.bayou_text.specs.Table.{Spells};

use crate::audit::AuditLine;
use crate::line::Line;
use crate::read::glance::guess;
use bayou_base::{Asks, Entry, SERVERS, ServerId, Stamp, Vector, What, Wid};
use json::Writer;
use std::alloc::{AllocError, Global};

/// Writes the word of what is asked for.
fn write_word(writer: &mut Writer, asked: bool, word: &str) -> Result<(), AllocError>
    ensures { Adds result writer.old writer.new (all_tokens (spelling.word_if asked word.now)) }
{
    if asked {
        writer.string(word)?;
    }
    Ok(())
}

fn write_asks(writer: &mut Writer, asks: Asks) -> Result<(), AllocError>
    ensures { Adds result writer.old writer.new (tokens_of (spelling.asks_json asks)) }
{
    writer.begin_array()?;
    write_word(writer, asks.ryw, "ryw")?;
    write_word(writer, asks.mr, "mr")?;
    write_word(writer, asks.wfr, "wfr")?;
    write_word(writer, asks.mw, "mw")?;
    writer.end_array()
}

/// Writes each of the counts.
fn write_each(writer: &mut Writer, counts: &[u32]) -> Result<(), AllocError>
    ensures { Adds result writer.old writer.new (all_tokens (map spelling.count_json counts.now)) }
{
    for count in counts {
        writer.u64(u64::from(*count))?;
    }
    Ok(())
}

fn write_counts(writer: &mut Writer, counts: &[u32]) -> Result<(), AllocError>
    ensures { Adds result writer.old writer.new (tokens_of (spelling.list_json spelling.count_json counts.now)) }
{
    writer.begin_array()?;
    write_each(writer, counts)?;
    writer.end_array()
}

/// Writes the first counts of the vector, or all of them.
pub(crate) fn write_vector(
    writer: &mut Writer,
    vector: &Vector,
    number: u8,
) -> Result<(), AllocError>
    ensures spelling { Adds result writer.old writer.new (tokens_of (spelling.vector_json number vector.now)) }
    ensures kept { OnOk result (AreCounts vector.now) }
{
    let counts = vector.counts();
    let told = usize::from(number).min(SERVERS);
    write_counts(writer, &counts[..told])
}

/// Writes what an entry begins with, and the word of what became of the operation.
fn write_head(writer: &mut Writer, entry: &Entry, word: &str) -> Result<(), AllocError>
    ensures spelling { Adds result writer.old writer.new (begin_array ∷ all_tokens (spelling.head_json entry.now word.now)) }
    ensures kept { OnOk result (entry.now.place < 2 ^ 32) }
{
    writer.begin_array()?;
    writer.string("entry")?;
    writer.u64(u64::from(entry.session.index))?;
    writer.u64(u64::from(entry.place))?;
    write_asks(writer, entry.asks)?;
    writer.u64(u64::from(entry.server.index))?;
    writer.string(word)
}

/// Writes an entry, with so many counts of its vector.
fn write_entry(writer: &mut Writer, entry: &Entry, counts: u8) -> Result<(), AllocError>
    ensures spelling { Adds result writer.old writer.new (tokens_of (spelling.told_json entry.now entry.now.what counts)) }
    ensures kept { OnOk result (IsEntry entry.now) }
{
    match &entry.what {
        What::Refused => {
            write_head(writer, entry, "refused")?;
            writer.end_array()
        }
        What::Read(key, vector) => {
            write_head(writer, entry, "read")?;
            writer.string(key.as_str())?;
            write_vector(writer, vector, counts)?;
            writer.end_array()
        }
        What::Write(wid, stamp, deps) => {
            write_head(writer, entry, "write")?;
            writer.u64(u64::from(wid.seq))?;
            writer.u64(u64::from(stamp.clock))?;
            write_vector(writer, deps, counts)?;
            writer.end_array()
        }
    }
}

/// The one spelling of the entry, with so many counts of its vector, in memory of this size at first. It is made without a tree of JSON.
pub fn entry_spelling(
    alloc: Global,
    size: usize,
    entry: &Entry,
    counts: u8,
) -> Result<Vec<u8>, AllocError>
    ensures spelling { IfOk result (λ text. tokens text.items ≡ tokens_of (spelling.told_json entry.now entry.now.what counts)) }
    ensures compact { IfOk result (λ text. text.items ≡ compact_text (spelling.told_json entry.now entry.now.what counts)) }
    ensures again { IfOk result (λ text. json_of text.items ≡ Some (spelling.told_json entry.now entry.now.what counts)) }
    ensures utf8 { IfOk result (λ text. IsUtf8 text.items) }
    ensures kept { OnOk result (IsEntry entry.now) }
{
    let mut writer = Writer::new(Vec::with_capacity(alloc, size)?);
    write_entry(&mut writer, entry, counts)?;
    Ok(writer.into_inner())
}

/// Whether so many counts of the vector tell all of it.
pub(crate) fn is_cut(vector: &Vector, number: u8) -> bool
    ensures { IsTrue result → IsCutTo number vector.now }
{
    let told = usize::from(number);
    0 < told && told <= SERVERS && vector.counts()[told..].iter().all(|count| *count == 0)
}

/// Whether both are of this server.
pub(crate) fn is_own(server: ServerId, wid: Wid, stamp: Stamp) -> bool
    ensures { IsTrue result → (wid.origin ≡ server) × (stamp.origin ≡ server) }
{
    wid.origin.index == server.index && stamp.origin.index == server.index
}

/// Whether so many counts of its vector tell all of the entry, and it tells of no Write but of its own server's.
fn is_told(entry: &Entry, counts: Option<u8>) -> bool
    ensures { IsTrue result → IsToldBy entry.now.server entry.now.what counts }
{
    match (&entry.what, counts) {
        (What::Refused, None) => true,
        (What::Read(_, vector), Some(number)) => is_cut(vector, number),
        (What::Write(wid, stamp, deps), Some(number)) => {
            is_own(entry.server, *wid, *stamp) && is_cut(deps, number)
        }
        _ => false,
    }
}

/// Whether the bytes are the one spelling of the entry, with so many counts of its vector. Where memory is short they aren't.
fn is_spelling(alloc: Global, bytes: &[u8], entry: &Entry, counts: Option<u8>) -> bool
    requires { length bytes.now ≤ MAX_LINE_BYTES }
    ensures { IsTrue result → Spells bytes.now (entry_line entry.now counts) }
{
    if !is_told(entry, counts) {
        return false;
    }
    match entry_spelling(alloc, bytes.len(), entry, counts.unwrap_or(0)) {
        Ok(text) => text.as_slice() == bytes,
        Err(_) => false,
    }
}

/// The entry of which the bytes are the one spelling, if there is one. Where memory is short there is none.
pub(crate) fn spelled_entry(alloc: Global, bytes: &[u8]) -> Option<Line>
    requires { length bytes.now ≤ MAX_LINE_BYTES }
    ensures { IfSome result (λ line. Spells bytes.now (said line)) }
{
    let Some((entry, counts)) = guess(bytes) else {
        return None;
    };
    if !is_spelling(alloc, bytes, &entry, counts) {
        return None;
    }
    Some(Line::Audit(AuditLine::Entry { entry, counts }))
}
