//! Writes that stand in the line in a spelling that most lines of an audit file have: their program is an update alone.
ghost use Rattle.std.specs.Prelude.{◌≡◌, ◌≤◌, Some, IfOk, IfSome, IsTrue, IsUtf8, OnOk, length};
ghost use Rattle.std.specs.List.{AllByRecursion};
ghost use Rattle.json.specs.Lex.{tokens};
ghost use Rattle.serde_json.specs.Read.{read as json_of};
ghost use Rattle.serde_json.specs.Written.{compact_text};
ghost use Rattle.bayou_base.specs.Vector.{AreCounts};
ghost use Rattle.bayou_base.specs.declared.limits.TheConstants.{MAX_LINE_BYTES, MAX_OPS};
ghost use Rattle.bayou_lang.specs.Ranges.{IsOp};
ghost use Rattle.bayou_text.specs.AtOnce.{Adds, tokens_of, update_held_json, updating_json};
ghost use Rattle.bayou_text.specs.Ranges.{IsCutTo};
ghost use Rattle.bayou_text.specs.Said.{held, said};
ghost use Rattle.bayou_text.specs.Table.{Spells};

use crate::audit::AuditLine;
use crate::line::Line;
use crate::read::glance::guess_held;
use crate::read::spelled::{is_cut, write_vector};
use crate::read::spelled_program::{is_update, write_update};
use bayou_base::ServerId;
use bayou_lang::RestingWrite;
use json::Writer;
use std::alloc::{AllocError, Global};

/// Writes the Write, with so many counts of its vector.
fn write_updating(
    writer: &mut Writer,
    write: &RestingWrite,
    counts: u8,
    is_whole: bool,
) -> Result<(), AllocError>
    ensures spelling { Adds result writer.old writer.new (tokens_of (updating_json is_whole write.now counts)) }
    ensures kept { OnOk result (AreCounts write.now.deps) }
    ensures ops { OnOk result (AllByRecursion IsOp write.now.program.update.items × (length write.now.program.update.items ≤ MAX_OPS)) }
{
    let wid = write.wid();
    writer.begin_array()?;
    writer.u64(u64::from(wid.origin.index))?;
    writer.u64(u64::from(wid.seq))?;
    writer.u64(u64::from(write.stamp().clock))?;
    write_vector(writer, write.deps(), counts)?;
    write_update(writer, write.program().update(), is_whole)?;
    writer.end_array()
}

/// Writes the line of the Write that the server holds.
fn write_held(
    writer: &mut Writer,
    server: ServerId,
    write: &RestingWrite,
    counts: u8,
    is_whole: bool,
) -> Result<(), AllocError>
    ensures spelling { Adds result writer.old writer.new (tokens_of (update_held_json is_whole server.index write.now counts)) }
    ensures kept { OnOk result (AreCounts write.now.deps) }
    ensures ops { OnOk result (AllByRecursion IsOp write.now.program.update.items × (length write.now.program.update.items ≤ MAX_OPS)) }
{
    writer.begin_array()?;
    writer.string("held")?;
    writer.u64(u64::from(server.index))?;
    write_updating(writer, write, counts, is_whole)?;
    writer.end_array()
}

/// The spelling of the line, in memory of this size at first, of a Write whose program is an update alone: with its empty members where it is
/// whole, which is its one spelling. It is made without a tree of JSON.
pub fn held_spelling(
    alloc: Global,
    size: usize,
    server: ServerId,
    write: &RestingWrite,
    counts: u8,
    is_whole: bool,
) -> Result<Vec<u8>, AllocError>
    ensures spelling { IfOk result (λ text. tokens text.items ≡ tokens_of (update_held_json is_whole server.index write.now counts)) }
    ensures compact { IfOk result (λ text. text.items ≡ compact_text (update_held_json is_whole server.index write.now counts)) }
    ensures again { IfOk result (λ text. json_of text.items ≡ Some (update_held_json is_whole server.index write.now counts)) }
    ensures utf8 { IfOk result (λ text. IsUtf8 text.items) }
    ensures kept { OnOk result (AreCounts write.now.deps) }
    ensures ops { OnOk result (AllByRecursion IsOp write.now.program.update.items × (length write.now.program.update.items ≤ MAX_OPS)) }
{
    let mut writer = Writer::new(Vec::with_capacity(alloc, size)?);
    write_held(&mut writer, server, write, counts, is_whole)?;
    Ok(writer.into_inner())
}

/// Whether the bytes are that spelling of the line. Where memory is short they aren't.
fn is_spelling(
    alloc: Global,
    bytes: &[u8],
    server: ServerId,
    write: &RestingWrite,
    counts: u8,
    is_whole: bool,
) -> bool
    requires { length bytes.now ≤ MAX_LINE_BYTES }
    ensures { IsTrue result → Spells bytes.now (held server.index write.now counts) }
{
    if !is_update(write.program()) {
        return false;
    }
    if !is_cut(write.deps(), counts) {
        return false;
    }
    match held_spelling(alloc, bytes.len(), server, write, counts, is_whole) {
        Ok(text) => text.as_slice() == bytes,
        Err(_) => false,
    }
}

/// The Write that the line tells to be held, where its program is an update alone and the line is spelled so. Where memory is short there is
/// none.
pub(crate) fn spelled_held(alloc: Global, bytes: &[u8]) -> Option<Line>
    requires { length bytes.now ≤ MAX_LINE_BYTES }
    ensures { IfSome result (λ line. Spells bytes.now (said line)) }
{
    let Some(guess) = guess_held(alloc, bytes) else {
        return None;
    };
    let server = guess.server;
    let counts = guess.counts;
    let write = guess.write;
    if !is_spelling(alloc, bytes, server, &write, counts, guess.is_whole) {
        return None;
    }
    Some(Line::Audit(AuditLine::Held {
        server,
        write,
        counts,
    }))
}
