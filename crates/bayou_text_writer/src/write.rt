ghost use Rattle.std.specs.Prelude.{◌≡◌, ◌<◌, ◌≤◌, ◌^◌, [], Some, IfOk, IfSome, IsUtf8, OnOk, length, string_bytes};
ghost use Rattle.serde_json.specs.Read.{read as json_of};
ghost use Rattle.serde_json.specs.View.{view};
ghost use Rattle.serde_json.specs.Written.{compact_text};
ghost use Rattle.bayou_lang.specs.Ranges.{IsWrite};
ghost use Rattle.bayou_text.specs.Ranges.{IsReadable};
ghost use Rattle.bayou_text_writer.specs.Inner.Kept.{IsLine, IsWhat};
ghost use Rattle.bayou_base.specs.declared.limits.TheConstants.{MAX_LINE_BYTES};
ghost use Rattle.bayou_text.specs.Lines.{line_of};
ghost use Rattle.bayou_text.specs.Said.{Said, said, servers as servers_line};
ghost use Rattle.bayou_text.specs.Spelling as spelling;
ghost use Rattle.bayou_text.specs.Table.{Spells};

use crate::write::audit::held_json;
use crate::write::command::command_json;
use crate::write::numbers::numbers_json;
use bayou_base::{Entry, ServerId};
use bayou_lang::RestingWrite;
use bayou_text::{AuditLine, Line, entry_spelling, held_spelling, is_update};
use serde_json::Value;
use std::alloc::{AllocError, Global};

mod asks;
mod audit;
mod command;
mod numbers;
mod program;

/// Room for most lines of an audit file, in bytes. It is taken at once, and no limit.
const LINE_ROOM: usize = 128;

/// The one spelling of the line, with no line feed. Each member of a program is written, also an empty one.
pub fn write_line(alloc: Global, line: &Line) -> Result<String, AllocError>
    // The text is compact, and its members stand in the order of their names.
    ensures spelling { IfOk result
        (λ text. string_bytes text ≡ compact_text (spelling.line_json (said line.now))) }
    // It is read as the line, once it is a line that is read.
    ensures again { IfOk result
        (λ text. IsReadable (said line.now) → line_of (string_bytes text) ≡ Ok (said line.now)) }
    // It spells the line, by the table of the lines, once it is a line that is read.
    ensures spells { IfOk result (λ text. IsReadable (said line.now) → Spells (string_bytes text) (said line.now)) }
    ensures short { IfOk result (λ text. length (string_bytes text) ≤ MAX_LINE_BYTES) }
{
    text_of(alloc, line)
}

/// The compact text of the line.
fn text_of(alloc: Global, line: &Line) -> Result<String, AllocError>
    ensures spelling { IfOk result (λ text. string_bytes text ≡ compact_text (spelling.line_json (said line.now))) }
    ensures again { IfOk result (λ text. json_of (string_bytes text) ≡ Some (spelling.line_json (said line.now))) }
    ensures kept { OnOk result (IsLine line.now) }
{
    match line {
        Line::Servers { count, limit } => tree_text(alloc, &servers_json(alloc, *count, *limit)?),
        Line::Command(command) => tree_text(alloc, &command_json(alloc, command)?),
        Line::Audit(AuditLine::Entry { entry, counts }) => {
            entry_text(alloc, entry, counts.unwrap_or(0))
        }
        Line::Audit(
            AuditLine::Held {
                server,
                write,
                counts,
            },
        ) => held_text(alloc, *server, write, *counts),
    }
}

fn servers_json(alloc: Global, count: u8, limit: Option<u32>) -> Result<Value, AllocError>
    ensures spelling { IfOk result (λ json. view json ≡ spelling.line_json (servers_line count limit)) }
    ensures kept { OnOk result ((count < 2 ^ 32) × IfSome limit (λ most. most < 2 ^ 32)) }
{
    match limit {
        None => numbers_json(alloc, "servers", &[u64::from(count)]),
        Some(limit) => numbers_json(alloc, "servers", &[u64::from(count), u64::from(limit)]),
    }
}

/// The compact text of a tree that is the spelling of a line.
fn tree_text(alloc: Global, json: &Value) -> Result<String, AllocError>
    ensures spelling { (line : Said) → view json.now ≡ spelling.line_json line → IfOk result (λ text. string_bytes text ≡ compact_text (spelling.line_json line)) }
    ensures again { (line : Said) → view json.now ≡ spelling.line_json line → IfOk result (λ text. json_of (string_bytes text) ≡ Some (spelling.line_json line)) }
{
    json.to_string(alloc)
}

/// The bytes as a text, which they are.
fn text_of_bytes(bytes: Vec<u8>) -> String
    requires { IsUtf8 bytes.items }
    ensures { string_bytes result ≡ bytes.items }
{
    match String::from_utf8(bytes) {
        Ok(text) => text,
        Err(_) => unreachable!(),
    }
}

/// The text of an entry, with so many counts of its vector, made without a tree.
fn entry_text(alloc: Global, entry: &Entry, counts: u8) -> Result<String, AllocError>
    ensures spelling { IfOk result (λ text. string_bytes text ≡ compact_text (spelling.told_json entry.now entry.now.what counts)) }
    ensures again { IfOk result (λ text. json_of (string_bytes text) ≡ Some (spelling.told_json entry.now entry.now.what counts)) }
    ensures kept { OnOk result ((entry.now.place < 2 ^ 32) × IsWhat entry.now.what) }
{
    let bytes = entry_spelling(alloc, LINE_ROOM, entry, counts)?;
    Ok(text_of_bytes(bytes))
}

/// The text of a Write that is held, whose program is an update alone, made without a tree.
fn update_text(
    alloc: Global,
    server: ServerId,
    write: &RestingWrite,
    counts: u8,
) -> Result<String, AllocError>
    requires alone { (write.now.program.check.items ≡ []) × (write.now.program.merge.items ≡ []) }
    ensures spelling { IfOk result (λ text. string_bytes text ≡ compact_text (spelling.held_json server.index write.now counts)) }
    ensures again { IfOk result (λ text. json_of (string_bytes text) ≡ Some (spelling.held_json server.index write.now counts)) }
    ensures kept { OnOk result (IsWrite write.now) }
{
    let bytes = held_spelling(alloc, LINE_ROOM, server, write, counts, true)?;
    Ok(text_of_bytes(bytes))
}

/// The text of a Write that is held, with so many counts of its vector.
fn held_text(
    alloc: Global,
    server: ServerId,
    write: &RestingWrite,
    counts: u8,
) -> Result<String, AllocError>
    ensures spelling { IfOk result (λ text. string_bytes text ≡ compact_text (spelling.held_json server.index write.now counts)) }
    ensures again { IfOk result (λ text. json_of (string_bytes text) ≡ Some (spelling.held_json server.index write.now counts)) }
    ensures kept { OnOk result (IsWrite write.now) }
{
    if is_update(write.program()) {
        return update_text(alloc, server, write, counts);
    }
    tree_text(alloc, &held_json(alloc, server, write, counts)?)
}
