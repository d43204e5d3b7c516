//! What a session tries, in a spelling that most lines of a script have: a read, or a Write whose program has no merge procedure.
ghost use Rattle.std.specs.Prelude.{◌≡◌, ◌≤◌, ◌∷◌, IfOk, IfSome, IsTrue, IsUtf8, OnOk, length};
ghost use Rattle.std.specs.List.{AllByRecursion};
ghost use Rattle.json.specs.Lex.{tokens};
ghost use Rattle.json.specs.Token.{begin_array};
ghost use Rattle.bayou_base.specs.declared.limits.TheConstants.{MAX_LINE_BYTES, MAX_OPS};
ghost use Rattle.bayou_lang.specs.Ranges.{IsKey, IsOp};
ghost use Rattle.bayou_text.specs.AtOnce.{Adds, all_tokens, operation_head, tokens_of, update_line_json};
ghost use Rattle.bayou_text.specs.Said.{read as read_line, said, write as write_line};
ghost use Rattle.bayou_text.specs.Spelling.{line_json};
ghost use Rattle.bayou_text.specs.Table.{Spells};

use crate::command::{Attempt, Command, Operation};
use crate::line::Line;
use crate::read::glance::{Members, guess_operation};
use crate::read::spelled_check::is_checked;
use crate::read::spelled_program::{is_update, write_update};
use bayou_base::{Key, ServerId, SessionId};
use bayou_lang::RestingProgram;
use json::Writer;
use std::alloc::{AllocError, Global};

/// Writes what the line of an operation begins with.
pub(crate) fn write_head(
    writer: &mut Writer,
    word: &str,
    session: SessionId,
    server: ServerId,
) -> Result<(), AllocError>
    ensures { Adds result writer.old writer.new (begin_array ∷ all_tokens (operation_head word.now session.index server.index)) }
{
    writer.begin_array()?;
    writer.string(word)?;
    writer.u64(u64::from(session.index))?;
    writer.u64(u64::from(server.index))
}

/// Writes the line of a read.
fn write_read(
    writer: &mut Writer,
    session: SessionId,
    server: ServerId,
    key: &Key,
) -> Result<(), AllocError>
    ensures spelling { Adds result writer.old writer.new (tokens_of (line_json (read_line session.index server.index key.now))) }
    ensures kept { OnOk result (IsKey key.now) }
{
    write_head(writer, "read", session, server)?;
    writer.string(key.as_str())?;
    writer.end_array()
}

/// Writes the line of a Write, of whose program the update alone stands in it.
fn write_written(
    writer: &mut Writer,
    session: SessionId,
    server: ServerId,
    program: &RestingProgram,
    is_whole: bool,
) -> Result<(), AllocError>
    ensures spelling { Adds result writer.old writer.new (tokens_of (update_line_json is_whole session.index server.index program.now.update.items)) }
    ensures kept { OnOk result (AllByRecursion IsOp program.now.update.items × (length program.now.update.items ≤ MAX_OPS)) }
{
    write_head(writer, "write", session, server)?;
    write_update(writer, program.update(), is_whole)?;
    writer.end_array()
}

/// The spelling of the line of a read, in memory of this size at first.
fn read_spelling(
    alloc: Global,
    size: usize,
    session: SessionId,
    server: ServerId,
    key: &Key,
) -> Result<Vec<u8>, AllocError>
    ensures spelling { IfOk result (λ text. tokens text.items ≡ tokens_of (line_json (read_line session.index server.index key.now))) }
    ensures utf8 { IfOk result (λ text. IsUtf8 text.items) }
    ensures kept { OnOk result (IsKey key.now) }
{
    let mut writer = Writer::new(Vec::with_capacity(alloc, size)?);
    write_read(&mut writer, session, server, key)?;
    Ok(writer.into_inner())
}

/// That of a Write, with the update of its program alone.
fn write_spelling(
    alloc: Global,
    size: usize,
    session: SessionId,
    server: ServerId,
    program: &RestingProgram,
    is_whole: bool,
) -> Result<Vec<u8>, AllocError>
    ensures spelling { IfOk result (λ text. tokens text.items ≡ tokens_of (update_line_json is_whole session.index server.index program.now.update.items)) }
    ensures utf8 { IfOk result (λ text. IsUtf8 text.items) }
    ensures kept { OnOk result (AllByRecursion IsOp program.now.update.items × (length program.now.update.items ≤ MAX_OPS)) }
{
    let mut writer = Writer::new(Vec::with_capacity(alloc, size)?);
    write_written(&mut writer, session, server, program, is_whole)?;
    Ok(writer.into_inner())
}

/// Whether the bytes are the one spelling of the line of a read. Where memory is short they aren't.
fn is_read(alloc: Global, bytes: &[u8], session: SessionId, server: ServerId, key: &Key) -> bool
    requires { length bytes.now ≤ MAX_LINE_BYTES }
    ensures { IsTrue result → Spells bytes.now (read_line session.index server.index key.now) }
{
    match read_spelling(alloc, bytes.len(), session, server, key) {
        Ok(text) => text.as_slice() == bytes,
        Err(_) => false,
    }
}

/// Whether the bytes are that spelling of the line of a Write. Where memory is short they aren't.
fn is_updating(
    alloc: Global,
    bytes: &[u8],
    session: SessionId,
    server: ServerId,
    program: &RestingProgram,
    is_whole: bool,
) -> bool
    requires { length bytes.now ≤ MAX_LINE_BYTES }
    ensures { IsTrue result → Spells bytes.now (write_line session.index server.index program.now) }
{
    if !is_update(program) {
        return false;
    }
    match write_spelling(alloc, bytes.len(), session, server, program, is_whole) {
        Ok(text) => text.as_slice() == bytes,
        Err(_) => false,
    }
}

/// Whether the bytes are the spelling of the line of a Write in which these members of its program stand. Where memory is short they aren't.
fn is_write(
    alloc: Global,
    bytes: &[u8],
    session: SessionId,
    server: ServerId,
    program: &RestingProgram,
    members: Members,
) -> bool
    requires { length bytes.now ≤ MAX_LINE_BYTES }
    ensures { IsTrue result → Spells bytes.now (write_line session.index server.index program.now) }
{
    match members {
        Members::Update { is_whole } => {
            is_updating(alloc, bytes, session, server, program, is_whole)
        }
        Members::CheckAndUpdate => is_checked(alloc, bytes, session, server, program),
    }
}

/// The operation that the line tells, where it is a read, or a Write whose program has no merge procedure, and is spelled so. Where memory
/// is short there is none.
pub(crate) fn spelled_operation(alloc: Global, bytes: &[u8]) -> Option<Line>
    requires { length bytes.now ≤ MAX_LINE_BYTES }
    ensures { IfSome result (λ line. Spells bytes.now (said line)) }
{
    let Some(guess) = guess_operation(alloc, bytes) else {
        return None;
    };
    let session = guess.session;
    let is_spelled = match &guess.attempt {
        Attempt::Read { server, key } => is_read(alloc, bytes, session, *server, key),
        Attempt::Write { server, program } => {
            is_write(alloc, bytes, session, *server, program, guess.members)
        }
        Attempt::Again => false,
    };
    if !is_spelled {
        return None;
    }
    Some(Line::Command(Command::Operation(Operation {
        session,
        attempt: guess.attempt,
    })))
}
