//! Writes whose program is a check and an update, in the spelling that most lines of a script have.
ghost use Rattle.std.specs.Prelude.{◌≡◌, ◌≤◌, ◌^◌, ◌<◌, [], IfOk, IsTrue, IsUtf8, OnOk, length, map};
ghost use Rattle.std.specs.List.{AllByRecursion};
ghost use Rattle.json.specs.Lex.{tokens};
ghost use Rattle.bayou_base.specs.declared.limits.TheConstants.{MAX_CONDITIONS, MAX_LINE_BYTES, MAX_OPS};
ghost use Rattle.bayou_lang.specs.Ranges as ranges;
ghost use Rattle.bayou_lang.specs.declared.program.Cond.TheVariants as conditions;
ghost use Rattle.bayou_text.specs.AtOnce.{Adds, all_tokens, checked_json, checked_line_json, tokens_of};
ghost use Rattle.bayou_text.specs.Said.{write as write_line};
ghost use Rattle.bayou_text.specs.Spelling as spelling;
ghost use Rattle.bayou_text.specs.Table.{Spells};

use crate::read::spelled_operation::write_head;
use crate::read::spelled_program::{write_named, write_ops, write_value};
use bayou_base::{Key, Prefix, ServerId, SessionId, Value as Stored};
use bayou_lang::{Cond, RestingProgram};
use json::Writer;
use std::alloc::{AllocError, Global};

fn write_equals(writer: &mut Writer, key: &Key, value: &Stored) -> Result<(), AllocError>
    ensures spelling { Adds result writer.old writer.new (tokens_of (spelling.cond_json (conditions.Equals key.now value.now))) }
    ensures kept { OnOk result (ranges.IsKey key.now × ranges.IsValue value.now) }
{
    writer.begin_array()?;
    writer.string("equals")?;
    writer.string(key.as_str())?;
    write_value(writer, value)?;
    writer.end_array()
}

fn write_least(writer: &mut Writer, key: &Key, number: i64) -> Result<(), AllocError>
    ensures spelling { Adds result writer.old writer.new (tokens_of (spelling.cond_json (conditions.AtLeast key.now number))) }
    ensures kept { OnOk result (ranges.IsKey key.now × ranges.IsI64 number) }
{
    writer.begin_array()?;
    writer.string("atleast")?;
    writer.string(key.as_str())?;
    writer.i64(number)?;
    writer.end_array()
}

fn write_most(writer: &mut Writer, prefix: &Prefix, most: u32) -> Result<(), AllocError>
    ensures spelling { Adds result writer.old writer.new (tokens_of (spelling.cond_json (conditions.AtMost prefix.now most))) }
    ensures kept { OnOk result (ranges.IsPrefix prefix.now × (most < 2 ^ 32)) }
{
    writer.begin_array()?;
    writer.string("atmost")?;
    writer.string(prefix.as_str())?;
    writer.u64(u64::from(most))?;
    writer.end_array()
}

fn write_condition(writer: &mut Writer, condition: &Cond) -> Result<(), AllocError>
    ensures spelling { Adds result writer.old writer.new (tokens_of (spelling.cond_json condition.now)) }
    ensures kept { OnOk result (ranges.IsCond condition.now) }
{
    match condition {
        Cond::Equals(key, value) => write_equals(writer, key, value),
        Cond::Absent(key) => write_named(writer, "absent", key),
        Cond::AtLeast(key, number) => write_least(writer, key, *number),
        Cond::AtMost(prefix, most) => write_most(writer, prefix, *most),
    }
}

fn write_each(writer: &mut Writer, conditions: &[Cond]) -> Result<(), AllocError>
    ensures spelling { Adds result writer.old writer.new (all_tokens (map spelling.cond_json conditions.now)) }
    ensures kept { OnOk result (AllByRecursion ranges.IsCond conditions.now) }
{
    for condition in conditions {
        write_condition(writer, condition)?;
    }
    Ok(())
}

fn write_conditions(writer: &mut Writer, conditions: &[Cond]) -> Result<(), AllocError>
    ensures spelling { Adds result writer.old writer.new (tokens_of (spelling.list_json spelling.cond_json conditions.now)) }
    ensures kept { OnOk result (AllByRecursion ranges.IsCond conditions.now) }
{
    writer.begin_array()?;
    write_each(writer, conditions)?;
    writer.end_array()
}

/// Writes a program of the check and the update of this one, and of no other member.
fn write_lists(writer: &mut Writer, program: &RestingProgram) -> Result<(), AllocError>
    ensures spelling { Adds result writer.old writer.new (tokens_of (checked_json program.now.check.items program.now.update.items)) }
    ensures check { OnOk result (AllByRecursion ranges.IsCond program.now.check.items × (length program.now.check.items ≤ MAX_CONDITIONS)) }
    ensures update { OnOk result (AllByRecursion ranges.IsOp program.now.update.items × (length program.now.update.items ≤ MAX_OPS)) }
{
    writer.begin_object()?;
    writer.key("check")?;
    write_conditions(writer, program.check())?;
    writer.key("update")?;
    write_ops(writer, program.update())?;
    writer.end_object()
}

/// Writes the line of a Write, of whose program the check and the update stand in it.
fn write_checked(
    writer: &mut Writer,
    session: SessionId,
    server: ServerId,
    program: &RestingProgram,
) -> Result<(), AllocError>
    ensures spelling { Adds result writer.old writer.new (tokens_of (checked_line_json session.index server.index program.now.check.items program.now.update.items)) }
    ensures check { OnOk result (AllByRecursion ranges.IsCond program.now.check.items × (length program.now.check.items ≤ MAX_CONDITIONS)) }
    ensures update { OnOk result (AllByRecursion ranges.IsOp program.now.update.items × (length program.now.update.items ≤ MAX_OPS)) }
{
    write_head(writer, "write", session, server)?;
    write_lists(writer, program)?;
    writer.end_array()
}

/// The spelling of that line, in memory of this size at first.
fn spelling_of(
    alloc: Global,
    size: usize,
    session: SessionId,
    server: ServerId,
    program: &RestingProgram,
) -> Result<Vec<u8>, AllocError>
    ensures spelling { IfOk result (λ text. tokens text.items ≡ tokens_of (checked_line_json session.index server.index program.now.check.items program.now.update.items)) }
    ensures utf8 { IfOk result (λ text. IsUtf8 text.items) }
    ensures check { OnOk result (AllByRecursion ranges.IsCond program.now.check.items × (length program.now.check.items ≤ MAX_CONDITIONS)) }
    ensures update { OnOk result (AllByRecursion ranges.IsOp program.now.update.items × (length program.now.update.items ≤ MAX_OPS)) }
{
    let mut writer = Writer::new(Vec::with_capacity(alloc, size)?);
    write_checked(&mut writer, session, server, program)?;
    Ok(writer.into_inner())
}

/// Whether the program has no merge procedure.
fn has_no_merge(program: &RestingProgram) -> bool
    ensures { IsTrue result → program.now.merge.items ≡ [] }
{
    program.merge().is_empty()
}

/// Whether the bytes are that spelling of the line of a Write without a merge procedure. Where memory is short they aren't.
pub(crate) fn is_checked(
    alloc: Global,
    bytes: &[u8],
    session: SessionId,
    server: ServerId,
    program: &RestingProgram,
) -> bool
    requires { length bytes.now ≤ MAX_LINE_BYTES }
    ensures { IsTrue result → Spells bytes.now (write_line session.index server.index program.now) }
{
    if !has_no_merge(program) {
        return false;
    }
    match spelling_of(alloc, bytes.len(), session, server, program) {
        Ok(text) => text.as_slice() == bytes,
        Err(_) => false,
    }
}
