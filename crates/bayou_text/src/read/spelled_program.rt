//! Programs of an update alone, in the spelling that most lines of an audit file have.
ghost use Rattle.std.specs.Prelude.{◌≡◌, ◌∷◌, [], IsTrue, OnOk, map};
ghost use Rattle.std.specs.List.{AllByRecursion};
ghost use Rattle.serde_json.specs.Data.{string};
ghost use Rattle.json.specs.Token.{begin_array, end_array, key};
ghost use Rattle.bayou_lang.specs.Ranges as ranges;
ghost use Rattle.bayou_lang.specs.declared.program.Op.TheVariants.{Put as PutOp};
ghost use Rattle.bayou_lang.specs.declared.program.Term.TheVariants.{Plus as PlusTerm};
ghost use Rattle.bayou_text.specs.AtOnce.{Adds, all_tokens, empty_tokens, tokens_of, update_json};
ghost use Rattle.bayou_text.specs.Spelling as spelling;

use bayou_base::{Key, Value as Stored};
use bayou_lang::{Op, RestingProgram, Term};
use json::Writer;
use std::alloc::AllocError;

/// Whether the program is an update alone.
pub fn is_update(program: &RestingProgram) -> bool
    ensures alone { IsTrue result → (program.now.check.items ≡ []) × (program.now.merge.items ≡ []) }
    ensures each { program.now.check.items ≡ [] → program.now.merge.items ≡ [] → IsTrue result }
{
    program.check().is_empty() && program.merge().is_empty()
}

/// Writes a word and a key.
pub(crate) fn write_named(writer: &mut Writer, word: &str, key: &Key) -> Result<(), AllocError>
    ensures spelling { Adds result writer.old writer.new (tokens_of (spelling.form word.now (string key.now ∷ []))) }
    ensures kept { OnOk result (ranges.IsKey key.now) }
{
    writer.begin_array()?;
    writer.string(word)?;
    writer.string(key.as_str())?;
    writer.end_array()
}

fn write_plus(writer: &mut Writer, key: &Key, number: i64) -> Result<(), AllocError>
    ensures spelling { Adds result writer.old writer.new (tokens_of (spelling.term_json (PlusTerm key.now number))) }
    ensures kept { OnOk result (ranges.IsKey key.now × ranges.IsI64 number) }
{
    writer.begin_array()?;
    writer.string("plus")?;
    writer.string(key.as_str())?;
    writer.i64(number)?;
    writer.end_array()
}

pub(crate) fn write_value(writer: &mut Writer, value: &Stored) -> Result<(), AllocError>
    ensures spelling { Adds result writer.old writer.new (tokens_of (spelling.value_json value.now)) }
    ensures kept { OnOk result (ranges.IsValue value.now) }
{
    match value {
        Stored::Num(number) => writer.i64(*number),
        Stored::Text(text) => writer.string(text.as_str()),
    }
}

fn write_term(writer: &mut Writer, term: &Term) -> Result<(), AllocError>
    ensures spelling { Adds result writer.old writer.new (tokens_of (spelling.term_json term.now)) }
    ensures kept { OnOk result (ranges.IsTerm term.now) }
{
    match term {
        Term::Lit(value) => write_value(writer, value),
        Term::Copy(key) => write_named(writer, "copy", key),
        Term::Plus(key, number) => write_plus(writer, key, *number),
    }
}

fn write_put(writer: &mut Writer, key: &Key, term: &Term) -> Result<(), AllocError>
    ensures spelling { Adds result writer.old writer.new (tokens_of (spelling.op_json (PutOp key.now term.now))) }
    ensures kept { OnOk result (ranges.IsKey key.now × ranges.IsTerm term.now) }
{
    writer.begin_array()?;
    writer.string("put")?;
    writer.string(key.as_str())?;
    write_term(writer, term)?;
    writer.end_array()
}

fn write_op(writer: &mut Writer, op: &Op) -> Result<(), AllocError>
    ensures spelling { Adds result writer.old writer.new (tokens_of (spelling.op_json op.now)) }
    ensures kept { OnOk result (ranges.IsOp op.now) }
{
    match op {
        Op::Put(key, term) => write_put(writer, key, term),
        Op::Del(key) => write_named(writer, "del", key),
    }
}

fn write_each(writer: &mut Writer, ops: &[Op]) -> Result<(), AllocError>
    ensures spelling { Adds result writer.old writer.new (all_tokens (map spelling.op_json ops.now)) }
    ensures kept { OnOk result (AllByRecursion ranges.IsOp ops.now) }
{
    for op in ops {
        write_op(writer, op)?;
    }
    Ok(())
}

pub(crate) fn write_ops(writer: &mut Writer, ops: &[Op]) -> Result<(), AllocError>
    ensures spelling { Adds result writer.old writer.new (tokens_of (spelling.list_json spelling.op_json ops.now)) }
    ensures kept { OnOk result (AllByRecursion ranges.IsOp ops.now) }
{
    writer.begin_array()?;
    write_each(writer, ops)?;
    writer.end_array()
}

/// Writes a member that is an empty list.
fn write_none(writer: &mut Writer, name: &str) -> Result<(), AllocError>
    ensures { Adds result writer.old writer.new (key name.now ∷ begin_array ∷ end_array ∷ []) }
{
    writer.key(name)?;
    writer.begin_array()?;
    writer.end_array()
}

/// Writes the empty members before the update, where they stand in the line.
fn write_empty(writer: &mut Writer, is_whole: bool) -> Result<(), AllocError>
    ensures { Adds result writer.old writer.new (empty_tokens is_whole) }
{
    if is_whole {
        write_none(writer, "check")?;
        write_none(writer, "merge")?;
    }
    Ok(())
}

/// Writes a program of this update alone, with the empty members before it or without them.
pub(crate) fn write_update(
    writer: &mut Writer,
    ops: &[Op],
    is_whole: bool,
) -> Result<(), AllocError>
    ensures spelling { Adds result writer.old writer.new (tokens_of (update_json is_whole ops.now)) }
    ensures kept { OnOk result (AllByRecursion ranges.IsOp ops.now) }
{
    writer.begin_object()?;
    write_empty(writer, is_whole)?;
    writer.key("update")?;
    write_ops(writer, ops)?;
    writer.end_object()
}
