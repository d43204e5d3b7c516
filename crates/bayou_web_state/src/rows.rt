//! The rows that are asked for, as JSON.
ghost use Rattle.std.specs.Prelude.{◌≡◌, ◌++◌, ◌∷◌, [], OnOk};
ghost use Rattle.bayou_web_state.specs.Rows.{asked_tokens, begins_with as begins, row_tokens, rows_tokens, standing_token, value_tokens};

use crate::row::Row;
use bayou_base::{Key, Value};
use bayou_final::Standing;
use json::Writer;
use std::alloc::AllocError;

// Whether the key begins so.
fn begins_with(key: &Key, prefix: &str) -> bool
    ensures { result ≡ begins prefix.now key.now }
{
    key.as_str().as_bytes().starts_with(prefix.as_bytes())
}

// Its kind, and the value as a text: a number may have more digits than readers of JSON keep.
fn put_value(out: &mut Writer, value: &Value) -> Result<(), AllocError>
    ensures put { OnOk result (out.new.tokens ≡ out.old.tokens ++ value_tokens value.now) }
    ensures before { out.new.before ≡ out.old.before }
{
    out.key("type")?;
    match value {
        Value::Num(number) => {
            out.string("num")?;
            out.key("value")?;
            out.quoted_i64(*number)
        }
        Value::Text(text) => {
            out.string("text")?;
            out.key("value")?;
            out.string(text.as_str())
        }
    }
}

// How the value stands, as a word, or null.
fn put_standing(out: &mut Writer, standing: Option<Standing>) -> Result<(), AllocError>
    ensures put { OnOk result (out.new.tokens ≡ out.old.tokens ++ standing_token standing ∷ []) }
    ensures before { out.new.before ≡ out.old.before }
{
    match standing {
        Some(standing) => out.string(standing.word()),
        None => out.null(),
    }
}

/// A row: `{"key":"mon/9/blue","type":"text","value":"kim","standing":"final"}`.
fn put_row(out: &mut Writer, row: &Row) -> Result<(), AllocError>
    ensures put { OnOk result (out.new.tokens ≡ out.old.tokens ++ row_tokens row.now) }
    ensures before { out.new.before ≡ out.old.before }
{
    out.begin_object()?;
    out.key("key")?;
    out.string(row.key.as_str())?;
    put_value(out, &row.value)?;
    out.key("standing")?;
    put_standing(out, row.standing)?;
    out.end_object()
}

// The row, if its key begins so.
fn put_if_asked(out: &mut Writer, prefix: &str, row: &Row) -> Result<(), AllocError>
    ensures put { OnOk result (out.new.tokens ≡ out.old.tokens ++ asked_tokens prefix.now row.now) }
    ensures before { out.new.before ≡ out.old.before }
{
    if begins_with(&row.key, prefix) {
        return put_row(out, row);
    }
    Ok(())
}

/// Each row whose key begins so, in order.
pub(crate) fn put_rows(out: &mut Writer, prefix: &str, rows: &[Row]) -> Result<(), AllocError>
    ensures put { OnOk result (out.new.tokens ≡ out.old.tokens ++ rows_tokens prefix.now rows.now) }
    ensures before { out.new.before ≡ out.old.before }
{
    for row in rows {
        put_if_asked(out, prefix, row)?;
    }
    Ok(())
}
