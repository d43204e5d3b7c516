//! The lines of an export, and how each is spelled.
ghost use Rattle.std.specs.Prelude.{◌≡◌, ◌≢◌, ◌⊎◌, ◌≤◌, ◌-◌, ◌++◌, ◌∷◌, [], IfOk, drop, false, slice_index, string_bytes};
ghost use Rattle.std.specs.List.{AllByRecursion};
ghost use Rattle.serde_json.specs.View.{view};
ghost use Rattle.serde_json.specs.Written.{compact_text, has_float};
ghost use Rattle.bayou_base.specs.declared.limits.TheConstants.{SERVERS as MOST_SERVERS};
ghost use Rattle.bayou_text.specs.Spelling as spelling;
ghost use Rattle.bayou_export.specs.Exports.{exported_json as spelled_exported, exported_text, put_json as spelled_put, row_text};
ghost use Rattle.bayou_export.specs.Laws.{line_ends};

use crate::journal::Export;
use bayou_base::{Key, SERVERS, Value, Vector};
use bayou_print::Printer;
use serde_json::{Value as Json, json};
use std::alloc::{AllocError, Global};

fn value_json(alloc: Global, value: &Value) -> Result<Json, AllocError>
    ensures { IfOk result (λ json. view json ≡ spelling.value_json value.now) }
{
    match value {
        Value::Num(number) => Ok(Json::from(*number)),
        Value::Text(text) => Json::try_from_str(alloc, text.as_str()),
    }
}

fn put_json(alloc: Global, key: &Key, value: &Value) -> Result<Json, AllocError>
    ensures { IfOk result (λ json. view json ≡ spelled_put (key.now, value.now)) }
{
    let value = value_json(alloc, value)?;
    json!(in alloc; ["put", key.as_str(), value])
}

// The text of JSON that has no float, with a line feed.
fn line_of(alloc: Global, json: &Json) -> Result<String, AllocError>
    requires { has_float (view json.now) ≡ false }
    ensures { IfOk result (λ line. string_bytes line ≡ compact_text (view json.now) ++ 10 ∷ []) }
{
    let mut line = json.to_string(alloc)?;
    line.push_str("\n")?;
    Ok(line)
}

// The line of a row.
fn row_line(alloc: Global, key: &Key, value: &Value) -> Result<String, AllocError>
    ensures { IfOk result (λ line. string_bytes line ≡ row_text (key.now, value.now)) }
{
    let json = put_json(alloc, key, value)?;
    line_of(alloc, &json)
}

/// The rows of an export.
#[derive(Clone, Copy, Debug)]
pub(crate) struct Puts;

impl Printer for Puts {
    type Part = (Key, Value);

    ghost text = { λ puts row. row_text row };

    fn line(&self, alloc: Global, part: &(Key, Value)) -> Result<String, AllocError> {
        row_line(alloc, &part.0, &part.1)
    }

    ghost ends = { λ puts row. line_ends (compact_text (spelled_put row)) };
}

/// How many counts of a vector are given, where so many servers are known: as many, or as are needed for all that aren't 0.
pub fn told_counts(vector: &Vector, least: u8) -> u8
    requires { least ≤ MOST_SERVERS }
    ensures within { (least ≤ result) × (result ≤ MOST_SERVERS) }
    ensures all { AllByRecursion (λ count. count ≡ 0) (drop result vector.now) }
    ensures no_more { (result ≡ least) ⊎ (slice_index vector.now (result - 1) ≢ 0) }
{
    let counts = vector.counts();
    let mut told = SERVERS as u8;
    while told > least {
        if counts[usize::from(told) - 1] != 0 {
            return told;
        }
        told -= 1;
    }
    told
}

fn counts_json(alloc: Global, counts: &[u32]) -> Result<Json, AllocError>
    ensures { IfOk result (λ json. view json ≡ spelling.list_json spelling.count_json counts.now) }
{
    let mut list = Vec::with_capacity(alloc, counts.len())?;
    for count in counts {
        list.push(Json::from(u64::from(*count)))?;
    }
    Ok(Json::Array(list))
}

// The first counts of the vector.
fn vector_json(alloc: Global, vector: &Vector, told: u8) -> Result<Json, AllocError>
    requires { told ≤ MOST_SERVERS }
    ensures { IfOk result (λ json. view json ≡ spelling.vector_json told vector.now) }
{
    let counts = vector.counts();
    counts_json(alloc, &counts[..usize::from(told)])
}

fn exported_json(alloc: Global, told: u8, export: &Export) -> Result<Json, AllocError>
    requires { told ≤ MOST_SERVERS }
    ensures { IfOk result (λ json. view json ≡ spelled_exported told export.now) }
{
    let id = export.server.index;
    let name = format!(in alloc; "server-{id}")?;
    let counts = vector_json(alloc, &export.vector, told)?;
    let keys = export.rows.len() as u64;
    json!(in alloc; ["exported", name.as_str(), counts, keys])
}

/// The first line, which says of what the rows are, with so many counts.
pub(crate) fn exported_line(alloc: Global, told: u8, export: &Export) -> Result<String, AllocError>
    requires { told ≤ MOST_SERVERS }
    ensures { IfOk result (λ line. string_bytes line ≡ exported_text told export.now) }
{
    let json = exported_json(alloc, told, export)?;
    line_of(alloc, &json)
}
