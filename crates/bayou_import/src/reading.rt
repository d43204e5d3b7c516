//! The lines of an export, read again.
ghost use Rattle.std.specs.Prelude.{◌≡◌, IfOk, option_and_then, option_map};
ghost use Rattle.serde_json.specs.Read.{read};
ghost use Rattle.serde_json.specs.View.{view};
ghost use Rattle.bayou_import.specs.Rows.{IsExport, SaysRows, SplitsLine, keys_said, row_said};

use crate::row::{keys_in, row_in};
use bayou_base::{Key, Value};
use serde_json::Value as Json;
use std::alloc::{AllocError, Global};
use thiserror::Error;

/// Why a text isn't the lines of an export.
#[derive(Clone, Copy, Debug, PartialEq, Eq, Error)]
pub enum LinesFault {
    #[error("line 1: it doesn't say how many keys follow, as [\"exported\",NAME,[V0,V1,..],KEYS]")]
    NoNumber,
    #[error("line {0}: it is no [\"put\",KEY,VALUE]")]
    NoRow(u64),
    #[error("line 1 says {said} keys, and {found} follow")]
    OtherNumber { said: u64, found: u64 },
    #[error("memory")]
    OutOfMemory,
}

impl From<AllocError> for LinesFault {
    ghost use Rattle.std.specs.Prelude.{◌≡◌};
    ghost use Rattle.bayou_import.specs.declared.reading.LinesFault.TheVariants.{OutOfMemory};

    ghost from_gives = { λ _ fault. fault ≡ OutOfMemory };

    fn from(_error: AllocError) -> LinesFault {
        LinesFault::OutOfMemory
    }
}

// What the line says as JSON, if it is that.
fn json_of(alloc: Global, line: &str) -> Result<Option<Json>, AllocError>
    ensures { IfOk result (λ json. option_map (λ json. view json) json ≡ read line.now) }
{
    match Json::from_str(alloc, line) {
        Ok(json) => Ok(Some(json)),
        Err(fault) => {
            if fault.is_memory() {
                Err(AllocError)
            } else {
                Ok(None)
            }
        }
    }
}

// The row that the line says, if it says one.
fn row_on(alloc: Global, line: &str) -> Result<Option<(Key, Value)>, AllocError>
    ensures { IfOk result (λ row. row ≡ option_and_then row_said (read line.now)) }
{
    match json_of(alloc, line)? {
        Some(json) => Ok(row_in(&json)),
        None => Ok(None),
    }
}

// How many keys the line says that follow, if it says that.
fn number_on(alloc: Global, line: &str) -> Result<Option<u64>, AllocError>
    ensures { IfOk result (λ number. number ≡ option_and_then keys_said (read line.now)) }
{
    match json_of(alloc, line)? {
        Some(json) => Ok(keys_in(&json)),
        None => Ok(None),
    }
}

// The first line, and what stands after its line feed; nothing does where it has none.
fn first_line(text: &str) -> (&str, &str)
    ensures { SplitsLine text.now result.0.now result.1.now }
{
    match text.split_once('\n') {
        Some(parts) => parts,
        None => (text, ""),
    }
}

// The rows of these lines, of which the first has this number.
fn rows_in(alloc: Global, text: &str, first: u64) -> Result<Vec<(Key, Value)>, LinesFault>
    ensures { IfOk result (λ rows. SaysRows text.now rows.items) }
{
    let mut rows = Vec::new(alloc);
    let mut rest = text;
    let mut number = first;
    while !rest.is_empty() {
        let (line, behind) = first_line(rest);
        let Some(row) = row_on(alloc, line)? else {
            return Err(LinesFault::NoRow(number));
        };
        if rows.push(row).is_err() {
            return Err(LinesFault::OutOfMemory);
        }
        rest = behind;
        number = number.saturating_add(1);
    }
    Ok(rows)
}

/// The rows that the text says: a line that says how many keys follow, and then a line for each, in any spelling that JSON has.
pub fn read_export(alloc: Global, text: &str) -> Result<Vec<(Key, Value)>, LinesFault>
    ensures { IfOk result (λ rows. IsExport text.now rows.items) }
{
    let (first, behind) = first_line(text);
    let Some(said) = number_on(alloc, first)? else {
        return Err(LinesFault::NoNumber);
    };
    let rows = rows_in(alloc, behind, 2)?;
    let found = rows.len() as u64;
    if found != said {
        return Err(LinesFault::OtherNumber { said, found });
    }
    Ok(rows)
}
