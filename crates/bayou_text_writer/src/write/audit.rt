//! Writes that are held, as trees of JSON.
ghost use Rattle.std.specs.Prelude.{◌≡◌, IfOk, OnOk};
ghost use Rattle.serde_json.specs.View.{view};
ghost use Rattle.bayou_base.specs.Vector.{AreCounts};
ghost use Rattle.bayou_lang.specs.Ranges.{IsWrite};
ghost use Rattle.bayou_text.specs.Spelling as spelling;

use crate::write::program::program_json;
use bayou_base::{SERVERS, ServerId, Vector};
use bayou_lang::RestingWrite;
use serde_json::{Value, json};
use std::alloc::{AllocError, Global};

fn counts_json(alloc: Global, counts: &[u32]) -> Result<Value, AllocError>
    ensures { IfOk result (λ json. view json ≡ spelling.list_json spelling.count_json counts.now) }
{
    let mut list = Vec::with_capacity(alloc, counts.len())?;
    for count in counts {
        list.push(Value::from(u64::from(*count)))?;
    }
    Ok(Value::Array(list))
}

/// The first counts of the vector, or all of them.
fn vector_json(alloc: Global, vector: &Vector, number: u8) -> Result<Value, AllocError>
    ensures spelling { IfOk result (λ json. view json ≡ spelling.vector_json number vector.now) }
    ensures kept { OnOk result (AreCounts vector.now) }
{
    let counts = vector.counts();
    let told = usize::from(number).min(SERVERS);
    counts_json(alloc, &counts[..told])
}

/// A Write as it is held.
fn write_json(alloc: Global, write: &RestingWrite, counts: u8) -> Result<Value, AllocError>
    ensures spelling { IfOk result (λ json. view json ≡ spelling.write_json write.now counts) }
    ensures kept { OnOk result (IsWrite write.now) }
{
    let wid = write.wid();
    let deps = vector_json(alloc, write.deps(), counts)?;
    let program = program_json(alloc, write.program())?;
    json!(in alloc; [wid.origin.index, wid.seq, write.stamp().clock, deps, program])
}

pub(crate) fn held_json(
    alloc: Global,
    server: ServerId,
    write: &RestingWrite,
    counts: u8,
) -> Result<Value, AllocError>
    ensures spelling { IfOk result (λ json. view json ≡ spelling.held_json server.index write.now counts) }
    ensures kept { OnOk result (IsWrite write.now) }
{
    let write = write_json(alloc, write, counts)?;
    json!(in alloc; ["held", server.index, write])
}
