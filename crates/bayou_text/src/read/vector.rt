ghost use Rattle.std.specs.Prelude.{◌≡◌, ◌≤◌, All, IfOk, length, map};
ghost use Rattle.serde_json.specs.View.{view};
ghost use Rattle.bayou_base.specs.declared.limits.TheConstants.{MAX_WRITES, SERVERS};
ghost use Rattle.bayou_text.specs.Audit as grammar;

use crate::line::{LineFault, Shape};
use crate::read::number::tally_in;
use bayou_base::{SERVERS, Vector};
use serde_json::Value;

/// The counts, and 0 for each server of which none is given.
fn counts_in(list: &[Value]) -> Result<[u32; SERVERS], LineFault>
    requires { length list.now ≤ SERVERS }
    ensures read { result ≡ grammar.padded_in (map view list.now) }
    ensures in_range { IfOk result (λ counts. All (λ count. count ≤ MAX_WRITES) counts) }
{
    let mut counts = [0; SERVERS];
    for place in 0..list.len() {
        counts[place] = tally_in(&list[place])?;
    }
    Ok(counts)
}

/// The vector of these counts, and how many they are.
fn vector_of(list: &[Value]) -> Result<(Vector, u8), LineFault>
    ensures { result ≡ grammar.vector_of (map view list.now) }
{
    if list.is_empty() || list.len() > SERVERS {
        return Err(LineFault::BadShape(Shape::Form));
    }
    let counts = counts_in(list)?;
    let Some(vector) = Vector::from_counts(counts) else {
        unreachable!();
    };
    Ok((vector, list.len() as u8))
}

/// The vector, and how many of its counts are given.
#[tactic(auto, using(crate::proofs::Views::listed_view), unfolding(crate::specs::Audit::vector_in))]
pub(crate) fn vector_in(json: &Value) -> Result<(Vector, u8), LineFault>
    ensures { result ≡ grammar.vector_in (view json.now) }
{
    let Some(list) = json.as_array() else {
        return Err(LineFault::BadShape(Shape::Form));
    };
    vector_of(list.as_slice())
}
