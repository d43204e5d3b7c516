ghost use Rattle.std.specs.Prelude.{◌≡◌, map, option_map};
ghost use Rattle.serde_json.specs.View.{view};
ghost use Rattle.bayou_text.specs.Reading.{headed, worded};
ghost use Rattle.bayou_text.specs.Values as grammar;

use crate::line::{LineFault, Shape};
use bayou_base::{Key, Prefix, Value as Stored};
use serde_json::Value;

/// The word that a list begins with, and what stands after it.
fn headed(list: &[Value]) -> Option<(&str, &[Value])>
    ensures { option_map (λ parts. (parts.0.now, map view parts.1.now)) result ≡ headed (map view list.now) }
{
    let [first, rest @ ..] = list else {
        return None;
    };
    Some((first.as_str()?, rest))
}

/// The word that an array begins with, and what stands after it.
#[tactic(auto, using(crate::proofs::Views::listed_view))]
pub(crate) fn worded(json: &Value) -> Option<(&str, &[Value])>
    ensures { option_map (λ parts. (parts.0.now, map view parts.1.now)) result ≡ worded (view json.now) }
{
    headed(json.as_array()?.as_slice())
}

pub(crate) fn key_in(json: &Value) -> Result<Key, LineFault>
    ensures { result ≡ grammar.key_in (view json.now) }
{
    let Some(name) = json.as_str() else {
        return Err(LineFault::BadShape(Shape::Name));
    };
    match Key::new(name) {
        Ok(key) => Ok(key),
        Err(fault) => Err(LineFault::Key(fault)),
    }
}

pub(crate) fn prefix_in(json: &Value) -> Result<Prefix, LineFault>
    ensures { result ≡ grammar.prefix_in (view json.now) }
{
    let Some(text) = json.as_str() else {
        return Err(LineFault::BadShape(Shape::Name));
    };
    match Prefix::new(text) {
        Ok(prefix) => Ok(prefix),
        Err(fault) => Err(LineFault::Key(fault)),
    }
}

pub(crate) fn value_in(json: &Value) -> Result<Stored, LineFault>
    ensures { result ≡ grammar.value_in (view json.now) }
{
    if let Some(number) = json.as_i64() {
        return Ok(Stored::Num(number));
    }
    let Some(text) = json.as_str() else {
        return Err(LineFault::BadShape(Shape::Worth));
    };
    match Stored::text(text) {
        Some(value) => Ok(value),
        None => Err(LineFault::BadShape(Shape::Worth)),
    }
}
