//! A row, as a line of an export says it.
ghost use Rattle.std.specs.Prelude.{◌≡◌, map, option_map};
ghost use Rattle.serde_json.specs.View.{view};
ghost use Rattle.bayou_text.specs.Reading.{headed, worded};
ghost use Rattle.bayou_import.specs.Rows.{key_said, keys_of_parts, keys_said, row_of_parts, row_said, value_said};

use bayou_base::{Key, Value};
use serde_json::Value as Json;

// The word that a list begins with, and what stands after it.
fn headed(list: &[Json]) -> Option<(&str, &[Json])>
    ensures { option_map (λ parts. (parts.0.now, map view parts.1.now)) result ≡ headed (map view list.now) }
{
    let [first, rest @ ..] = list else {
        return None;
    };
    Some((first.as_str()?, rest))
}

// The word that an array begins with, and what stands after it.
#[tactic(auto, using(crate::proofs::Views::listed_view))]
fn worded(json: &Json) -> Option<(&str, &[Json])>
    ensures { option_map (λ parts. (parts.0.now, map view parts.1.now)) result ≡ worded (view json.now) }
{
    headed(json.as_array()?.as_slice())
}

// The key that this says, if it says one.
fn key_in(json: &Json) -> Option<Key>
    ensures { result ≡ key_said (view json.now) }
{
    let name = json.as_str()?;
    Key::new(name).ok()
}

// The value that this says, if it says one.
fn value_in(json: &Json) -> Option<Value>
    ensures { result ≡ value_said (view json.now) }
{
    if let Some(number) = json.as_i64() {
        return Some(Value::Num(number));
    }
    let text = json.as_str()?;
    Value::text(text)
}

// The row that this says after its word, if it says one.
fn row_of(word: &str, parts: &[Json]) -> Option<(Key, Value)>
    ensures { result ≡ row_of_parts word.now (map view parts.now) }
{
    let [key, value] = parts else {
        return None;
    };
    if word != "put" {
        return None;
    }
    let key = key_in(key)?;
    let value = value_in(value)?;
    Some((key, value))
}

/// The row that this says, if it says one.
pub fn row_in(json: &Json) -> Option<(Key, Value)>
    ensures { result ≡ row_said (view json.now) }
{
    let (word, parts) = worded(json)?;
    row_of(word, parts)
}

// How many keys this says after its word, if it says that.
fn keys_of(word: &str, parts: &[Json]) -> Option<u64>
    ensures { result ≡ keys_of_parts word.now (map view parts.now) }
{
    let [_, _, keys] = parts else {
        return None;
    };
    if word != "exported" {
        return None;
    }
    keys.as_u64()
}

/// How many keys the first line says, if it says that.
pub fn keys_in(json: &Json) -> Option<u64>
    ensures { result ≡ keys_said (view json.now) }
{
    let (word, parts) = worded(json)?;
    keys_of(word, parts)
}
