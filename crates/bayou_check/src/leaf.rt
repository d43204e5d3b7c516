//! Members that are a number, a text or a list of words.
use crate::expected::Expected;
use crate::found::Found;
use crate::nearest::nearest;
use crate::parts::Part;
use crate::text::{quoted, shown};
use crate::told::{Looked, Mistake, Step, under};
use bayou_base::{Key, KeyFault, Prefix, Value};
use bayou_script::ScriptFault;
use serde_json::Value as Json;
use std::alloc::{AllocError, Global};

/// The words that a session asks by.
const ASKS: [&str; 4] = ["ryw", "mr", "wfr", "mw"];

/// The member isn't what is expected there, in its shape.
pub(crate) fn misshapen(alloc: Global, json: &Json, expected: Expected) -> Looked {
    let found = Found::Json(shown(alloc, json)?);
    Ok(Some(Mistake::new(alloc, ScriptFault::BadShape, found, expected)))
}

/// The same, with JSON that may stand in its place.
fn misshapen_or(alloc: Global, json: &Json, expected: Expected, instead: Option<String>) -> Looked {
    let looked = misshapen(alloc, json, expected)?;
    Ok(looked.map(|mistake| mistake.or(instead)))
}

// The number that a text says, as JSON, if the number is in its range.
fn number_in_quotes(
    alloc: Global,
    json: &Json,
    least: u64,
    most: u64,
) -> Result<Option<String>, AllocError> {
    let Some(text) = json.as_str() else {
        return Ok(None);
    };
    match text.parse::<u64>() {
        Ok(number) if least <= number && number <= most => Ok(Some(number.to_string(alloc)?)),
        _ => Ok(None),
    }
}

// The whole number that a number with a fraction of nothing is.
fn whole_number(alloc: Global, json: &Json) -> Result<Option<String>, AllocError> {
    let text = json.to_string(alloc)?;
    match text.as_str().strip_suffix(".0") {
        Some(whole) => Ok(Some(String::from_str(alloc, whole)?)),
        None => Ok(None),
    }
}

fn look_number(alloc: Global, part: Part, least: u64, most: u64, json: &Json) -> Looked {
    if json
        .as_u64()
        .is_some_and(|number| least <= number && number <= most)
    {
        return Ok(None);
    }
    if let Some(number) = number_in_quotes(alloc, json, least, most)? {
        return misshapen_or(alloc, json, Expected::Unquoted(part), Some(number));
    }
    let whole = whole_number(alloc, json)?;
    misshapen_or(alloc, json, Expected::Number(part), whole)
}

fn look_integer(alloc: Global, json: &Json) -> Looked {
    if json.as_i64().is_some() {
        return Ok(None);
    }
    if let Some(text) = json.as_str() {
        if let Ok(number) = text.parse::<i64>() {
            let instead = number.to_string(alloc)?;
            return misshapen_or(
                alloc,
                json,
                Expected::Unquoted(Part::Integer),
                Some(instead),
            );
        }
    }
    let whole = whole_number(alloc, json)?;
    misshapen_or(alloc, json, Expected::Number(Part::Integer), whole)
}

// The byte as one that a key may have: capital letters as small ones, and others as a dot.
fn mended_byte(character: char) -> char {
    match character {
        'a'..='z' | '0'..='9' | '.' | '_' | '-' | '/' => character,
        'A'..='Z' => character.to_ascii_lowercase(),
        ' ' => '-',
        _ => '.',
    }
}

// The key that comes nearest to the text, as JSON, if there is one.
fn mended_key(alloc: Global, text: &str) -> Result<Option<String>, AllocError> {
    let mut mended = String::new(alloc);
    for character in text.chars() {
        mended.push(mended_byte(character))?;
    }
    match Key::new(mended.as_str()) {
        Ok(_) => Ok(Some(quoted(alloc, mended.as_str())?)),
        Err(_) => Ok(None),
    }
}

fn bad_key(alloc: Global, json: &Json, text: &str, why: KeyFault, expected: Expected) -> Looked {
    let json = shown(alloc, json)?;
    let found = match why {
        KeyFault::Empty => Found::Json(json),
        KeyFault::TooLong => Found::Long {
            json,
            bytes: text.len(),
        },
        KeyFault::BadByte(at) => Found::BadByte {
            json,
            at: at.saturating_add(1),
        },
    };
    let mistake = Mistake::new(alloc, ScriptFault::BadKey, found, expected);
    Ok(Some(mistake.or(mended_key(alloc, text)?)))
}

// A name that isn't a text: of a number the text of its digits may stand there.
fn no_name(alloc: Global, json: &Json, expected: Expected) -> Looked {
    let instead = match json.as_u64() {
        Some(number) => Some(format!(in alloc; "\"{number}\"")?),
        None => None,
    };
    misshapen_or(alloc, json, expected, instead)
}

fn look_key(alloc: Global, json: &Json) -> Looked {
    let Some(text) = json.as_str() else {
        return no_name(alloc, json, Expected::Key);
    };
    match Key::new(text) {
        Ok(_) => Ok(None),
        Err(why) => bad_key(alloc, json, text, why, Expected::Key),
    }
}

fn look_prefix(alloc: Global, json: &Json) -> Looked {
    let Some(text) = json.as_str() else {
        return no_name(alloc, json, Expected::Prefix);
    };
    match Prefix::new(text) {
        Ok(_) => Ok(None),
        Err(why) => bad_key(alloc, json, text, why, Expected::Prefix),
    }
}

/// Looks at a value.
pub(crate) fn look_value(alloc: Global, json: &Json) -> Looked {
    if json.as_i64().is_some() {
        return Ok(None);
    }
    let Some(text) = json.as_str() else {
        let whole = whole_number(alloc, json)?;
        return misshapen_or(alloc, json, Expected::Value, whole);
    };
    if Value::text(text).is_some() {
        return Ok(None);
    }
    let found = Found::Long {
        json: shown(alloc, json)?,
        bytes: text.len(),
    };
    Ok(Some(Mistake::new(alloc, ScriptFault::BadShape, found, Expected::Value)))
}

/// A word within a line that is none of those that may stand there.
pub(crate) fn unknown(
    alloc: Global,
    json: &Json,
    known: &[&'static str],
    expected: Expected,
) -> Looked {
    let near = match json.as_str() {
        Some(word) => nearest(alloc, word, known)?,
        None => None,
    };
    let instead = match near {
        Some(word) => Some(quoted(alloc, word)?),
        None => None,
    };
    let looked = misshapen_or(alloc, json, expected, instead)?;
    Ok(looked.map(|mistake| mistake.near(near)))
}

fn is_ask(json: &Json) -> bool {
    match json.as_str() {
        Some(word) => ASKS.contains(&word),
        None => false,
    }
}

fn look_asks(alloc: Global, json: &Json) -> Looked {
    let Some(words) = json.as_array() else {
        let instead = match json.as_str() {
            Some(_) if is_ask(json) => Some(format!(in alloc; "[{json}]")?),
            _ => None,
        };
        return misshapen_or(alloc, json, Expected::Asks, instead);
    };
    for (at, word) in words.as_slice().iter().enumerate() {
        if !is_ask(word) {
            return under(unknown(alloc, word, &ASKS, Expected::Ask), Step::At(at));
        }
    }
    Ok(None)
}

fn look_vector(alloc: Global, json: &Json) -> Looked {
    let Some(counts) = json.as_array() else {
        return misshapen(alloc, json, Expected::Vector);
    };
    let counts = counts.as_slice();
    if counts.is_empty() || counts.len() > bayou_base::SERVERS {
        return misshapen(alloc, json, Expected::Vector);
    }
    for (at, count) in counts.iter().enumerate() {
        let looked = look_leaf(alloc, Part::Tally, count)?;
        if looked.is_some() {
            return under(Ok(looked), Step::At(at));
        }
    }
    Ok(None)
}

// Looks at a number that has a range.
fn look_leaf(alloc: Global, part: Part, json: &Json) -> Looked {
    match part.range() {
        Some((least, most)) => look_number(alloc, part, least, most, json),
        None => Ok(None),
    }
}

/// Looks at a member that is no term, program or Write.
pub(crate) fn look_plain(alloc: Global, part: Part, json: &Json) -> Looked {
    match part {
        Part::Integer => look_integer(alloc, json),
        Part::Key => look_key(alloc, json),
        Part::Prefix => look_prefix(alloc, json),
        Part::Value => look_value(alloc, json),
        Part::Asks => look_asks(alloc, json),
        Part::Vector => look_vector(alloc, json),
        _ => look_leaf(alloc, part, json),
    }
}
