//! Texts as they are shown.
use serde_json::Value as Json;
use std::alloc::{AllocError, Global};
use std::str;

/// How many characters of a member are shown at the most.
const MAX_SHOWN: usize = 60;

/// The first characters of a text, and two dots where there are more.
pub(crate) fn cut(alloc: Global, text: &str) -> Result<String, AllocError> {
    let mut shown = String::new(alloc);
    for (at, character) in text.chars().enumerate() {
        if at >= MAX_SHOWN {
            shown.push_str("..")?;
            return Ok(shown);
        }
        shown.push(character)?;
    }
    Ok(shown)
}

/// JSON as it is shown.
pub(crate) fn shown(alloc: Global, json: &Json) -> Result<String, AllocError> {
    let text = json.to_string(alloc)?;
    cut(alloc, text.as_str())
}

/// A text as JSON.
pub(crate) fn quoted(alloc: Global, text: &str) -> Result<String, AllocError> {
    Json::try_from_str(alloc, text)?.to_string(alloc)
}

/// The character as it is shown at a terminal: one that would do something there is a question mark.
fn harmless(character: char) -> char {
    if character.is_control() {
        '?'
    } else {
        character
    }
}

/// The characters of a text, each as it is shown at a terminal.
pub(crate) fn plain(alloc: Global, text: &str) -> Result<String, AllocError> {
    let mut shown = String::with_capacity(alloc, text.len())?;
    for character in text.chars() {
        shown.push(harmless(character))?;
    }
    Ok(shown)
}

/// The characters of a line, each as it is shown at a terminal. Of a line that is no UTF-8 each byte that isn't ASCII is a question mark.
pub(crate) fn legible(alloc: Global, line: &[u8]) -> Result<String, AllocError> {
    if let Ok(text) = str::from_utf8(line) {
        return plain(alloc, text);
    }
    let mut shown = String::with_capacity(alloc, line.len())?;
    for byte in line {
        let character = if byte.is_ascii() {
            char::from(*byte)
        } else {
            '?'
        };
        shown.push(harmless(character))?;
    }
    Ok(shown)
}

/// How many characters begin in these bytes.
pub(crate) fn characters(bytes: &[u8], is_text: bool) -> usize {
    let mut count: usize = 0;
    for byte in bytes {
        // The bytes of a character after its first one.
        let goes_on = is_text && byte & 0xc0 == 0x80;
        if !goes_on {
            count = count.saturating_add(1);
        }
    }
    count
}
