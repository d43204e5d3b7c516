//! Lines that are no JSON: which mistake it is, and how the line may be meant.
use crate::expected::Expected;
use crate::found::Found;
use crate::meant::Meant;
use crate::told::TextSpan;
use serde_json::Value as Json;
use std::alloc::{AllocError, Global};
use std::str;

/// What is wrong with a line that is no JSON.
#[derive(Debug, Drop)]
pub(crate) struct NoJson {
    pub found: Found,
    pub expected: Expected,
    pub span: TextSpan,
    /// A line that it may be meant as.
    pub fix: Option<Meant>,
}

/// What a byte order mark is in UTF-8.
const MARK: &[u8] = b"\xef\xbb\xbf";

fn no_json(found: Found, expected: Expected, start: usize, end: usize) -> NoJson {
    NoJson {
        found,
        expected,
        span: TextSpan { start, end },
        fix: None,
    }
}

fn first_of(bytes: &[u8], wanted: u8) -> Option<usize> {
    bytes.iter().position(|byte| *byte == wanted)
}

// The line with double quotes in place of single ones.
fn with_double_quotes(alloc: Global, text: &str) -> Result<String, AllocError> {
    let mut mended = String::new(alloc);
    for character in text.chars() {
        mended.push(if character == '\'' { '"' } else { character })?;
    }
    Ok(mended)
}

// The line without each comma that a bracket or nothing follows.
fn without_commas(alloc: Global, text: &str) -> Result<String, AllocError> {
    let mut mended = String::new(alloc);
    let mut is_waiting = false;
    for character in text.trim().chars() {
        if is_waiting && !matches!(character, ']' | '}') {
            mended.push(',')?;
        }
        is_waiting = character == ',';
        if !is_waiting {
            mended.push(character)?;
        }
    }
    Ok(mended)
}

// The line with this after it.
fn with_end(alloc: Global, text: &str, end: &str) -> Result<String, AllocError> {
    let mut mended = String::from_str(alloc, text.trim_end())?;
    mended.push_str(end)?;
    Ok(mended)
}

// The line with the brackets closed that may be missing.
fn closed(alloc: Global, text: &str) -> Result<Option<Meant>, AllocError> {
    for end in ["]", "}]", "]]", "]}]", "]]}]", "\"]", "\"]]}]"] {
        let mended = Meant::of(alloc, with_end(alloc, text, end)?)?;
        if mended.is_some() {
            return Ok(mended);
        }
    }
    Ok(None)
}

// The line with a brace closed that the last bracket closes in vain.
fn with_brace(alloc: Global, text: &str) -> Result<Option<Meant>, AllocError> {
    match text.trim_end().strip_suffix(']') {
        Some(front) => Meant::of(alloc, with_end(alloc, front, "}]")?),
        None => Ok(None),
    }
}

// The line without the byte that stands there.
fn without_byte(alloc: Global, text: &str, at: usize) -> Result<Option<Meant>, AllocError> {
    let (Some(front), Some(back)) = (text.get(..at), text.get(at.saturating_add(1)..)) else {
        return Ok(None);
    };
    Meant::of(alloc, format!(in alloc; "{front}{back}")?)
}

// Whether a 0 stands there before a digit.
fn is_zero_before(bytes: &[u8], at: usize) -> bool {
    let behind = bytes.get(at.saturating_add(1));
    bytes.get(at) == Some(&b'0') && behind.is_some_and(u8::is_ascii_digit)
}

// The line up to where a bracket closes the first one.
fn without_rest(alloc: Global, text: &str) -> Result<Option<Meant>, AllocError> {
    let Some((front, _)) = text.rsplit_once(']') else {
        return Ok(None);
    };
    Meant::of(alloc, with_end(alloc, front, "]")?)
}

// Mistakes that the first bytes of a line tell.
fn told_by_head(bytes: &[u8]) -> Option<NoJson> {
    let line = bytes.trim_ascii();
    if line.is_empty() {
        return Some(no_json(Found::Blank, Expected::NoBlank, 0, bytes.len()));
    }
    if bytes.starts_with(MARK) {
        return Some(no_json(Found::Mark, Expected::NoMark, 0, MARK.len()));
    }
    if line.starts_with(b"#") || line.starts_with(b"//") || line.starts_with(b"--") {
        return Some(no_json(Found::Comment, Expected::NoComment, 0, bytes.len()));
    }
    if matches!(line, b"[" | b"]") || line.starts_with(b"[[") {
        return Some(no_json(Found::ArrayOfAll, Expected::NoArrayOfAll, 0, bytes.len()));
    }
    None
}

// The byte from which on a reader of JSON takes no more, or none where the line ends too soon.
fn fault_at(alloc: Global, text: &str) -> Result<usize, AllocError> {
    match Json::from_str(alloc, text) {
        Ok(_) => Ok(0),
        Err(fault) if fault.is_memory() => Err(AllocError),
        Err(fault) if fault.is_eof() => Ok(text.len()),
        Err(fault) => Ok(fault.column().saturating_sub(1)),
    }
}

// Whether a comma stands there with no member after it.
fn is_loose_comma(bytes: &[u8], at: usize) -> bool {
    let here = bytes.get(at).copied();
    let before = bytes
        .get(..at)
        .and_then(|front| front.trim_ascii_end().last());
    match here {
        Some(b']' | b'}' | b',') => before == Some(&b','),
        None => before == Some(&b','),
        _ => false,
    }
}

// A comma too many.
fn loose_comma(alloc: Global, text: &str, at: usize) -> Result<NoJson, AllocError> {
    let told = no_json(Found::Comma, Expected::NoComma, at, at.saturating_add(1));
    let fix = Meant::of(alloc, without_commas(alloc, text)?)?;
    Ok(NoJson { fix, ..told })
}

// Something after the array.
fn behind(alloc: Global, text: &str, at: usize) -> Result<NoJson, AllocError> {
    let rest = text.as_bytes().get(at..).unwrap_or(b"").trim_ascii();
    let mut told = no_json(Found::Behind, Expected::NothingBehind, at, text.len());
    if matches!(rest, b",") {
        told = no_json(Found::Comma, Expected::NoComma, at, at.saturating_add(1));
    } else if rest.starts_with(b"#") || rest.starts_with(b"//") {
        told = no_json(Found::Comment, Expected::NoComment, at, text.len());
    }
    let fix = without_rest(alloc, text)?;
    Ok(NoJson { fix, ..told })
}

// Mistakes within a line.
fn told_within(alloc: Global, text: &str) -> Result<NoJson, AllocError> {
    let bytes = text.as_bytes();
    let at = fault_at(alloc, text)?;
    let front = bytes.get(..at).unwrap_or(bytes);
    let is_whole = match str::from_utf8(front) {
        Ok(front) => is_json(alloc, front)?,
        Err(_) => false,
    };
    if is_whole {
        return behind(alloc, text, at);
    }
    if is_loose_comma(bytes, at) {
        return loose_comma(alloc, text, at);
    }
    if let Some(quote) = first_of(bytes, b'\'') {
        let told = no_json(
            Found::SingleQuotes,
            Expected::DoubleQuotes,
            quote,
            quote.saturating_add(1),
        );
        let fix = Meant::of(alloc, with_double_quotes(alloc, text)?)?;
        return Ok(NoJson { fix, ..told });
    }
    told_at(alloc, text, at)
}

// A mistake that only the place tells where JSON ends.
fn told_at(alloc: Global, text: &str, at: usize) -> Result<NoJson, AllocError> {
    let behind = at.saturating_add(1);
    if at >= text.trim_end().len() {
        let told = no_json(Found::Open, Expected::Closed, at, text.len());
        let fix = closed(alloc, text)?;
        return Ok(NoJson { fix, ..told });
    }
    if is_zero_before(text.as_bytes(), at) {
        let told = no_json(Found::Zero, Expected::NoZero, at, behind);
        let fix = without_byte(alloc, text, at)?;
        return Ok(NoJson { fix, ..told });
    }
    let told = no_json(Found::NoJson, Expected::Json, at, behind);
    let fix = with_brace(alloc, text)?;
    Ok(NoJson { fix, ..told })
}

fn is_json(alloc: Global, text: &str) -> Result<bool, AllocError> {
    match Json::from_str(alloc, text) {
        Ok(_) => Ok(true),
        Err(fault) if fault.is_memory() => Err(AllocError),
        Err(_) => Ok(false),
    }
}

/// What is wrong with the line, which is no JSON.
pub(crate) fn look_no_json(alloc: Global, bytes: &[u8]) -> Result<NoJson, AllocError> {
    if let Some(told) = told_by_head(bytes) {
        return with_rest(alloc, bytes, told);
    }
    match str::from_utf8(bytes) {
        Ok(text) => told_within(alloc, text),
        Err(fault) => {
            let start = fault.valid_up_to();
            Ok(no_json(
                Found::NotUtf8,
                Expected::Utf8,
                start,
                start.saturating_add(1),
            ))
        }
    }
}

// The same, with the line as it is without its mark.
fn with_rest(alloc: Global, bytes: &[u8], told: NoJson) -> Result<NoJson, AllocError> {
    if !bytes.starts_with(MARK) {
        return Ok(told);
    }
    let rest = bytes.get(MARK.len()..).unwrap_or(b"");
    let Ok(text) = str::from_utf8(rest) else {
        return Ok(told);
    };
    let fix = Meant::of(alloc, String::from_str(alloc, text)?)?;
    Ok(NoJson { fix, ..told })
}
