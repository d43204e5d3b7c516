//! Where a member stands in the bytes of a line that is JSON.
use crate::told::{Step, TextSpan};

fn is_blank(byte: u8) -> bool {
    matches!(byte, b' ' | b'\t' | b'\r')
}

// The first place from here on where no blank is.
fn behind_blanks(text: &[u8], from: usize) -> usize {
    for at in from..text.len() {
        if !is_blank(text[at]) {
            return at;
        }
    }
    text.len()
}

// The place after the text that begins here with its quote.
fn behind_text(text: &[u8], from: usize) -> usize {
    let mut is_escaped = false;
    for at in from.saturating_add(1)..text.len() {
        match text[at] {
            _ if is_escaped => is_escaped = false,
            b'\\' => is_escaped = true,
            b'"' => return at + 1,
            _ => {}
        }
    }
    text.len()
}

// The place after the array or the object that begins here.
fn behind_nest(text: &[u8], from: usize) -> usize {
    let mut depth: usize = 0;
    let mut behind = from;
    for at in from..text.len() {
        if at < behind {
            continue;
        }
        match text[at] {
            b'"' => behind = behind_text(text, at),
            b'[' | b'{' => depth = depth.saturating_add(1),
            b']' | b'}' => depth = depth.saturating_sub(1),
            _ => {}
        }
        if depth == 0 {
            return at + 1;
        }
    }
    text.len()
}

// The place after the number or the name that begins here.
fn behind_scalar(text: &[u8], from: usize) -> usize {
    for at in from..text.len() {
        if is_blank(text[at]) || matches!(text[at], b',' | b']' | b'}' | b':') {
            return at;
        }
    }
    text.len()
}

// The place after the value that begins here.
fn behind_value(text: &[u8], from: usize) -> usize {
    match text.get(from) {
        Some(b'"') => behind_text(text, from),
        Some(b'[' | b'{') => behind_nest(text, from),
        _ => behind_scalar(text, from),
    }
}

// Where the value begins that stands after a comma, a colon or a bracket.
fn next_value(text: &[u8], from: usize) -> usize {
    behind_blanks(text, behind_blanks(text, from).saturating_add(1))
}

// Where the member of this number begins, in the array that begins here.
fn item(text: &[u8], from: usize, number: usize) -> Option<usize> {
    let mut at = next_value(text, from);
    for _ in 0..number {
        at = next_value(text, behind_value(text, at));
    }
    if at < text.len() { Some(at) } else { None }
}

// Where the name of the last member of this name, and that member, begin, in the object that begins here.
fn named(text: &[u8], from: usize, name: &str) -> Option<(usize, usize)> {
    let mut found = None;
    let mut at = next_value(text, from);
    // No object has more members than bytes.
    for _ in 0..text.len() {
        if text.get(at) != Some(&b'"') {
            return found;
        }
        let end = behind_text(text, at);
        let inner = text.get(at.saturating_add(1)..end.saturating_sub(1));
        let value = next_value(text, end);
        if inner == Some(name.as_bytes()) {
            found = Some((at, value));
        }
        at = next_value(text, behind_value(text, value));
    }
    found
}

// The first place from here where a step leads to, and whether it is that of a name.
fn step_from(text: &[u8], from: usize, step: &Step) -> Option<usize> {
    match step {
        Step::At(number) => item(text, from, *number),
        Step::Of(name) => Some(named(text, from, name.as_str())?.1),
        Step::Name(name) => Some(named(text, from, name.as_str())?.0),
    }
}

/// Where the member stands to which these steps lead, the last one first, in a line that is JSON. Where that isn't found it is where the member
/// stands to which the first of them lead that are.
pub(crate) fn span_of(text: &[u8], path: &[Step]) -> TextSpan {
    let mut start = behind_blanks(text, 0);
    for step in path.iter().rev() {
        match step_from(text, start, step) {
            Some(next) => start = next,
            None => break,
        }
    }
    TextSpan {
        start,
        end: behind_value(text, start),
    }
}
