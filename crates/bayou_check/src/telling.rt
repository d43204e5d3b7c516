//! What is reported of a line with a fault.
ghost use Rattle.std.specs.Prelude.{◌≡◌, IfOk};

use crate::expected::Expected;
use crate::found::Found;
use crate::meant::Meant;
use crate::no_json::{NoJson, look_no_json};
use crate::span::span_of;
use crate::text::{characters, legible};
use crate::told::{FaultyLine, Mistake, Step, TextSpan};
use bayou_base::MAX_LINE_BYTES;
use bayou_script::ScriptFault;
use std::alloc::{AllocError, Global};
use std::str;

/// How many characters of a line are shown at the most.
const MAX_WIDTH: usize = 100;

/// How many of them stand before the fault.
const MAX_BEFORE: usize = 40;

/// How many bytes a mended line has at the most that is shown.
const MAX_FIX: usize = 300;

/// What stands for the rest of a line.
const DOTS: &str = "..";

/// A line that is at fault, by its number.
#[derive(Clone, Copy, Debug)]
pub(crate) struct Faulty<'a> {
    pub number: u64,
    pub fault: ScriptFault,
    pub bytes: &'a [u8],
}

/// What was found of the fault, in bytes of the line.
#[derive(Drop)]
struct Finding {
    path: Vec<Step>,
    span: TextSpan,
    found: Found,
    expected: Expected,
    nearest: Option<&'static str>,
    fix: Option<Meant>,
}

/// A line as it is shown, and what of it is marked, in characters.
#[derive(Drop)]
struct Window {
    text: String,
    mark: TextSpan,
    column: usize,
}

// The line with this in place of what stands there, if a reader takes it.
fn mended(
    alloc: Global,
    bytes: &[u8],
    span: TextSpan,
    instead: Option<&str>,
) -> Result<Option<Meant>, AllocError> {
    let (Some(instead), Ok(text)) = (instead, str::from_utf8(bytes)) else {
        return Ok(None);
    };
    let (Some(front), Some(back)) = (text.get(..span.start), text.get(span.end..)) else {
        return Ok(None);
    };
    if text.len() > MAX_FIX || instead.len() > MAX_FIX {
        return Ok(None);
    }
    let line = format!(in alloc; "{front}{instead}{back}")?;
    Meant::of(alloc, line)
}

// The steps in their order.
fn turned(alloc: Global, path: Vec<Step>) -> Result<Vec<Step>, AllocError> {
    let mut path = path;
    let mut turned = Vec::new(alloc);
    while let Some(step) = path.pop() {
        turned.push(step)?;
    }
    Ok(turned)
}

// What a look at the line found.
fn of_mistake(alloc: Global, bytes: &[u8], mistake: Mistake) -> Result<Finding, AllocError> {
    let span = span_of(bytes, mistake.path.as_slice());
    let fix = mended(alloc, bytes, span, mistake.instead.as_deref())?;
    Ok(Finding {
        path: turned(alloc, mistake.path)?,
        span,
        found: mistake.found,
        expected: mistake.expected,
        nearest: mistake.nearest,
        fix,
    })
}

// What was found of a line as a whole.
fn of_whole(alloc: Global, bytes: &[u8], found: Found, expected: Expected) -> Finding {
    Finding {
        path: Vec::new(alloc),
        span: TextSpan {
            start: 0,
            end: bytes.len(),
        },
        found,
        expected,
        nearest: None,
        fix: None,
    }
}

// The line, if it is short enough to be shown.
fn if_short(fix: Option<Meant>) -> Option<Meant> {
    let meant = fix?;
    if meant.line.len() <= MAX_FIX {
        Some(meant)
    } else {
        None
    }
}

fn of_no_json(alloc: Global, bytes: &[u8]) -> Result<Finding, AllocError> {
    let NoJson {
        found,
        expected,
        span,
        fix,
    } = look_no_json(alloc, bytes)?;
    Ok(Finding {
        path: Vec::new(alloc),
        span,
        found,
        expected,
        nearest: None,
        fix: if_short(fix),
    })
}

// What is found of the fault. Where a look at the line finds another fault, no more is reported than which one it is.
fn finding_of(
    alloc: Global,
    faulty: Faulty<'_>,
    mistake: Option<Mistake>,
) -> Result<Finding, AllocError> {
    let bytes = faulty.bytes;
    if faulty.fault == ScriptFault::NotJson {
        return of_no_json(alloc, bytes);
    }
    if bytes.is_empty() {
        return Ok(of_whole(alloc, bytes, Found::Nothing, Expected::SomeLine));
    }
    if bytes.len() > MAX_LINE_BYTES {
        let found = Found::Bytes(bytes.len());
        return Ok(of_whole(alloc, bytes, found, Expected::ShortLine));
    }
    match mistake {
        Some(mistake) if mistake.fault == faulty.fault => of_mistake(alloc, bytes, mistake),
        _ => Ok(of_whole(alloc, bytes, Found::Other, Expected::Other)),
    }
}

// The part of a line that is shown around what is marked.
fn shown_part(alloc: Global, bytes: &[u8], span: TextSpan) -> Result<Window, AllocError> {
    let is_text = str::from_utf8(bytes).is_ok();
    let front = bytes.get(..span.start).unwrap_or(bytes);
    let marked = bytes.get(span.start..span.end).unwrap_or(b"");
    let before = characters(front, is_text);
    let width = characters(marked, is_text).max(1);
    let line = legible(alloc, bytes)?;
    let skipped = if characters(bytes, is_text) <= MAX_WIDTH {
        0
    } else {
        before.saturating_sub(MAX_BEFORE)
    };
    let mut text = String::new(alloc);
    if skipped > 0 {
        text.push_str(DOTS)?;
    }
    let start = before
        .saturating_sub(skipped)
        .saturating_add(if skipped > 0 { DOTS.len() } else { 0 });
    for character in line.as_str().chars().skip(skipped).take(MAX_WIDTH) {
        text.push(character)?;
    }
    if characters(bytes, is_text) > skipped.saturating_add(MAX_WIDTH) {
        text.push_str(DOTS)?;
    }
    let most = MAX_WIDTH
        .saturating_sub(before.saturating_sub(skipped))
        .max(1);
    Ok(Window {
        text,
        mark: TextSpan {
            start,
            end: start.saturating_add(width.min(most)),
        },
        column: before.saturating_add(1),
    })
}

/// What is reported of the line, whose fault is this, once a look at it found this mistake.
pub(crate) fn tell(
    alloc: Global,
    faulty: Faulty<'_>,
    mistake: Option<Mistake>,
) -> Result<FaultyLine, AllocError>
    ensures { IfOk result (λ told. (told.line ≡ faulty.entry.number) × (told.fault ≡ faulty.entry.fault)) }
{
    let finding = finding_of(alloc, faulty, mistake)?;
    let window = shown_part(alloc, faulty.bytes, finding.span)?;
    Ok(FaultyLine {
        line: faulty.number,
        fault: faulty.fault,
        text: window.text,
        mark: window.mark,
        column: window.column,
        path: finding.path,
        found: finding.found,
        expected: finding.expected,
        nearest: finding.nearest,
        fix: finding.fix,
    })
}
