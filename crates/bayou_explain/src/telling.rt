//! Breaches as people read them.
ghost use Rattle.std.specs.Prelude.{◌≡◌, ◌++◌, ℕ, IfOk, List, string_bytes};
ghost use Rattle.bayou_explain.specs.Sentence.{entry_text, reason_text, sentence_text, title_text};

use crate::explained::{Explained, ShownLine};
use crate::refused::{Cause, Forged};
use crate::sentence::{breach_sentence, breach_title, reason_line};
use std::alloc::{AllocError, Global};
use std::str;

/// How many characters of a line are shown at the most.
const MAX_SHOWN: usize = 200;

// The character as it is shown at a terminal: one that would do something there is a question mark.
fn harmless(character: char) -> char {
    if character.is_control() {
        '?'
    } else {
        character
    }
}

/// The first characters of a line, as they are shown, and two dots where there are more; nothing where it is no text.
pub fn shown_line(alloc: Global, bytes: &[u8]) -> Result<String, AllocError> {
    let mut text = String::new(alloc);
    let Ok(line) = str::from_utf8(bytes) else {
        return Ok(text);
    };
    for character in line.chars().take(MAX_SHOWN) {
        text.push(harmless(character))?;
    }
    if line.len() > text.len() {
        text.push_str("..")?;
    }
    Ok(text)
}

// A line by its number, and what it is.
pub(crate) fn line_text(
    alloc: Global,
    what: &str,
    line: Option<ShownLine<'_>>,
) -> Result<String, AllocError> {
    let Some(line) = line else {
        return format!(in alloc; "  {what}: no line\n");
    };
    let number = (line.at as u64).saturating_add(1);
    let text = shown_line(alloc, line.bytes)?;
    format!(in alloc; "  {what}: line {number}  {text}\n")
}

// The lines that show it.
fn lines_text(alloc: Global, explained: &Explained<'_>) -> Result<String, AllocError> {
    let (first, second) = (explained.breach.first, explained.breach.second);
    let wid = explained.breach.wid;
    let (origin, seq) = (wid.origin.index, wid.seq);
    let server = explained.breach.server.index;
    let earlier = line_text(
        alloc,
        format!(in alloc; "place {first}")?.as_str(),
        explained.first,
    )?;
    let later = line_text(
        alloc,
        format!(in alloc; "place {second}")?.as_str(),
        explained.second,
    )?;
    let name = format!(in alloc; "{origin}:{seq} at server {origin}")?;
    let mut text = format!(in alloc; "{earlier}{later}")?;
    text.push_str(line_text(alloc, name.as_str(), explained.write)?.as_str())?;
    if server != origin {
        let name = format!(in alloc; "{origin}:{seq} at server {server}")?;
        text.push_str(line_text(alloc, name.as_str(), explained.there)?.as_str())?;
    }
    Ok(text)
}

/// The breach as a person reads it: what is broken, the lines that show it, and what is wrong with them.
pub fn explained_text(alloc: Global, explained: &Explained<'_>) -> Result<String, AllocError>
    ensures { IfOk result (λ text. (lines : List ℕ) × (string_bytes text ≡ title_text explained.now.breach ++ (lines ++ sentence_text explained.now.breach))) }
{
    let title = breach_title(alloc, &explained.breach)?;
    let lines = lines_text(alloc, explained)?;
    let sentence = breach_sentence(alloc, &explained.breach)?;
    format!(in alloc; "{title}{lines}{sentence}")
}

// The line that the cause names.
pub(crate) fn line_of<'a>(cause: Option<Cause<'a>>) -> Option<ShownLine<'a>> {
    match cause? {
        Cause::Place(shown) | Cause::Asks(shown) | Cause::Again(shown) | Cause::Differs(shown) => {
            Some(shown)
        }
        Cause::Origin | Cause::Lost | Cause::Database => None,
    }
}

// The lines that show which condition an entry fails.
fn forged_lines(alloc: Global, forged: &Forged<'_>) -> Result<String, AllocError> {
    let entry = line_text(alloc, "the entry", Some(forged.entry))?;
    match line_of(forged.cause) {
        Some(shown) => {
            let other = line_text(alloc, "against", Some(shown))?;
            format!(in alloc; "{entry}{other}")
        }
        None => Ok(entry),
    }
}

// The line that a forged entry's explanation begins with.
fn entry_title(alloc: Global, number: usize) -> Result<String, AllocError>
    ensures { IfOk result (λ text. string_bytes text ≡ entry_text number) }
{
    format!(in alloc; "entry {number} can't be true\n")
}

/// The entry of this number, which can't be true, as a person reads it: its line, the one that it doesn't go with, and which condition it fails.
pub fn forged_text(alloc: Global, number: usize, forged: &Forged<'_>) -> Result<String, AllocError>
    ensures { IfOk result (λ text. (lines : List ℕ) × (string_bytes text ≡ entry_text number ++ (lines ++ reason_text forged.now.cause))) }
{
    let title = entry_title(alloc, number)?;
    let lines = forged_lines(alloc, forged)?;
    let reason = reason_line(forged.cause);
    format!(in alloc; "{title}{lines}{reason}")
}
