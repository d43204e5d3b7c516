//! The known word that comes nearest to another one.
use std::alloc::{AllocError, Global};
use strsim::osa_distance;

/// How many edits the nearest word is away at the most.
const MOST_EDITS: usize = 2;

/// How many letters a word has at the most that only one edit leads to.
const SHORT: usize = 3;

/// Words that people write for others.
const MEANT: [(&str, &str); 16] = [
    ("set", "put"),
    ("insert", "put"),
    ("assign", "put"),
    ("delete", "del"),
    ("remove", "del"),
    ("get", "read"),
    ("open", "session"),
    ("start", "servers"),
    ("sync", "pull"),
    ("send", "resend"),
    ("retry", "again"),
    ("eq", "equals"),
    ("missing", "absent"),
    ("ops", "update"),
    ("conditions", "check"),
    ("else", "merge"),
];

fn lower(alloc: Global, word: &str) -> Result<String, AllocError> {
    let mut lower = String::with_capacity(alloc, word.len())?;
    for letter in word.chars() {
        lower.push(letter.to_ascii_lowercase())?;
    }
    Ok(lower)
}

fn meant_by(word: &str, known: &[&'static str]) -> Option<&'static str> {
    for (written, meant) in MEANT {
        if written == word && known.contains(&meant) {
            return Some(meant);
        }
    }
    None
}

fn most_edits(known: &str) -> usize {
    if known.len() <= SHORT { 1 } else { MOST_EDITS }
}

/// The known word that comes nearest to this one, if one is near: capital letters count for nothing, and a word that people write for it is it.
pub(crate) fn nearest(
    alloc: Global,
    word: &str,
    known: &[&'static str],
) -> Result<Option<&'static str>, AllocError> {
    let word = lower(alloc, word)?;
    let mut best = None;
    let mut least = MOST_EDITS + 1;
    for other in known {
        let edits = osa_distance(alloc, word.as_str(), other)?;
        if edits < least && edits <= most_edits(other) {
            least = edits;
            best = Some(*other);
        }
    }
    Ok(best.or(meant_by(word.as_str(), known)))
}
