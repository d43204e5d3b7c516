//! What is reported of a fault after the line that names it: which file, why, and what tells more.
use bayou_streams::Output;
use std::alloc::{AllocError, Global};
use std::convert::AsStr;
use std::fmt;
use std::io::Write;

/// The commands whose texts `bayou check` looks at.
const CHECKED: [&str; 3] = ["run", "net", "audit"];

/// The exit status of an input that can't be read.
const FAILED: u8 = 3;

/// What is known of the file that is read.
#[derive(Drop)]
pub struct More {
    /// Its name.
    name: Option<String>,
    /// The line that tells why it can't be read.
    refused: Option<String>,
}

impl More {
    pub fn new() -> Self {
        More {
            name: None,
            refused: None,
        }
    }

    /// Keeps the name, where memory suffices.
    pub fn note(&mut self, alloc: Global, name: &str) {
        self.name = name.to_string(alloc).ok();
    }

    /// Keeps why the file can't be read, where memory suffices.
    pub fn refuse<D: fmt::Display>(&mut self, alloc: Global, why: &D) {
        if let Some(name) = &self.name {
            self.refused = cause_line(alloc, name.as_str(), why).ok();
        }
    }

    fn name(&self) -> &str {
        match &self.name {
            Some(name) => name.as_str(),
            None => "FILE",
        }
    }
}

fn cause_line<D: fmt::Display>(alloc: Global, name: &str, why: &D) -> Result<String, AllocError> {
    format!(in alloc; "  {name}: {why}\n")
}

// Whether the words call a command whose text can be checked.
fn is_checked<S: AsStr>(words: &[S]) -> bool {
    match words.get(1) {
        Some(word) => CHECKED.contains(&word.as_str()),
        None => false,
    }
}

// Writes these texts as one.
fn write_parts<E: Write>(errors: &mut Output<E>, parts: &[&str]) {
    for part in parts {
        let _ = errors.write_lines(part.as_bytes());
    }
}

/// Tells more of what ended with this status: why a file can't be read; and at a terminal, where a text was refused for a line, what tells more
/// of its faults.
pub fn tell_more<S: AsStr, E: Write>(
    more: &More,
    words: &[S],
    status: u8,
    is_refused: bool,
    errors: &mut Output<E>,
) {
    if let (Some(line), FAILED) = (&more.refused, status) {
        write_parts(errors, &[line.as_str()]);
    } else if is_refused && is_checked(words) {
        let name = more.name();
        write_parts(
            errors,
            &[
                "  bayou check ",
                name,
                " says where, and what was expected\n",
            ],
        );
    }
}
