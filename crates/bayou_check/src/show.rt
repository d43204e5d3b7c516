//! A report as text, for people.
ghost use Rattle.std.specs.Prelude.{◌≡◌, IfOk, string_bytes};
ghost use Rattle.bayou_check.specs.Shown.{BeginsWith, HasWithin, head_text, outcome_text};

use crate::kind::TextKind;
use crate::report::Report;
use crate::text::plain;
use crate::told::{FaultyLine, Step};
use std::alloc::{AllocError, Global};
use std::fmt;

/// A number and what is counted.
#[derive(Drop)]
struct Counted {
    count: u64,
    one: &'static str,
    many: &'static str,
}

impl fmt::Display for Counted {
    fn fmt<W: fmt::Write>(&self, f: &mut fmt::Formatter<W>) -> fmt::Result {
        let count = self.count;
        let name = if count == 1 { self.one } else { self.many };
        write!(f, "{count} {name}")
    }
}

fn number_of(count: u64, one: &'static str, many: &'static str) -> Counted {
    Counted { count, one, many }
}

// The member to which the steps lead.
fn place_text(alloc: Global, path: &[Step]) -> Result<String, AllocError> {
    let mut text = String::new(alloc);
    let mut before = "";
    for (depth, step) in path.iter().enumerate() {
        match step {
            Step::At(at) if depth == 0 => write!(text, "member {at}")?,
            Step::At(at) => write!(text, "[{at}]")?,
            Step::Of(name) | Step::Name(name) => {
                text.push_str(before)?;
                text.push_str(plain(alloc, name.as_str())?.as_str())?;
            }
        }
        before = if depth == 0 { ", " } else { "." };
    }
    Ok(text)
}

// So many times this character.
fn repeated(alloc: Global, character: char, count: usize) -> Result<String, AllocError> {
    let mut text = String::new(alloc);
    for _ in 0..count {
        text.push(character)?;
    }
    Ok(text)
}

// The line, and below it the mark.
fn push_line(alloc: Global, text: &mut String, told: &FaultyLine) -> Result<(), AllocError> {
    let number = told.line.to_string(alloc)?;
    let margin = repeated(alloc, ' ', number.len())?;
    let blanks = repeated(alloc, ' ', told.mark.start)?;
    let marks = repeated(alloc, '^', told.mark.end.saturating_sub(told.mark.start))?;
    let line = &told.text;
    write!(text, "  {number} | {line}\n  {margin} | {blanks}{marks}\n")
}

// How the line with a fault is called where a text is refused for it.
fn head(alloc: Global, number: u64) -> Result<String, AllocError>
    ensures { IfOk result (λ text. string_bytes text ≡ head_text number) }
{
    format!(in alloc; "bayou: line {number}: ")
}

/// What is reported of a line with a fault, in the file of this name.
pub fn told_text(alloc: Global, file: &str, told: &FaultyLine) -> Result<String, AllocError>
    ensures { IfOk result (λ text. BeginsWith (head_text told.now.line) (string_bytes text)) }
{
    let head = head(alloc, told.line)?;
    let more = more_text(alloc, file, told)?;
    format!(in alloc; "{head}{more}")
}

// What is reported after its number.
fn more_text(alloc: Global, file: &str, told: &FaultyLine) -> Result<String, AllocError> {
    let file = plain(alloc, file)?;
    let place = place_text(alloc, told.path.as_slice())?;
    let (line, fault, column) = (told.line, told.fault, told.column);
    let mut text = format!(in alloc; "{fault}\n  {file}:{line}:{column}")?;
    if !told.path.is_empty() {
        write!(text, "  {place}")?;
    }
    text.push_str("\n")?;
    push_line(alloc, &mut text, told)?;
    let found = plain(alloc, told.found.to_string(alloc)?.as_str())?;
    let expected = told.expected;
    write!(text, "  found     {found}\n  expected  {expected}\n")?;
    if let Some(word) = told.nearest {
        write!(text, "  nearest   \"{word}\"\n")?;
    }
    if let Some(fix) = &told.fix {
        let fix = plain(alloc, fix.line.as_str())?;
        write!(text, "  fix       {fix}\n")?;
    }
    let page = expected.page();
    write!(text, "  see       {page}\n")?;
    Ok(text)
}

// What the lines of a text say, counted.
fn counts_text(alloc: Global, report: &Report) -> Result<String, AllocError> {
    let counts = report.counts;
    let lines = number_of(report.lines, "line", "lines");
    let servers = number_of(u64::from(counts.servers), "server", "servers");
    match report.kind {
        TextKind::Script => {
            let sessions = number_of(counts.sessions, "session", "sessions");
            let writes = number_of(counts.writes, "write", "writes");
            let reads = number_of(counts.reads, "read", "reads");
            let pulls = number_of(counts.pulls, "pull", "pulls");
            format!(in alloc; "{lines}: {servers}, {sessions}, {writes}, {reads}, {pulls}")
        }
        TextKind::Audit => {
            let entries = number_of(counts.entries, "entry", "entries");
            let held = number_of(counts.held, "held Write", "held Writes");
            format!(in alloc; "{lines}: {servers}, {entries}, {held}")
        }
    }
}

// What is reported where `bayou net` refuses a script that `bayou run` takes.
fn push_network(text: &mut String, report: &Report) -> Result<(), AllocError> {
    let Some(least) = report.network else {
        return Ok(());
    };
    let (number, fault) = (least.number, least.fault);
    write!(
        text,
        "bayou net refuses line {number}: {fault}; drop, fuse, lose, restart, resend, a pull with ITEMS and more than 4 servers are for bayou run alone\n"
    )
}

// What the lines say, or how many of them have a fault.
fn before_outcome(alloc: Global, file: &str, report: &Report) -> Result<String, AllocError> {
    let file = plain(alloc, file)?;
    let kind = report.kind;
    if report.least.is_none() {
        let counts = counts_text(alloc, report)?;
        return format!(in alloc; "{file}: {kind} of {counts}");
    }
    let faults = number_of(report.faults, "fault", "faults");
    let lines = number_of(report.lines, "line", "lines");
    format!(in alloc; "{file}: {kind} with {faults} in {lines}")
}

// That nothing is wrong, or which line is refused.
fn outcome(alloc: Global, report: &Report) -> Result<String, AllocError>
    ensures { IfOk result (λ text. string_bytes text ≡ outcome_text report.now.kind report.now.least) }
{
    let command = report.kind.command();
    match &report.least {
        None => format!(in alloc; "; nothing is wrong: bayou {command}"),
        Some(told) => {
            let number = told.line;
            format!(in alloc; "; bayou {command} refuses line {number}")
        }
    }
}

// The end of that line, and what is reported below it.
fn behind_outcome(alloc: Global, file: &str, report: &Report) -> Result<String, AllocError> {
    if report.least.is_none() {
        let file = plain(alloc, file)?;
        let mut text = format!(in alloc; " {file}\n")?;
        push_network(&mut text, report)?;
        return Ok(text);
    }
    let shown = report.others.len() as u64;
    let first = shown.saturating_add(1);
    if first < report.faults {
        return format!(in alloc; "\nthe first {first} faults are shown\n");
    }
    String::from_str(alloc, "\n")
}

/// The last lines of a report on the file of this name: how many lines have a fault, or what the lines say where none has.
pub fn summary_text(alloc: Global, file: &str, report: &Report) -> Result<String, AllocError>
    ensures { IfOk result (λ text. HasWithin (outcome_text report.now.kind report.now.least) (string_bytes text)) }
{
    let before = before_outcome(alloc, file, report)?;
    let outcome = outcome(alloc, report)?;
    let behind = behind_outcome(alloc, file, report)?;
    format!(in alloc; "{before}{outcome}{behind}")
}
