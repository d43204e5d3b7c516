//! What is drawn: a pure list of marks.
ghost use Rattle.std.specs.Prelude.{◌≡◌, All, IfOk, OnOk};
ghost use Rattle.bayou_explain.specs.Explained.{IsShown, breaches_of};
ghost use Rattle.bayou_picture.specs.Marks.{breaches_marked, explained_of};

use crate::seen::Amounts;
use crate::touched::{is_bad, later_wid, missing_at, touches};
use bayou_base::Wid;
use bayou_explain::{Explained, Located, explain};
use bayou_judge::{BadEvidence, Surveyed};
use std::alloc::{AllocError, Global};

/// How many operations, and how many Writes of a server, are drawn at the most where no breach touches them.
pub const MAX_WHOLE: usize = 60;

/// A breach that is drawn.
#[derive(Clone, Copy)]
pub struct Marked<'a> {
    /// The breach, and the lines that show it.
    pub explained: Explained<'a>,
    /// The later operation, where it is a Write.
    pub later: Option<Wid>,
    /// How many Writes stand before the place in the server's dump at which the Write is missing.
    pub missing_at: Option<usize>,
}

/// A line that is drawn: its place among those that were located, and how many of its kind stand before it: entries, or Writes of its server.
#[derive(Clone, Copy, Debug, PartialEq, Eq)]
pub struct Mark {
    pub line: usize,
    pub number: usize,
}

/// What is drawn.
#[derive(Drop)]
pub struct Marks<'a> {
    /// The operations.
    pub operations: Vec<Mark>,
    /// The Writes that servers hold.
    pub writes: Vec<Mark>,
    /// The breaches.
    pub breaches: Vec<Marked<'a>>,
    /// What can't be true.
    pub bad: Option<BadEvidence>,
    /// How many operations and Writes there are.
    pub seen: Amounts,
}

// The breach, with what is drawn of it beside the lines that show it.
fn mark_breach<'a>(lines: &[Located<'a>], explained: Explained<'a>) -> Marked<'a>
    ensures { result.explained ≡ explained.entry }
{
    Marked {
        explained,
        later: later_wid(lines, &explained.breach),
        missing_at: missing_at(lines, &explained.breach),
    }
}

// The breaches of a survey, in their order.
fn mark_breaches<'a>(
    alloc: Global,
    lines: &[Located<'a>],
    survey: &[Surveyed],
) -> Result<Vec<Marked<'a>>, AllocError>
    ensures breaches { IfOk result (λ list. breaches_marked list.items ≡ breaches_of survey.now) }
    ensures lines { IfOk result (λ list. All (IsShown lines.now) (explained_of list.items)) }
{
    let list = explain(alloc, lines, survey)?;
    let mut breaches = Vec::new(alloc);
    for explained in list.as_slice() {
        breaches.push(mark_breach(lines, *explained))?;
    }
    Ok(breaches)
}

// Whether one of the breaches touches the line.
fn is_touched(breaches: &[Marked<'_>], line: &Located<'_>) -> bool {
    for marked in breaches {
        if touches(marked, line) {
            return true;
        }
    }
    false
}

// Adds the line at this place, if it is drawn.
fn add<'a>(
    marks: &mut Marks<'a>,
    line: &Located<'a>,
    mark: Mark,
    is_whole: bool,
) -> Result<(), AllocError>
    ensures { OnOk result (marks.new.breaches ≡ marks.old.breaches) }
{
    let is_drawn = is_whole
        || is_bad(marks.bad, line, mark.number)
        || is_touched(&marks.breaches, line);
    if !is_drawn {
        return Ok(());
    }
    if line.is_entry() {
        marks.operations.push(mark)?;
    } else {
        marks.writes.push(mark)?;
    }
    Ok(())
}

// All that there is, counted.
fn count(lines: &[Located<'_>]) -> Amounts {
    let mut seen = Amounts::new();
    for line in lines {
        let _ = seen.number(line);
    }
    seen
}

/// What is drawn of these lines, and of what the judge told of them: all where that isn't more than [`MAX_WHOLE`] operations, and as many Writes of each
/// server; else what is bad, and what the breaches touch.
pub fn make_marks<'a>(
    alloc: Global,
    lines: &[Located<'a>],
    survey: &[Surveyed],
    bad: Option<BadEvidence>,
) -> Result<Marks<'a>, AllocError>
    // Each breach of the survey and no other.
    ensures breaches { IfOk result (λ marks. breaches_marked marks.breaches.items ≡ breaches_of survey.now) }
    ensures lines { IfOk result (λ marks. All (IsShown lines.now) (explained_of marks.breaches.items)) }
{
    let mut marks = Marks {
        operations: Vec::new(alloc),
        writes: Vec::new(alloc),
        breaches: mark_breaches(alloc, lines, survey)?,
        bad,
        seen: count(lines),
    };
    let is_whole = marks.seen.is_small();
    let mut seen = Amounts::new();
    for (at, line) in lines.iter().enumerate() {
        let number = seen.number(line);
        add(&mut marks, line, Mark { line: at, number }, is_whole)?;
    }
    Ok(marks)
}
