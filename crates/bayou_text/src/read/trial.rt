ghost use Rattle.std.specs.Prelude.{◌≡◌, map};
ghost use Rattle.serde_json.specs.View.{view};
ghost use Rattle.bayou_text.specs.Lines as grammar;
ghost use Rattle.bayou_text.specs.Reading.{Answers};
ghost use Rattle.bayou_text.specs.Said.{said};

use crate::command::{Command, PlannedFailure, Trial, TrialKind};
use crate::line::{Line, LineFault, Shape};
use crate::read::alone_in;
use crate::read::number::{calls_in, kept_in, lost_in, server_in};
use serde_json::Value;

/// A command that tries one server: its device fails or loses bytes, and it comes up again.
#[tactic(auto, unfolding(crate::specs::Lines::trial_of))]
pub(crate) fn trial_in(word: &str, parts: &[Value]) -> Result<Line, LineFault>
    ensures { Answers said result (grammar.trial_of word.now (map view parts.now)) }
{
    if word == "fuse" {
        return fusing_in(parts);
    }
    if word == "lose" {
        return losing_in(parts);
    }
    if word == "reopen" {
        return Ok(Line::Command(Command::Trial(Trial {
            server: alone_in(parts)?,
            kind: TrialKind::Reopen,
        })));
    }
    if word == "restart" {
        return Ok(Line::Command(Command::Trial(Trial {
            server: alone_in(parts)?,
            kind: TrialKind::Restart,
        })));
    }
    Err(LineFault::BadShape(Shape::Command))
}

#[tactic(auto, unfolding(crate::specs::Lines::fusing_in))]
fn fusing_in(parts: &[Value]) -> Result<Line, LineFault>
    ensures { Answers said result (grammar.fusing_in (map view parts.now)) }
{
    let [server, calls, kept] = parts else {
        return Err(LineFault::BadShape(Shape::Arity));
    };
    Ok(Line::Command(Command::Trial(Trial {
        server: server_in(server)?,
        kind: TrialKind::Fuse(PlannedFailure {
            calls: calls_in(calls)?,
            kept: kept_in(kept)?,
        }),
    })))
}

#[tactic(auto, unfolding(crate::specs::Lines::losing_in))]
fn losing_in(parts: &[Value]) -> Result<Line, LineFault>
    ensures { Answers said result (grammar.losing_in (map view parts.now)) }
{
    let [server, count] = parts else {
        return Err(LineFault::BadShape(Shape::Arity));
    };
    Ok(Line::Command(Command::Trial(Trial {
        server: server_in(server)?,
        kind: TrialKind::Lose(lost_in(count)?),
    })))
}
