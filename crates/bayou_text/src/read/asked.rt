ghost use Rattle.std.specs.Prelude.{◌≡◌, map};
ghost use Rattle.serde_json.specs.View.{view};
ghost use Rattle.bayou_text.specs.Lines as grammar;
ghost use Rattle.bayou_text.specs.Reading.{Answers};
ghost use Rattle.bayou_text.specs.Said.{command_said, said};

use crate::command::{Command, Question};
use crate::line::{Line, LineFault, Shape};
use crate::read::trial::trial_in;
use serde_json::Value;

/// A command that asks something of the whole run or ends a phase of it, or one that tries a server.
#[tactic(auto, unfolding(crate::specs::Lines::asked_of))]
pub(crate) fn asked_in(word: &str, parts: &[Value]) -> Result<Line, LineFault>
    ensures { Answers said result (grammar.asked_of word.now (map view parts.now)) }
{
    if word == "totals" {
        return bare_in(Command::Question(Question::Totals), parts);
    }
    if word == "judge" {
        return bare_in(Command::Question(Question::Judge), parts);
    }
    if word == "survey" {
        return bare_in(Command::Question(Question::Survey), parts);
    }
    if word == "book" {
        return bare_in(Command::Question(Question::Book), parts);
    }
    if word == "phase" {
        return bare_in(Command::Phase, parts);
    }
    trial_in(word, parts)
}

/// A command that takes nothing.
#[tactic(auto, unfolding(crate::specs::Lines::bare_in))]
fn bare_in(command: Command, parts: &[Value]) -> Result<Line, LineFault>
    ensures { Answers said result (grammar.bare_in (command_said command) (map view parts.now)) }
{
    let [] = parts else {
        return Err(LineFault::BadShape(Shape::Arity));
    };
    Ok(Line::Command(command))
}
