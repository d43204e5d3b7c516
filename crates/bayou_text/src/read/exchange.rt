ghost use Rattle.std.specs.Prelude.{◌≡◌, map};
ghost use Rattle.serde_json.specs.View.{view};
ghost use Rattle.bayou_text.specs.Lines as grammar;
ghost use Rattle.bayou_text.specs.Reading.{Answers};
ghost use Rattle.bayou_text.specs.Said.{said};

use crate::command::{Command, Exchange, Extent};
use crate::line::{Line, LineFault, Shape};
use crate::read::asked::asked_in;
use crate::read::number::{cut_in, server_in};
use serde_json::Value;

/// A command by which two servers exchange Writes, or one that speaks of the whole run or of one server.
#[tactic(auto, unfolding(crate::specs::Lines::exchange_of))]
pub(crate) fn exchange_in(word: &str, parts: &[Value]) -> Result<Line, LineFault>
    ensures { Answers said result (grammar.exchange_of word.now (map view parts.now)) }
{
    if word == "pull" {
        return pulling_in(parts);
    }
    if word == "resend" {
        return resending_in(parts);
    }
    asked_in(word, parts)
}

#[tactic(auto, unfolding(crate::specs::Lines::pulling_in))]
fn pulling_in(parts: &[Value]) -> Result<Line, LineFault>
    ensures { Answers said result (grammar.pulling_in (map view parts.now)) }
{
    match parts {
        [to, from] => Ok(Line::Command(Command::Exchange(Exchange {
            to: server_in(to)?,
            from: server_in(from)?,
            extent: Extent::Lacking { cut: None },
        }))),
        [to, from, items] => Ok(Line::Command(Command::Exchange(Exchange {
            to: server_in(to)?,
            from: server_in(from)?,
            extent: Extent::Lacking {
                cut: Some(cut_in(items)?),
            },
        }))),
        _ => Err(LineFault::BadShape(Shape::Arity)),
    }
}

#[tactic(auto, unfolding(crate::specs::Lines::resending_in))]
fn resending_in(parts: &[Value]) -> Result<Line, LineFault>
    ensures { Answers said result (grammar.resending_in (map view parts.now)) }
{
    let [to, from] = parts else {
        return Err(LineFault::BadShape(Shape::Arity));
    };
    Ok(Line::Command(Command::Exchange(Exchange {
        to: server_in(to)?,
        from: server_in(from)?,
        extent: Extent::All,
    })))
}
