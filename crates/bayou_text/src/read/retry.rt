ghost use Rattle.std.specs.Prelude.{◌≡◌, map};
ghost use Rattle.serde_json.specs.View.{view};
ghost use Rattle.bayou_text.specs.Lines as grammar;
ghost use Rattle.bayou_text.specs.Reading.{Answers};
ghost use Rattle.bayou_text.specs.Said.{said};

use crate::command::{Attempt, Command, Operation};
use crate::line::{Line, LineFault, Shape};
use crate::read::exchange::exchange_in;
use crate::read::number::session_in;
use bayou_base::SessionId;
use serde_json::Value;

/// What a session does about a reply that it doesn't get, or what servers do.
#[tactic(auto, unfolding(crate::specs::Lines::retry_of))]
pub(crate) fn retry_in(word: &str, parts: &[Value]) -> Result<Line, LineFault>
    ensures { Answers said result (grammar.retry_of word.now (map view parts.now)) }
{
    if word == "again" {
        return Ok(Line::Command(Command::Operation(Operation {
            session: session_alone_in(parts)?,
            attempt: Attempt::Again,
        })));
    }
    if word == "drop" {
        return Ok(Line::Command(Command::Drop(session_alone_in(parts)?)));
    }
    exchange_in(word, parts)
}

/// The session that a command takes alone.
#[tactic(auto, unfolding(crate::specs::Lines::session_alone_in))]
fn session_alone_in(parts: &[Value]) -> Result<SessionId, LineFault>
    ensures { Answers (λ session. session.index) result (grammar.session_alone_in (map view parts.now)) }
{
    let [session] = parts else {
        return Err(LineFault::BadShape(Shape::Arity));
    };
    session_in(session)
}
