//! What is printed of an operation, and of what a session asks for.
ghost use Rattle.std.specs.Prelude.{◌≡◌, ◌≤◌, ℕ, IfOk, MatchOption, Some, string_bytes};
ghost use Rattle.bayou_base.specs.declared.limits.TheConstants.{SERVERS as NUMBER};
ghost use Rattle.bayou_connect.specs.Printing.{IsAsksLine, nothing_text, told_text};
ghost use Rattle.bayou_connect.specs.declared.told.ServerTold.TheVariants.{Away};
ghost use Rattle.bayou_print.specs.Printed.{last_text};

use crate::plan::asks_text;
use crate::told::ServerTold;
use bayou_answers::Answer;
use bayou_base::{Asks, Key, SessionId};
use bayou_print::{away_line, last_line};
use std::alloc::{AllocError, Global};

// What an operation is answered, unless no server was reached.
fn answer_of(session: SessionId, key: &Option<Key>, told: ServerTold) -> Option<Answer>
    ensures { MatchOption result (told ≡ Away) (λ answer. (servers : ℕ) → told_text servers session key.now told ≡ last_text servers answer) }
{
    match (told, key) {
        (ServerTold::Away, _) => None,
        (ServerTold::Seen(seen), Some(key)) => Some(Answer::Read {
            session,
            key: key.copy(),
            seen,
        }),
        (ServerTold::Accepted(accepted), _) => Some(Answer::Wrote { session, accepted }),
        (ServerTold::Refused(refusal), _) => Some(Answer::Refused { session, refusal }),
        (ServerTold::Seen(_) | ServerTold::Rows(_) | ServerTold::Fate(_) | ServerTold::Lost, _) => {
            Some(Answer::Lost { session })
        }
    }
}

/// The line of what an operation heard, with its key if it is a read.
pub(crate) fn told_line(
    alloc: Global,
    servers: u8,
    session: SessionId,
    key: &Option<Key>,
    told: ServerTold,
) -> Result<String, AllocError>
    requires { servers ≤ NUMBER }
    ensures { IfOk result (λ line. string_bytes line ≡ told_text servers session key.now told) }
{
    match answer_of(session, key, told) {
        None => away_line(alloc, session),
        Some(answer) => last_line(alloc, servers, &answer),
    }
}

/// The line of what a session asks for.
pub(crate) fn asks_line(alloc: Global, session: SessionId, asks: Asks) -> Result<String, AllocError>
    ensures { IfOk result (λ line. IsAsksLine session asks (string_bytes line)) }
{
    let (session, words) = (session.index, asks_text(asks));
    format!(in alloc; "session {session} asks {words}\n")
}

/// The line of a Write that did nothing.
pub(crate) fn nothing_line(alloc: Global, session: SessionId) -> Result<String, AllocError>
    ensures { IfOk result (λ line. string_bytes line ≡ nothing_text session) }
{
    let session = session.index;
    format!(in alloc; "{session} did nothing\n")
}
