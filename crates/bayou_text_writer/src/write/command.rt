//! Commands, by kind.
ghost use Rattle.std.specs.Prelude.{◌≡◌, ◌∷◌, [], IfOk, OnOk};
ghost use Rattle.serde_json.specs.View.{view};
ghost use Rattle.bayou_text.specs.Said.{command_said, exchange_said, operation_said, question_said, trial_said};
ghost use Rattle.bayou_text.specs.Spelling as spelling;
ghost use Rattle.bayou_text_writer.specs.Inner.Kept.{IsAttempt, IsCommand, IsExtent, IsTrialKind};

use crate::write::asks::asks_json;
use crate::write::numbers::{between_json, numbers_json, server_json, session_json};
use crate::write::program::program_json;
use bayou_base::{ServerId, SessionId};
use bayou_text::{Attempt, Command, Exchange, Extent, Operation, Question, Trial, TrialKind};
use serde_json::{Value, json};
use std::alloc::{AllocError, Global};

/// The spelling of a command of a session at a server.
fn at_server_json(
    alloc: Global,
    word: &str,
    session: SessionId,
    server: ServerId,
    last: Value,
) -> Result<Value, AllocError>
    ensures { IfOk result (λ json. view json
        ≡ spelling.form word.now (spelling.count_json session.index ∷ spelling.count_json server.index ∷ view last ∷ [])) }
{
    json!(in alloc; [word, session.index, server.index, last])
}

fn operation_json(alloc: Global, operation: &Operation) -> Result<Value, AllocError>
    ensures spelling { IfOk result (λ json. view json ≡ spelling.line_json (operation_said operation.now)) }
    ensures kept { OnOk result (IsAttempt operation.now.attempt) }
{
    let session = operation.session;
    match &operation.attempt {
        Attempt::Write { server, program } => {
            let program = program_json(alloc, program)?;
            at_server_json(alloc, "write", session, *server, program)
        }
        Attempt::Read { server, key } => {
            let key = Value::try_from_str(alloc, key.as_str())?;
            at_server_json(alloc, "read", session, *server, key)
        }
        Attempt::Again => session_json(alloc, "again", session),
    }
}

fn trial_json(alloc: Global, trial: Trial) -> Result<Value, AllocError>
    ensures spelling { IfOk result (λ json. view json ≡ spelling.line_json (trial_said trial)) }
    ensures kept { OnOk result (IsTrialKind trial.kind) }
{
    let server = trial.server;
    match trial.kind {
        TrialKind::Fuse(failure) => numbers_json(
            alloc,
            "fuse",
            &[
                u64::from(server.index),
                u64::from(failure.calls),
                failure.kept as u64,
            ],
        ),
        TrialKind::Lose(count) => {
            numbers_json(alloc, "lose", &[u64::from(server.index), count as u64])
        }
        TrialKind::Reopen => server_json(alloc, "reopen", server),
        TrialKind::Restart => server_json(alloc, "restart", server),
    }
}

fn exchange_json(alloc: Global, exchange: Exchange) -> Result<Value, AllocError>
    ensures spelling { IfOk result (λ json. view json ≡ spelling.line_json (exchange_said exchange)) }
    ensures kept { OnOk result (IsExtent exchange.extent) }
{
    let to = exchange.to;
    let from = exchange.from;
    match exchange.extent {
        Extent::Lacking { cut: None } => between_json(alloc, "pull", to, from),
        Extent::Lacking { cut: Some(items) } => numbers_json(
            alloc,
            "pull",
            &[u64::from(to.index), u64::from(from.index), u64::from(items)],
        ),
        Extent::All => between_json(alloc, "resend", to, from),
    }
}

fn question_json(alloc: Global, question: Question) -> Result<Value, AllocError>
    ensures { IfOk result (λ json. view json ≡ spelling.line_json (question_said question)) }
{
    match question {
        Question::Log(server) => server_json(alloc, "log", server),
        Question::Totals => numbers_json(alloc, "totals", &[]),
        Question::Judge => numbers_json(alloc, "judge", &[]),
        Question::Survey => numbers_json(alloc, "survey", &[]),
        Question::Book => numbers_json(alloc, "book", &[]),
    }
}

/// The spelling of a command.
pub(crate) fn command_json(alloc: Global, command: &Command) -> Result<Value, AllocError>
    ensures spelling { IfOk result (λ json. view json ≡ spelling.line_json (command_said command.now)) }
    ensures kept { OnOk result (IsCommand command.now) }
{
    match command {
        Command::Session { session, asks } => {
            let asks = asks_json(alloc, *asks)?;
            json!(in alloc; ["session", session.index, asks])
        }
        Command::Operation(operation) => operation_json(alloc, operation),
        Command::Drop(session) => session_json(alloc, "drop", *session),
        Command::Trial(trial) => trial_json(alloc, *trial),
        Command::Exchange(exchange) => exchange_json(alloc, *exchange),
        Command::Question(question) => question_json(alloc, *question),
        Command::Phase => numbers_json(alloc, "phase", &[]),
    }
}
