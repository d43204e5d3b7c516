//! What a command uses.
ghost use Rattle.std.specs.Prelude.{◌≡◌, None, Some};
ghost use Rattle.bayou_text.specs.Said.{command_said, operation_said, question_said};
ghost use Rattle.bayou_script.specs.declared.uses.UsedServers.TheVariants.{At, Between, Nowhere};
ghost use Rattle.bayou_script.specs.Inner.Using.{AreUses};
ghost use Rattle.bayou_script.specs.Script.{use_of};

use bayou_base::{ServerId, SessionId};
use bayou_text::{Attempt, Command, Operation, Question};

/// The servers that a command speaks to.
#[derive(Clone, Copy)]
pub(crate) enum UsedServers {
    Nowhere,
    At(ServerId),
    /// The second sends Writes to the first.
    Between(ServerId, ServerId),
}

/// What a command uses.
#[derive(Clone, Copy)]
pub(crate) struct Uses {
    /// The session that it opens.
    pub opens: Option<SessionId>,
    /// The session that it speaks for, which is open.
    pub session: Option<SessionId>,
    pub servers: UsedServers,
}

/// Of a command that speaks to one server, for a session or for none.
fn at_server(session: Option<SessionId>, server: ServerId) -> Uses
    ensures { result ≡ record { opens = None; session = session; servers = At server } }
{
    Uses {
        opens: None,
        session,
        servers: UsedServers::At(server),
    }
}

/// Of a command that speaks for a session, and to no server that it names.
fn of_session(session: SessionId) -> Uses
    ensures { result ≡ record { opens = None; session = Some session; servers = Nowhere } }
{
    Uses {
        opens: None,
        session: Some(session),
        servers: UsedServers::Nowhere,
    }
}

/// Of a command that has a server send Writes to another.
fn between(to: ServerId, from: ServerId) -> Uses
    ensures { result ≡ record { opens = None; session = None; servers = Between to from } }
{
    Uses {
        opens: None,
        session: None,
        servers: UsedServers::Between(to, from),
    }
}

/// Of a command that uses none.
fn nothing() -> Uses
    ensures { result ≡ record { opens = None; session = None; servers = Nowhere } }
{
    Uses {
        opens: None,
        session: None,
        servers: UsedServers::Nowhere,
    }
}

/// What the operation uses.
fn used_by_operation(operation: &Operation) -> Uses
    ensures { AreUses result (use_of (operation_said operation.now)) }
{
    match &operation.attempt {
        Attempt::Write { server, .. } | Attempt::Read { server, .. } => {
            at_server(Some(operation.session), *server)
        }
        Attempt::Again => of_session(operation.session),
    }
}

/// What the question uses.
fn used_by_question(question: Question) -> Uses
    ensures { AreUses result (use_of (question_said question)) }
{
    match question {
        Question::Log(server) => at_server(None, server),
        Question::Totals | Question::Judge | Question::Survey | Question::Book => nothing(),
    }
}

/// What the command uses.
pub(crate) fn used_by(command: &Command) -> Uses
    ensures { AreUses result (use_of (command_said command.now)) }
{
    match command {
        Command::Session { session, .. } => Uses {
            opens: Some(*session),
            session: None,
            servers: UsedServers::Nowhere,
        },
        Command::Operation(operation) => used_by_operation(operation),
        Command::Drop(session) => of_session(*session),
        Command::Trial(trial) => at_server(None, trial.server),
        Command::Exchange(exchange) => between(exchange.to, exchange.from),
        Command::Question(question) => used_by_question(*question),
        Command::Phase => nothing(),
    }
}
