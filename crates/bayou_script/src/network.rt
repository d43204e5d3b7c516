//! What servers with journals in files, behind connections, can be asked.
ghost use Rattle.std.specs.Prelude.{◌≡◌, false, MatchOption};
ghost use Rattle.bayou_text.specs.Said.{command_said, exchange_said, trial_said};
ghost use Rattle.bayou_script.specs.Network.{runs_over_network};
ghost use Rattle.bayou_script.specs.NetworkSaid.{network_said};

use bayou_base::{Asks, ServerId, SessionId};
use bayou_text::{Command, Exchange, Extent, Operation, Question, Trial, TrialKind};

/// What a line of a script over a network asks, after the line that starts the servers.
#[derive(Debug, Drop)]
pub enum NetworkCommand {
    /// Opens a session that asks for these guarantees.
    Session { session: SessionId, asks: Asks },
    /// A session tries to write, to read, or to write again.
    Operation(Operation),
    /// The server `to` takes what it lacks of the Writes that the server `from` holds.
    Pull { to: ServerId, from: ServerId },
    /// The server takes its journal up again, if it is down.
    Reopen(ServerId),
    /// Something is asked, which changes nothing.
    Question(Question),
    /// A phase ends.
    Phase,
}

/// What a server over a network can be put through.
fn of_trial(trial: Trial) -> Option<NetworkCommand>
    ensures { MatchOption result (runs_over_network (trial_said trial) ≡ false) (λ command. network_said command ≡ trial_said trial) }
{
    match trial.kind {
        TrialKind::Reopen => Some(NetworkCommand::Reopen(trial.server)),
        TrialKind::Fuse(_) | TrialKind::Lose(_) | TrialKind::Restart => None,
    }
}

/// What a server over a network can be asked to take.
fn of_exchange(exchange: Exchange) -> Option<NetworkCommand>
    ensures { MatchOption result (runs_over_network (exchange_said exchange) ≡ false) (λ command. network_said command ≡ exchange_said exchange) }
{
    match exchange.extent {
        Extent::Lacking { cut: None } => Some(NetworkCommand::Pull {
            to: exchange.to,
            from: exchange.from,
        }),
        Extent::Lacking { cut: Some(_) } | Extent::All => None,
    }
}

impl NetworkCommand {
    /// The command, if it is one that servers over a network can be asked.
    pub fn of(command: Command) -> Option<Self>
        ensures { MatchOption result (runs_over_network (command_said command) ≡ false) (λ asked. network_said asked ≡ command_said command) }
    {
        match command {
            Command::Session { session, asks } => Some(NetworkCommand::Session { session, asks }),
            Command::Operation(operation) => Some(NetworkCommand::Operation(operation)),
            Command::Drop(_) => None,
            Command::Trial(trial) => of_trial(trial),
            Command::Exchange(exchange) => of_exchange(exchange),
            Command::Question(question) => Some(NetworkCommand::Question(question)),
            Command::Phase => Some(NetworkCommand::Phase),
        }
    }
}
