//! The commands of a phase, by what is done together.
ghost use Rattle.std.specs.Prelude.{◌≡◌, ◌∷◌, [], List, IfOk, OnOk, length, map};
ghost use Rattle.bayou_fleet.specs.Phases.{AreArranged};
ghost use Rattle.bayou_script.specs.NetworkSaid.{network_said};
ghost use Rattle.bayou_text.specs.Said.{Said};
ghost use Rattle.bayou_base.specs.declared.limits.TheConstants.{SESSIONS as SESSIONS_NUMBER};

use bayou_base::{Asks, SESSIONS, ServerId, SessionId};
use bayou_script::NetworkCommand;
use bayou_text::{Operation, Question};
use std::alloc::{AllocError, Global};
use std::collections::VecDeque;

/// A session that a phase opens.
#[derive(Clone, Copy, Debug, PartialEq, Eq)]
pub struct Opening {
    pub session: SessionId,
    pub asks: Asks,
}

/// A server that takes what it lacks of what another holds.
#[derive(Clone, Copy, Debug, PartialEq, Eq)]
pub struct Pull {
    pub to: ServerId,
    pub from: ServerId,
}

/// What is done when all else of a phase has ended.
#[derive(Clone, Copy, Debug, PartialEq, Eq)]
pub enum Closing {
    /// The server takes its journal up again, if it is down.
    Reopen(ServerId),
    /// Something is asked, which changes nothing.
    Question(Question),
    /// The phase ends, and nothing is reported.
    Phase,
}

/// The commands of a phase, each kind in the order in which they were said.
#[derive(Drop)]
pub struct Phase {
    /// The sessions that are opened, which is done first.
    pub openings: Vec<Opening>,
    /// What each session writes, reads and asks again, from session 0 on.
    pub operations: VecDeque<Vec<Operation>>,
    pub pulls: Vec<Pull>,
    pub closings: VecDeque<Closing>,
    pub ghost one_each: { length operations.items ≡ SESSIONS_NUMBER },
}

impl Phase {
    // A phase in which nothing is said.
    fn new(alloc: Global) -> Result<Self, AllocError>
        ensures { IfOk result (λ phase. (lines : List Said) → AreArranged phase.openings.items phase.operations.items phase.pulls.items phase.closings.items lines lines) }
    {
        let mut operations = VecDeque::new(alloc);
        for _ in 0..SESSIONS {
            operations.push_back(Vec::new(alloc))?;
        }
        Ok(Phase {
            openings: Vec::new(alloc),
            operations,
            pulls: Vec::new(alloc),
            closings: VecDeque::new(alloc),
        })
    }

    // Puts a command after those of its kind.
    fn put(&mut self, command: NetworkCommand) -> Result<(), AllocError>
        ensures { OnOk result ((coming lines : List Said) → AreArranged self.old.openings.items self.old.operations.items self.old.pulls.items self.old.closings.items (network_said command ∷ coming) lines
            → AreArranged self.new.openings.items self.new.operations.items self.new.pulls.items self.new.closings.items coming lines) }
    {
        match command {
            NetworkCommand::Session { session, asks } => {
                self.openings.push(Opening { session, asks })?
            }
            NetworkCommand::Operation(operation) => {
                self.operations[usize::from(operation.session.index)].push(operation)?
            }
            NetworkCommand::Pull { to, from } => self.pulls.push(Pull { to, from })?,
            NetworkCommand::Reopen(server) => self.closings.push_back(Closing::Reopen(server))?,
            NetworkCommand::Question(question) => {
                self.closings.push_back(Closing::Question(question))?
            }
            NetworkCommand::Phase => self.closings.push_back(Closing::Phase)?,
        }
        Ok(())
    }

    /// The commands of a phase, by their kinds.
    pub fn arranged(alloc: Global, commands: Vec<NetworkCommand>) -> Result<Self, AllocError>
        ensures { IfOk result (λ phase. AreArranged phase.openings.items phase.operations.items phase.pulls.items phase.closings.items [] (map network_said commands.items)) }
    {
        let mut phase = Phase::new(alloc)?;
        for command in commands {
            phase.put(command)?;
        }
        Ok(phase)
    }
}
