//! The front of a script over a network.
ghost use Rattle.std.specs.Prelude.{IsTrue};
ghost use Rattle.std.specs.List.{list_all};
ghost use Rattle.bayou_script.specs.Inner.Started.{are_few, are_started};
ghost use Rattle.bayou_script.specs.NetworkSaid.{network_said};
ghost use Rattle.bayou_script.specs.Script.{use_of};

use crate::fault::InputRefusal;
use crate::network::NetworkCommand;
use crate::script::NetworkScript;
use crate::stage::Stage;
use crate::text::Front;
use crate::uses::used_by;
use bayou_base::{MAX_LINES, NET_SERVERS};
use bayou_text::{Command, Line};
use std::alloc::Global;
use std::collections::VecDeque;

/// The front of a script over a network, while its lines are checked.
#[derive(Drop)]
pub struct NetworkDraft {
    stage: Stage,
    commands: VecDeque<NetworkCommand>,
    ghost served: { IsTrue (list_all (λ command. are_started stage.servers (use_of (network_said command)).servers) commands.items) },
    ghost few: { IsTrue (are_few stage.servers) },
}

impl NetworkDraft {
    ghost use Rattle.std.specs.Prelude.{◌≡◌, ◌≤◌, ℕ, List, MatchResult};
    ghost use Rattle.bayou_base.specs.declared.limits.TheConstants.{MAX_LINES as MOST_LINES};
    ghost use Rattle.bayou_text.specs.Said.{Said, command_said, servers as servers_line};
    ghost use Rattle.bayou_text.specs.Table.{Spells};
    ghost use Rattle.bayou_script.specs.declared.fault.InputRefusal.TheVariants.{OutOfMemory};
    ghost use Rattle.bayou_script.specs.Inner.NetworkDraft.{IsNetworkDraftOf};
    ghost use Rattle.bayou_script.specs.Order.{HasAdded};
    ghost use Rattle.bayou_script.specs.Network.{network_order};

    /// Starts so many servers, if that has its place and they are few enough.
    fn start(&mut self, count: u8, limit: Option<u32>) -> bool
        requires { (bytes : List ℕ) × Spells bytes (servers_line count limit) }
        ensures { (number : ℕ) (front : List Said) → number ≤ MOST_LINES → IsNetworkDraftOf self.old front
            → HasAdded network_order IsNetworkDraftOf number front (servers_line count limit) self.new result }
    {
        usize::from(count) <= NET_SERVERS && self.stage.start(count, limit)
    }

    /// Adds the command, if it has its place and runs over a network.
    fn push(&mut self, command: Command) -> Result<bool, InputRefusal>
        ensures { (number : ℕ) (front : List Said) → number ≤ MOST_LINES → IsNetworkDraftOf self.old front
            → MatchResult result (HasAdded network_order IsNetworkDraftOf number front (command_said command) self.new) (λ refusal. refusal ≡ OutOfMemory) }
    {
        let uses = used_by(&command);
        let Some(command) = NetworkCommand::of(command) else {
            return Ok(false);
        };
        if !self.stage.admit(uses) {
            return Ok(false);
        }
        self.commands.push_back(command)?;
        Ok(true)
    }
}

impl Front for NetworkDraft {
    ghost use Rattle.bayou_script.specs.Inner.NetworkDraft.{IsNetworkDraftOf};
    ghost use Rattle.bayou_script.specs.Network.{IsNetworkScript, RunsOverNetwork, network_order};
    ghost use Rattle.bayou_script.specs.Plan.{network_plan_of};

    type Text = NetworkScript;

    ghost order = { network_order };

    ghost keeps = { IsNetworkDraftOf };

    ghost says = { λ lines script. IsNetworkScript lines (network_plan_of script) };

    ghost tells = { λ script. RunsOverNetwork (network_plan_of script) };

    fn new(alloc: Global) -> Self {
        NetworkDraft {
            stage: Stage::new(),
            commands: VecDeque::new(alloc),
        }
    }

    fn add(&mut self, _alloc: Global, number: u64, line: Line) -> Result<bool, InputRefusal> {
        if number > MAX_LINES {
            return Ok(false);
        }
        match line {
            Line::Servers { count, limit } => Ok(self.start(count, limit)),
            Line::Command(command) => self.push(command),
            Line::Audit(_) => Ok(false),
        }
    }

    fn finish(self) -> Result<NetworkScript, InputRefusal> {
        match self.stage.servers {
            Some(servers) => Ok(NetworkScript {
                servers,
                commands: self.commands,
            }),
            None => Err(InputRefusal::out_of_place(1)),
        }
    }
}
