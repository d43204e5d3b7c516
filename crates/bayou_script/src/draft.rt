//! The front of a script.
ghost use Rattle.std.specs.Prelude.{IsTrue};
ghost use Rattle.std.specs.List.{list_all};
ghost use Rattle.bayou_text.specs.Said.{command_said};
ghost use Rattle.bayou_script.specs.Inner.Started.{are_started};
ghost use Rattle.bayou_script.specs.Script.{use_of};

use crate::fault::InputRefusal;
use crate::script::Script;
use crate::stage::Stage;
use crate::text::Front;
use crate::uses::used_by;
use bayou_base::MAX_LINES;
use bayou_text::{Command, Line};
use std::alloc::Global;
use std::collections::VecDeque;

/// The front of a script, while its lines are checked.
#[derive(Drop)]
pub struct Draft {
    stage: Stage,
    commands: VecDeque<Command>,
    ghost served: { IsTrue (list_all (λ command. are_started stage.servers (use_of (command_said command)).servers) commands.items) },
}

impl Draft {
    ghost use Rattle.std.specs.Prelude.{◌≡◌, ◌≤◌, ℕ, List, MatchResult};
    ghost use Rattle.bayou_base.specs.declared.limits.TheConstants.{MAX_LINES as MOST_LINES};
    ghost use Rattle.bayou_text.specs.Said.{Said};
    ghost use Rattle.bayou_script.specs.declared.fault.InputRefusal.TheVariants.{OutOfMemory};
    ghost use Rattle.bayou_script.specs.Inner.Draft.{IsDraftOf};
    ghost use Rattle.bayou_script.specs.Order.{HasAdded};
    ghost use Rattle.bayou_script.specs.Script.{script_order};

    /// Adds the command, if it has its place.
    fn push(&mut self, command: Command) -> Result<bool, InputRefusal>
        ensures { (number : ℕ) (front : List Said) → number ≤ MOST_LINES → IsDraftOf self.old front
            → MatchResult result (HasAdded script_order IsDraftOf number front (command_said command) self.new) (λ refusal. refusal ≡ OutOfMemory) }
    {
        if !self.stage.admit(used_by(&command)) {
            return Ok(false);
        }
        self.commands.push_back(command)?;
        Ok(true)
    }
}

impl Front for Draft {
    ghost use Rattle.std.specs.Prelude.{◌≡◌};
    ghost use Rattle.bayou_script.specs.Inner.Draft.{IsDraftOf};
    ghost use Rattle.bayou_script.specs.Plan.{plan_of};
    ghost use Rattle.bayou_script.specs.Script.{IsScript, script_order};

    type Text = Script;

    ghost order = { script_order };

    ghost keeps = { IsDraftOf };

    ghost says = { λ lines script. IsScript lines (plan_of script) };

    ghost tells = { λ script. Unit {0} };

    fn new(alloc: Global) -> Self {
        Draft {
            stage: Stage::new(),
            commands: VecDeque::new(alloc),
        }
    }

    fn add(&mut self, _alloc: Global, number: u64, line: Line) -> Result<bool, InputRefusal> {
        if number > MAX_LINES {
            return Ok(false);
        }
        match line {
            Line::Servers { count, limit } => Ok(self.stage.start(count, limit)),
            Line::Command(command) => self.push(command),
            Line::Audit(_) => Ok(false),
        }
    }

    fn finish(self) -> Result<Script, InputRefusal> {
        match self.stage.servers {
            Some(servers) => Ok(Script {
                servers,
                commands: self.commands,
            }),
            None => Err(InputRefusal::out_of_place(1)),
        }
    }
}
