//! The phases of a script, and what is done together in each over a network.
ghost use Rattle.std.specs.Prelude.{◌≡◌, ◌∷◌, [], Bool, IfOk, IfSome, IsTrue, MatchOption, map};
ghost use Rattle.std.specs.List.{list_all};
ghost use Rattle.bayou_script.specs.NetworkSaid.{network_said};
ghost use Rattle.bayou_script.specs.Phases.{IsPart, phases_of};

use crate::network::NetworkCommand;
use crate::spoken::Spoken;
use bayou_base::SessionId;
use std::alloc::{AllocError, Global};
use std::collections::VecDeque;

/// What of a phase a command is.
#[derive(Clone, Copy, Debug, PartialEq, Eq)]
pub enum Part {
    /// It opens a session, which is done first.
    Opens,
    /// An operation of this session. Sessions go on side by side, each with its own operations in order.
    Operation(SessionId),
    /// A pull. All pulls of a phase go on in order, beside the sessions.
    Pull,
    /// It is done when all of these have ended.
    Rest,
}

impl Part {
    /// The part that a command is. A command that ends a phase is in none, and counts as the rest.
    pub fn of(command: &NetworkCommand) -> Part
        ensures { IsPart result (network_said command.now) }
    {
        match command {
            NetworkCommand::Session { .. } => Part::Opens,
            NetworkCommand::Operation(operation) => Part::Operation(operation.session),
            NetworkCommand::Pull { .. } => Part::Pull,
            NetworkCommand::Reopen(_) | NetworkCommand::Question(_) | NetworkCommand::Phase => {
                Part::Rest
            }
        }
    }
}

/// Takes the commands of the next phase, and the one that ends it, which is dropped; `None` where no command is left. Where memory
/// runs out, what was taken by then is gone.
pub fn next_phase<C: Spoken>(
    alloc: Global,
    commands: &mut VecDeque<C>,
) -> Result<Option<Vec<C>>, AllocError>
    ensures phase { IfOk result (λ next. MatchOption next (commands.old.items ≡ []) (λ phase.
        phases_of (map C.line commands.old.items) ≡ map C.line phase.items ∷ phases_of (map C.line commands.new.items))) }
    // What holds of each command still holds of each.
    ensures each { (holds : C → Bool) → IsTrue (list_all holds commands.old.items)
        → IfOk result (λ next. IsTrue (list_all holds commands.new.items) × IfSome next (λ phase. IsTrue (list_all holds phase.items))) }
{
    if commands.is_empty() {
        return Ok(None);
    }
    let mut phase = Vec::new(alloc);
    while let Some(command) = commands.pop_front() {
        if command.ends_phase() {
            return Ok(Some(phase));
        }
        phase.push(command)?;
    }
    Ok(Some(phase))
}
