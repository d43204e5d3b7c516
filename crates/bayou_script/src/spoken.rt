//! Commands by what their lines say.
ghost use Rattle.std.specs.Prelude.{◌≡◌};
ghost use Rattle.std.specs.Option.{is_some};
ghost use Rattle.bayou_text.specs.Said.{Said, command_said};
ghost use Rattle.bayou_script.specs.NetworkSaid.{network_said};
ghost use Rattle.bayou_script.specs.Phases.{ends_phase};
ghost use Rattle.bayou_script.specs.Capacity.{operation_of};

use crate::network::NetworkCommand;
use bayou_text::Command;

/// A command of a script, whichever run it is for.
pub trait Spoken: Drop {
    /// What its line says.
    ghost line: { Self → Said };

    /// Whether it ends a phase.
    fn ends_phase(&self) -> bool
        ensures { result ≡ ends_phase (line self.now) };

    /// Whether it is an operation, which claims room in the book.
    fn is_operation(&self) -> bool
        ensures { result ≡ is_some (operation_of (line self.now)) };
}

impl Spoken for Command {
    ghost line = { command_said };

    fn ends_phase(&self) -> bool {
        matches!(self, Command::Phase)
    }

    fn is_operation(&self) -> bool {
        matches!(self, Command::Operation(_))
    }
}

impl Spoken for NetworkCommand {
    ghost line = { network_said };

    fn ends_phase(&self) -> bool {
        matches!(self, NetworkCommand::Phase)
    }

    fn is_operation(&self) -> bool {
        matches!(self, NetworkCommand::Operation(_))
    }
}
