//! How much the book of a script's operations has to hold.
ghost use Rattle.std.specs.Prelude.{◌≡◌, map};
ghost use Rattle.bayou_script.specs.Capacity.{capacity_for};

use crate::spoken::Spoken;
use std::collections::VecDeque;

/// How many entries the book of these commands may have.
pub fn capacity_for<C: Spoken>(commands: &VecDeque<C>) -> usize
    ensures { result ≡ capacity_for (map C.line commands.now.items) }
{
    let mut tried: usize = 0;
    for at in 0..commands.len() {
        let command = &commands[at];
        if command.is_operation() {
            tried += 1;
        }
    }
    tried.max(1)
}
