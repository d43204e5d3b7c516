//! An export, printed.
ghost use Rattle.std.specs.Prelude.{◌≡◌, ◌≤◌, [], IfErr, OnOk};
ghost use Rattle.bayou_base.specs.declared.limits.TheConstants.{SERVERS as MOST_SERVERS};
ghost use Rattle.bayou_export.specs.Exports.{export_text};
ghost use Rattle.bayou_print.specs.Turns.{EndsWriting};
ghost use Rattle.bayou_print.specs.Waiting.{Gathers, stage};
ghost use Rattle.bayou_streams.specs.Account.{TakesBytes, account};

use crate::journal::Export;
use crate::lines::{Puts, exported_line};
use bayou_print::{RunFault, Waiting, write_each};
use bayou_streams::Output;
use std::alloc::Global;
use std::io::Write;

// Writes the lines, or has them wait.
fn write_lines<W: Write>(
    alloc: Global,
    told: u8,
    export: &Export,
    output: &mut Output<W>,
    waiting: &mut Waiting,
) -> Result<(), RunFault>
    requires { told ≤ MOST_SERVERS }
    ensures whole { OnOk result (Gathers (stage W.contents output.old waiting.old) (stage W.contents output.new waiting.new) (export_text told export.now) []) }
    ensures ended { IfErr result (EndsWriting output.new.channel.write_failed output.new.channel.turns_left) }
{
    let line = exported_line(alloc, told, export)?;
    waiting.print(output, line.as_bytes())?;
    write_each(alloc, &Puts, export.rows.as_slice(), output, waiting)
}

// Writes the lines, and then those of them that waited.
fn write_through<W: Write>(
    alloc: Global,
    told: u8,
    export: &Export,
    output: &mut Output<W>,
    waiting: Waiting,
) -> Result<(), RunFault>
    requires told { told ≤ MOST_SERVERS }
    requires none { waiting.lines.items ≡ [] }
    ensures { OnOk result (TakesBytes (account W.contents output.old) (account W.contents output.new) (export_text told export.now)) }
{
    let mut waiting = waiting;
    let written = write_lines(alloc, told, export, output, &mut waiting);
    waiting.end(written, output)
}

/// Writes a line that says of what the rows are, with so many counts of what was held, and a line for each row. It is done where all lines were taken.
pub fn write_export<W: Write>(
    alloc: Global,
    told: u8,
    export: &Export,
    output: &mut Output<W>,
) -> Result<(), RunFault>
    requires { told ≤ MOST_SERVERS }
    ensures { OnOk result (TakesBytes (account W.contents output.old) (account W.contents output.new) (export_text told export.now)) }
{
    let waiting = Waiting::new(alloc)?;
    write_through(alloc, told, export, output, waiting)
}
