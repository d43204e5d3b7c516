//! Inputs that are read to their end, or to their least line with a fault.
ghost use Rattle.std.specs.Prelude.{◌≤◌, IfOk, IfErr, IfSome};
ghost use Rattle.bayou_script.specs.AuditFile.{IsAuditFile, audit_order, evidence_of};
ghost use Rattle.bayou_script.specs.Network.{IsNetworkScript, RunsOverNetwork, network_order};
ghost use Rattle.bayou_script.specs.Order.{lines_of};
ghost use Rattle.bayou_script.specs.Plan.{network_plan_of, plan_of};
ghost use Rattle.bayou_script.specs.Script.{IsScript, script_order};
ghost use Rattle.bayou_tasks.specs.Faults.{IsReadFault};
ghost use Rattle.bayou_print.specs.Turns.{EndsReading};

use bayou_base::limits::READ_BYTES;
use bayou_print::RunFault;
use bayou_script::{
    AuditDraft, AuditFile, Draft, Front, NetworkDraft, NetworkScript, Script, TextReader,
};
use bayou_streams::{CountedChannel, Turn};
use std::alloc::Global;
use std::io::Read;

/// What the text says that the reader has left, of which no more is kept than that. Nothing is read after a piece with its least
/// line with a fault. It ends with `Input` only where a call of the reader failed or no turn is left.
fn read_text<F: Front, R: Read>(
    alloc: Global,
    input: &mut CountedChannel<R, ()>,
) -> Result<F::Text, RunFault>
    ensures text { IfOk result (λ said. IfSome (R.remaining input.old.reader) (λ text. F.says (lines_of text) said)) }
    ensures told { IfOk result F.tells }
    ensures fault { IfErr result (IsReadFault F.order (R.remaining input.old.reader)) }
    ensures ended { IfErr result (EndsReading input.new.read_failed input.new.turns_left) }
    ensures turns { input.new.turns_left ≤ input.old.turns_left }
{
    let mut text = TextReader::<F>::new(alloc);
    let mut piece = [0; READ_BYTES];
    while let Ok(turn) = input.read_turn(&mut piece) {
        match turn {
            Turn::Moved(0) => return Ok(text.finish(alloc)?),
            Turn::Moved(count) => text.feed(alloc, &piece[..count])?,
            Turn::Interrupted => {}
        }
    }
    Err(RunFault::Input)
}

/// The script that the reader has left.
pub fn read_script<R: Read>(
    alloc: Global,
    input: &mut CountedChannel<R, ()>,
) -> Result<Script, RunFault>
    ensures script { IfOk result (λ script. IfSome (R.remaining input.old.reader) (λ text. IsScript (lines_of text) (plan_of script))) }
    ensures fault { IfErr result (IsReadFault script_order (R.remaining input.old.reader)) }
    ensures ended { IfErr result (EndsReading input.new.read_failed input.new.turns_left) }
    ensures turns { input.new.turns_left ≤ input.old.turns_left }
{
    read_text::<Draft, R>(alloc, input)
}

/// The script over a network that the reader has left.
pub fn read_network_script<R: Read>(
    alloc: Global,
    input: &mut CountedChannel<R, ()>,
) -> Result<NetworkScript, RunFault>
    ensures script { IfOk result (λ script. IfSome (R.remaining input.old.reader) (λ text. IsNetworkScript (lines_of text) (network_plan_of script))) }
    ensures runs { IfOk result (λ script. RunsOverNetwork (network_plan_of script)) }
    ensures fault { IfErr result (IsReadFault network_order (R.remaining input.old.reader)) }
    ensures ended { IfErr result (EndsReading input.new.read_failed input.new.turns_left) }
    ensures turns { input.new.turns_left ≤ input.old.turns_left }
{
    read_text::<NetworkDraft, R>(alloc, input)
}

/// The audit file that the reader has left.
pub fn read_audit<R: Read>(
    alloc: Global,
    input: &mut CountedChannel<R, ()>,
) -> Result<AuditFile, RunFault>
    ensures file { IfOk result (λ file. IfSome (R.remaining input.old.reader) (λ text. IsAuditFile (lines_of text) (evidence_of file))) }
    ensures fault { IfErr result (IsReadFault audit_order (R.remaining input.old.reader)) }
    ensures ended { IfErr result (EndsReading input.new.read_failed input.new.turns_left) }
    ensures turns { input.new.turns_left ≤ input.old.turns_left }
{
    read_text::<AuditDraft, R>(alloc, input)
}
