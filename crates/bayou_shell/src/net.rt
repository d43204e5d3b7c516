//! Scripts over sockets, from the input to the exit status.
ghost use Rattle.std.specs.Prelude.{◌≡◌, ◌≤◌, ℕ, IfErr, IfSome, List, Option, Result};
ghost use Rattle.bayou_print.specs.declared.ended.Ended.{Ended};
ghost use Rattle.bayou_print.specs.declared.fault.RunFault.{RunFault};
ghost use Rattle.bayou_print.specs.Fault.{exit_status};
ghost use Rattle.bayou_print.specs.Telling.{TellsEnd};
ghost use Rattle.bayou_print.specs.Turns.{EndsReading, EndsWriting};
ghost use Rattle.bayou_script.specs.Network.{network_order};
ghost use Rattle.bayou_tasks.specs.Faults.{IsReadFault};
ghost use Rattle.bayou_shell.specs.Net.{NetsAs};
ghost use Rattle.bayou_socket_run.specs.Books.{PrintsRun};
ghost use Rattle.bayou_socket_run.specs.Damage.{TellsStart};
ghost use Rattle.bayou_socket_run.specs.Faults.{IsNetFault, KeepsUnstarted};
ghost use Rattle.bayou_streams.specs.Account.{Pays, TakesBytes, account};

use crate::errand::Errand;
use bayou_net::Sockets;
use bayou_print::RunFault;
use bayou_script::NetworkScript;
use bayou_socket_run::run_on_sockets;
use bayou_streams::{CountedChannel, Output};
use bayou_tasks::reading::read_network_script;
use bayou_tasks::telling::finish;
use std::alloc::Global;
use std::fs;
use std::fs::File;
use std::io::{Read, Write};
use std::sync::Wait;
use std::thread::Threads;

/// Reads a script over sockets to its end, or to its least line with a fault. It is to be run with the servers' journals in the folder of this name:
/// no journal is opened before the whole script was read.
pub(crate) fn read_net<R: Read>(
    alloc: Global,
    folder: &str,
    input: &mut CountedChannel<R, ()>,
) -> Result<Errand, RunFault>
    ensures nets { (contents : Option (List ℕ)) → IfSome (R.remaining input.old.reader) (λ text. NetsAs folder.now text result contents contents) }
    ensures fault { IfErr result (IsReadFault network_order (R.remaining input.old.reader)) }
    ensures read { IfErr result (EndsReading input.new.read_failed input.new.turns_left) }
    ensures turns { input.new.turns_left ≤ input.old.turns_left }
{
    let script = read_network_script(alloc, input)?;
    let folder = folder.to_string(alloc)?;
    Ok(Errand::Net { folder, script })
}

/// Runs a script over sockets, reports a fault, and gives the exit status. The damage of a journal, where there is some, is reported before the fault; and
/// before all else that the last entry of a journal was dropped.
pub fn run_net<T, W, E, D>(
    rt: &T,
    alloc: Global,
    folder: &str,
    script: NetworkScript,
    output: &mut Output<W>,
    errors: &mut Output<E>,
    damage: &mut Output<D>,
) -> u8
where
    T: Threads + Wait + fs::Files<File = File> + Sockets + Send + Sync,
    W: Write,
    E: Write,
    D: Write,
    ensures took { (text : List ℕ) × TakesBytes (account W.contents output.old) (account W.contents output.new) text }
    ensures ended { (ended : Result Ended RunFault) × (result ≡ exit_status ended) × TellsEnd ended (account E.contents errors.old) (account E.contents errors.new) errors.new.channel.write_failed
        × IfErr ended IsNetFault
        × KeepsUnstarted ended (account W.contents output.old) (account W.contents output.new)
        × PrintsRun script.servers.count ended (account W.contents output.old) (account W.contents output.new)
        × TellsStart ended folder.now script.servers.count (account D.contents damage.old) (account D.contents damage.new)
        × IfErr ended (EndsWriting output.new.channel.write_failed output.new.channel.turns_left) }
    ensures paid_errors { Pays (account E.contents errors.old) (account E.contents errors.new) 1 }
{
    let ended = run_on_sockets(rt, alloc, folder, script, output, damage);
    finish(errors, ended)
}
