//! How faults are reported, and the exit statuses.
ghost use Rattle.std.specs.Prelude.{◌≡◌, IfOk, option_map, string_bytes};
ghost use Rattle.bayou_print.specs.Fault.{exit_status, status_of};
ghost use Rattle.bayou_print.specs.Telling.{TellsEnd, TellsFault};
ghost use Rattle.bayou_tasks.specs.Told.{told_text};
ghost use Rattle.bayou_streams.specs.Account.{Pays, account};

use bayou_print::{Ended, RunFault, write_text};
use bayou_streams::Output;
use std::alloc::{AllocError, Global};
use std::io::Write;

/// Tells a fault, as far as that can be written, and gives the exit status.
pub fn tell<E: Write>(errors: &mut Output<E>, fault: RunFault) -> u8
    ensures status { result ≡ status_of fault }
    ensures told { TellsFault (account E.contents errors.old) (account E.contents errors.new) errors.new.channel.write_failed }
    ensures paid { Pays (account E.contents errors.old) (account E.contents errors.new) 1 }
{
    // Where the fault can't be written, the status still says it.
    let _ = write_text(errors, fault.to_line().as_bytes());
    fault.status()
}

/// Tells how a run ended, where it ended with a fault, and gives the exit status.
pub fn finish<E: Write>(errors: &mut Output<E>, ended: Result<Ended, RunFault>) -> u8
    ensures status { result ≡ exit_status ended }
    ensures told { TellsEnd ended (account E.contents errors.old) (account E.contents errors.new) errors.new.channel.write_failed }
    ensures paid { Pays (account E.contents errors.old) (account E.contents errors.new) 1 }
{
    match ended {
        Ok(ended) => ended.status(),
        Err(fault) => tell(errors, fault),
    }
}

/// Prints the line that was made, or that memory ran out, as far as it can be printed.
pub fn tell_line<E: Write>(errors: &mut E, made: Result<String, AllocError>) {
    let _ = match made {
        Ok(line) => errors.write_all(line.as_bytes()),
        Err(_) => errors.write_all(b"bayou: memory\n"),
    };
}

/// The line that tells the cause, with the file that is at fault, where one is.
pub fn told_line(alloc: Global, file: Option<&str>, cause: &str) -> Result<String, AllocError>
    ensures { IfOk result (λ line. string_bytes line ≡ told_text (option_map (λ name. name.now) file.entry) cause.now) }
{
    match file {
        Some(path) => format!(in alloc; "bayou: {path}: {cause}\n"),
        None => format!(in alloc; "bayou: {cause}\n"),
    }
}
