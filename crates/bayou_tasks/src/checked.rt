//! Every fault of a script or of an audit file, from the words to the exit status.
ghost use Rattle.std.specs.Prelude.{◌≡◌, ◌⊎◌, IfErr, IfOk, IfSome, MatchOption};
ghost use Rattle.bayou_command.specs.Check.{check_seen};
ghost use Rattle.bayou_print.specs.declared.fault.RunFault.TheVariants.{Input, Memory};
ghost use Rattle.bayou_tasks.specs.Checks.{ChecksAs, IsCheckupOf};

use crate::telling::tell;
use bayou_base::limits::READ_BYTES;
use bayou_check::{
    FaultyLine, Report, check_text, summary_json, summary_text, told_json, told_text,
};
use bayou_command::{Checking, Source};
use bayou_print::{RunFault, write_text};
use bayou_streams::{CountedChannel, Output, Turn};
use std::alloc::{AllocError, Global};
use std::fs;
use std::fs::File;
use std::io::{Read, Write};

/// The exit status of a text that is refused.
pub(crate) const REFUSED: u8 = 2;

/// The exit status of every other fault.
pub(crate) const FAILED: u8 = 3;

/// What the standard input is called.
pub(crate) const STANDARD: &str = "-";

/// What is to be checked.
#[derive(Drop)]
pub struct Checkup {
    /// `None` where it is the standard input.
    file: Option<String>,
    /// Whether faults are printed as lines of JSON.
    is_json: bool,
}

impl Checkup {
    /// What the words ask for.
    pub fn of(alloc: Global, checking: &Checking<'_>) -> Result<Self, AllocError>
        ensures { IfOk result (IsCheckupOf (check_seen checking.now)) }
    {
        let file = match checking.file {
            Source::Standard => None,
            Source::File(name) => Some(name.to_string(alloc)?),
        };
        Ok(Checkup {
            file,
            is_json: checking.is_json,
        })
    }
}

/// All that the reader has left.
pub(crate) fn read_whole<R: Read>(
    alloc: Global,
    input: &mut CountedChannel<R, ()>,
) -> Result<Vec<u8>, RunFault>
    ensures whole { IfOk result (λ text. IfSome (R.remaining input.old.reader) (λ all. text.items ≡ all)) }
    ensures fault { IfErr result (λ fault. (fault ≡ Memory) ⊎ (fault ≡ Input)) }
{
    let mut text = Vec::new(alloc);
    let mut piece = [0; READ_BYTES];
    while let Ok(turn) = input.read_turn(&mut piece) {
        match turn {
            Turn::Moved(0) => return Ok(text),
            Turn::Moved(count) => text.extend_from_slice(&piece[..count])?,
            Turn::Interrupted => {}
        }
    }
    Err(RunFault::Input)
}

// Prints the report of a line with a fault.
fn print_told<W: Write>(
    alloc: Global,
    file: &str,
    is_json: bool,
    told: &FaultyLine,
    output: &mut Output<W>,
) -> Result<(), RunFault> {
    let text = if is_json {
        told_json(alloc, file, told)?
    } else {
        told_text(alloc, file, told)?
    };
    write_text(output, text.as_bytes())
}

// Prints the report of a text.
fn print_report<W: Write>(
    alloc: Global,
    file: &str,
    is_json: bool,
    report: &Report,
    output: &mut Output<W>,
) -> Result<(), RunFault> {
    if let Some(told) = &report.least {
        print_told(alloc, file, is_json, told, output)?;
    }
    for told in report.others.as_slice() {
        print_told(alloc, file, is_json, told, output)?;
    }
    let text = if is_json {
        summary_json(alloc, file, report)?
    } else {
        summary_text(alloc, file, report)?
    };
    write_text(output, text.as_bytes())
}

// The exit status of a report.
fn status_of(report: &Report) -> u8
    ensures { MatchOption report.now.least (result ≡ 0) (λ told. result ≡ REFUSED) }
{
    match report.least {
        Some(_) => REFUSED,
        None => 0,
    }
}

/// Reads a text to its end, prints every fault of it, and gives the exit status.
pub fn check_input<R: Read, W: Write>(
    alloc: Global,
    file: &str,
    is_json: bool,
    input: &mut CountedChannel<R, ()>,
    output: &mut Output<W>,
) -> Result<u8, RunFault>
    ensures { IfOk result (λ status. IfSome (R.remaining input.old.reader) (λ text. ChecksAs text status)) }
{
    let text = read_whole(alloc, input)?;
    let report = check_text(alloc, text.as_slice())?;
    print_report(alloc, file, is_json, &report, output)?;
    Ok(status_of(&report))
}

// The same of the file of this name.
fn check_file<T: fs::Files<File = File>, W: Write, E: Write>(
    rt: &T,
    alloc: Global,
    name: &str,
    is_json: bool,
    output: &mut Output<W>,
    errors: &mut Output<E>,
) -> Result<u8, RunFault> {
    match File::open(rt, name) {
        Ok(reader) => {
            let mut input = CountedChannel::new(reader, ());
            check_input(alloc, name, is_json, &mut input, output)
        }
        Err(error) => {
            let line = format!(in alloc; "bayou: input\n  {name}: {error}\n")?;
            let _ = write_text(errors, line.as_bytes());
            Ok(FAILED)
        }
    }
}

/// Prints every fault of the text that is asked for, tells a fault of the call itself, and gives the exit status.
pub fn run_checked<T, R, W, E>(
    rt: &T,
    alloc: Global,
    checkup: &Checkup,
    input: &mut CountedChannel<R, ()>,
    output: &mut Output<W>,
    errors: &mut Output<E>,
) -> u8
where
    T: fs::Files<File = File>,
    R: Read,
    W: Write,
    E: Write,
{
    let is_json = checkup.is_json;
    let ended = match checkup.file.as_deref() {
        Some(name) => check_file(rt, alloc, name, is_json, output, errors),
        None => check_input(alloc, STANDARD, is_json, input, output),
    };
    match ended {
        Ok(status) => status,
        Err(fault) => tell(errors, fault),
    }
}
