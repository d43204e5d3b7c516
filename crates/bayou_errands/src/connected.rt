//! A person at a store, from the words to the exit status.
ghost use Rattle.std.specs.Prelude.{◌≡◌, ◌≢◌, ◌⊎◌, ℕ, IfErr, IfOk, List, MatchResult, None, Ok, Option, false, option_map, string_bytes, true};
ghost use Rattle.bayou_command.specs.Connect.{connection_seen};
ghost use Rattle.bayou_command.specs.Options.{input_seen};
ghost use Rattle.bayou_connect.specs.declared.plan.SessionPlanFault.TheVariants.{OutOfMemory};
ghost use Rattle.bayou_errands.specs.Plans.{IsPlanOfPlaces, RefusesConnection, input_name};
ghost use Rattle.bayou_errands.specs.Told.{lines_status};
ghost use Rattle.bayou_tasks.specs.Told.{told_text};

use crate::keyed::{key_fault_line, named_key};
use crate::logging::{Logged, open_log};
use bayou_command::{Connecting, Source};
use bayou_connect::{
    ConnectFault, Input, LinesEnded, Names, SessionPlan, SessionPlanFault, connect_plan,
};
use bayou_greeting::StoreKey;
use bayou_net::Sockets;
use bayou_streams::Output;
use bayou_tasks::telling::{tell_line, told_line};
use std::alloc::{AllocError, Global};
use std::fs::File;
use std::io::{IsTerminal, Read, Write};
use std::random::RandomSource;
use std::sync::Wait;
use std::sync::atomic::{AtomicBool, Ordering};
use std::time::Clock;
use std::{fs, io};

/// What a person asked for by the words: whom to ask, or why the words make no plan, and the names of files.
#[derive(Drop)]
pub struct Call {
    plan: Result<SessionPlan, SessionPlanFault>,
    key: Option<String>,
    state: Option<String>,
    book: Option<String>,
    log: Option<String>,
    input: Option<String>,
}

/// The fault of a log that can't be opened: nothing was asked then.
const LOG_NOT_OPENED: &str = "it can't be opened";

/// The fault where a call of the log failed.
const LOG_FAILED: &str = "a call of it failed: lines that were printed may be missing there";

/// The exit status where some operation wasn't served.
const UNSERVED: u8 = 1;

/// The exit status of words, or of a line, that can't be done.
const REFUSED: u8 = 2;

/// The exit status of every other fault.
const FAILED: u8 = 3;

/// The name, kept.
pub(crate) fn kept_name(alloc: Global, name: Option<&str>) -> Result<Option<String>, AllocError>
    ensures { IfOk result (λ kept. option_map (λ name. string_bytes name) kept ≡ option_map (λ name. name.now) name.entry) }
{
    match name {
        None => Ok(None),
        Some(name) => Ok(Some(name.to_string(alloc)?)),
    }
}

// The name of the file that is read, if it has one.
fn name_of<'a>(input: Source<'a>) -> Option<&'a str>
    ensures { option_map (λ name. name.now) result ≡ input_name (input_seen input.entry) }
{
    match input {
        Source::Standard => None,
        Source::File(name) => Some(name),
    }
}

/// The plan, or why there is none; but want of memory is reported at once.
pub(crate) fn kept_plan(
    plan: Result<SessionPlan, SessionPlanFault>,
) -> Result<Result<SessionPlan, SessionPlanFault>, AllocError>
    ensures same { IfOk result (λ kept. kept ≡ plan) }
    ensures known { IfOk result (λ kept. IfErr kept (λ fault. fault ≢ OutOfMemory)) }
{
    match plan {
        Err(SessionPlanFault::OutOfMemory) => Err(AllocError),
        plan => Ok(plan),
    }
}

// Whom the words ask, and how rows are printed, or why they name nobody who can be asked.
fn plan_in(alloc: Global, connecting: &Connecting<'_>) -> Result<SessionPlan, SessionPlanFault>
    ensures { MatchResult result (IsPlanOfPlaces (connection_seen connecting.now)) (RefusesConnection (connection_seen connecting.now)) }
{
    let plan = SessionPlan::new(
        alloc,
        connecting.servers.as_slice(),
        connecting.count,
        connecting.asks,
        connecting.wait_seconds,
        connecting.timeout_seconds,
    );
    match plan {
        Ok(plan) => Ok(plan.printing(connecting.is_json)),
        Err(fault) => Err(fault),
    }
}

impl Call {
    /// What the words ask for. What can't be done of them is reported when it is to be done; want of memory alone at once.
    pub fn of(alloc: Global, connecting: &Connecting<'_>) -> Result<Self, AllocError>
        ensures asked { IfOk result (λ call. MatchResult call.plan (IsPlanOfPlaces (connection_seen connecting.now)) (RefusesConnection (connection_seen connecting.now))) }
        ensures known { IfOk result (λ call. IfErr call.plan (λ fault. fault ≢ OutOfMemory)) }
        ensures key { IfOk result (λ call. option_map (λ name. string_bytes name) call.key ≡ (connection_seen connecting.now).key) }
        ensures state { IfOk result (λ call. option_map (λ name. string_bytes name) call.state ≡ (connection_seen connecting.now).state) }
        ensures book { IfOk result (λ call. option_map (λ name. string_bytes name) call.book ≡ (connection_seen connecting.now).book) }
        ensures log { IfOk result (λ call. option_map (λ name. string_bytes name) call.log ≡ (connection_seen connecting.now).log) }
        ensures input { IfOk result (λ call. option_map (λ name. string_bytes name) call.input ≡ input_name (connection_seen connecting.now).input) }
    {
        let key = kept_name(alloc, connecting.key)?;
        let state = kept_name(alloc, connecting.state)?;
        let book = kept_name(alloc, connecting.book)?;
        let log = kept_name(alloc, connecting.log)?;
        let input = kept_name(alloc, name_of(connecting.input))?;
        let plan = kept_plan(plan_in(alloc, connecting))?;
        Ok(Call {
            plan,
            key,
            state,
            book,
            log,
            input,
        })
    }
}

// The line that tells a fault, with the file that is at fault.
fn fault_line(
    alloc: Global,
    names: Names<'_>,
    lines: Option<&str>,
    fault: ConnectFault,
) -> Result<String, AllocError>
    ensures { IfOk result (λ line. (file : Option (List ℕ)) × (cause : List ℕ) × (string_bytes line ≡ told_text file cause)) }
{
    let cause = fault.to_string(alloc)?;
    let file = match (fault.is_of_state(), fault.is_of_book(), fault.is_of_lines()) {
        (true, _, _) => names.state,
        (false, true, _) => names.book,
        (false, false, true) => lines,
        (false, false, false) => None,
    };
    told_line(alloc, file, cause.as_str())
}

// The exit status of lines that ended so.
fn status_of(ended: LinesEnded) -> u8
    ensures { result ≡ lines_status ended }
{
    match ended {
        LinesEnded::Served => 0,
        LinesEnded::Unserved => UNSERVED,
        LinesEnded::Refused => REFUSED,
    }
}

/// Whom lines are for, and the files of a session: those that it is kept in, and the one that its lines are read from, if they come from a file.
#[derive(Drop)]
struct Sitting<'a> {
    plan: &'a SessionPlan,
    key: Option<StoreKey>,
    names: Names<'a>,
    lines: Option<&'a str>,
}

// Does the lines of the sitting's file, or of the input that was handed in.
fn connect_on<I, W, E, T>(
    rt: &T,
    alloc: Global,
    sitting: Sitting<'_>,
    input: Input<I>,
    output: &mut Output<W>,
    errors: &mut E,
) -> Result<LinesEnded, ConnectFault>
where
    I: Read + Drop,
    W: Write,
    E: Write,
    T: Wait + Clock + RandomSource + fs::Files<File = File> + Sockets,
{
    let Sitting {
        plan,
        key,
        names,
        lines,
    } = sitting;
    let Some(name) = lines else {
        return connect_plan(rt, alloc, plan, key, names, input, output, errors);
    };
    let Ok(reader) = File::open(rt, name) else {
        return Err(ConnectFault::LinesNotOpened);
    };
    let is_terminal = reader.is_terminal();
    let file = Input {
        reader,
        is_terminal,
    };
    connect_plan(rt, alloc, plan, key, names, file, output, errors)
}

/// How lines ended that were logged.
#[derive(Drop)]
struct Logging {
    ended: Result<LinesEnded, ConnectFault>,
    /// Whether a call of the log failed, so that a line may be missing there.
    has_failed: bool,
}

// Does the lines as `connect_on` does, and adds each line that is printed to the log, if there is one.
fn connect_logged<I, W, E, T>(
    rt: &T,
    alloc: Global,
    sitting: Sitting<'_>,
    log: Option<File>,
    input: Input<I>,
    output: &mut Output<W>,
    errors: &mut E,
) -> Logging
where
    I: Read + Drop,
    W: Write,
    E: Write,
    T: Wait + Clock + RandomSource + fs::Files<File = File> + Sockets,
{
    let has_failed = AtomicBool::new(false);
    let ended = match log {
        None => connect_on(rt, alloc, sitting, input, output, errors),
        Some(log) => {
            let mut logged = Output::new(Logged::new(alloc, output, log, rt, &has_failed));
            connect_on(rt, alloc, sitting, input, &mut logged, errors)
        }
    };
    let has_failed = has_failed.load(Ordering::SeqCst);
    Logging { ended, has_failed }
}

// The exit status of what was done, after its fault, if it has one, and that of its log are reported.
fn status_told<E: Write>(
    alloc: Global,
    names: Names<'_>,
    lines: Option<&str>,
    log: Option<&str>,
    logging: Logging,
    errors: &mut E,
) -> u8
    ensures fault { IfErr logging.ended (λ _. result ≡ FAILED) }
    ensures log { logging.has_failed ≡ true → result ≡ FAILED }
    ensures ended { logging.has_failed ≡ false → IfOk logging.ended (λ ended. result ≡ lines_status ended) }
{
    if logging.has_failed {
        tell_line(errors, told_line(alloc, log, LOG_FAILED));
    }
    match logging.ended {
        Ok(_) if logging.has_failed => FAILED,
        Ok(ended) => status_of(ended),
        Err(fault) => {
            tell_line(errors, fault_line(alloc, names, lines, fault));
            FAILED
        }
    }
}

// The log of this name, if one is asked for.
fn log_of<T: fs::Files<File = File>>(rt: &T, log: Option<&str>) -> io::Result<Option<File>>
    ensures { log.entry ≡ None → result ≡ Ok None }
{
    match log {
        None => Ok(None),
        Some(path) => Ok(Some(open_log(rt, path)?)),
    }
}

/// Does what was asked for, tells a fault, and gives the exit status.
pub fn run_connected<I, W, E, T>(
    rt: &T,
    alloc: Global,
    call: Call,
    input: Input<I>,
    output: &mut Output<W>,
    errors: E,
) -> u8
where
    I: Read + Drop,
    W: Write,
    E: Write + Drop,
    T: Wait + Clock + RandomSource + fs::Files<File = File> + Sockets,
    ensures status { (result ≡ 0) ⊎ (result ≡ UNSERVED) ⊎ (result ≡ REFUSED) ⊎ (result ≡ FAILED) }
    // Of words that can't be done nothing is asked or printed.
    ensures refused { IfErr call.plan (λ _. (result ≡ REFUSED) × (output.new ≡ output.old)) }
{
    let mut errors = errors;
    let Call {
        plan,
        key: key_path,
        state,
        book,
        log,
        input: name,
    } = call;
    let plan = match plan {
        Ok(plan) => plan,
        Err(fault) => {
            tell_line(&mut errors, format!(in alloc; "bayou: {fault}\n"));
            return REFUSED;
        }
    };
    let key = match named_key(rt, alloc, key_path.as_deref()) {
        Ok(key) => key,
        Err(fault) => {
            let line = key_fault_line(alloc, key_path.as_deref(), fault);
            tell_line(&mut errors, line);
            return FAILED;
        }
    };
    let names = Names {
        state: state.as_deref(),
        book: book.as_deref(),
    };
    let log = log.as_deref();
    let Ok(file) = log_of(rt, log) else {
        tell_line(&mut errors, told_line(alloc, log, LOG_NOT_OPENED));
        return FAILED;
    };
    let lines = name.as_deref();
    let sitting = Sitting {
        plan: &plan,
        key,
        names,
        lines,
    };
    let logging = connect_logged(rt, alloc, sitting, file, input, output, &mut errors);
    status_told(alloc, names, lines, log, logging, &mut errors)
}
