//! The lines of an export, put into a store, from the words to the exit status.
ghost use Rattle.std.specs.Prelude.{◌≡◌, ◌⊎◌, ◌<◌, IfErr, IfOk, IfSome, MatchResult, is_some, length, option_map, string_bytes, true};
ghost use Rattle.bayou_command.specs.Import.{import_seen};
ghost use Rattle.bayou_connect.specs.Importing.{TakesWrites};
ghost use Rattle.bayou_errands.specs.Imports.{PrintsImport, imported_text, places_met, state_named};
ghost use Rattle.bayou_errands.specs.Plans.{IsPlanOfPlaces, RefusesConnection};
ghost use Rattle.bayou_streams.specs.Account.{TakesBytes, account};

use crate::connected::{kept_name, kept_plan};
use crate::keyed::{key_fault_line, named_key};
use bayou_base::{Key, Value};
use bayou_command::Importing;
use bayou_connect::{
    NotPut, Put, ROUNDS_PER_SECOND, ServerPlace, SessionPlan as Places,
    SessionPlanFault as PlacesFault, Target, put_rows,
};
use bayou_device::FileDevice;
use bayou_greeting::StoreKey;
use bayou_import::{LinesFault, kept_run, mark_of, read_export};
use bayou_net::Sockets;
use bayou_print::write_text;
use bayou_streams::Output;
use bayou_tasks::telling::{tell_line, told_line};
use std::alloc::{AllocError, Global};
use std::fs;
use std::fs::File;
use std::io::{Read, Write};
use std::random::RandomSource;
use std::sync::Wait;
use std::time::Clock;

/// The lines that are to be put by the words: which file's, and at whom, or why the words make no plan.
#[derive(Drop)]
pub struct Intake {
    places: Result<Places, PlacesFault>,
    file: String,
    state: String,
    key: Option<String>,
}

/// The exit status where not all was put.
const UNPUT: u8 = 1;

/// The exit status of words, or of a line, that can't be done.
const REFUSED: u8 = 2;

/// The exit status of every other fault.
const FAILED: u8 = 3;

// Whom the words name, or why nobody can be asked; want of memory is reported at once.
fn places_in(
    alloc: Global,
    importing: &Importing<'_>,
) -> Result<Result<Places, PlacesFault>, AllocError>
    ensures { IfOk result (λ places. MatchResult places (IsPlanOfPlaces (places_met (import_seen importing.now))) (RefusesConnection (places_met (import_seen importing.now)))) }
{
    let plan = Places::new(
        alloc,
        importing.servers.as_slice(),
        importing.count,
        None,
        importing.wait_seconds,
        importing.timeout_seconds,
    );
    let plan = kept_plan(plan)?;
    Ok(plan)
}

// The name of the state: the one that is said, else that of the file of the lines with `.state` after it.
fn state_in(alloc: Global, importing: &Importing<'_>) -> Result<String, AllocError>
    ensures { IfOk result (λ state. string_bytes state ≡ state_named (import_seen importing.now)) }
{
    match importing.state {
        Some(state) => state.to_string(alloc),
        None => {
            let file = importing.file;
            format!(in alloc; "{file}.state")
        }
    }
}

impl Intake {
    /// What the words ask for. What can't be done of them is reported when it is to be done; want of memory alone at once.
    pub fn of(alloc: Global, importing: &Importing<'_>) -> Result<Self, AllocError>
        ensures places { IfOk result (λ intake. MatchResult intake.places (IsPlanOfPlaces (places_met (import_seen importing.now))) (RefusesConnection (places_met (import_seen importing.now)))) }
        ensures file { IfOk result (λ intake. string_bytes intake.file ≡ (import_seen importing.now).file) }
        ensures state { IfOk result (λ intake. string_bytes intake.state ≡ state_named (import_seen importing.now)) }
        ensures key { IfOk result (λ intake. option_map (λ name. string_bytes name) intake.key ≡ (import_seen importing.now).key) }
    {
        Ok(Intake {
            places: places_in(alloc, importing)?,
            file: importing.file.to_string(alloc)?,
            state: state_in(alloc, importing)?,
            key: kept_name(alloc, importing.key)?,
        })
    }
}

/// A call that ended before all was put: the line that tells why, and its exit status.
#[derive(Drop)]
struct Stop {
    line: Result<String, AllocError>,
    status: u8,
}

// What is wrong with this file ends the call, or with none.
fn stop_for(alloc: Global, file: Option<&str>, cause: &str, status: u8) -> Stop
    ensures { result.status ≡ status }
{
    Stop {
        line: told_line(alloc, file, cause),
        status,
    }
}

// What a server that isn't reached, or didn't accept a Write, ends the call as.
fn stopped_by(alloc: Global, why: NotPut) -> Stop
    ensures { result.status ≡ UNPUT }
{
    let cause = match why {
        NotPut::Away => "the server wasn't reached; call it again",
        NotPut::Lost => "no reply came; call it again",
        NotPut::Refused(refusal) => {
            let word = refusal.word();
            let line = format!(in alloc; "bayou: the server refused: {word}; call it again\n");
            return Stop {
                line,
                status: UNPUT,
            };
        }
    };
    stop_for(alloc, None, cause, UNPUT)
}

// The bytes of the file of this name.
fn text_of<T: fs::Files<File = File>>(rt: &T, alloc: Global, path: &str) -> Result<String, Stop>
    ensures { IfErr result (λ stop. (stop.status ≡ REFUSED) ⊎ (stop.status ≡ FAILED)) }
{
    let Ok(mut file) = File::open(rt, path) else {
        return Err(stop_for(alloc, Some(path), "it can't be opened and read", FAILED));
    };
    let mut bytes = Vec::new(alloc);
    if file.read_to_end(&mut bytes).is_err() {
        return Err(stop_for(alloc, Some(path), "it can't be opened and read", FAILED));
    }
    match String::from_utf8(bytes) {
        Ok(text) => Ok(text),
        Err(_) => Err(stop_for(alloc, Some(path), "it is no text", REFUSED)),
    }
}

// The rows that the text of this file says.
fn rows_of(alloc: Global, path: &str, text: &str) -> Result<Vec<(Key, Value)>, Stop>
    ensures { IfErr result (λ stop. (stop.status ≡ REFUSED) ⊎ (stop.status ≡ FAILED)) }
{
    match read_export(alloc, text) {
        Ok(rows) => Ok(rows),
        Err(LinesFault::OutOfMemory) => Err(stop_for(alloc, None, "memory", FAILED)),
        Err(fault) => Err(Stop {
            line: format!(in alloc; "bayou: {path}: {fault}; nothing was sent\n"),
            status: REFUSED,
        }),
    }
}

// A run that nobody else has, as far as chance goes.
fn drawn_run<T: RandomSource>(rt: &T) -> Option<u32>
    ensures { IfSome result (λ run. 0 < run) }
{
    let mut bytes = [0; 4];
    if rt.fill_bytes(&mut bytes).is_err() {
        return None;
    }
    Some(u32::from_be_bytes(bytes).max(1))
}

// The run under which the import of this text is begun at this place, and its state, which is locked as long as it is there.
fn run_of<T: fs::Files<File = File> + RandomSource>(
    rt: &T,
    alloc: Global,
    state: &str,
    text: &str,
    place: ServerPlace,
) -> Result<(u32, FileDevice<File>), Stop>
    ensures run { IfOk result (λ kept. 0 < kept.0) }
    ensures status { IfErr result (λ stop. stop.status ≡ FAILED) }
{
    let Ok(mark) = mark_of(alloc, text.as_bytes(), place.id) else {
        return Err(stop_for(alloc, None, "memory", FAILED));
    };
    let Some(drawn) = drawn_run(rt) else {
        return Err(stop_for(alloc, None, "no random number", FAILED));
    };
    let Ok(mut device) = FileDevice::open(rt, state) else {
        return Err(stop_for(
            alloc,
            Some(state),
            "it can't be opened, or another process has it",
            FAILED,
        ));
    };
    match kept_run(alloc, &mut device, &mark, drawn) {
        Ok(run) => Ok((run, device)),
        Err(fault) => Err(Stop {
            line: format!(in alloc; "bayou: {state}: {fault}\n"),
            status: FAILED,
        }),
    }
}

/// What was put: so many keys, as so many Writes.
#[derive(Clone, Copy, Debug)]
struct Imported {
    keys: usize,
    writes: u32,
}

// The key in the file of this name, where there is a name.
fn key_of<T: fs::Files<File = File>>(
    rt: &T,
    alloc: Global,
    path: Option<&str>,
) -> Result<Option<StoreKey>, Stop>
    ensures key { IfOk result (λ key. is_some key ≡ is_some path.entry) }
    ensures status { IfErr result (λ stop. stop.status ≡ FAILED) }
{
    match named_key(rt, alloc, path) {
        Ok(key) => Ok(key),
        Err(fault) => Err(Stop {
            line: key_fault_line(alloc, path, fault),
            status: FAILED,
        }),
    }
}

// Puts the rows at the first of the places, under the run that the state keeps.
fn put_at<E, T>(
    rt: &T,
    alloc: Global,
    target: Target,
    key: Option<StoreKey>,
    rows: &[(Key, Value)],
    is_terminal: bool,
    errors: &mut E,
) -> Result<Imported, Stop>
where
    E: Write,
    T: Wait + Clock + RandomSource + Sockets,
    ensures all { IfOk result (λ imported. (imported.keys ≡ length rows.now) × TakesWrites (length rows.now) imported.writes) }
    ensures status { IfErr result (λ stop. (stop.status ≡ UNPUT) ⊎ (stop.status ≡ FAILED)) }
{
    match put_rows(rt, alloc, target, key, rows, is_terminal, errors) {
        Ok(
            Put {
                writes,
                stopped: None,
            },
        ) => Ok(Imported {
            keys: rows.len(),
            writes,
        }),
        Ok(
            Put {
                stopped: Some(why),
                ..
            },
        ) => Err(stopped_by(alloc, why)),
        Err(fault) => Err(Stop {
            line: format!(in alloc; "bayou: {fault}\n"),
            status: FAILED,
        }),
    }
}

// Puts what the file has: all is read, and the state kept, before anything is sent.
fn import<E, T>(
    rt: &T,
    alloc: Global,
    places: &Places,
    key: Option<&str>,
    file: &str,
    state: &str,
    is_terminal: bool,
    errors: &mut E,
) -> Result<Imported, Stop>
where
    E: Write,
    T: Wait + Clock + RandomSource + fs::Files<File = File> + Sockets,
    ensures all { IfOk result (λ imported. TakesWrites imported.keys imported.writes) }
    ensures status { IfErr result (λ stop. (stop.status ≡ UNPUT) ⊎ (stop.status ≡ REFUSED) ⊎ (stop.status ≡ FAILED)) }
{
    let text = text_of(rt, alloc, file)?;
    let rows = rows_of(alloc, file, text.as_str())?;
    let key = key_of(rt, alloc, key)?;
    let place = places.places[0];
    let (run, held) = run_of(rt, alloc, state, text.as_str(), place)?;
    let target = Target {
        place,
        rounds: u64::from(places.wait_seconds) * ROUNDS_PER_SECOND,
        timeout_seconds: places.timeout_seconds,
        run,
    };
    let imported = put_at(rt, alloc, target, key, rows.as_slice(), is_terminal, errors);
    drop(held);
    imported
}

// Tells what was put.
fn print_imported<W: Write>(
    alloc: Global,
    output: &mut Output<W>,
    imported: Imported,
) -> Result<bool, AllocError>
    ensures { IfOk result (λ is_printed. is_printed ≡ true → TakesBytes (account W.contents output.old) (account W.contents output.new) (imported_text imported.keys imported.writes)) }
{
    let Imported { keys, writes } = imported;
    let line = format!(in alloc; "imported {keys} keys in {writes} writes\n")?;
    Ok(write_text(output, line.as_bytes()).is_ok())
}

/// Puts the lines that were asked for, tells a fault, and gives the exit status. What a file has, and what a server does, no clause can say.
pub fn run_imported<W, E, T>(
    rt: &T,
    alloc: Global,
    intake: Intake,
    is_terminal: bool,
    output: &mut Output<W>,
    errors: E,
) -> u8
where
    W: Write,
    E: Write + Drop,
    T: Wait + Clock + RandomSource + fs::Files<File = File> + Sockets,
    ensures status { (result ≡ 0) ⊎ (result ≡ UNPUT) ⊎ (result ≡ REFUSED) ⊎ (result ≡ FAILED) }
    // Of words that can't be done nothing is sent or printed.
    ensures refused { IfErr intake.places (λ _. (result ≡ REFUSED) × (output.new ≡ output.old)) }
    ensures made { result ≡ 0 → PrintsImport (account W.contents output.old) (account W.contents output.new) }
{
    let mut errors = errors;
    let Intake {
        places,
        file,
        state,
        key,
    } = intake;
    let places = match places {
        Ok(places) => places,
        Err(fault) => {
            tell_line(&mut errors, format!(in alloc; "bayou: {fault}\n"));
            return REFUSED;
        }
    };
    let imported = match import(
        rt,
        alloc,
        &places,
        key.as_deref(),
        file.as_str(),
        state.as_str(),
        is_terminal,
        &mut errors,
    ) {
        Ok(imported) => imported,
        Err(Stop { line, status }) => {
            tell_line(&mut errors, line);
            return status;
        }
    };
    match print_imported(alloc, output, imported) {
        Ok(true) => 0,
        Ok(false) => {
            tell_line(&mut errors, told_line(alloc, None, "output"));
            FAILED
        }
        Err(error) => {
            tell_line(&mut errors, Err(error));
            FAILED
        }
    }
}
