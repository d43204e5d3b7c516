//! The rows of a server, taken out of its store, from the words to the exit status.
ghost use Rattle.std.specs.Prelude.{◌≡◌, ◌⊎◌, ◌≤◌, ℕ, Err, IfErr, IfOk, List, MatchResult, None, Option, option_map, string_bytes};
ghost use Rattle.bayou_base.specs.declared.limits.TheConstants.{SERVERS as MOST_SERVERS};
ghost use Rattle.bayou_command.specs.Export.{export_seen};
ghost use Rattle.bayou_connect.specs.Listing.{AreListed};
ghost use Rattle.bayou_export.specs.declared.journal.Export.{Export as Told};
ghost use Rattle.bayou_errands.specs.Exports.{IsWanted, PrintsExport, RefusesExport, folder_named, number_named, places_asked};
ghost use Rattle.bayou_errands.specs.Plans.{IsPlanOfPlaces, RefusesConnection};
ghost use Rattle.bayou_tasks.specs.Told.{told_text};
ghost use Rattle.bayou_socket_run.specs.Damage.{journal_name};
ghost use Rattle.bayou_streams.specs.Account.{account};

use crate::connected::{kept_name, kept_plan};
use crate::keyed::{key_fault_line, named_key};
use bayou_base::{Prefix, SERVERS};
use bayou_command::Exporting;
use bayou_connect::{
    ExportedRows, SessionPlan as Places, SessionPlanFault as PlacesFault, take_plan,
};
use bayou_export::{
    Export, ExportPlan, ExportPlanFault, Whose, export_journal, told_counts, write_export,
};
use bayou_net::Sockets;
use bayou_print::RunFault;
use bayou_renew::ReadingFault;
use bayou_streams::Output;
use bayou_tasks::telling::{tell_line, told_line};
use std::alloc::{AllocError, Global};
use std::fs;
use std::fs::File;
use std::io::Write;
use std::random::RandomSource;
use std::sync::Wait;
use std::time::Clock;

/// The rows that are asked for by the words: of which journal, or of which servers, or why the words make no plan.
#[derive(Drop)]
pub struct Extract {
    plan: Result<ExportPlan, ExportPlanFault>,
    /// The file of the journal, where one is read.
    path: String,
    /// Whom to ask, where servers are asked.
    places: Result<Places, PlacesFault>,
    key: Option<String>,
    /// How many servers there are, where that is said.
    count: Option<u8>,
}

/// The exit status where no server told its rows.
const UNTOLD: u8 = 1;

/// The exit status of words that can't be done.
const REFUSED: u8 = 2;

/// The exit status of every other fault.
const FAILED: u8 = 3;

// Whom the words ask, or why they name nobody who can be asked; want of memory is reported at once.
fn places_in(
    alloc: Global,
    exporting: &Exporting<'_>,
) -> Result<Result<Places, PlacesFault>, AllocError>
    ensures { IfOk result (λ places. MatchResult places (IsPlanOfPlaces (places_asked (export_seen exporting.now))) (RefusesConnection (places_asked (export_seen exporting.now)))) }
{
    let plan = Places::new(
        alloc,
        exporting.servers.as_slice(),
        exporting.count,
        None,
        0,
        exporting.timeout_seconds,
    );
    let plan = kept_plan(plan)?;
    Ok(plan)
}

// What the words ask for, but for whom.
fn plan_in(exporting: &Exporting<'_>) -> Result<ExportPlan, ExportPlanFault>
    ensures { MatchResult result (IsWanted (export_seen exporting.now)) (RefusesExport (export_seen exporting.now)) }
{
    ExportPlan::new(
        exporting.servers.as_slice().len(),
        exporting.count,
        exporting.key,
        exporting.folder,
        exporting.id,
        exporting.prefix,
    )
}

// The folder that the words name, where they do.
fn folder_in<'a>(exporting: &Exporting<'a>) -> &'a str
    ensures { result.now ≡ folder_named (export_seen exporting.now) }
{
    match exporting.folder {
        Some(folder) => folder,
        None => "",
    }
}

// The number that the words say, where they do.
fn id_in(exporting: &Exporting<'_>) -> u8
    ensures { result ≡ number_named (export_seen exporting.now) }
{
    match exporting.id {
        Some(id) => id,
        None => 0,
    }
}

// The file of the journal that the words name, where they do.
fn path_in(alloc: Global, exporting: &Exporting<'_>) -> Result<String, AllocError>
    ensures { IfOk result (λ path. string_bytes path ≡ journal_name (folder_named (export_seen exporting.now)) (number_named (export_seen exporting.now))) }
{
    let (folder, id) = (folder_in(exporting), id_in(exporting));
    format!(in alloc; "{folder}/server-{id}.journal")
}

impl Extract {
    /// What the words ask for. What can't be done of them is reported when it is to be done; want of memory alone at once.
    pub fn of(alloc: Global, exporting: &Exporting<'_>) -> Result<Self, AllocError>
        ensures plan { IfOk result (λ extract. MatchResult extract.plan (IsWanted (export_seen exporting.now)) (RefusesExport (export_seen exporting.now))) }
        ensures path { IfOk result (λ extract. string_bytes extract.path ≡ journal_name (folder_named (export_seen exporting.now)) (number_named (export_seen exporting.now))) }
        ensures places { IfOk result (λ extract. MatchResult extract.places (IsPlanOfPlaces (places_asked (export_seen exporting.now))) (RefusesConnection (places_asked (export_seen exporting.now)))) }
        ensures key { IfOk result (λ extract. option_map (λ name. string_bytes name) extract.key ≡ (export_seen exporting.now).key) }
        ensures count { IfOk result (λ extract. extract.count ≡ exporting.now.count) }
    {
        Ok(Extract {
            plan: plan_in(exporting),
            path: path_in(alloc, exporting)?,
            places: places_in(alloc, exporting)?,
            key: kept_name(alloc, exporting.key)?,
            count: exporting.count,
        })
    }
}

// The line that tells why a journal isn't read.
fn journal_line(alloc: Global, path: &str, fault: ReadingFault) -> Result<String, AllocError>
    ensures { IfOk result (λ line. (file : Option (List ℕ)) × (cause : List ℕ) × (string_bytes line ≡ told_text file cause)) }
{
    let cause = fault.to_string(alloc)?;
    let file = match fault {
        ReadingFault::Memory => None,
        _ => Some(path),
    };
    told_line(alloc, file, cause.as_str())
}

// The rows of a journal; or what status the call ends with, after it reports the fault.
fn read_rows<E: Write, T: fs::Files<File = File>>(
    rt: &T,
    alloc: Global,
    path: &str,
    whose: Whose,
    prefix: &Prefix,
    errors: &mut E,
) -> Result<Export, u8>
    ensures { IfErr result (λ status. status ≡ FAILED) }
{
    match export_journal(rt, alloc, path, whose, prefix) {
        Ok(export) => Ok(export),
        Err(fault) => {
            tell_line(errors, journal_line(alloc, path, fault));
            Err(FAILED)
        }
    }
}

// What a server told, as what is printed.
fn export_of(taken: ExportedRows) -> Export
    ensures { (result.server ≡ taken.server) × (result.vector ≡ taken.vector) × (result.rows ≡ taken.rows) }
{
    Export {
        server: taken.server,
        vector: taken.vector,
        rows: taken.rows,
    }
}

// The rows of the first server that gives them all; or what status the call ends with, after it reports why.
fn ask_rows<E, T>(
    rt: &T,
    alloc: Global,
    places: &Places,
    key: Option<&str>,
    prefix: &Prefix,
    errors: &mut E,
) -> Result<Export, u8>
where
    E: Write,
    T: Wait + Clock + RandomSource + fs::Files<File = File> + Sockets,
    ensures rows { IfOk result (λ export. AreListed prefix.now export.rows.items) }
    ensures status { IfErr result (λ status. (status ≡ UNTOLD) ⊎ (status ≡ FAILED)) }
{
    let key = match named_key(rt, alloc, key) {
        Ok(found) => found,
        Err(fault) => {
            tell_line(errors, key_fault_line(alloc, key, fault));
            return Err(FAILED);
        }
    };
    match take_plan(rt, alloc, places, key, prefix, errors) {
        Ok(Ok(taken)) => Ok(export_of(taken)),
        Ok(Err(why)) => {
            tell_line(errors, format!(in alloc; "bayou: {why}\n"));
            Err(UNTOLD)
        }
        Err(fault) => {
            tell_line(errors, format!(in alloc; "bayou: {fault}\n"));
            Err(FAILED)
        }
    }
}

// The rows that the plan asks for.
fn rows_found<E, T>(
    rt: &T,
    alloc: Global,
    plan: &ExportPlan,
    path: &str,
    places: &Result<Places, PlacesFault>,
    key: Option<&str>,
    errors: &mut E,
) -> Result<Export, u8>
where
    E: Write,
    T: Wait + Clock + RandomSource + fs::Files<File = File> + Sockets,
    ensures status { IfErr result (λ status. (status ≡ UNTOLD) ⊎ (status ≡ REFUSED) ⊎ (status ≡ FAILED)) }
    // Of servers that can't be asked no rows are found.
    ensures refused { plan.now.whose ≡ None → IfErr places.now (λ _. result ≡ Err REFUSED) }
    ensures listed { plan.now.whose ≡ None → IfOk result (λ export. AreListed plan.now.prefix export.rows.items) }
{
    if let Some(whose) = plan.whose {
        return read_rows(rt, alloc, path, whose, &plan.prefix, errors);
    }
    match places {
        Ok(places) => ask_rows(rt, alloc, places, key, &plan.prefix, errors),
        Err(fault) => {
            tell_line(errors, format!(in alloc; "bayou: {fault}\n"));
            Err(REFUSED)
        }
    }
}

// How many servers are known of: as many as is said, or as this one's number needs.
fn least_of(count: Option<u8>, export: &Export) -> u8
    ensures { result ≤ MOST_SERVERS }
{
    let least = count.unwrap_or(0).max(export.server.index + 1);
    least.min(SERVERS as u8)
}

// Prints what was found, and gives the exit status.
fn print_found<W: Write, E: Write>(
    alloc: Global,
    count: Option<u8>,
    export: &Export,
    output: &mut Output<W>,
    errors: &mut E,
) -> u8
    ensures status { (result ≡ 0) ⊎ (result ≡ FAILED) }
    ensures made { result ≡ 0 → PrintsExport export.now (account W.contents output.old) (account W.contents output.new) }
{
    let told = told_counts(&export.vector, least_of(count, export));
    match write_export(alloc, told, export, output) {
        Ok(()) => 0,
        Err(RunFault::Memory) => {
            tell_line(errors, Err(AllocError));
            FAILED
        }
        Err(_) => {
            tell_line(errors, told_line(alloc, None, "output"));
            FAILED
        }
    }
}

/// Prints the rows that were asked for, tells a fault, and gives the exit status. Nothing is printed before all rows are there. What a file has, and
/// what a server tells, no clause can say.
pub fn run_exported<W, E, T>(
    rt: &T,
    alloc: Global,
    extract: Extract,
    output: &mut Output<W>,
    errors: E,
) -> u8
where
    W: Write,
    E: Write + Drop,
    T: Wait + Clock + RandomSource + fs::Files<File = File> + Sockets,
    ensures status { (result ≡ 0) ⊎ (result ≡ UNTOLD) ⊎ (result ≡ REFUSED) ⊎ (result ≡ FAILED) }
    // Of words that can't be done nothing is read, asked or printed.
    ensures refused { IfErr extract.plan (λ _. (result ≡ REFUSED) × (output.new ≡ output.old)) }
    ensures unasked { IfOk extract.plan (λ plan. plan.whose ≡ None → IfErr extract.places (λ _. (result ≡ REFUSED) × (output.new ≡ output.old))) }
    ensures untold { result ≡ UNTOLD → output.new ≡ output.old }
    ensures made { result ≡ 0 → (export : Told) × PrintsExport export (account W.contents output.old) (account W.contents output.new) }
{
    let mut errors = errors;
    let Extract {
        plan,
        path,
        places,
        key,
        count,
    } = extract;
    let plan = match plan {
        Ok(plan) => plan,
        Err(fault) => {
            tell_line(&mut errors, format!(in alloc; "bayou: {fault}\n"));
            return REFUSED;
        }
    };
    let found = rows_found(
        rt,
        alloc,
        &plan,
        path.as_str(),
        &places,
        key.as_deref(),
        &mut errors,
    );
    match found {
        Ok(export) => print_found(alloc, count, &export, output, &mut errors),
        Err(status) => status,
    }
}
