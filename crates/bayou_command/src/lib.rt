//! The command line: from the words that the program is called with to what it is to do.
//!
//! Callers see a [`Task`], or a [`Stop`] with the text to show. The grammar of the words and the texts of refusals and of
//! the usage are `clap`'s; this crate is all that knows of it. It reads nothing but its words, and promises nothing of
//! the texts.
#![tactic(auto)]

ghost use Rattle.std.specs.Prelude.{◌≡◌, ◌∷◌, ◌++◌, [], ℕ, IfOk, List, Some, codes, false, map, true};
ghost use Rattle.clap.specs.declared.builder.command.Command.TheViews.{out-Command as fields_of};
ghost use Rattle.clap.specs.Words.{app_of, found_of, kind_of, rows_of, rule_of, subcommand_rows_of};
ghost use Rattle.bayou_command.specs.Words.{AskFor, Names, a_check, a_connect, a_json_run, a_key, a_net, a_renewal, a_run, a_serve, a_web, an_audit, an_explanation, an_export, an_import, asked_beside, asked_by, asked_named, asked_of_person, bayou_app, faults_of, file, folder_of, folder_rule, input_of, input_seen, main_app, net_app, standard, task_seen};
ghost use Rattle.bayou_command.specs.Rows.{TakesNumbers, audit_words, bare_export, check_words, connect_with, connect_words, explained_audit, export_words, import_with, import_words, key_words, plain_check, plain_connection, plain_import, plain_renewal, plain_service, renew_with, renew_words, serve_with, serve_words, plain_web, web_with, web_words};
ghost use Rattle.bayou_command.specs.Inner.Stops.{StopsAt};

mod audit;
mod auditing;
mod check;
mod checking;
mod connect;
mod connecting;
mod export;
mod exporting;
mod import;
mod importing;
mod key;
mod options;
mod renew;
mod renewing;
mod run;
mod serve;
mod serving;
mod showing;
pub mod web;

use audit::{audit_command, auditing_in};
pub use auditing::Auditing;
use check::{check_command, checking_in};
pub use checking::Checking;
use clap::builder::ValueParser;
use clap::error::ErrorKind;
use clap::{Arg, ArgMatches, Command, Error};
use connect::{connect_command, connecting_in};
pub use connecting::Connecting;
use export::{export_command, exporting_in};
pub use exporting::Exporting;
use import::{import_command, importing_in};
pub use importing::Importing;
use key::key_command;
use options::text_in;
use renew::{renew_command, renewing_in};
pub use renewing::Renewing;
use run::{RUN_FILE, run_command, running_in};
use serve::{serve_command, serving_in};
pub use serving::Serving;
pub use showing::Showing;
use std::alloc::{AllocError, Global};
use std::convert::AsStr;
use web::{showing_in, web_command};

const ABOUT: &str =
    "A replicated store in the manner of Bayou, driven by scripts, and an auditor of what such stores served.";

const EXAMPLE: &str =
    r#"A script is a text of JSON lines. This one starts two servers, opens a session, writes at one server and reads at the other:

  ["servers",2]
  ["session",0,[]]
  ["write",0,0,{"update":[["put","room",1]]}]
  ["read",0,1,"room"]

Put it into a file and call: bayou run FILE
It prints:

  0 wrote 0:1 clock 1 deps 0,0
  0 read room none at 0,0

An audit file is a text of JSON lines too: what sessions were served, and what servers hold. Of what the script did it is

  ["servers",2]
  ["entry",0,1,[],0,"write",1,1,[0,0]]
  ["entry",0,2,[],1,"read","room",[0,0]]
  ["held",0,[0,1,1,[0,0],{"check":[],"merge":[],"update":[["put","room",1]]}]]

which the script's line ["book"] prints. Put it into a file and call: bayou audit FILE
It prints the verdict, and for each session what became of each guarantee, asked for or not:

  clean
  survey 0 ryw broken 1 2 1 0:1 mr ok wfr ok mw ok

The session didn't read its own Write: its read at place 2, at server 1, lacks the Write 0:1 of place 1. It asked for nothing, so
the verdict is clean.

`bayou check FILE` says of a script or an audit file which lines are wrong, where, and what was expected.
`bayou run --help` has each line of a script, `bayou net --help` how a script is run over sockets, with journals in files,
`bayou audit --help` each line of an audit file, `bayou serve --help` how one server is kept at a socket for clients of any kind,
`bayou connect --help` how a person writes and reads at such servers, `bayou web --help` how on a page in a browser,
`bayou key --help` how a store is kept from strangers,
`bayou renew --help` how a store goes on once its log is full, and `bayou export --help` and `bayou import --help` how what a store has
is taken out of it and put into one.
Exit status: 0 nothing is wrong; 1 a verdict is broken; 2 the input or the command line is refused, or a verdict is; 3 memory, a
device, the network, the input or the output failed.
docs/TROUBLE.md says what to do about each fault; examples/ has scripts and audit files to begin from."#;

// The version, and the logic that each function is proved in, as the prover names it.
const VERSION: &str = "0.1.0 (logic dac8208d650f15bf)";

const NET_ABOUT: &str =
    "Runs a script over sockets, with a thread for each session and journals in files.";

const NET_FOLDER: &str = "The folder that the journals are in; it must exist";

const NET_FORM: &str =
    r#"Each server listens on 127.0.0.1, at a port that the system picks, and keeps its journal in the file DIR/server-N.journal, N being its
number. DIR must exist. A journal that isn't there is made; a second run in the same folder goes on from the journals that are there.

The lines are those of bayou run (bayou run --help). What only servers in memory can do is out of place: drop, fuse, lose, restart,
resend, a pull with ITEMS, more than 4 servers. The line ["phase"] ends a phase, and so does the end of the script. In a phase
  first      sessions are opened, as session lines say;
  then       each session does its write, read and again lines in order, all sessions at once, and the pull lines are done in order
             beside them: so a session may come before a pull that stands before its line, or after it. A session keeps one
             connection to each server; an again line opens a new one, which takes the place of the one that it had there;
  when all have ended, the other lines are done in order: log, reopen, totals, judge, survey and book.
What a phase prints comes at its end: the lines of each session, by its number, then those of the pulls, then those of the rest.
A phase that takes longer than a second is reported on standard error, if that is a terminal.

This script has three phases. Two sessions write at two servers that are apart, the servers pull from each other, and both are read.

      ["servers",2]
      ["session",0,["ryw"]]
      ["session",1,[]]
      ["write",0,0,{"update":[["put","a",1]]}]
      ["write",1,1,{"update":[["put","b",2]]}]
      ["phase"]
      ["pull",1,0]
      ["pull",0,1]
      ["phase"]
      ["read",0,1,"a"]
      ["read",1,0,"b"]

Put it into a file and call: mkdir journals; bayou net --dir journals FILE
It prints, where that folder is new:

  0 wrote 0:1 clock 1 deps 0,0
  1 wrote 1:1 clock 1 deps 0,0
  pulled 1 had 0
  pulled 1 had 0
  0 read a num 1 at 1,1
  1 read b num 2 at 1,1
  totals reads 2 writes 2 refusals 0 slips 0
  settled 0 accepted 1 adopted 0
  settled 1 accepted 1 adopted 0
  clean

The last lines stand at the end of each run: what was filed in the book of what was served; for each server how many Writes it accepted
in this run, and how many it adopted as it was reopened; and the verdict (bayou audit --help).

Nothing is run, and no journal is made, before the whole script was read and found good. A fault is one line on standard error. Exit
status: 0 clean; 1 a verdict was broken; 2 the script or the command line is refused, or a verdict or a survey was; 3 memory, a device (a
journal that can't be opened, is another server's or in use by another run), the network, the input or the output failed.

Pages: docs/NET.md (two servers on one machine, their journals, each fault), docs/FORMATS.md (lines in and out), docs/GUARANTEES.md
(what a session may ask for), docs/TROUBLE.md (reopen, and what to do about each fault), examples/net/ (scripts)."#;

/// What the names of scripts and of audit files end with.
const LINES_END: &str = ".jsonl";

/// Where an input comes from.
#[derive(Clone, Copy, Debug, PartialEq, Eq)]
pub enum Source<'a> {
    /// The standard input.
    Standard,
    /// The file of this name.
    File(&'a str),
}

/// What the program is to do.
#[derive(Debug, Drop, PartialEq, Eq)]
pub enum Task<'a> {
    /// To run the script that is there.
    Run(Source<'a>),
    /// To run it, and to print its answers as JSON objects.
    RunAsJson(Source<'a>),
    /// To audit the file that is there.
    Audit(Source<'a>),
    /// To audit it, and to tell more of it.
    Explain(Auditing<'a>),
    /// To run the script that is there over sockets, with the servers' journals in this folder.
    Net { folder: &'a str, script: Source<'a> },
    /// To serve one server of a store.
    Serve(Serving<'a>),
    /// To ask the servers of a store what lines say.
    Connect(Connecting<'a>),
    /// To make the key of a store of this name, in this file. The name may still be one of nothing.
    Key { name: &'a str, file: &'a str },
    /// To make the journal of a new store, of one that goes on no more.
    Renew(Renewing<'a>),
    /// To print the rows of a server.
    Export(Exporting<'a>),
    /// To put lines into a store.
    Import(Importing<'a>),
    /// To show a store on a page.
    Web(Showing<'a>),
    /// To tell every fault of a script or an audit file.
    Check(Checking<'a>),
}

/// Why the words name no task.
#[derive(Debug, Drop)]
pub enum Stop {
    /// They ask for this text: a help, or the version.
    Asked(String),
    /// They are refused with this text.
    Refused(String),
    /// Memory ran out.
    Memory,
}

impl From<AllocError> for Stop {
    ghost use Rattle.std.specs.Prelude.{◌≡◌};
    ghost use Rattle.bayou_command.specs.declared.Stop.TheVariants.{Memory};

    ghost from_gives = { λ _ stop. stop ≡ Memory };

    fn from(_error: AllocError) -> Stop {
        Stop::Memory
    }
}

impl Stop {
    fn of(alloc: Global, error: &Error) -> Stop
        ensures memory { kind_of error.now ≡ ErrorKind.OutOfMemory → result ≡ Stop.Memory }
        ensures kind { StopsAt (kind_of error.now) result }
    {
        if let ErrorKind::OutOfMemory = error.kind() {
            return Stop::Memory;
        }
        match error.to_string(alloc) {
            Ok(text) if error.use_stderr() => Stop::Refused(text),
            Ok(text) => Stop::Asked(text),
            Err(_) => Stop::Memory,
        }
    }
}

pub(crate) fn folder_option<'a>(alloc: Global) -> Arg<'a>
    ensures rule { rule_of result ≡ folder_rule }
    ensures local { result.global ≡ false }
{
    Arg::new(alloc, "DIR")
        .long("dir")
        .help(NET_FOLDER)
        .value_parser(ValueParser::NonEmptyString)
        .required(true)
}

fn net_command<'a>(alloc: Global) -> Result<Command<'a>, AllocError>
    ensures app { IfOk result (λ command. app_of command ≡ net_app) }
    ensures local { IfOk result (λ command. (fields_of command).has_globals ≡ false) }
{
    Command::new(alloc, "net")
        .about(NET_ABOUT)
        .after_help(NET_FORM)
        .arg(folder_option(alloc))?
        .arg(Arg::new(alloc, "FILE").help(RUN_FILE))
}

// The program's command, with none below it.
fn main_command<'a>(alloc: Global) -> Result<Command<'a>, AllocError>
    ensures { IfOk result (λ command. app_of command ≡ main_app) }
{
    let command = Command::new(alloc, "bayou").bin_name("bayou")?;
    let command = command.version(VERSION).about(ABOUT).after_help(EXAMPLE);
    Ok(command.subcommand_required(true))
}

fn bayou_command<'a>(alloc: Global) -> Result<Command<'a>, AllocError>
    ensures { IfOk result (λ command. app_of command ≡ bayou_app) }
{
    main_command(alloc)?
        .subcommand(run_command(alloc)?)?
        .subcommand(net_command(alloc)?)?
        .subcommand(serve_command(alloc)?)?
        .subcommand(connect_command(alloc)?)?
        .subcommand(key_command(alloc)?)?
        .subcommand(renew_command(alloc)?)?
        .subcommand(export_command(alloc)?)?
        .subcommand(import_command(alloc)?)?
        .subcommand(web_command(alloc)?)?
        .subcommand(audit_command(alloc)?)?
        .subcommand(check_command(alloc)?)
}

/// The input that a command names.
pub(crate) fn source_in<'a>(found: &ArgMatches<'a>) -> Source<'a>
    ensures { input_seen result ≡ input_of (rows_of (found_of found.now)) }
{
    let Some(name) = found.get_str("FILE") else {
        return Source::Standard;
    };
    if name == "-" {
        return Source::Standard;
    }
    Source::File(name)
}

/// The folder that a command names. One that asks for it isn't entered without it.
pub(crate) fn folder_in<'a>(found: &ArgMatches<'a>) -> &'a str
    ensures { result.now ≡ folder_of (rows_of (found_of found.now)) }
{
    found.get_str("DIR").unwrap_or("")
}

// What a command asks for that takes a store as a whole, or that is none of the others.
fn task_beside<'a>(
    alloc: Global,
    name: &str,
    found: &ArgMatches<'a>,
) -> Result<Task<'a>, AllocError>
    ensures { IfOk result (λ task. task_seen task ≡ asked_beside name.now (rows_of (found_of found.now))) }
{
    Ok(match name {
        "renew" => Task::Renew(renewing_in(alloc, found)?),
        "export" => Task::Export(exporting_in(alloc, found)?),
        "import" => Task::Import(importing_in(alloc, found)?),
        "check" => Task::Check(checking_in(found)),
        _ => running_in(found),
    })
}

// What a person's command asks for, or one of those beside.
fn task_of_person<'a>(
    alloc: Global,
    name: &str,
    found: &ArgMatches<'a>,
) -> Result<Task<'a>, AllocError>
    ensures { IfOk result (λ task. task_seen task ≡ asked_of_person name.now (rows_of (found_of found.now))) }
{
    Ok(match name {
        "connect" => Task::Connect(connecting_in(alloc, found)?),
        "key" => Task::Key {
            name: text_in(found, "name"),
            file: text_in(found, "FILE"),
        },
        "web" => Task::Web(showing_in(alloc, found)?),
        _ => task_beside(alloc, name, found)?,
    })
}

// What the command of this name asks for.
fn task_named<'a>(alloc: Global, name: &str, found: &ArgMatches<'a>) -> Result<Task<'a>, AllocError>
    ensures { IfOk result (λ task. task_seen task ≡ asked_named name.now (rows_of (found_of found.now))) }
{
    Ok(match name {
        "audit" => auditing_in(found),
        "net" => Task::Net {
            folder: folder_in(found),
            script: source_in(found),
        },
        "serve" => Task::Serve(serving_in(alloc, found)?),
        _ => task_of_person(alloc, name, found)?,
    })
}

/// What is asked for by the command that was entered.
fn task_in<'a>(alloc: Global, matches: &ArgMatches<'a>) -> Result<Task<'a>, AllocError>
    ensures { IfOk result (λ task. task_seen task ≡ asked_by (subcommand_rows_of matches.now)) }
{
    match matches.subcommand() {
        Some((name, found)) => task_named(alloc, name, found),
        None => Ok(Task::Run(Source::Standard)),
    }
}

/// What the words name. The first of them is the program's own name.
pub fn read_words<'a, S: AsStr>(alloc: Global, words: &'a [S]) -> Result<Task<'a>, Stop>
    // Words are taken exactly where they ask for a command and its input, and nothing else; others ask for a text, or are a mistake. Memory
    // may run out.
    ensures { Names (map S.text words.entry.now) result }
{
    match bayou_command(alloc)?.try_get_matches_from(words) {
        Ok(matches) => Ok(task_in(alloc, &matches)?),
        Err(error) => {
            let stop = Stop::of(alloc, &error);
            Err(with_tip(alloc, stop, file_meant(words)))
        }
    }
}

// The name of a file that stands where a command must.
fn file_meant<S: AsStr>(words: &[S]) -> Option<&str> {
    let word = words.get(1)?.as_str();
    if word.ends_with(LINES_END) {
        Some(word)
    } else {
        None
    }
}

// The same, with the command that a file may be meant for, where one stands in place of a command.
fn with_tip(alloc: Global, stop: Stop, file: Option<&str>) -> Stop
    ensures memory { stop ≡ Stop.Memory → result ≡ Stop.Memory }
    ensures kind { (kind : ErrorKind) → StopsAt kind stop → StopsAt kind result }
{
    match (stop, file) {
        (Stop::Refused(text), Some(file)) => {
            match format!(in alloc; "{text}\n  tip: to run a script, call: bayou run {file}\n") {
                Ok(text) => Stop::Refused(text),
                Err(_) => Stop::Memory,
            }
        }
        (stop, _) => stop,
    }
}

/// A law: `bayou run`, `bayou run -` and `bayou run FILE` ask for a run, of the standard input or of the file, and with `--json`, before or after it, for one
/// whose answers are JSON objects; `bayou audit FILE` and `bayou audit -` ask for an audit, and `bayou net --dir D`, with the same words for its input and in any order, for a run over sockets with the
/// journals in the folder D. Without a folder, or with one that has no name, `bayou net` is refused.
/// `bayou serve` with the options that it must have asks for a server that lives: with the numbers that it has without their options, and with
/// each other option as it is given, in any order. Without one of those that it must have, with a number out of its range, with one of them
/// twice or with a word that is no option it is refused.
pub fn commands_are_named()
    ensures run { AskFor (codes "bayou" ∷ codes "run" ∷ []) (a_run standard) }
    ensures run_dash { AskFor (codes "bayou" ∷ codes "run" ∷ codes "-" ∷ []) (a_run standard) }
    ensures run_file { AskFor (codes "bayou" ∷ codes "run" ∷ codes "a.jsonl" ∷ []) (a_run (file (codes "a.jsonl"))) }
    ensures run_json { AskFor (codes "bayou" ∷ codes "run" ∷ codes "--json" ∷ codes "a.jsonl" ∷ []) (a_json_run (file (codes "a.jsonl"))) }
    ensures run_json_turned { AskFor (codes "bayou" ∷ codes "run" ∷ codes "-" ∷ codes "--json" ∷ []) (a_json_run standard) }
    ensures run_json_bare { AskFor (codes "bayou" ∷ codes "run" ∷ codes "--json" ∷ []) (a_json_run standard) }
    ensures run_json_twice { faults_of (codes "bayou" ∷ codes "run" ∷ codes "--json" ∷ codes "--json" ∷ []) ≡ ErrorKind.ArgumentConflict ∷ [] }
    ensures audit { AskFor (codes "bayou" ∷ codes "audit" ∷ codes "a.jsonl" ∷ []) (an_audit (file (codes "a.jsonl"))) }
    ensures audit_dash { AskFor (codes "bayou" ∷ codes "audit" ∷ codes "-" ∷ []) (an_audit standard) }
    ensures net { AskFor (codes "bayou" ∷ codes "net" ∷ codes "--dir" ∷ codes "d" ∷ []) (a_net (codes "d") standard) }
    ensures net_joined { AskFor (codes "bayou" ∷ codes "net" ∷ codes "--dir=d" ∷ []) (a_net (codes "d") standard) }
    ensures net_dash { AskFor (codes "bayou" ∷ codes "net" ∷ codes "--dir" ∷ codes "d" ∷ codes "-" ∷ []) (a_net (codes "d") standard) }
    ensures net_file { AskFor (codes "bayou" ∷ codes "net" ∷ codes "--dir" ∷ codes "d" ∷ codes "a.jsonl" ∷ []) (a_net (codes "d") (file (codes "a.jsonl"))) }
    ensures net_turned { AskFor (codes "bayou" ∷ codes "net" ∷ codes "a.jsonl" ∷ codes "--dir" ∷ codes "d" ∷ []) (a_net (codes "d") (file (codes "a.jsonl"))) }
    ensures net_bare { faults_of (codes "bayou" ∷ codes "net" ∷ []) ≡ ErrorKind.MissingRequiredArgument ∷ [] }
    ensures net_nowhere { faults_of (codes "bayou" ∷ codes "net" ∷ codes "--dir" ∷ [] ∷ []) ≡ ErrorKind.InvalidValue ∷ [] }
    ensures net_json { faults_of (codes "bayou" ∷ codes "net" ∷ codes "--dir" ∷ codes "d" ∷ codes "--json" ∷ []) ≡ ErrorKind.UnknownArgument ∷ [] }
    ensures serve { AskFor (serve_with []) (a_serve plain_service) }
    ensures serve_joined { AskFor (serve_words (codes "--listen=h:1" ∷ codes "--dir=d" ∷ codes "--servers=3" ∷ codes "--id=1" ∷ [])) (a_serve plain_service) }
    ensures serve_peers { AskFor (serve_with (codes "--peer" ∷ codes "0=h:2" ∷ codes "--peer" ∷ codes "2=h:3" ∷ [])) (a_serve (record plain_service { peers = codes "0=h:2" ∷ codes "2=h:3" ∷ [] })) }
    ensures serve_every { AskFor (serve_with (codes "--every" ∷ codes "2" ∷ [])) (a_serve (record plain_service { every_seconds = 2 })) }
    ensures serve_limit { AskFor (serve_with (codes "--limit" ∷ codes "3" ∷ [])) (a_serve (record plain_service { limit = 3 })) }
    ensures serve_connections { AskFor (serve_with (codes "--connections" ∷ codes "4" ∷ [])) (a_serve (record plain_service { connections = 4 })) }
    ensures serve_idle { AskFor (serve_with (codes "--idle" ∷ codes "5" ∷ [])) (a_serve (record plain_service { idle_seconds = 5 })) }
    ensures serve_until_input_ends { AskFor (serve_with (codes "--until-input-ends" ∷ [])) (a_serve (record plain_service { until_input_ends = true })) }
    ensures serve_new { AskFor (serve_with (codes "--new" ∷ [])) (a_serve (record plain_service { is_new = true })) }
    ensures serve_restore { AskFor (serve_with (codes "--restore" ∷ [])) (a_serve (record plain_service { is_restored = true })) }
    ensures serve_without { AskFor (serve_with (codes "--restore" ∷ codes "--without" ∷ codes "0" ∷ codes "--without" ∷ codes "2" ∷ [])) (a_serve (record plain_service { left_out = codes "0" ∷ codes "2" ∷ []; is_restored = true })) }
    ensures serve_anyone { AskFor (serve_with (codes "--anyone" ∷ [])) (a_serve (record plain_service { serves_anyone = true })) }
    ensures serve_whole { AskFor (serve_with (codes "--peer" ∷ codes "0=h:2" ∷ codes "--peer" ∷ codes "2=h:3" ∷ codes "--every" ∷ codes "2" ∷ codes "--limit" ∷ codes "3" ∷ codes "--connections" ∷ codes "4" ∷ codes "--idle" ∷ codes "5" ∷ codes "--until-input-ends" ∷ codes "--new" ∷ codes "--restore" ∷ codes "--anyone" ∷ [])) (a_serve (record plain_service { peers = codes "0=h:2" ∷ codes "2=h:3" ∷ []; every_seconds = 2; limit = 3; connections = 4; idle_seconds = 5; until_input_ends = true; is_new = true; is_restored = true; serves_anyone = true })) }
    ensures serve_turned { AskFor (serve_words (codes "--anyone" ∷ codes "--idle" ∷ codes "5" ∷ codes "--peer" ∷ codes "0=h:2" ∷ codes "--listen" ∷ codes "h:1" ∷ codes "--limit" ∷ codes "3" ∷ codes "--restore" ∷ codes "--id" ∷ codes "1" ∷ codes "--connections" ∷ codes "4" ∷ codes "--peer" ∷ codes "2=h:3" ∷ codes "--dir" ∷ codes "d" ∷ codes "--every" ∷ codes "2" ∷ codes "--until-input-ends" ∷ codes "--servers" ∷ codes "3" ∷ [])) (a_serve (record plain_service { peers = codes "0=h:2" ∷ codes "2=h:3" ∷ []; every_seconds = 2; limit = 3; connections = 4; idle_seconds = 5; until_input_ends = true; is_restored = true; serves_anyone = true })) }
    ensures serve_least { AskFor (serve_words (codes "--id" ∷ codes "0" ∷ codes "--servers" ∷ codes "1" ∷ codes "--dir" ∷ codes "d" ∷ codes "--listen" ∷ codes "h:1" ∷ codes "--every" ∷ codes "1" ∷ codes "--limit" ∷ codes "1" ∷ codes "--connections" ∷ codes "1" ∷ codes "--idle" ∷ codes "1" ∷ [])) (a_serve (record plain_service { id = 0; servers = 1; limit = 1; connections = 1; idle_seconds = 1 })) }
    ensures serve_most { AskFor (serve_words (codes "--id" ∷ codes "15" ∷ codes "--servers" ∷ codes "16" ∷ codes "--dir" ∷ codes "d" ∷ codes "--listen" ∷ codes "h:1" ∷ codes "--every" ∷ codes "86400" ∷ codes "--limit" ∷ codes "65536" ∷ codes "--connections" ∷ codes "4096" ∷ codes "--idle" ∷ codes "86400" ∷ [])) (a_serve (record plain_service { id = 15; servers = 16; every_seconds = 86400; connections = 4096; idle_seconds = 86400 })) }
    ensures serve_key { AskFor (serve_with (codes "--key" ∷ codes "k" ∷ [])) (a_serve (record plain_service { key = Some (codes "k") })) }
    ensures serve_key_unnamed { faults_of (serve_with (codes "--key" ∷ [] ∷ [])) ≡ ErrorKind.InvalidValue ∷ [] }
    ensures serve_key_twice { faults_of (serve_with (codes "--key" ∷ codes "k" ∷ codes "--key" ∷ codes "k" ∷ [])) ≡ ErrorKind.ArgumentConflict ∷ [] }
    ensures serve_bare { faults_of (serve_words []) ≡ ErrorKind.MissingRequiredArgument ∷ [] }
    ensures serve_no_id { faults_of (serve_words (codes "--servers" ∷ codes "3" ∷ codes "--dir" ∷ codes "d" ∷ codes "--listen" ∷ codes "h:1" ∷ [])) ≡ ErrorKind.MissingRequiredArgument ∷ [] }
    ensures serve_no_servers { faults_of (serve_words (codes "--id" ∷ codes "1" ∷ codes "--dir" ∷ codes "d" ∷ codes "--listen" ∷ codes "h:1" ∷ [])) ≡ ErrorKind.MissingRequiredArgument ∷ [] }
    ensures serve_no_dir { faults_of (serve_words (codes "--id" ∷ codes "1" ∷ codes "--servers" ∷ codes "3" ∷ codes "--listen" ∷ codes "h:1" ∷ [])) ≡ ErrorKind.MissingRequiredArgument ∷ [] }
    ensures serve_no_listen { faults_of (serve_words (codes "--id" ∷ codes "1" ∷ codes "--servers" ∷ codes "3" ∷ codes "--dir" ∷ codes "d" ∷ [])) ≡ ErrorKind.MissingRequiredArgument ∷ [] }
    ensures serve_id_above { faults_of (serve_words (codes "--id" ∷ codes "16" ∷ codes "--servers" ∷ codes "3" ∷ codes "--dir" ∷ codes "d" ∷ codes "--listen" ∷ codes "h:1" ∷ [])) ≡ ErrorKind.ValueValidation ∷ [] }
    ensures serve_id_none { faults_of (serve_words (codes "--id" ∷ codes "x" ∷ codes "--servers" ∷ codes "3" ∷ codes "--dir" ∷ codes "d" ∷ codes "--listen" ∷ codes "h:1" ∷ [])) ≡ ErrorKind.ValueValidation ∷ [] }
    ensures serve_servers_below { faults_of (serve_words (codes "--id" ∷ codes "1" ∷ codes "--servers" ∷ codes "0" ∷ codes "--dir" ∷ codes "d" ∷ codes "--listen" ∷ codes "h:1" ∷ [])) ≡ ErrorKind.ValueValidation ∷ [] }
    ensures serve_servers_above { faults_of (serve_words (codes "--id" ∷ codes "1" ∷ codes "--servers" ∷ codes "17" ∷ codes "--dir" ∷ codes "d" ∷ codes "--listen" ∷ codes "h:1" ∷ [])) ≡ ErrorKind.ValueValidation ∷ [] }
    ensures serve_every_below { faults_of (serve_with (codes "--every" ∷ codes "0" ∷ [])) ≡ ErrorKind.ValueValidation ∷ [] }
    ensures serve_every_above { faults_of (serve_with (codes "--every" ∷ codes "86401" ∷ [])) ≡ ErrorKind.ValueValidation ∷ [] }
    ensures serve_limit_below { faults_of (serve_with (codes "--limit" ∷ codes "0" ∷ [])) ≡ ErrorKind.ValueValidation ∷ [] }
    ensures serve_limit_above { faults_of (serve_with (codes "--limit" ∷ codes "65537" ∷ [])) ≡ ErrorKind.ValueValidation ∷ [] }
    ensures serve_connections_below { faults_of (serve_with (codes "--connections" ∷ codes "0" ∷ [])) ≡ ErrorKind.ValueValidation ∷ [] }
    ensures serve_connections_above { faults_of (serve_with (codes "--connections" ∷ codes "4097" ∷ [])) ≡ ErrorKind.ValueValidation ∷ [] }
    ensures serve_idle_below { faults_of (serve_with (codes "--idle" ∷ codes "0" ∷ [])) ≡ ErrorKind.ValueValidation ∷ [] }
    ensures serve_idle_above { faults_of (serve_with (codes "--idle" ∷ codes "86401" ∷ [])) ≡ ErrorKind.ValueValidation ∷ [] }
    ensures serve_nowhere { faults_of (serve_words (codes "--id" ∷ codes "1" ∷ codes "--servers" ∷ codes "3" ∷ codes "--dir" ∷ [] ∷ codes "--listen" ∷ codes "h:1" ∷ [])) ≡ ErrorKind.InvalidValue ∷ [] }
    ensures serve_twice { faults_of (serve_with (codes "--id" ∷ codes "2" ∷ [])) ≡ ErrorKind.ArgumentConflict ∷ [] }
    ensures serve_word { faults_of (serve_with (codes "w" ∷ [])) ≡ ErrorKind.UnknownArgument ∷ [] }
{}

/// A law: whatever stands after `--limit=`, a number from 1 to 65536 in decimal digits is taken as the limit that it is, and any other text is
/// refused. So it is, each in its range, with the other options of `bayou serve` that take numbers.
pub fn numbers_are_taken()
    ensures id { TakesNumbers 0 15 (λ text. serve_words ((codes "--id=" ++ text) ∷ codes "--servers" ∷ codes "3" ∷ codes "--dir" ∷ codes "d" ∷ codes "--listen" ∷ codes "h:1" ∷ [])) (λ number. a_serve (record plain_service { id = number })) }
    ensures servers { TakesNumbers 1 16 (λ text. serve_words ((codes "--servers=" ++ text) ∷ codes "--id" ∷ codes "1" ∷ codes "--dir" ∷ codes "d" ∷ codes "--listen" ∷ codes "h:1" ∷ [])) (λ number. a_serve (record plain_service { servers = number })) }
    ensures every { TakesNumbers 1 86400 (λ text. serve_with ((codes "--every=" ++ text) ∷ [])) (λ number. a_serve (record plain_service { every_seconds = number })) }
    ensures limit { TakesNumbers 1 65536 (λ text. serve_with ((codes "--limit=" ++ text) ∷ [])) (λ number. a_serve (record plain_service { limit = number })) }
    ensures connections { TakesNumbers 1 4096 (λ text. serve_with ((codes "--connections=" ++ text) ∷ [])) (λ number. a_serve (record plain_service { connections = number })) }
    ensures idle { TakesNumbers 1 86400 (λ text. serve_with ((codes "--idle=" ++ text) ∷ [])) (λ number. a_serve (record plain_service { idle_seconds = number })) }
{}

/// A law: whatever stands after `--listen=`, `--dir=`, `--key=` and `--peer=` is taken as it stands, where the name of a folder or a file has a byte, and the
/// peers in their order.
pub fn texts_are_taken()
    ensures listen { (text : List ℕ) → AskFor (serve_words ((codes "--listen=" ++ text) ∷ codes "--id" ∷ codes "1" ∷ codes "--servers" ∷ codes "3" ∷ codes "--dir" ∷ codes "d" ∷ [])) (a_serve (record plain_service { listen = text })) }
    ensures dir { (byte : ℕ) (text : List ℕ) → AskFor (serve_words ((codes "--dir=" ++ byte ∷ text) ∷ codes "--id" ∷ codes "1" ∷ codes "--servers" ∷ codes "3" ∷ codes "--listen" ∷ codes "h:1" ∷ [])) (a_serve (record plain_service { folder = byte ∷ text })) }
    ensures key { (byte : ℕ) (text : List ℕ) → AskFor (serve_with ((codes "--key=" ++ byte ∷ text) ∷ [])) (a_serve (record plain_service { key = Some (byte ∷ text) })) }
    ensures peers { (first second : List ℕ) → AskFor (serve_with ((codes "--peer=" ++ first) ∷ (codes "--peer=" ++ second) ∷ [])) (a_serve (record plain_service { peers = first ∷ second ∷ [] })) }
{}

/// A law: `bayou connect` with one server or more asks for a session at them, with each option as it is given, in any order, and with the lines
/// of the standard input or of the file. Without a server, with a number out of its range, with one of its options but `--server` twice, with a
/// file of no name, with two files or with an option that it doesn't have it is refused.
pub fn connections_are_named()
    ensures plain { AskFor (connect_with []) (a_connect plain_connection) }
    ensures joined { AskFor (connect_words (codes "--server=0=h:1" ∷ [])) (a_connect plain_connection) }
    ensures servers { AskFor (connect_with (codes "--server" ∷ codes "2=h:3" ∷ [])) (a_connect (record plain_connection { servers = codes "0=h:1" ∷ codes "2=h:3" ∷ [] })) }
    ensures count { AskFor (connect_with (codes "--servers" ∷ codes "3" ∷ [])) (a_connect (record plain_connection { count = Some 3 })) }
    ensures asks { AskFor (connect_with (codes "--session" ∷ codes "ryw,mr" ∷ [])) (a_connect (record plain_connection { asks = Some (codes "ryw,mr") })) }
    ensures key { AskFor (connect_with (codes "--key" ∷ codes "k" ∷ [])) (a_connect (record plain_connection { key = Some (codes "k") })) }
    ensures state { AskFor (connect_with (codes "--state" ∷ codes "s" ∷ [])) (a_connect (record plain_connection { state = Some (codes "s") })) }
    ensures book { AskFor (connect_with (codes "--book" ∷ codes "b" ∷ [])) (a_connect (record plain_connection { book = Some (codes "b") })) }
    ensures log { AskFor (connect_with (codes "--log" ∷ codes "l" ∷ [])) (a_connect (record plain_connection { log = Some (codes "l") })) }
    ensures json { AskFor (connect_with (codes "--json" ∷ [])) (a_connect (record plain_connection { is_json = true })) }
    ensures wait { AskFor (connect_with (codes "--wait" ∷ codes "5" ∷ [])) (a_connect (record plain_connection { wait_seconds = 5 })) }
    ensures timeout { AskFor (connect_with (codes "--timeout" ∷ codes "5" ∷ [])) (a_connect (record plain_connection { timeout_seconds = 5 })) }
    ensures named { AskFor (connect_with (codes "a.txt" ∷ [])) (a_connect (record plain_connection { input = file (codes "a.txt") })) }
    ensures dash { AskFor (connect_with (codes "-" ∷ [])) (a_connect plain_connection) }
    ensures whole { AskFor (connect_with (codes "--server" ∷ codes "2=h:3" ∷ codes "--servers" ∷ codes "3" ∷ codes "--session" ∷ codes "ryw,mr" ∷ codes "--state" ∷ codes "s" ∷ codes "--book" ∷ codes "b" ∷ codes "--wait" ∷ codes "5" ∷ codes "--timeout" ∷ codes "9" ∷ codes "a.txt" ∷ [])) (a_connect (record plain_connection { servers = codes "0=h:1" ∷ codes "2=h:3" ∷ []; count = Some 3; asks = Some (codes "ryw,mr"); state = Some (codes "s"); book = Some (codes "b"); wait_seconds = 5; timeout_seconds = 9; input = file (codes "a.txt") })) }
    ensures turned { AskFor (connect_words (codes "a.txt" ∷ codes "--timeout" ∷ codes "9" ∷ codes "--wait" ∷ codes "5" ∷ codes "--server" ∷ codes "0=h:1" ∷ codes "--book" ∷ codes "b" ∷ codes "--state" ∷ codes "s" ∷ codes "--server" ∷ codes "2=h:3" ∷ codes "--session" ∷ codes "ryw,mr" ∷ codes "--servers" ∷ codes "3" ∷ [])) (a_connect (record plain_connection { servers = codes "0=h:1" ∷ codes "2=h:3" ∷ []; count = Some 3; asks = Some (codes "ryw,mr"); state = Some (codes "s"); book = Some (codes "b"); wait_seconds = 5; timeout_seconds = 9; input = file (codes "a.txt") })) }
    ensures least { AskFor (connect_with (codes "--servers" ∷ codes "1" ∷ codes "--wait" ∷ codes "0" ∷ codes "--timeout" ∷ codes "1" ∷ [])) (a_connect (record plain_connection { count = Some 1; timeout_seconds = 1 })) }
    ensures most { AskFor (connect_with (codes "--servers" ∷ codes "16" ∷ codes "--wait" ∷ codes "86400" ∷ codes "--timeout" ∷ codes "86400" ∷ [])) (a_connect (record plain_connection { count = Some 16; wait_seconds = 86400; timeout_seconds = 86400 })) }
    ensures bare { faults_of (connect_words []) ≡ ErrorKind.MissingRequiredArgument ∷ [] }
    ensures no_server { faults_of (connect_words (codes "--servers" ∷ codes "3" ∷ codes "--session" ∷ codes "ryw" ∷ codes "--state" ∷ codes "s" ∷ codes "--book" ∷ codes "b" ∷ codes "--wait" ∷ codes "5" ∷ codes "a.txt" ∷ [])) ≡ ErrorKind.MissingRequiredArgument ∷ [] }
    ensures count_below { faults_of (connect_with (codes "--servers" ∷ codes "0" ∷ [])) ≡ ErrorKind.ValueValidation ∷ [] }
    ensures count_above { faults_of (connect_with (codes "--servers" ∷ codes "17" ∷ [])) ≡ ErrorKind.ValueValidation ∷ [] }
    ensures wait_below { faults_of (connect_with (codes "--wait=-1" ∷ [])) ≡ ErrorKind.ValueValidation ∷ [] }
    ensures wait_above { faults_of (connect_with (codes "--wait" ∷ codes "86401" ∷ [])) ≡ ErrorKind.ValueValidation ∷ [] }
    ensures timeout_below { faults_of (connect_with (codes "--timeout" ∷ codes "0" ∷ [])) ≡ ErrorKind.ValueValidation ∷ [] }
    ensures timeout_above { faults_of (connect_with (codes "--timeout" ∷ codes "86401" ∷ [])) ≡ ErrorKind.ValueValidation ∷ [] }
    ensures key_unnamed { faults_of (connect_with (codes "--key" ∷ [] ∷ [])) ≡ ErrorKind.InvalidValue ∷ [] }
    ensures key_twice { faults_of (connect_with (codes "--key" ∷ codes "k" ∷ codes "--key" ∷ codes "k" ∷ [])) ≡ ErrorKind.ArgumentConflict ∷ [] }
    ensures state_unnamed { faults_of (connect_with (codes "--state" ∷ [] ∷ [])) ≡ ErrorKind.InvalidValue ∷ [] }
    ensures book_unnamed { faults_of (connect_with (codes "--book" ∷ [] ∷ [])) ≡ ErrorKind.InvalidValue ∷ [] }
    ensures log_unnamed { faults_of (connect_with (codes "--log" ∷ [] ∷ [])) ≡ ErrorKind.InvalidValue ∷ [] }
    ensures count_twice { faults_of (connect_with (codes "--servers" ∷ codes "3" ∷ codes "--servers" ∷ codes "3" ∷ [])) ≡ ErrorKind.ArgumentConflict ∷ [] }
    ensures asks_twice { faults_of (connect_with (codes "--session" ∷ codes "ryw" ∷ codes "--session" ∷ codes "ryw" ∷ [])) ≡ ErrorKind.ArgumentConflict ∷ [] }
    ensures state_twice { faults_of (connect_with (codes "--state" ∷ codes "s" ∷ codes "--state" ∷ codes "s" ∷ [])) ≡ ErrorKind.ArgumentConflict ∷ [] }
    ensures book_twice { faults_of (connect_with (codes "--book" ∷ codes "b" ∷ codes "--book" ∷ codes "b" ∷ [])) ≡ ErrorKind.ArgumentConflict ∷ [] }
    ensures log_twice { faults_of (connect_with (codes "--log" ∷ codes "l" ∷ codes "--log" ∷ codes "l" ∷ [])) ≡ ErrorKind.ArgumentConflict ∷ [] }
    ensures json_twice { faults_of (connect_with (codes "--json" ∷ codes "--json" ∷ [])) ≡ ErrorKind.ArgumentConflict ∷ [] }
    ensures wait_twice { faults_of (connect_with (codes "--wait" ∷ codes "5" ∷ codes "--wait" ∷ codes "5" ∷ [])) ≡ ErrorKind.ArgumentConflict ∷ [] }
    ensures timeout_twice { faults_of (connect_with (codes "--timeout" ∷ codes "5" ∷ codes "--timeout" ∷ codes "5" ∷ [])) ≡ ErrorKind.ArgumentConflict ∷ [] }
    ensures two_files { faults_of (connect_with (codes "a.txt" ∷ codes "b.txt" ∷ [])) ≡ ErrorKind.UnknownArgument ∷ [] }
    ensures no_option { faults_of (connect_with (codes "--walk" ∷ [])) ≡ ErrorKind.UnknownArgument ∷ [] }
{}

/// A law: whatever stands after `--servers=`, `--wait=` and `--timeout=` is taken as the number in decimal digits that it is, where that is in
/// its range, and any other text is refused. What stands after `--server=`, `--session=`, `--key=`, `--state=`, `--book=` and `--log=` is taken as it stands, where the name of a
/// file has a byte, and the servers in their order.
pub fn connections_are_taken()
    ensures count { TakesNumbers 1 16 (λ text. connect_with ((codes "--servers=" ++ text) ∷ [])) (λ number. a_connect (record plain_connection { count = Some number })) }
    ensures wait { TakesNumbers 0 86400 (λ text. connect_with ((codes "--wait=" ++ text) ∷ [])) (λ number. a_connect (record plain_connection { wait_seconds = number })) }
    ensures timeout { TakesNumbers 1 86400 (λ text. connect_with ((codes "--timeout=" ++ text) ∷ [])) (λ number. a_connect (record plain_connection { timeout_seconds = number })) }
    ensures servers { (first second : List ℕ) → AskFor (connect_words ((codes "--server=" ++ first) ∷ (codes "--server=" ++ second) ∷ [])) (a_connect (record plain_connection { servers = first ∷ second ∷ [] })) }
    ensures asks { (text : List ℕ) → AskFor (connect_with ((codes "--session=" ++ text) ∷ [])) (a_connect (record plain_connection { asks = Some text })) }
    ensures key { (byte : ℕ) (text : List ℕ) → AskFor (connect_with ((codes "--key=" ++ byte ∷ text) ∷ [])) (a_connect (record plain_connection { key = Some (byte ∷ text) })) }
    ensures state { (byte : ℕ) (text : List ℕ) → AskFor (connect_with ((codes "--state=" ++ byte ∷ text) ∷ [])) (a_connect (record plain_connection { state = Some (byte ∷ text) })) }
    ensures book { (byte : ℕ) (text : List ℕ) → AskFor (connect_with ((codes "--book=" ++ byte ∷ text) ∷ [])) (a_connect (record plain_connection { book = Some (byte ∷ text) })) }
    ensures log { (byte : ℕ) (text : List ℕ) → AskFor (connect_with ((codes "--log=" ++ byte ∷ text) ∷ [])) (a_connect (record plain_connection { log = Some (byte ∷ text) })) }
{}

/// A law: `bayou key` with the name of a store and one file, in any order, asks for a key of that store in that file. Without one of the two, with an option
/// or a file twice, or with a file of no name it is refused. What stands after `--name=`, and the file's name where it has a byte, is taken as it stands.
pub fn keys_are_named()
    ensures plain { AskFor (key_words (codes "f" ∷ codes "--name" ∷ codes "n" ∷ [])) (a_key (codes "n") (codes "f")) }
    ensures turned { AskFor (key_words (codes "--name=n" ∷ codes "f" ∷ [])) (a_key (codes "n") (codes "f")) }
    ensures taken { (text : List ℕ) → AskFor (key_words ((codes "--name=" ++ text) ∷ codes "f" ∷ [])) (a_key text (codes "f")) }
    ensures bare { faults_of (key_words []) ≡ ErrorKind.MissingRequiredArgument ∷ [] }
    ensures no_name { faults_of (key_words (codes "f" ∷ [])) ≡ ErrorKind.MissingRequiredArgument ∷ [] }
    ensures no_file { faults_of (key_words (codes "--name" ∷ codes "n" ∷ [])) ≡ ErrorKind.MissingRequiredArgument ∷ [] }
    ensures file_unnamed { faults_of (key_words (codes "--name" ∷ codes "n" ∷ [] ∷ [])) ≡ ErrorKind.InvalidValue ∷ [] }
    ensures name_twice { faults_of (key_words (codes "--name" ∷ codes "n" ∷ codes "--name" ∷ codes "n" ∷ codes "f" ∷ [])) ≡ ErrorKind.ArgumentConflict ∷ [] }
    ensures two_files { faults_of (key_words (codes "--name" ∷ codes "n" ∷ codes "f" ∷ codes "g" ∷ [])) ≡ ErrorKind.UnknownArgument ∷ [] }
{}

/// A law: `bayou renew` with the options that it must have, in any order, asks for the journal of a new store, with as many servers as the old one has, and
/// with each other option as it is given. Without one of those that it must have, with a number out of its range, with one of them twice, with a folder of no
/// name or with a word that is no option it is refused. What stands after `--at=` and `--without=` is taken as it stands, and the prefixes in their order.
pub fn renewals_are_named()
    ensures plain { AskFor (renew_with []) (a_renewal plain_renewal) }
    ensures turned { AskFor (renew_words (codes "--at=1,2,3" ∷ codes "--to=n" ∷ codes "--dir=d" ∷ codes "--servers=3" ∷ codes "--id=1" ∷ [])) (a_renewal plain_renewal) }
    ensures servers_then { AskFor (renew_with (codes "--servers-then" ∷ codes "4" ∷ [])) (a_renewal (record plain_renewal { servers_then = 4 })) }
    ensures without { AskFor (renew_with (codes "--without" ∷ codes "a/" ∷ codes "--without" ∷ codes "b" ∷ [])) (a_renewal (record plain_renewal { without = codes "a/" ∷ codes "b" ∷ [] })) }
    ensures full { AskFor (renew_with (codes "--full" ∷ [])) (a_renewal (record plain_renewal { is_full = true })) }
    ensures whole { AskFor (renew_with (codes "--full" ∷ codes "--without" ∷ codes "a/" ∷ codes "--servers-then" ∷ codes "2" ∷ [])) (a_renewal (record plain_renewal { servers_then = 2; without = codes "a/" ∷ []; is_full = true })) }
    ensures taken { (text first second : List ℕ) → AskFor (renew_words (codes "--id" ∷ codes "1" ∷ codes "--servers" ∷ codes "3" ∷ codes "--dir" ∷ codes "d" ∷ codes "--to" ∷ codes "n" ∷ (codes "--at=" ++ text) ∷ (codes "--without=" ++ first) ∷ (codes "--without=" ++ second) ∷ [])) (a_renewal (record plain_renewal { at = text; without = first ∷ second ∷ [] })) }
    ensures bare { faults_of (renew_words []) ≡ ErrorKind.MissingRequiredArgument ∷ [] }
    ensures no_id { faults_of (renew_words (codes "--servers" ∷ codes "3" ∷ codes "--dir" ∷ codes "d" ∷ codes "--to" ∷ codes "n" ∷ codes "--at" ∷ codes "1,2,3" ∷ [])) ≡ ErrorKind.MissingRequiredArgument ∷ [] }
    ensures no_servers { faults_of (renew_words (codes "--id" ∷ codes "1" ∷ codes "--dir" ∷ codes "d" ∷ codes "--to" ∷ codes "n" ∷ codes "--at" ∷ codes "1,2,3" ∷ [])) ≡ ErrorKind.MissingRequiredArgument ∷ [] }
    ensures no_dir { faults_of (renew_words (codes "--id" ∷ codes "1" ∷ codes "--servers" ∷ codes "3" ∷ codes "--to" ∷ codes "n" ∷ codes "--at" ∷ codes "1,2,3" ∷ [])) ≡ ErrorKind.MissingRequiredArgument ∷ [] }
    ensures no_to { faults_of (renew_words (codes "--id" ∷ codes "1" ∷ codes "--servers" ∷ codes "3" ∷ codes "--dir" ∷ codes "d" ∷ codes "--at" ∷ codes "1,2,3" ∷ [])) ≡ ErrorKind.MissingRequiredArgument ∷ [] }
    ensures no_at { faults_of (renew_words (codes "--id" ∷ codes "1" ∷ codes "--servers" ∷ codes "3" ∷ codes "--dir" ∷ codes "d" ∷ codes "--to" ∷ codes "n" ∷ [])) ≡ ErrorKind.MissingRequiredArgument ∷ [] }
    ensures then_below { faults_of (renew_with (codes "--servers-then" ∷ codes "0" ∷ [])) ≡ ErrorKind.ValueValidation ∷ [] }
    ensures then_above { faults_of (renew_with (codes "--servers-then" ∷ codes "17" ∷ [])) ≡ ErrorKind.ValueValidation ∷ [] }
    ensures nowhere { faults_of (renew_words (codes "--id" ∷ codes "1" ∷ codes "--servers" ∷ codes "3" ∷ codes "--dir" ∷ codes "d" ∷ codes "--to" ∷ [] ∷ codes "--at" ∷ codes "1,2,3" ∷ [])) ≡ ErrorKind.InvalidValue ∷ [] }
    ensures at_twice { faults_of (renew_with (codes "--at" ∷ codes "1,2,3" ∷ [])) ≡ ErrorKind.ArgumentConflict ∷ [] }
    ensures no_option { faults_of (renew_with (codes "--walk" ∷ [])) ≡ ErrorKind.UnknownArgument ∷ [] }
    ensures word { faults_of (renew_with (codes "more" ∷ [])) ≡ ErrorKind.UnknownArgument ∷ [] }
{}

/// A law: `bayou export` asks for the rows of servers that are named, in the order of the words, or of a server's journal, of those keys that begin so.
/// Words that ask for both, or for neither, are taken as they stand: what is said of them is another's matter. With a number out of its range, with one option
/// twice, with a folder or a key of no name, with two prefixes or with a word that is no option it is refused. What stands after `--server=` is taken as it
/// stands.
pub fn exports_are_named()
    ensures bare { AskFor (export_words []) (an_export bare_export) }
    ensures asked { AskFor (export_words (codes "--server" ∷ codes "s" ∷ [])) (an_export (record bare_export { servers = codes "s" ∷ [] })) }
    ensures read { AskFor (export_words (codes "--dir" ∷ codes "d" ∷ codes "--id" ∷ codes "1" ∷ [])) (an_export (record bare_export { folder = Some (codes "d"); id = Some 1 })) }
    ensures some_asked { AskFor (export_words (codes "p/" ∷ codes "--timeout" ∷ codes "9" ∷ codes "--key" ∷ codes "k" ∷ codes "--servers" ∷ codes "3" ∷ codes "--server" ∷ codes "s" ∷ []))
        (an_export (record bare_export { servers = codes "s" ∷ []; count = Some 3; key = Some (codes "k"); timeout_seconds = 9; prefix = Some (codes "p/") })) }
    ensures some_read { AskFor (export_words (codes "--id" ∷ codes "0" ∷ codes "--servers" ∷ codes "16" ∷ codes "--dir" ∷ codes "d" ∷ codes "p/" ∷ []))
        (an_export (record bare_export { count = Some 16; folder = Some (codes "d"); id = Some 0; prefix = Some (codes "p/") })) }
    ensures taken { (first second : List ℕ) → AskFor (export_words ((codes "--server=" ++ first) ∷ (codes "--server=" ++ second) ∷ [])) (an_export (record bare_export { servers = first ∷ second ∷ [] })) }
    ensures id_above { faults_of (export_words (codes "--id" ∷ codes "16" ∷ [])) ≡ ErrorKind.ValueValidation ∷ [] }
    ensures no_servers { faults_of (export_words (codes "--servers" ∷ codes "0" ∷ [])) ≡ ErrorKind.ValueValidation ∷ [] }
    ensures servers_above { faults_of (export_words (codes "--servers" ∷ codes "17" ∷ [])) ≡ ErrorKind.ValueValidation ∷ [] }
    ensures no_time { faults_of (export_words (codes "--timeout" ∷ codes "0" ∷ [])) ≡ ErrorKind.ValueValidation ∷ [] }
    ensures nowhere { faults_of (export_words (codes "--dir" ∷ [] ∷ [])) ≡ ErrorKind.InvalidValue ∷ [] }
    ensures no_key { faults_of (export_words (codes "--key" ∷ [] ∷ [])) ≡ ErrorKind.InvalidValue ∷ [] }
    ensures dir_twice { faults_of (export_words (codes "--dir" ∷ codes "d" ∷ codes "--dir" ∷ codes "e" ∷ [])) ≡ ErrorKind.ArgumentConflict ∷ [] }
    ensures two_prefixes { faults_of (export_words (codes "p" ∷ codes "q" ∷ [])) ≡ ErrorKind.UnknownArgument ∷ [] }
    ensures no_option { faults_of (export_words (codes "--walk" ∷ [])) ≡ ErrorKind.UnknownArgument ∷ [] }
{}

/// A law: `bayou import` asks for the lines of the file that is named to be put at the servers that are, in the order of the words, and with each other
/// option as it is given. Without a file or a server, with a number out of its range, with one option twice, with a state or a key of no name, with two files
/// or with a word that is no option it is refused. What stands after `--server=` and `--state=` is taken as it stands.
pub fn imports_are_named()
    ensures plain { AskFor (import_with []) (an_import plain_import) }
    ensures turned { AskFor (import_words (codes "--server=s" ∷ codes "f" ∷ [])) (an_import plain_import) }
    ensures whole { AskFor (import_with (codes "--timeout" ∷ codes "9" ∷ codes "--wait" ∷ codes "8" ∷ codes "--state" ∷ codes "t" ∷ codes "--key" ∷ codes "k" ∷ codes "--servers" ∷ codes "3" ∷ []))
        (an_import (record plain_import { count = Some 3; key = Some (codes "k"); state = Some (codes "t"); wait_seconds = 8; timeout_seconds = 9 })) }
    ensures taken { (first second : List ℕ) → AskFor (import_words (codes "f" ∷ (codes "--server=" ++ first) ∷ (codes "--server=" ++ second) ∷ [])) (an_import (record plain_import { servers = first ∷ second ∷ [] })) }
    ensures bare { faults_of (import_words []) ≡ ErrorKind.MissingRequiredArgument ∷ [] }
    ensures no_file { faults_of (import_words (codes "--server" ∷ codes "s" ∷ [])) ≡ ErrorKind.MissingRequiredArgument ∷ [] }
    ensures no_server { faults_of (import_words (codes "f" ∷ [])) ≡ ErrorKind.MissingRequiredArgument ∷ [] }
    ensures servers_above { faults_of (import_with (codes "--servers" ∷ codes "17" ∷ [])) ≡ ErrorKind.ValueValidation ∷ [] }
    ensures no_time { faults_of (import_with (codes "--timeout" ∷ codes "0" ∷ [])) ≡ ErrorKind.ValueValidation ∷ [] }
    ensures no_state { faults_of (import_with (codes "--state" ∷ [] ∷ [])) ≡ ErrorKind.InvalidValue ∷ [] }
    ensures state_twice { faults_of (import_with (codes "--state" ∷ codes "t" ∷ codes "--state" ∷ codes "u" ∷ [])) ≡ ErrorKind.ArgumentConflict ∷ [] }
    ensures two_files { faults_of (import_with (codes "g" ∷ [])) ≡ ErrorKind.UnknownArgument ∷ [] }
    ensures no_option { faults_of (import_with (codes "--walk" ∷ [])) ≡ ErrorKind.UnknownArgument ∷ [] }
{}

/// A law: `bayou web` asks for the page of a session that is kept in the file that is named, at the servers that are, in the order of the words, and with each
/// other option as it is given. Without a server or a state, with a number out of its range, with one option twice, with a state or a key of no name, or with a
/// word that is no option it is refused. What stands after `--server=` and `--name=` is taken as it stands.
pub fn pages_are_named()
    ensures plain { AskFor (web_with []) (a_web plain_web) }
    ensures whole { AskFor (web_with (codes "--timeout" ∷ codes "9" ∷ codes "--listen" ∷ codes "a" ∷ codes "--name" ∷ codes "n" ∷ codes "--key" ∷ codes "k" ∷ codes "--session" ∷ codes "all" ∷ codes "--servers" ∷ codes "3" ∷ []))
        (a_web (record plain_web { count = Some 3; asks = Some (codes "all"); key = Some (codes "k"); name = Some (codes "n"); listen = codes "a"; timeout_seconds = 9 })) }
    ensures taken { (first second : List ℕ) → AskFor (web_words (codes "--state" ∷ codes "t" ∷ (codes "--server=" ++ first) ∷ (codes "--server=" ++ second) ∷ [])) (a_web (record plain_web { servers = first ∷ second ∷ [] })) }
    ensures named { (name : List ℕ) → AskFor (web_with ((codes "--name=" ++ name) ∷ [])) (a_web (record plain_web { name = Some name })) }
    ensures bare { faults_of (web_words []) ≡ ErrorKind.MissingRequiredArgument ∷ [] }
    ensures no_state { faults_of (web_words (codes "--server" ∷ codes "s" ∷ [])) ≡ ErrorKind.MissingRequiredArgument ∷ [] }
    ensures no_server { faults_of (web_words (codes "--state" ∷ codes "t" ∷ [])) ≡ ErrorKind.MissingRequiredArgument ∷ [] }
    ensures servers_above { faults_of (web_with (codes "--servers" ∷ codes "17" ∷ [])) ≡ ErrorKind.ValueValidation ∷ [] }
    ensures no_time { faults_of (web_with (codes "--timeout" ∷ codes "0" ∷ [])) ≡ ErrorKind.ValueValidation ∷ [] }
    ensures no_key { faults_of (web_with (codes "--key" ∷ [] ∷ [])) ≡ ErrorKind.InvalidValue ∷ [] }
    ensures state_twice { faults_of (web_with (codes "--state" ∷ codes "u" ∷ [])) ≡ ErrorKind.ArgumentConflict ∷ [] }
    ensures no_option { faults_of (web_with (codes "--walk" ∷ [])) ≡ ErrorKind.UnknownArgument ∷ [] }
{}

/// A law: `bayou check` with one file, or with `-` for the standard input, asks for every fault of it, with `--json`, before or after it, as lines of JSON. Without
/// a file, with two, or with a word that is no option it is refused.
pub fn checks_are_named()
    ensures plain { AskFor (check_words (codes "f" ∷ [])) (a_check plain_check) }
    ensures dash { AskFor (check_words (codes "-" ∷ [])) (a_check (record plain_check { file = standard })) }
    ensures json { AskFor (check_words (codes "--json" ∷ codes "f" ∷ [])) (a_check (record plain_check { is_json = true })) }
    ensures turned { AskFor (check_words (codes "f" ∷ codes "--json" ∷ [])) (a_check (record plain_check { is_json = true })) }
    ensures bare { faults_of (check_words []) ≡ ErrorKind.MissingRequiredArgument ∷ [] }
    ensures no_file { faults_of (check_words (codes "--json" ∷ [])) ≡ ErrorKind.MissingRequiredArgument ∷ [] }
    ensures two_files { faults_of (check_words (codes "f" ∷ codes "g" ∷ [])) ≡ ErrorKind.UnknownArgument ∷ [] }
    ensures no_option { faults_of (check_words (codes "--walk" ∷ codes "f" ∷ [])) ≡ ErrorKind.UnknownArgument ∷ [] }
{}

/// A law: `bayou audit` with one file, or with `-` for the standard input, and with `--explain`, `--all`, `--json` or `--picture` and a name, in any order, asks for an audit of which
/// that is printed. Without a file, with two, with a picture that has no name, with one of these twice or with a word that is no option it is refused.
pub fn audits_are_named()
    ensures explained { AskFor (audit_words (codes "--explain" ∷ codes "f" ∷ [])) (an_explanation explained_audit) }
    ensures explained_turned { AskFor (audit_words (codes "-" ∷ codes "--explain" ∷ [])) (an_explanation (record explained_audit { file = standard })) }
    ensures all { AskFor (audit_words (codes "--all" ∷ codes "f" ∷ [])) (an_explanation (record explained_audit { is_all = true })) }
    ensures json { AskFor (audit_words (codes "--json" ∷ codes "f" ∷ [])) (an_explanation (record explained_audit { is_explained = false; is_json = true })) }
    ensures json_explained { AskFor (audit_words (codes "f" ∷ codes "--explain" ∷ codes "--json" ∷ [])) (an_explanation (record explained_audit { is_json = true })) }
    ensures picture { AskFor (audit_words (codes "f" ∷ codes "--picture" ∷ codes "p" ∷ [])) (an_explanation (record explained_audit { is_explained = false; picture = Some (codes "p") })) }
    ensures picture_joined { AskFor (audit_words (codes "--picture=p" ∷ codes "f" ∷ codes "--explain" ∷ [])) (an_explanation (record explained_audit { picture = Some (codes "p") })) }
    ensures no_picture { faults_of (audit_words (codes "f" ∷ codes "--picture" ∷ [] ∷ [])) ≡ ErrorKind.InvalidValue ∷ [] }
    ensures two_pictures { faults_of (audit_words (codes "f" ∷ codes "--picture=p" ∷ codes "--picture=q" ∷ [])) ≡ ErrorKind.ArgumentConflict ∷ [] }
    ensures no_file { faults_of (audit_words (codes "--explain" ∷ [])) ≡ ErrorKind.MissingRequiredArgument ∷ [] }
    ensures two_files { faults_of (audit_words (codes "f" ∷ codes "g" ∷ [])) ≡ ErrorKind.UnknownArgument ∷ [] }
    ensures no_option { faults_of (audit_words (codes "--walk" ∷ codes "f" ∷ [])) ≡ ErrorKind.UnknownArgument ∷ [] }
{}
