//! The words after `import`: its options, and what they ask for.
ghost use Rattle.std.specs.Prelude.{◌≡◌, IfOk, false};
ghost use Rattle.clap.specs.declared.builder.command.Command.TheViews.{out-Command as fields_of};
ghost use Rattle.clap.specs.Words.{app_of, found_of, rows_of};
ghost use Rattle.bayou_command.specs.Import.{import_app, import_of, import_seen, met_rules, put_rules};
ghost use Rattle.bayou_command.specs.Options.{with_rules};

use crate::connect::count_in;
use crate::importing::Importing;
use crate::options::{
    file_option, number_in, number_option, text_if_given, text_in, texts_in, value_option,
};
use bayou_base::limits::{DEFAULT_TIMEOUT_SECONDS, MAX_SECONDS, SERVERS};
use clap::{Arg, ArgAction, ArgMatches, Command};
use std::alloc::{AllocError, Global};

const IMPORT_ABOUT: &str =
    "Puts the lines of an export into a store, and goes on where it was interrupted.";

const SERVER: &str =
    "A server, and where it listens, as 0=127.0.0.1:7000; once for each, the one that is written to in front";

const COUNT: &str =
    "How many servers the store has (1 to 16; without it one more than the highest that is named)";

const KEY: &str = "The file of the store's key, where the store has one";

const STATE: &str = "The file that keeps how the import was begun; without it FILE.state";

const WAIT: &str =
    "For so many seconds a server that is away is tried again (0 to 86400; without it 0)";

const TIMEOUT: &str =
    "So many seconds a server has for the connection and its whole reply (1 to 86400; without it 3)";

const LINES: &str = "The lines of an export";

const IMPORT_FORM: &str =
    r#"FILE has the lines that bayou export prints: one that says how many keys follow, and each key with its value.

  ["exported",NAME,[V0,V1,..],KEYS]
  ["put",K,V]

They may be spelled in any way that JSON has. All are read before anything is sent: where a line is none of these, or there are more or fewer than the
first one says, that is reported, and nothing is sent. Then each key is set to its value, whatever it has, eight keys a Write, at the first server:

      bayou import day.jsonl --server 0=127.0.0.1:7000

At the end one line is printed, `imported KEYS keys in WRITES writes`. At a terminal it says meanwhile how far it is.

An import that was interrupted goes on as it is called again with the same words. The file --state keeps of which FILE it is, at which server, and a
name under which each of its Writes acts once, however often it is sent. So it is used for no other FILE, for none that was changed, and at no other
server: then that is reported, and nothing is sent. One call at a time has it. To put the lines once more, remove it.

A fault is one line on standard error. Exit status: 0 all is put; 1 the server wasn't reached, its reply was lost or it refused: call it
again; 2 the command line or FILE is refused; 3 a file can't be read, the state is another import's or in use, or memory, a device or the output failed.

Pages: docs/CONNECT.md (how it is used), docs/FORMATS.md (the lines), docs/TROUBLE.md (what to do about each fault)."#;

// The command with the options that say which store it is.
fn with_met<'a>(alloc: Global, command: Command<'a>) -> Result<Command<'a>, AllocError>
    ensures app { IfOk result (λ made. app_of made ≡ with_rules (app_of command.entry) met_rules) }
    ensures local { IfOk result (λ made. (fields_of made).has_globals ≡ (fields_of command.entry).has_globals) }
{
    let server = value_option(alloc, "server", "I=ADDRESS:PORT", SERVER);
    let count = number_option(alloc, "servers", "N", COUNT, 1, SERVERS as u32);
    command
        .arg(server.action(ArgAction::Append).required(true))?
        .arg(count)?
        .arg(file_option(alloc, "key", KEY))
}

// The command with the options that say what is kept and how long it waits, and with the file of the lines.
fn with_put<'a>(alloc: Global, command: Command<'a>) -> Result<Command<'a>, AllocError>
    ensures app { IfOk result (λ made. app_of made ≡ with_rules (app_of command.entry) put_rules) }
    ensures local { IfOk result (λ made. (fields_of made).has_globals ≡ (fields_of command.entry).has_globals) }
{
    command
        .arg(file_option(alloc, "state", STATE))?
        .arg(number_option(alloc, "wait", "SECONDS", WAIT, 0, MAX_SECONDS))?
        .arg(number_option(alloc, "timeout", "SECONDS", TIMEOUT, 1, MAX_SECONDS))?
        .arg(Arg::new(alloc, "FILE").help(LINES).required(true))
}

pub(crate) fn import_command<'a>(alloc: Global) -> Result<Command<'a>, AllocError>
    ensures app { IfOk result (λ command. app_of command ≡ import_app) }
    ensures local { IfOk result (λ command. (fields_of command).has_globals ≡ false) }
{
    let command = Command::new(alloc, "import")
        .about(IMPORT_ABOUT)
        .after_help(IMPORT_FORM);
    let command = with_met(alloc, command)?;
    with_put(alloc, command)
}

/// What the options ask for.
pub(crate) fn importing_in<'a>(
    alloc: Global,
    found: &ArgMatches<'a>,
) -> Result<Importing<'a>, AllocError>
    ensures { IfOk result (λ importing. import_seen importing ≡ import_of (rows_of (found_of found.now))) }
{
    Ok(Importing {
        servers: texts_in(alloc, found, "server")?,
        count: count_in(found),
        key: text_if_given(found, "key"),
        state: text_if_given(found, "state"),
        wait_seconds: number_in(found, "wait", 0, MAX_SECONDS, 0),
        timeout_seconds: number_in(found, "timeout", 1, MAX_SECONDS, DEFAULT_TIMEOUT_SECONDS),
        file: text_in(found, "FILE"),
    })
}
