//! The words after `export`: its options, and what they ask for.
ghost use Rattle.std.specs.Prelude.{◌≡◌, ◌≤◌, ◌<◌, ◌-◌, IfOk, IfSome, codes, false};
ghost use Rattle.clap.specs.declared.builder.command.Command.TheViews.{out-Command as fields_of};
ghost use Rattle.clap.specs.Words.{app_of, found_of, rows_of};
ghost use Rattle.bayou_command.specs.Export.{asked_rules, export_app, export_of, export_seen, read_rules};
ghost use Rattle.bayou_command.specs.Options.{number_given, with_rules};
ghost use Rattle.bayou_base.specs.declared.limits.TheConstants.{SERVERS};

use crate::connect::count_in;
use crate::exporting::Exporting;
use crate::options::{
    file_option, named_option, number_if_given, number_in, number_option, text_if_given, texts_in,
    value_option,
};
use bayou_base::limits::{DEFAULT_TIMEOUT_SECONDS, MAX_SECONDS, SERVERS};
use clap::{Arg, ArgAction, ArgMatches, Command};
use std::alloc::{AllocError, Global};

const EXPORT_ABOUT: &str =
    "Prints each key of a server's database and its value, a line each, as `put` of a script.";

const SERVER: &str =
    "A server, and where it listens, as 0=127.0.0.1:7000; once for each, the one to ask first in front";

const COUNT: &str = "How many servers the store has (1 to 16)";

const KEY: &str = "The file of the store's key, where the store has one";

const TIMEOUT: &str =
    "So many seconds a server has for the connection and its whole reply (1 to 86400; without it 3)";

const FOLDER: &str = "The folder of a journal that no server has, which stays as it is";

const ID: &str = "The number of the server whose journal it is (0 to 15)";

const PREFIX: &str = "What the keys begin with that are printed; without it each key is";

const EXPORT_FORM: &str =
    r#"Each key that has a value is printed with it, in the order of the keys, after a line that says of what they are:

  ["exported","server-I",[V0,V1,..],KEYS]     of server I, which held V0 Writes of server 0, and so on; so many lines follow
  ["put",K,V]                                 K is a key, as "mon/09/blue"; V its value, an integer or a text, as 7 and "kim"

It is of a server that answers, the first of those that are named, or of a journal that no server has:

      bayou export --server 0=127.0.0.1:7000 > day.jsonl
      bayou export --server 0=127.0.0.1:7000 --key store.key mon/ > monday.jsonl
      bayou export --dir data --id 0 > day.jsonl

All lines are of one database: what the server held at one time. Where it takes Writes meanwhile the rows are asked for anew, three times in all;
then nothing is printed, and the call says so. A journal is read as a server opens it, and isn't changed: stop the server first. Values are
tentative ones, too (docs/FINAL.md).

With --servers N as many counts are printed, or as many as are needed where that is more; without it as many as are needed.

A fault is one line on standard error. Exit status: 0 all is printed; 1 no server was reached, or none told all rows of one
database; 2 the command line is refused; 3 a journal is none (it isn't there, is in use, damaged or another server's), the key can't be read, or
memory, a device or the output failed. Where the output failed a part may be printed: the first line says how many lines there should be.

Pages: docs/CONNECT.md (how it is used), docs/FORMATS.md (the lines), docs/TROUBLE.md (backups, and what to do about each fault)."#;

// The command with the options that say which servers are asked.
fn with_asked<'a>(alloc: Global, command: Command<'a>) -> Result<Command<'a>, AllocError>
    ensures app { IfOk result (λ made. app_of made ≡ with_rules (app_of command.entry) asked_rules) }
    ensures local { IfOk result (λ made. (fields_of made).has_globals ≡ (fields_of command.entry).has_globals) }
{
    let server = value_option(alloc, "server", "I=ADDRESS:PORT", SERVER);
    let count = number_option(alloc, "servers", "N", COUNT, 1, SERVERS as u32);
    command
        .arg(server.action(ArgAction::Append))?
        .arg(count)?
        .arg(file_option(alloc, "key", KEY))?
        .arg(number_option(alloc, "timeout", "SECONDS", TIMEOUT, 1, MAX_SECONDS))
}

// The command with the options that say whose journal is read, and with what keys begin with.
fn with_read<'a>(alloc: Global, command: Command<'a>) -> Result<Command<'a>, AllocError>
    ensures app { IfOk result (λ made. app_of made ≡ with_rules (app_of command.entry) read_rules) }
    ensures local { IfOk result (λ made. (fields_of made).has_globals ≡ (fields_of command.entry).has_globals) }
{
    command
        .arg(named_option(alloc, "dir", "DIR", FOLDER))?
        .arg(number_option(alloc, "id", "I", ID, 0, SERVERS as u32 - 1))?
        .arg(Arg::new(alloc, "PREFIX").help(PREFIX))
}

pub(crate) fn export_command<'a>(alloc: Global) -> Result<Command<'a>, AllocError>
    ensures app { IfOk result (λ command. app_of command ≡ export_app) }
    ensures local { IfOk result (λ command. (fields_of command).has_globals ≡ false) }
{
    let command = Command::new(alloc, "export")
        .about(EXPORT_ABOUT)
        .after_help(EXPORT_FORM);
    let command = with_asked(alloc, command)?;
    with_read(alloc, command)
}

/// The server whose journal it is, where that is said.
fn id_in(found: &ArgMatches) -> Option<u8>
    ensures value { result ≡ number_given (codes "id") 0 (SERVERS - 1) (rows_of (found_of found.now)) }
    ensures within { IfSome result (λ number. number < SERVERS) }
{
    let number = number_if_given(found, "id", 0, SERVERS as u32 - 1)?;
    Some(number as u8)
}

/// What the options ask for.
pub(crate) fn exporting_in<'a>(
    alloc: Global,
    found: &ArgMatches<'a>,
) -> Result<Exporting<'a>, AllocError>
    ensures { IfOk result (λ exporting. export_seen exporting ≡ export_of (rows_of (found_of found.now))) }
{
    Ok(Exporting {
        servers: texts_in(alloc, found, "server")?,
        count: count_in(found),
        key: text_if_given(found, "key"),
        timeout_seconds: number_in(found, "timeout", 1, MAX_SECONDS, DEFAULT_TIMEOUT_SECONDS),
        folder: text_if_given(found, "dir"),
        id: id_in(found),
        prefix: text_if_given(found, "PREFIX"),
    })
}
