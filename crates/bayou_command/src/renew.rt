//! The words after `renew`: its options, and what they ask for.
ghost use Rattle.std.specs.Prelude.{◌≡◌, IfOk, false};
ghost use Rattle.clap.specs.declared.builder.command.Command.TheViews.{out-Command as fields_of};
ghost use Rattle.clap.specs.Words.{app_of, found_of, rows_of};
ghost use Rattle.bayou_command.specs.Options.{with_rules};
ghost use Rattle.bayou_command.specs.Renew.{renew_app, renewal_of, renewal_seen, wanted_rules, whose_rules};

use crate::options::{
    flag, flag_in, named_option, number_in, number_option, text_in, texts_in, value_option,
};
use crate::renewing::Renewing;
use crate::{folder_in, folder_option};
use bayou_base::limits::SERVERS;
use clap::{ArgAction, ArgMatches, Command};
use std::alloc::{AllocError, Global};

const RENEW_ABOUT: &str =
    "Makes the journal of a new store, of the database that one server of a full store has.";

const ID: &str = "The server's number (0 to 15), which is below N";

const COUNT: &str = "How many servers the store has (1 to 16)";

const FOLDER: &str = "The folder of its journal, which stays as it is";

const TO: &str = "The folder of the new journal; it must exist";

const AT: &str = "What the server must hold, as 21500,30120,13916";

const THEN: &str = "How many servers the new store has (1 to 16; without it N)";

const WITHOUT: &str = "Leaves out the keys that begin so; once for each";

const FULL: &str = "Takes even more than half of the new store's room";

const RENEW_FORM: &str =
    r#"A store whose log is full goes on as a new one, which begins with what its database has. Server I of a store of N servers has its journal in the
file OLD/server-I.journal, which nobody has open: stop all servers. Of that the file NEW/server-I.journal is made: the same database, key by key, as
Writes of server 0 of a new store, and nothing else. The old folder isn't changed.

All servers must hold the same Writes: wait until each holds the same counts (bayou connect, servers), stop them all, and say the line that each
prints as it ends (log I at V) after --at. Then call this for each server, with the same words but for --id and the folders:

      bayou renew --id 0 --servers 3 --dir old --to new --at 21500,30120,13916
      bayou renew --id 1 --servers 3 --dir old --to new --at 21500,30120,13916
      bayou renew --id 2 --servers 3 --dir old --to new --at 21500,30120,13916

Each prints one line, whose D is the same at all of them:

  renewed I at V keys K writes W digest D     K keys are taken along, as W Writes

A server that holds something else is refused, and what it holds is printed. With --servers-then M the new store has M servers: a server more begins
with serve --new, and a server from M on is left out. Give the new store a key of its own (bayou key): then no server and no client of the old one
meets it by mistake.

The journal is made in a file NEW/server-I.journal.part, which gets its name at the end: so it is there whole, or not at all. Where the call is cut
off, call it again.

A fault is one line on standard error. Exit status: 0 the new journal is there; 2 the command line is refused; 3 a journal is none to
be renewed (it isn't there, is in use, damaged or another server's, or holds something else than --at, or too much), one is there already, or
memory, a device or the output failed.

Pages: docs/SERVE.md (how a store goes on once its log is full), docs/TROUBLE.md (what to do about each fault)."#;

// The command with the options that say whose journal is renewed, and where it goes.
fn with_whose<'a>(alloc: Global, command: Command<'a>) -> Result<Command<'a>, AllocError>
    ensures app { IfOk result (λ made. app_of made ≡ with_rules (app_of command.entry) whose_rules) }
    ensures local { IfOk result (λ made. (fields_of made).has_globals ≡ (fields_of command.entry).has_globals) }
{
    let id = number_option(alloc, "id", "I", ID, 0, SERVERS as u32 - 1);
    let servers = number_option(alloc, "servers", "N", COUNT, 1, SERVERS as u32);
    let to = named_option(alloc, "to", "NEW", TO);
    command
        .arg(id.required(true))?
        .arg(servers.required(true))?
        .arg(folder_option(alloc).help(FOLDER))?
        .arg(to.required(true))
}

// The command with the options that say what is taken along.
fn with_wanted<'a>(alloc: Global, command: Command<'a>) -> Result<Command<'a>, AllocError>
    ensures app { IfOk result (λ made. app_of made ≡ with_rules (app_of command.entry) wanted_rules) }
    ensures local { IfOk result (λ made. (fields_of made).has_globals ≡ (fields_of command.entry).has_globals) }
{
    let at = value_option(alloc, "at", "V0,V1,..", AT);
    let then = number_option(alloc, "servers-then", "M", THEN, 1, SERVERS as u32);
    let without = value_option(alloc, "without", "PREFIX", WITHOUT);
    command
        .arg(at.required(true))?
        .arg(then)?
        .arg(without.action(ArgAction::Append))?
        .arg(flag(alloc, "full", FULL))
}

pub(crate) fn renew_command<'a>(alloc: Global) -> Result<Command<'a>, AllocError>
    ensures app { IfOk result (λ command. app_of command ≡ renew_app) }
    ensures local { IfOk result (λ command. (fields_of command).has_globals ≡ false) }
{
    let command = Command::new(alloc, "renew")
        .about(RENEW_ABOUT)
        .after_help(RENEW_FORM);
    let command = with_whose(alloc, command)?;
    with_wanted(alloc, command)
}

/// What the options ask for.
pub(crate) fn renewing_in<'a>(
    alloc: Global,
    found: &ArgMatches<'a>,
) -> Result<Renewing<'a>, AllocError>
    ensures { IfOk result (λ renewing. renewal_seen renewing ≡ renewal_of (rows_of (found_of found.now))) }
{
    let servers = number_in(found, "servers", 1, SERVERS as u32, 1);
    Ok(Renewing {
        id: number_in(found, "id", 0, SERVERS as u32 - 1, 0) as u8,
        servers: servers as u8,
        servers_then: number_in(found, "servers-then", 1, SERVERS as u32, servers) as u8,
        folder: folder_in(found),
        to: text_in(found, "to"),
        at: text_in(found, "at"),
        without: texts_in(alloc, found, "without")?,
        is_full: flag_in(found, "full"),
    })
}
