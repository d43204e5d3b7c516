//! The words after `serve`: its options, and what they ask for.
ghost use Rattle.std.specs.Prelude.{◌≡◌, IfOk, false};
ghost use Rattle.clap.specs.declared.builder.command.Command.TheViews.{out-Command as fields_of};
ghost use Rattle.clap.specs.Words.{app_of, found_of, rows_of};
ghost use Rattle.bayou_command.specs.Options.{with_rules};
ghost use Rattle.bayou_command.specs.Serve.{choice_rules, flag_rules, needed_rules, serve_app, service_of, service_seen};

use crate::options::{
    file_option, flag, flag_in, number_in, number_option, text_if_given, text_in, texts_in,
    value_option,
};
use crate::serving::Serving;
use crate::{folder_in, folder_option};
use bayou_base::limits::{
    DEFAULT_CONNECTIONS, DEFAULT_EVERY_SECONDS, DEFAULT_IDLE_SECONDS, MAX_CONNECTIONS, MAX_SECONDS,
    MAX_WRITES, SERVERS,
};
use clap::{ArgAction, ArgMatches, Command};
use std::alloc::{AllocError, Global};

const SERVE_ABOUT: &str =
    "Serves one server of a store at a socket, with its journal in a file, until it is killed.";

const ID: &str = "The server's number (0 to 15), which is below N";

const COUNT: &str = "How many servers the store has (1 to 16)";

const FOLDER: &str = "The folder that its journal is in; it must exist";

const LISTEN: &str = "Where it listens, as 127.0.0.1:7000";

const PEER: &str = "A server that it pulls from, and where that listens; once for each";

const KEY: &str = "The file of the store's key: who hasn't got it can't ask anything";

const EVERY: &str = "After so many seconds it pulls again (1 to 86400; without it 1)";

const LIMIT: &str = "How many Writes it holds at the most (1 to 65536; without it 65536)";

const CONNECTIONS: &str =
    "How many connections it serves at once at the most (1 to 4096; without it 64)";

const IDLE: &str =
    "After so many seconds it closes a connection that asks nothing (1 to 86400; without it 60)";

const UNTIL: &str = "Ends where the standard input ends";

const NEW: &str = "Makes the journal, for a server that is new";

const RESTORE: &str =
    "Makes the journal again, of what all others have, for a server that has lost it";

const WITHOUT: &str =
    "With --restore: goes on without this server, and what was told as final may change";

const ANYONE: &str = "Listens at an address that other machines reach, too";

const SERVE_FORM: &str =
    r#"Server I of a store of N servers answers clients at ADDRESS:PORT, and pulls from each peer what it lacks. It keeps its journal in the file
DIR/server-I.journal. DIR must exist. --new makes the journal, so give it the first time alone: without it a journal that isn't there is a
fault, since a wrong DIR would else be a store that has lost everything.

--restore takes the place of --new for a server whose journal is lost: it makes the journal again, of all that every other server has, before it
serves. What none of them has is lost, and its names are given to other Writes. Where one of them is away nothing is restored: bring it up, or put
--without I in the place of its --peer (docs/TROUBLE.md).

Three servers on one machine, each in a terminal of its own:

      mkdir store
      bayou serve --new --id 0 --servers 3 --dir store --listen 127.0.0.1:7000 --peer 1=127.0.0.1:7001 --peer 2=127.0.0.1:7002
      bayou serve --new --id 1 --servers 3 --dir store --listen 127.0.0.1:7001 --peer 0=127.0.0.1:7000 --peer 2=127.0.0.1:7002
      bayou serve --new --id 2 --servers 3 --dir store --listen 127.0.0.1:7002 --peer 0=127.0.0.1:7000 --peer 1=127.0.0.1:7001

It prints one line, when it can be asked:

  serving I at ADDRESS:PORT holds V     V counts, for each server, how many of its Writes are held

With --until-input-ends it ends where the standard input does, and then prints two more:

  settled I accepted A adopted D        it accepted A Writes in this run, and adopted D as it was reopened
  log I at V                            what it holds now

On standard error it tells, in a line each: that a peer is away, that it is reached again, and what was pulled from it; that a torn entry at
the end of the journal was dropped; that it holds 90, 95 and 99 % of its limit.

Without --key the store is open: who reaches the port reads and writes what he likes. With the key of the store (bayou key --help) nobody else can
ask anything, and no other server is pulled from. The first start with a key makes DIR/server-I.store, and from then on the journal is served
with that key alone. There are no ciphers, so an address other than this machine's own (127.0.0.1, loopback) is refused without --anyone. From
another machine, reach it over `ssh -L 7000:127.0.0.1:7000 HOST`.

A signal, as of Ctrl-C or kill, is a clean end: each Write is synced before anybody hears of it. The next start goes on from the journal.

A fault is one line on standard error. Exit status: 0 the standard input ended, with --until-input-ends; 2 the command line
is refused; 3 a device, the journal (it isn't there, is another server's, or is in use), memory, the port or the output failed.

Pages: docs/SERVE.md (a store that lives, day by day), docs/PROTOCOL.md (what clients ask and are answered), docs/TROUBLE.md (what a
journal keeps)."#;

// The command with the options that must be there.
fn with_needed<'a>(alloc: Global, command: Command<'a>) -> Result<Command<'a>, AllocError>
    ensures app { IfOk result (λ made. app_of made ≡ with_rules (app_of command.entry) needed_rules) }
    ensures local { IfOk result (λ made. (fields_of made).has_globals ≡ (fields_of command.entry).has_globals) }
{
    let id = number_option(alloc, "id", "I", ID, 0, SERVERS as u32 - 1);
    let servers = number_option(alloc, "servers", "N", COUNT, 1, SERVERS as u32);
    let listen = value_option(alloc, "listen", "ADDRESS:PORT", LISTEN);
    command
        .arg(id.required(true))?
        .arg(servers.required(true))?
        .arg(folder_option(alloc).help(FOLDER))?
        .arg(listen.required(true))
}

// The command with the options that may be there.
fn with_choices<'a>(alloc: Global, command: Command<'a>) -> Result<Command<'a>, AllocError>
    ensures app { IfOk result (λ made. app_of made ≡ with_rules (app_of command.entry) choice_rules) }
    ensures local { IfOk result (λ made. (fields_of made).has_globals ≡ (fields_of command.entry).has_globals) }
{
    let peer = value_option(alloc, "peer", "I=ADDRESS:PORT", PEER);
    let without = value_option(alloc, "without", "I", WITHOUT);
    let every = number_option(alloc, "every", "SECONDS", EVERY, 1, MAX_SECONDS);
    let limit = number_option(alloc, "limit", "L", LIMIT, 1, MAX_WRITES);
    let connections = number_option(alloc, "connections", "C", CONNECTIONS, 1, MAX_CONNECTIONS);
    let idle = number_option(alloc, "idle", "SECONDS", IDLE, 1, MAX_SECONDS);
    command
        .arg(peer.action(ArgAction::Append))?
        .arg(every)?
        .arg(limit)?
        .arg(connections)?
        .arg(idle)?
        .arg(file_option(alloc, "key", KEY))?
        .arg(without.action(ArgAction::Append))
}

// The command with its flags.
fn with_flags<'a>(alloc: Global, command: Command<'a>) -> Result<Command<'a>, AllocError>
    ensures app { IfOk result (λ made. app_of made ≡ with_rules (app_of command.entry) flag_rules) }
    ensures local { IfOk result (λ made. (fields_of made).has_globals ≡ (fields_of command.entry).has_globals) }
{
    command
        .arg(flag(alloc, "until-input-ends", UNTIL))?
        .arg(flag(alloc, "new", NEW))?
        .arg(flag(alloc, "restore", RESTORE))?
        .arg(flag(alloc, "anyone", ANYONE))
}

pub(crate) fn serve_command<'a>(alloc: Global) -> Result<Command<'a>, AllocError>
    ensures app { IfOk result (λ command. app_of command ≡ serve_app) }
    ensures local { IfOk result (λ command. (fields_of command).has_globals ≡ false) }
{
    let command = Command::new(alloc, "serve")
        .about(SERVE_ABOUT)
        .after_help(SERVE_FORM);
    let command = with_needed(alloc, command)?;
    let command = with_choices(alloc, command)?;
    with_flags(alloc, command)
}

/// What the options ask for.
pub(crate) fn serving_in<'a>(
    alloc: Global,
    found: &ArgMatches<'a>,
) -> Result<Serving<'a>, AllocError>
    ensures { IfOk result (λ serving. service_seen serving ≡ service_of (rows_of (found_of found.now))) }
{
    let every = number_in(found, "every", 1, MAX_SECONDS, DEFAULT_EVERY_SECONDS);
    let connections = number_in(
        found,
        "connections",
        1,
        MAX_CONNECTIONS,
        DEFAULT_CONNECTIONS,
    );
    Ok(Serving {
        id: number_in(found, "id", 0, SERVERS as u32 - 1, 0) as u8,
        servers: number_in(found, "servers", 1, SERVERS as u32, 1) as u8,
        folder: folder_in(found),
        listen: text_in(found, "listen"),
        peers: texts_in(alloc, found, "peer")?,
        left_out: texts_in(alloc, found, "without")?,
        key: text_if_given(found, "key"),
        every_seconds: every,
        limit: number_in(found, "limit", 1, MAX_WRITES, MAX_WRITES),
        connections,
        idle_seconds: number_in(found, "idle", 1, MAX_SECONDS, DEFAULT_IDLE_SECONDS),
        until_input_ends: flag_in(found, "until-input-ends"),
        is_new: flag_in(found, "new"),
        is_restored: flag_in(found, "restore"),
        serves_anyone: flag_in(found, "anyone"),
    })
}
