//! The words after `connect`: its options, and what they ask for.
ghost use Rattle.std.specs.Prelude.{◌≡◌, ◌≤◌, ◌<◌, IfOk, IfSome, codes, false};
ghost use Rattle.clap.specs.declared.builder.command.Command.TheViews.{out-Command as fields_of};
ghost use Rattle.clap.specs.Words.{app_of, found_of, rows_of};
ghost use Rattle.bayou_command.specs.Connect.{connect_app, connection_of, connection_seen, kept_rules, store_rules};
ghost use Rattle.bayou_command.specs.Options.{number_given, with_rules};
ghost use Rattle.bayou_base.specs.declared.limits.TheConstants.{SERVERS};

use crate::connecting::Connecting;
use crate::options::{
    file_option, flag, flag_in, number_if_given, number_in, number_option, text_if_given, texts_in,
    value_option,
};
use crate::source_in;
use bayou_base::limits::{DEFAULT_TIMEOUT_SECONDS, MAX_SECONDS, SERVERS};
use clap::{Arg, ArgAction, ArgMatches, Command};
use std::alloc::{AllocError, Global};

const CONNECT_ABOUT: &str =
    "Reads lines as they come, asks the servers of a store what they say, and prints the answers.";

const SERVER: &str =
    "A server, and where it listens, as 0=127.0.0.1:7000; once for each, the one to ask first in front";

const COUNT: &str =
    "How many servers the store has (1 to 16; without it one more than the highest that is named)";

const SESSION: &str =
    "What the session asks for: any of ryw,mr,wfr,mw, or all, or none (without it what --state keeps, or none)";

const KEY: &str = "The file of the store's key, where the store has one";

const STATE: &str = "The file that keeps the session from one call to the next";

const BOOK: &str = "The file that what was served is written to, as an audit file";

const LOG: &str =
    "The file to which each line that is printed is added, after its time (milliseconds since 1970)";

const WAIT: &str =
    "For so many seconds servers that are away or behind are tried again (0 to 86400; without it 0)";

const TIMEOUT: &str =
    "So many seconds a server has for the connection and its whole reply (1 to 86400; without it 3)";

const JSON: &str = "Print a JSON object for each row of list, servers and mine, for programs";

const LINES: &str = "The lines; without it, and where it is -, the standard input";

const CONNECT_FORM: &str =
    r#"Each line is done as it comes, at a terminal and from a pipe, and its answer is printed before the next line is read. One session asks, the
session 0: what it wrote and read, it takes from one server to the next, so that a server that is behind refuses rather than forgets.

A calendar, at two servers (bayou serve --help starts them). The lines that are typed stand after >, what is printed without it:

      bayou connect --server 0=127.0.0.1:7000 --server 1=127.0.0.1:7001 --session ryw,mr --state kim.session
      > claim mon/09 mon/10 mon/11 kim
      0 wrote 0:1 clock 1 deps 0,0
      0 became 0:1 update
      0 read mon/09 text "kim" at 1,0
      > get mon/09
      0 read mon/09 text "kim" at 1,0
      0 tentative mon/09
      > wait
      0 final 0:1 update

Lines. K is a key, of 1 to 32 bytes of a-z 0-9 . _ - /; N an integer of 64 bits; V such an integer, or a text of up to 32 bytes. A text with
spaces, or one that looks like a number, as "red room" and "007", stands in double quotes as JSON has it, to the end of the line.

  put K V               sets K to V
  add K N               adds N to the number of K; where K has no value it becomes N
  del K                 K has no value from then on
  claim K1 [K2..] V     sets the first of these keys that has no value to V, and no other; up to four after K1. Before it each
                        key is read: where one has V already, nothing is written. Behind it each is read, up to the first that has V
  get K1 [K2..]         reads these keys; up to four after K1
  again                 asks the last Write once more, where its reply was lost or it was refused
  at I                  server I is the first to be asked from here on
  list [P]              each key that has a value, or each that begins with P, and that value, in order, at the first server that
                        holds what the session needs
  became I:N            what became of Write N of server I: its update, an alternative, or nothing was applied
  mine                  how your own Writes stand that weren't final: tentative, changed or final
  wait [SECONDS]        waits until they are final, which no earlier Write can change any more; name all servers for that
  servers               each server, and what it holds, or that it is away
  session               what the session asks for, and what it read and wrote
  dump                  puts what each server holds into the book (--book), once, at the end
  help                  the lines that there are
  quit                  ends, as the end of the input does

A line that begins with [ is a line of a script (bayou run --help), and is done at just the server that it names:

  ["session",I,ASKS]    opens session I, which asks for these guarantees
  ["write",I,S,PROGRAM]  ["read",I,S,KEY]  ["again",I]
  ["reopen",S]          server S, which a fault of its device took down, opens its journal again

A short line goes to the first server. Where that is away or refuses, and nothing was done, it goes to the next in the order of the
words; with --wait the round begins anew until a server serves it, or the time is over. A server has --timeout seconds for its connection and its
whole reply; one that was silent for so long is asked after all others for a minute. A read whose reply was lost goes on, too. A Write
whose reply was lost goes to no other server, since it may have been done: `I lost` says so, and `again` asks it again, which makes no
second one of it.

Answers are those of bayou net. `I wrote ..` says that the Write is held, not that it did what it was meant to: another Write may still come
before it, until it is final. New are
  I became J:N WORD     what became of that Write so far: update, merge M (from 1 on), none, or unknown
  I tentative ..        the Write, or the value of the key, may change yet; changed: it did; final: no more (with --state, at several servers)
  I refused away        no server could be reached: nothing was sent
  I did nothing         each key of the claim has another value, or the key of the add has a text
  server I at V         server I holds so many Writes of each server; `server I away` where it can't be reached

--state keeps the session in FILE, before an answer is printed, so that the next call goes on as the same session, at any server: it sees what
this one saw, and a Write that was under way is asked again by `again`. Each person has a file of his own, and one call at a time uses it.
What the session asks for is kept, too: a later --session that says anything else is refused.
--key names the file of the store's key (bayou key --help). A server that doesn't prove that it has that key is reported, and is sent nothing. A state
that was made with a key is used with no other, and not without.
--book writes what was served to FILE, as an audit file; with the dumps of all servers bayou audit tells whether the session had what it
asked for. --log adds each line that is printed to FILE, after its time, so that one can see later what was said, and when.
With --json the lines list, servers and mine print an object for each row (docs/FORMATS.md, "What is printed as JSON").

At a terminal a prompt on standard error names the server that is asked first; rlwrap in front of the call brings line editing with history.

A fault is one line on standard error; of a line of the input as `bayou: line N: FAULT`. At a terminal the lines go on after it,
else they end there. Exit status: 0 each operation was served; 1 some weren't, or did nothing; 2 the command line or a line is refused; 3 the input, the
output, memory or the state (its file can't be had, is in use, or has something else) failed.

Pages: docs/CONNECT.md (a calendar's day, and what a session keeps), docs/SERVE.md (servers that live), docs/GUARANTEES.md (what a session may
ask for), docs/FINAL.md (what is final), docs/FORMATS.md (lines in and out), docs/TROUBLE.md (what to do about each fault)."#;

/// The command with the options that say which store it is, and what the session asks for.
pub(crate) fn with_store<'a>(alloc: Global, command: Command<'a>) -> Result<Command<'a>, AllocError>
    ensures app { IfOk result (λ made. app_of made ≡ with_rules (app_of command.entry) store_rules) }
    ensures local { IfOk result (λ made. (fields_of made).has_globals ≡ (fields_of command.entry).has_globals) }
{
    let server = value_option(alloc, "server", "I=ADDRESS:PORT", SERVER);
    let count = number_option(alloc, "servers", "N", COUNT, 1, SERVERS as u32);
    command
        .arg(server.action(ArgAction::Append).required(true))?
        .arg(count)?
        .arg(value_option(alloc, "session", "ASKS", SESSION))?
        .arg(file_option(alloc, "key", KEY))
}

// The command with the options that say what is kept and how long it waits, and with the file of its lines.
fn with_kept<'a>(alloc: Global, command: Command<'a>) -> Result<Command<'a>, AllocError>
    ensures app { IfOk result (λ made. app_of made ≡ with_rules (app_of command.entry) kept_rules) }
    ensures local { IfOk result (λ made. (fields_of made).has_globals ≡ (fields_of command.entry).has_globals) }
{
    command
        .arg(file_option(alloc, "state", STATE))?
        .arg(file_option(alloc, "book", BOOK))?
        .arg(file_option(alloc, "log", LOG))?
        .arg(number_option(alloc, "wait", "SECONDS", WAIT, 0, MAX_SECONDS))?
        .arg(number_option(alloc, "timeout", "SECONDS", TIMEOUT, 1, MAX_SECONDS))?
        .arg(flag(alloc, "json", JSON))?
        .arg(Arg::new(alloc, "FILE").help(LINES))
}

pub(crate) fn connect_command<'a>(alloc: Global) -> Result<Command<'a>, AllocError>
    ensures app { IfOk result (λ command. app_of command ≡ connect_app) }
    ensures local { IfOk result (λ command. (fields_of command).has_globals ≡ false) }
{
    let command = Command::new(alloc, "connect")
        .about(CONNECT_ABOUT)
        .after_help(CONNECT_FORM);
    let command = with_store(alloc, command)?;
    with_kept(alloc, command)
}

/// How many servers the store has, where that is said.
pub(crate) fn count_in(found: &ArgMatches) -> Option<u8>
    ensures value { result ≡ number_given (codes "servers") 1 SERVERS (rows_of (found_of found.now)) }
    ensures within { IfSome result (λ number. (0 < number) × (number ≤ SERVERS)) }
{
    let number = number_if_given(found, "servers", 1, SERVERS as u32)?;
    Some(number as u8)
}

/// What the options ask for.
pub(crate) fn connecting_in<'a>(
    alloc: Global,
    found: &ArgMatches<'a>,
) -> Result<Connecting<'a>, AllocError>
    ensures { IfOk result (λ connecting. connection_seen connecting ≡ connection_of (rows_of (found_of found.now))) }
{
    Ok(Connecting {
        servers: texts_in(alloc, found, "server")?,
        count: count_in(found),
        asks: text_if_given(found, "session"),
        key: text_if_given(found, "key"),
        state: text_if_given(found, "state"),
        book: text_if_given(found, "book"),
        log: text_if_given(found, "log"),
        wait_seconds: number_in(found, "wait", 0, MAX_SECONDS, 0),
        timeout_seconds: number_in(found, "timeout", 1, MAX_SECONDS, DEFAULT_TIMEOUT_SECONDS),
        is_json: flag_in(found, "json"),
        input: source_in(found),
    })
}
