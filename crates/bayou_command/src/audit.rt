//! The words after `audit`: its options, and what they ask for.
ghost use Rattle.std.specs.Prelude.{◌≡◌, IfOk, false};
ghost use Rattle.clap.specs.declared.builder.command.Command.TheViews.{out-Command as fields_of};
ghost use Rattle.clap.specs.Words.{app_of, found_of, rows_of};
ghost use Rattle.bayou_command.specs.Audit.{audit_app, audit_rules, auditing_of, auditing_seen, is_plain};
ghost use Rattle.bayou_command.specs.Options.{with_rules};
ghost use Rattle.bayou_command.specs.Words.{audit_of, task_seen};

use crate::auditing::Auditing;
use crate::options::{flag, flag_in, named_option, text_if_given};
use crate::{Task, source_in};
use clap::{Arg, ArgMatches, Command};
use std::alloc::{AllocError, Global};

const AUDIT_ABOUT: &str =
    "Reads entries and dumps, and says whether each session had what it asked for.";

const AUDIT_FILE: &str = "The audit file; where it is -, the standard input";

const EXPLAIN: &str = "Show each breach, or why the verdict is refused, by the lines of the file";

const ALL: &str =
    "Show every breach so, and count them, not the least of each guarantee in each session alone";

const JSON: &str = "Print a JSON object a line instead, for programs";

const PICTURE: &str = "Draw sessions, servers and breaches into this file, as SVG";

const AUDIT_FORM: &str =
    r#"Each line is a JSON array, and an empty line is skipped. The first says how many servers there are; the others follow in any
order. I is a session (0 to 31), S a server. Below each form stands an example.

  ["servers",N]  ["servers",N,LIMIT]  there are servers 0 to N-1 (N 1 to 16); the limit says nothing here
      ["servers",2]
  ["entry",I,PLACE,ASKS,S,"write",SEQ,CLOCK,VECTOR]  server S accepted a Write of session I, which got the name S:SEQ and this
                         clock; before it the server held what VECTOR counts
      ["entry",0,1,["ryw"],0,"write",1,1,[0,0]]
  ["entry",I,PLACE,ASKS,S,"read",KEY,VECTOR]  session I read a key at server S, from the database that VECTOR counts
      ["entry",0,2,["ryw"],1,"read","room",[0,0]]
  ["entry",I,PLACE,ASKS,S,"refused"]  server S refused session I
      ["entry",0,3,["ryw"],1,"refused"]
  ["held",S,[ORIGIN,SEQ,CLOCK,VECTOR,PROGRAM]]  server S holds the Write ORIGIN:SEQ with this clock, before which its origin held
                         what VECTOR counts; the lines of a server stand in the order in which it received the Writes
      ["held",0,[0,1,1,[0,0],{"update":[["put","room",1]]}]]

PLACE  the number of the operation among those that the session tried (1 to 4294967295), which rises in the file
ASKS   what the session asks for, any of "ryw", "mr", "wfr", "mw"; the same in each of its entries
VECTOR N counts (0 to 65536): for each server, how many of its Writes are held
SEQ and CLOCK are 1 to 65536; a KEY and a PROGRAM are as in a script (bayou run --help). At most 65536 entries; any number held.

The verdict is printed first:
  clean                  each session had what it asked for
  broken G session I places A B server S wid O:Q  it hadn't: the operations at places A and B of session I break G, since server S
                         hadn't the Write O:Q, or had it too late
  judge refused dump S A no server can hold this: the Write at place A (from 0 on) of what server S holds doesn't fit
  judge refused forged E no such server can have answered this: the entry of number E, from 0 on
Then, unless it is refused, a line for each session that has an entry: `survey I ryw X mr X wfr X mw X`, X being `ok`, or
`broken A B S O:Q`, asked for or not.

With --explain each breach is shown by the lines of the file: both operations, the Write that is missing, and one sentence; and of a
refused verdict which condition isn't met. Then a line says what each server holds, and the last one what was audited. A survey has
the least breach of a guarantee in a session; with --all every operation that breaks one is shown, and a line counts them.

With --picture a picture is drawn, whole or not at all, over a file of that name: each session and each server as a line, and each
breach of the survey with its two operations and the missing Write. Of more than 60 operations, or Writes of a server, it has only
what a breach touches. Look at it in a browser.

      bayou audit --explain --picture booking.svg booking.jsonl

With --json each line is an object: the verdict, each session of the survey, and with --explain each breach and the rest
(docs/FORMATS.md, "What is printed as JSON").

Nothing is printed before the whole file was read and found good. A fault is one line on standard error.
Exit status: 0 clean; 1 broken; 2 the verdict, the file or the command line is refused; 3 memory, the input or the output failed.

Pages: docs/AUDIT.md (how to write such a file, and what a verdict means), docs/GUARANTEES.md (what a session may ask for),
docs/FORMATS.md (lines in and out), docs/TROUBLE.md (what to do about each fault), examples/README.md (audit files)."#;

// The command with the options that say what more is printed, and the file.
fn with_told<'a>(alloc: Global, command: Command<'a>) -> Result<Command<'a>, AllocError>
    ensures app { IfOk result (λ made. app_of made ≡ with_rules (app_of command.entry) audit_rules) }
    ensures local { IfOk result (λ made. (fields_of made).has_globals ≡ (fields_of command.entry).has_globals) }
{
    command
        .arg(flag(alloc, "explain", EXPLAIN))?
        .arg(flag(alloc, "all", ALL))?
        .arg(flag(alloc, "json", JSON))?
        .arg(named_option(alloc, "picture", "OUT", PICTURE))?
        .arg(Arg::new(alloc, "FILE").help(AUDIT_FILE).required(true))
}

pub(crate) fn audit_command<'a>(alloc: Global) -> Result<Command<'a>, AllocError>
    ensures app { IfOk result (λ command. app_of command ≡ audit_app) }
    ensures local { IfOk result (λ command. (fields_of command).has_globals ≡ false) }
{
    let command = Command::new(alloc, "audit")
        .about(AUDIT_ABOUT)
        .after_help(AUDIT_FORM);
    with_told(alloc, command)
}

// What the options say.
fn options_in<'a>(found: &ArgMatches<'a>) -> Auditing<'a>
    ensures { auditing_seen result ≡ auditing_of (rows_of (found_of found.now)) }
{
    Auditing {
        file: source_in(found),
        is_explained: flag_in(found, "explain") || flag_in(found, "all"),
        is_all: flag_in(found, "all"),
        is_json: flag_in(found, "json"),
        picture: text_if_given(found, "picture"),
    }
}

// Whether nothing is asked for but the audit.
fn asks_for_no_more(auditing: &Auditing<'_>) -> bool
    ensures { result ≡ is_plain (auditing_seen auditing.now) }
{
    !auditing.is_explained && !auditing.is_json && auditing.picture.is_none()
}

/// What the options ask for.
pub(crate) fn auditing_in<'a>(found: &ArgMatches<'a>) -> Task<'a>
    ensures { task_seen result ≡ audit_of (rows_of (found_of found.now)) }
{
    let auditing = options_in(found);
    if asks_for_no_more(&auditing) {
        Task::Audit(auditing.file)
    } else {
        Task::Explain(auditing)
    }
}
