//! The words after `run`: its options, and what they ask for.
ghost use Rattle.std.specs.Prelude.{◌≡◌, IfOk, false};
ghost use Rattle.clap.specs.declared.builder.command.Command.TheViews.{out-Command as fields_of};
ghost use Rattle.clap.specs.Words.{app_of, found_of, rows_of};
ghost use Rattle.bayou_command.specs.Words.{run_app, run_of, task_seen};

use crate::options::{flag, flag_in};
use crate::{Task, source_in};
use clap::{Arg, ArgMatches, Command};
use std::alloc::{AllocError, Global};

const RUN_ABOUT: &str = "Reads a script, checks it, and prints a line for each answer.";

pub(crate) const RUN_FILE: &str = "The script; without it, and where it is -, the standard input";

const JSON: &str = "Print a JSON object for each answer instead, for programs";

const RUN_FORM: &str =
    r#"Each line is a JSON array, and an empty line is skipped. The first starts the servers; the others follow in any order. I is a
session (0 to 31), S a server. Below each form stands an example.

  ["servers",N]  ["servers",N,LIMIT]  starts servers 0 to N-1 (N 1 to 16); each holds LIMIT Writes at the most (4096)
      ["servers",2,100]
  ["session",I,ASKS]     opens session I, which asks for these guarantees: any of "ryw", "mr", "wfr", "mw"
      ["session",0,["ryw","mr"]]
  ["write",I,S,PROGRAM]  session I writes at server S
      ["write",0,0,{"update":[["put","room",1]]}]
  ["read",I,S,KEY]       session I reads a key at server S
      ["read",0,1,"room"]
  ["drop",I]             drops the reply to the operation that session I tries next: `I lost` is printed, whatever the server did
      ["drop",0]
      ["write",0,0,{"update":[["put","desk",2]]}]
  ["again",I]            session I asks its last Write again, at the same server, which makes no second one of it; nothing is asked where
                         the session heard that it was accepted, or tried a read since
      ["again",0]
  ["log",S]              lists the Writes that server S holds, in stamp order, each with what became of it
      ["log",0]
  ["fuse",S,CALL,KEPT]   the device of server S fails, once, at this call from now (1 to 1000); of an append's bytes the
                         first KEPT are added (0 to 8192)
      ["fuse",0,2,0]
  ["lose",S,COUNT]       the device of server S loses its last bytes (0 to 1000000000)
      ["lose",0,1]
  ["reopen",S]           server S, which a fault of its device took down, opens its journal again
      ["reopen",0]
  ["restart",S]          server S is stopped, and started on what its device has
      ["restart",0]
  ["pull",TO,FROM]  ["pull",TO,FROM,ITEMS]  server TO takes what it lacks of the Writes that server FROM holds; with ITEMS the
                         stream is cut after so many of them (0 to 65536)
      ["pull",1,0]
  ["resend",TO,FROM]     server TO is sent all the Writes that server FROM holds
      ["resend",1,0]
  ["totals"]             how many reads, Writes and refusals were filed in the book of what was served
      ["totals"]
  ["judge"]              whether each session had what it asked for so far, judged from that book and what the servers hold now
      ["judge"]
  ["survey"]             what became of each guarantee in each session so far, asked for or not
      ["survey"]
  ["book"]               prints the audit file of the run so far: that book, and what the servers hold (bayou audit --help)
      ["book"]
  ["phase"]              ends a phase; nothing happens here, and nothing is printed
      ["phase"]

PROGRAM is {"check":[COND,..],"update":[OP,..],"merge":[{"when":[COND,..],"ops":[OP,..]},..]}; a list may be missing.
Where every COND of check holds, update is applied, whole or not at all; else the first part of merge that fits.
COND  ["equals",KEY,VALUE]  ["absent",KEY]  ["atleast",KEY,NUMBER]  ["atmost",PREFIX,COUNT]
OP    ["put",KEY,TERM]  ["del",KEY]
TERM  VALUE  ["copy",KEY]  ["plus",KEY,NUMBER]
A KEY has 1 to 32 bytes of a-z 0-9 . _ - /, a PREFIX of keys 0 to 32; a VALUE is an integer, or a text of up to 32 bytes. An atmost
holds where at most COUNT (0 to 4294967295) keys that have a value begin with the PREFIX.

With --json each answer is an object, a line each (docs/FORMATS.md, "What is printed as JSON"); a fault stays as it is.

Nothing is printed before the whole script was read and found good. A fault is one line on standard error.
Exit status: 0 the script was run; 1 a verdict (judge) was broken; 2 the script or the command line is refused, or a verdict or a
survey was; 3 memory, a device as the script begins, the input or the output failed.

Pages: docs/LANGUAGE.md (programs), docs/GUARANTEES.md (what a session may ask for; pull, resend), docs/FORMATS.md (lines in and out),
docs/AUDIT.md (totals, judge, survey, book), docs/TROUBLE.md (fuse, reopen, restart, again, and what to do about each fault),
examples/README.md (scripts)."#;

pub(crate) fn run_command<'a>(alloc: Global) -> Result<Command<'a>, AllocError>
    ensures app { IfOk result (λ command. app_of command ≡ run_app) }
    ensures local { IfOk result (λ command. (fields_of command).has_globals ≡ false) }
{
    let file = Arg::new(alloc, "FILE").help(RUN_FILE);
    Command::new(alloc, "run")
        .about(RUN_ABOUT)
        .after_help(RUN_FORM)
        .arg(flag(alloc, "json", JSON))?
        .arg(file)
}

/// What the options ask for.
pub(crate) fn running_in<'a>(found: &ArgMatches<'a>) -> Task<'a>
    ensures { task_seen result ≡ run_of (rows_of (found_of found.now)) }
{
    let script = source_in(found);
    if flag_in(found, "json") {
        Task::RunAsJson(script)
    } else {
        Task::Run(script)
    }
}
